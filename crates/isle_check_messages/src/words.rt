//! The words of findings.

ghost use Rattle.std.specs.Prelude.{◌≡◌, ◌++◌, IfOk, string_bytes};
ghost use Rattle.isle_check_messages.specs.Words as Node;
ghost use Rattle.isle_check_messages.specs.Words.{words_of};

use std::alloc::{AllocError, Global};

/// The words of a finding.
#[derive(Drop)]
pub struct Words {
    /// The name of its kind, such as `duplicate-type`.
    pub name: &'static str,
    /// Its message, without a newline.
    pub message: String,
}

/// Returns words whose message is fixed.
pub fn plain(alloc: Global, name: &'static str, message: &str) -> Result<Words, AllocError>
    ensures { IfOk result (λ made. words_of made ≡ Node.words name.now message.now) }
{
    let message = String::from_str(alloc, message)?;
    Ok(Words { name, message })
}

/// Returns words whose message is `first` between two texts.
pub fn about(
    alloc: Global,
    name: &'static str,
    before: &str,
    first: &str,
    after: &str,
) -> Result<Words, AllocError>
    ensures { IfOk result (λ made. words_of made
        ≡ Node.words name.now (before.now ++ first.now ++ after.now)) }
{
    let mut message = String::from_str(alloc, before)?;
    message.push_str(first)?;
    message.push_str(after)?;
    Ok(Words { name, message })
}

/// Returns words whose message is `first` and `second`, each between two texts.
pub fn about_two(
    alloc: Global,
    name: &'static str,
    before: &str,
    first: &str,
    between: &str,
    second: &str,
    after: &str,
) -> Result<Words, AllocError>
    ensures { IfOk result (λ made. words_of made ≡ Node.words name.now
        (before.now ++ first.now ++ between.now ++ second.now ++ after.now)) }
{
    let mut message = String::from_str(alloc, before)?;
    message.push_str(first)?;
    message.push_str(between)?;
    message.push_str(second)?;
    message.push_str(after)?;
    Ok(Words { name, message })
}

/// Returns words whose message is `first`, `second` and `third`, each between two texts.
pub fn about_three(
    alloc: Global,
    name: &'static str,
    before: &str,
    first: &str,
    between: &str,
    second: &str,
    later: &str,
    third: &str,
    after: &str,
) -> Result<Words, AllocError>
    ensures { IfOk result (λ made. words_of made ≡ Node.words name.now
        (before.now ++ first.now ++ between.now ++ second.now ++ later.now ++ third.now
        ++ after.now)) }
{
    let front = about_two(alloc, name, before, first, between, second, later)?;
    let mut message = front.message;
    message.push_str(third)?;
    message.push_str(after)?;
    Ok(Words { name, message })
}

pub fn no_words(alloc: Global) -> Words
    ensures { words_of result ≡ Node.no_words }
{
    Words {
        name: "",
        message: String::new(alloc),
    }
}
