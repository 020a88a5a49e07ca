//! The outputs of the exports that tidy, before they are written to the caller's slice.

ghost use Rattle.std.specs.Prelude.{◌≡◌, IfErr, IfOk, IsUtf8, OnOk, string_bytes};
ghost use Rattle.isle_c.specs.NoAnswers.{IsTidyFailure, IsTidyRefusalFailure};
ghost use Rattle.isle_c.specs.Refusals.{IsUntidiableAt};
ghost use Rattle.isle_c.specs.Tidying.{IsWhetherTidy, RefusesToTidy};
ghost use Rattle.isle_tidy_core.specs.Refused.{HasDocument};
ghost use Rattle.isle_tidy_core.specs.Tidied.{IsTidyTextOf};

use crate::calls::{NoAnswer, Refusal, parts};
use crate::slices::text_of;
use isle_syntax::error::Error;
use isle_syntax::lexer::Fault;
use isle_tidy_core::tidy;
use std::alloc::Global;

pub fn tidied(alloc: Global, bytes: &[u8]) -> Result<String, NoAnswer>
    ensures ok { IfOk result (λ answer. IsTidyTextOf bytes.now (string_bytes answer)) }
    ensures utf8 { OnOk result (IsUtf8 bytes.now) }
    ensures err { IfErr result (IsTidyFailure bytes.now) }
{
    let text = text_of(bytes)?;
    let answer = tidy_text_of(alloc, text)?;
    Ok(answer)
}

/// Whether tidying leaves the bytes as they are.
pub fn is_tidy(alloc: Global, bytes: &[u8]) -> Result<bool, NoAnswer>
    ensures ok { IfOk result (IsWhetherTidy bytes.now) }
    ensures utf8 { OnOk result (IsUtf8 bytes.now) }
    ensures err { IfErr result (IsTidyFailure bytes.now) }
{
    let text = text_of(bytes)?;
    let is_tidy = whether_tidy(alloc, text)?;
    Ok(is_tidy)
}

/// Why and where the bytes can't be tidied.
pub fn tidy_refusal_of(alloc: Global, bytes: &[u8]) -> Result<Refusal, NoAnswer>
    ensures ok { IfOk result
        (λ refusal. IsUntidiableAt bytes.now refusal.place (string_bytes refusal.reason)) }
    ensures utf8 { OnOk result (IsUtf8 bytes.now) }
    ensures err { IfErr result (IsTidyRefusalFailure bytes.now) }
{
    let text = text_of(bytes)?;
    let error = tidy_error_of(alloc, text)?;
    let refusal = parts(alloc, text, error)?;
    Ok(refusal)
}

fn tidy_text_of(alloc: Global, text: &str) -> Result<String, NoAnswer>
    ensures ok { IfOk result (λ answer. IsTidyTextOf text.now (string_bytes answer)) }
    ensures err { IfErr result (IsTidyFailure text.now) }
{
    match tidy(alloc, text) {
        Ok(answer) => Ok(answer),
        Err(Fault::Error(_)) => Err(NoAnswer::Refused),
        Err(Fault::Failed) => unreachable!(),
        Err(Fault::Memory) => Err(NoAnswer::Memory),
    }
}

/// Whether tidying leaves a text as it is.
fn whether_tidy(alloc: Global, text: &str) -> Result<bool, NoAnswer>
    ensures ok { IfOk result (IsWhetherTidy text.now) }
    ensures err { IfErr result (IsTidyFailure text.now) }
{
    match isle_tidy_core::is_tidy(alloc, text) {
        Ok(is_tidy) => Ok(is_tidy),
        Err(Fault::Error(_)) => Err(NoAnswer::Refused),
        Err(Fault::Failed) => unreachable!(),
        Err(Fault::Memory) => Err(NoAnswer::Memory),
    }
}

/// The error of a text that can't be tidied.
fn tidy_error_of(alloc: Global, text: &str) -> Result<Error, NoAnswer>
    ensures ok { IfOk result (RefusesToTidy text.now) }
    ensures err { IfErr result (IsTidyRefusalFailure text.now) }
{
    match tidy(alloc, text) {
        Ok(_) => Err(NoAnswer::Accepted),
        Err(Fault::Error(error)) => Ok(error),
        Err(Fault::Failed) => unreachable!(),
        Err(Fault::Memory) => Err(NoAnswer::Memory),
    }
}
