//! The slices of the caller: texts as bytes, and room for the output.

ghost use Rattle.std.specs.Prelude.{◌≡◌, ◌≤◌, IfErr, IfOk, IsUtf8};
ghost use Rattle.isle_c.specs.Answers.{Wants, Writes};
ghost use Rattle.isle_c.specs.declared.calls.NoAnswer.TheVariants.{NotUtf8};

use crate::calls::NoAnswer;
use crate::{Answer, TOO_SHORT, WRITTEN};

/// The bytes as a text, if they are UTF-8.
pub fn text_of(bytes: &[u8]) -> Result<&str, NoAnswer>
    ensures ok { IfOk result (λ text. (text.now ≡ bytes.now) × IsUtf8 bytes.now) }
    ensures err { IfErr result (λ why. (why ≡ NotUtf8) × (¬ (IsUtf8 bytes.now))) }
{
    match str::from_utf8(bytes) {
        Ok(text) => Ok(text),
        Err(_) => Err(NoAnswer::NotUtf8),
    }
}

/// Writes the output to the front of the caller's slice, if it fits, and returns its length.
pub fn write(answer: &str, into: &mut [u8]) -> Answer
    ensures written { result.status ≡ WRITTEN
        → Writes into.old into.new result.len (λ bytes. bytes ≡ answer.now) }
    ensures too_short { result.status ≡ TOO_SHORT
        → Wants into.old result.len (λ bytes. bytes ≡ answer.now) × (into.new ≡ into.old) }
    ensures statuses { result.status ≤ TOO_SHORT }
{
    let len = answer.len();
    if len > into.len() {
        return Answer {
            status: TOO_SHORT,
            len,
        };
    }
    into[..len].copy_from_slice(answer.as_bytes());
    Answer {
        status: WRITTEN,
        len,
    }
}
