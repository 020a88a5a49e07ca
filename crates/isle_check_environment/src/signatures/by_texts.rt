//! Values by two texts.

ghost use Rattle.std.specs.Prelude.{◌≡◌, ◌&&◌, ℕ, List, OnOk, Some, bytes_eq, if◌then◌else◌};
ghost use Rattle.std.specs.Prelude.{option_map, string_bytes};
ghost use Rattle.isle_check_environment.specs.signatures.ByTexts.{get_by_texts};

use crate::by_text::ByText;
use std::alloc::{AllocError, Global};

/// Values by a first and a second text.
pub type ByTexts<V> = ByText<ByText<V>>;

/// Returns the value at two texts, if there is one.
pub fn value_at<'m, V>(values: &'m ByTexts<V>, first: &str, second: &str) -> Option<&'m V>
    ensures { option_map (λ v. v.now) result ≡ get_by_texts values.now first.now second.now }
{
    values.get(first)?.get(second)
}

/// Puts a value at two texts, in place of the one there. An `Err` means out of memory.
pub fn put_value<V: Drop>(
    alloc: Global,
    values: &mut ByTexts<V>,
    first: String,
    second: String,
    value: V,
) -> Result<(), AllocError>
    ensures { OnOk result ((one two : List ℕ) → get_by_texts values.new one two
        ≡ (if bytes_eq (string_bytes first) one && bytes_eq (string_bytes second) two
        then Some value else get_by_texts values.old one two)) }
{
    let mut at_first = values.remove(first.as_str()).unwrap_or(ByText::new(alloc));
    at_first.insert(second, value)?;
    values.insert(first, at_first)?;
    Ok(())
}
