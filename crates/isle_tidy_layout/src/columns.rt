//! Columns, counted in characters.

ghost use Rattle.std.specs.Prelude.{◌≡◌, ◌==◌, ◌||◌, ◌+◌, ◌<◌, ◌≤◌, ◌^◌, drop, length, map, not};
ghost use Rattle.std.specs.Prelude.{true};
ghost use Rattle.std.specs.List.{prefix_len};
ghost use Rattle.std.specs.Simd.Lanes.{mask_l};
ghost use Rattle.isle_base.specs.Bytes.{space, tab};
ghost use Rattle.isle_tidy_layout.specs.Columns.{is_printable};
ghost use Rattle.isle_tidy_layout.specs.Placing.{column_after as column_after_bytes};
ghost use Rattle.isle_tidy_layout.specs.Placing.{result_column as result_of};

use std::simd::prelude::*;

/// How many bytes are examined at once.
const LANES: usize = 32;

/// A column of the source, and its column in the result.
#[derive(Clone, Copy)]
pub struct Columns {
    pub source: usize,
    pub result: usize,
}

/// Returns the column in the result of a column of the source, if `columns` has it.
pub(crate) fn result_column(column: usize, columns: &[Columns]) -> Option<usize>
    ensures { result ≡ result_of column columns.now }
{
    for one in columns {
        if one.source == column {
            return Some(one.result);
        }
    }
    None
}

/// Returns the column after bytes that begin at `column`. A byte that continues a character counts
/// nothing, and a line end goes back to column 0.
#[inline(never)]
pub(crate) fn column_after(column: usize, bytes: &[u8]) -> usize
    requires { column + length bytes.now < 2 ^ 64 }
    ensures { result ≡ column_after_bytes column bytes.now }
{
    let mut column = column;
    for byte in bytes {
        if *byte == b'\n' || *byte == b'\r' {
            column = 0;
        } else if !(128 <= *byte && *byte <= 191) {
            column += 1;
        }
    }
    column
}

pub fn is_space_or_tab(byte: u8) -> bool
    ensures { result ≡ (byte == space || byte == tab) }
{
    byte == b' ' || byte == b'\t'
}

/// Returns a bit for each byte, set if the byte is not printable ASCII. The lowest is the first's.
#[inline(always)]
fn misses(bytes: u8x32) -> u64
    ensures { result ≡ mask_l (map (λ byte. not (is_printable byte)) bytes) }
{
    let misses = bytes.simd_lt(u8x32::splat(b' ')) | bytes.simd_ge(u8x32::splat(127));
    misses.to_bitmask()
}

/// Returns whether a byte is printable ASCII, from the space to `~`.
#[inline(always)]
#[tactic(auto, unfolding(crate::specs::Columns::is_printable))]
fn is_printable_byte(byte: u8) -> bool
    ensures { result ≡ is_printable byte }
{
    b' ' <= byte && byte <= b'~'
}

/// Finds the first byte at or after `from` that is not printable ASCII, byte by byte.
fn printable_end(bytes: &[u8], from: usize) -> usize
    requires { from ≤ length bytes.now }
    ensures { result ≡ from + prefix_len is_printable (drop from bytes.now) }
{
    let mut at = from;
    while at < bytes.len() && is_printable_byte(bytes[at]) {
        at += 1;
    }
    at
}

/// Returns `true` only if all bytes between two offsets are printable ASCII, one column each.
#[inline(always)]
pub fn are_printable(bytes: &[u8], from: usize, to: usize) -> bool
    requires order { from ≤ to }
    requires within { to ≤ length bytes.now }
    ensures { result ≡ true → to ≤ from + prefix_len is_printable (drop from bytes.now) }
{
    let mut at = from;
    while at < to {
        if bytes.len() - at < LANES {
            return to <= printable_end(bytes, at);
        }
        let misses = misses(u8x32::from_slice(&bytes[at..]));
        if misses != 0 {
            return to <= at + misses.trailing_zeros() as usize;
        }
        at += LANES;
    }
    true
}
