//! The ends of symbols, blanks and line comments, found many bytes at a time.
//!
//! The classes of bytes are those of upstream's lexer. Most runs are a few bytes long, and their
//! lengths are hard to predict. So lanes look at the first bytes too: they find the end of a short
//! run without a branch that depends on its length.

ghost use Rattle.std.specs.Prelude.{◌≡◌, ◌+◌, ◌≤◌, ℕ, Bool, not, map, drop, length};
ghost use Rattle.std.specs.List.{prefix_len};
ghost use Rattle.std.specs.Simd.Lanes.{mask_l};
ghost use Rattle.isle_base.specs.Spellings.{in_symbol};
ghost use Rattle.isle_base.specs.Skips.{in_line, is_blank};

use std::simd::prelude::*;

/// The form feed, which is allowed only in comments.
pub(crate) const FORM_FEED: u8 = 0x0c;

/// The number of bytes compared at once.
const LANES: usize = 32;

/// A class of bytes.
trait Class {
    ghost holds: { ℕ → Bool };

    /// Returns whether a byte belongs to the class. Letters need one comparison, and it comes
    /// first.
    fn has(byte: u8) -> bool
        ensures { result ≡ holds byte };

    /// A bit for each of 32 bytes, the lowest for the first: set if the byte is not in the class.
    fn misses(bytes: u8x32) -> u64
        ensures { result ≡ mask_l (map (λ byte. not (holds byte)) bytes) };
}

/// The bytes that a symbol may contain after its first.
struct InSymbol;

impl Class for InSymbol {
    ghost holds = { in_symbol };

    #[inline(always)]
    #[tactic(auto, unfolding(crate::specs::Spellings::in_symbol, crate::specs::Skips::is_blank))]
    fn has(byte: u8) -> bool {
        byte > b'@'
            || !matches!(
                byte,
                b'(' | b')' | b';' | b'@' | b' ' | b'\t' | b'\n' | FORM_FEED | b'\r'
            )
    }

    #[inline(always)]
    fn misses(bytes: u8x32) -> u64 {
        let stops = bytes.simd_eq(u8x32::splat(b'('))
            | bytes.simd_eq(u8x32::splat(b')'))
            | bytes.simd_eq(u8x32::splat(b';'))
            | bytes.simd_eq(u8x32::splat(b'@'))
            | bytes.simd_eq(u8x32::splat(b' '))
            | bytes.simd_eq(u8x32::splat(b'\t'))
            | bytes.simd_eq(u8x32::splat(b'\n'))
            | bytes.simd_eq(u8x32::splat(FORM_FEED))
            | bytes.simd_eq(u8x32::splat(b'\r'));
        stops.to_bitmask()
    }
}

/// Space, tab, LF and CR.
struct Blank;

impl Class for Blank {
    ghost holds = { is_blank };

    #[inline(always)]
    #[tactic(auto, unfolding(crate::specs::Skips::is_blank))]
    fn has(byte: u8) -> bool {
        byte <= b' ' && matches!(byte, b' ' | b'\t' | b'\n' | b'\r')
    }

    #[inline(always)]
    fn misses(bytes: u8x32) -> u64 {
        let stops = bytes.simd_ne(u8x32::splat(b' '))
            & bytes.simd_ne(u8x32::splat(b'\t'))
            & bytes.simd_ne(u8x32::splat(b'\n'))
            & bytes.simd_ne(u8x32::splat(b'\r'));
        stops.to_bitmask()
    }
}

/// Every byte but LF and CR.
struct InLine;

impl Class for InLine {
    ghost holds = { in_line };

    #[inline(always)]
    #[tactic(auto, unfolding(crate::specs::Skips::in_line))]
    fn has(byte: u8) -> bool {
        byte > b'\r' || !matches!(byte, b'\n' | b'\r')
    }

    #[inline(always)]
    fn misses(bytes: u8x32) -> u64 {
        let stops = bytes.simd_eq(u8x32::splat(b'\n')) | bytes.simd_eq(u8x32::splat(b'\r'));
        stops.to_bitmask()
    }
}

/// The end of a run, found byte by byte.
#[inline(always)]
fn rest_end<C: Class>(bytes: &[u8], from: usize) -> usize
    requires { from ≤ length bytes.now }
    ensures { result ≡ from + prefix_len C.holds (drop from bytes.now) }
{
    let mut at = from;
    while at < bytes.len() && C::has(bytes[at]) {
        at += 1;
    }
    at
}

/// The end of a run, found 32 bytes at a time, and byte by byte at the end of the text.
#[inline(never)]
fn run_end<C: Class>(bytes: &[u8], from: usize) -> usize
    requires { from ≤ length bytes.now }
    ensures { result ≡ from + prefix_len C.holds (drop from bytes.now) }
{
    let mut at = from;
    while bytes.len() - at >= LANES {
        let misses = C::misses(u8x32::from_slice(&bytes[at..]));
        if misses != 0 {
            return at + misses.trailing_zeros() as usize;
        }
        at += LANES;
    }
    rest_end::<C>(bytes, at)
}

/// The end of a symbol: the offset of the first byte at or after `from` that cannot be in a symbol,
/// or `bytes.len()` if there is none.
///
/// Such bytes are `(`, `)`, `;`, `@`, space, tab, LF, form feed and CR. All others continue the
/// symbol, including NUL, VT and every byte from 128 on. The byte at `from` is tested like the
/// others, and need not be able to begin a symbol.
///
/// Offsets are in bytes, and `from` must be at most `bytes.len()`. `bytes` need not be UTF-8, and
/// nothing is allocated.
#[inline(always)]
pub fn symbol_end(bytes: &[u8], from: usize) -> usize
    requires { from ≤ length bytes.now }
    ensures end { result ≡ from + prefix_len in_symbol (drop from bytes.now) }
    ensures within { result ≤ length bytes.now }
{
    run_end::<InSymbol>(bytes, from)
}

/// The end of blanks: the offset of the first byte at or after `from` that is no space, tab, LF or
/// CR, or `bytes.len()` if there is none.
///
/// Form feed and VT are not blanks, and neither is the `;` of a comment. If the byte at `from` is
/// not a blank, the result is `from`.
///
/// Offsets are in bytes, and `from` must be at most `bytes.len()`. `bytes` need not be UTF-8, and
/// nothing is allocated.
pub fn blank_end(bytes: &[u8], from: usize) -> usize
    requires { from ≤ length bytes.now }
    ensures { result ≡ from + prefix_len is_blank (drop from bytes.now) }
{
    run_end::<Blank>(bytes, from)
}

/// The end of a line comment: the offset of the first LF or CR at or after `from`, or `bytes.len()`
/// if there is none.
///
/// Nothing else ends a line comment, neither a form feed nor `;)`. The byte at `from` is tested
/// like the others, so `from` may be the offset of the comment's `;` or any later one. The LF or CR
/// is not part of the comment.
///
/// Offsets are in bytes, and `from` must be at most `bytes.len()`. `bytes` need not be UTF-8, and
/// nothing is allocated.
pub fn line_comment_end(bytes: &[u8], from: usize) -> usize
    requires { from ≤ length bytes.now }
    ensures { result ≡ from + prefix_len in_line (drop from bytes.now) }
{
    run_end::<InLine>(bytes, from)
}
