//! Laws of the exports, which run no code.

ghost use Rattle.std.specs.Prelude.{◌≡◌};

use crate::{ACCEPTED, BAD_LENGTHS, MEMORY, NOT_UTF8, REFUSED, TOO_SHORT, UNTIDY, WRITTEN};

/// A law, which runs no code: these are the numbers of the statuses.
pub fn numbers_are_these()
    ensures written { WRITTEN ≡ 0 }
    ensures too_short { TOO_SHORT ≡ 1 }
    ensures accepted { ACCEPTED ≡ 2 }
    ensures refused { REFUSED ≡ 3 }
    ensures not_utf8 { NOT_UTF8 ≡ 4 }
    ensures memory { MEMORY ≡ 5 }
    ensures untidy { UNTIDY ≡ 6 }
    ensures bad_lengths { BAD_LENGTHS ≡ 7 }
{}
