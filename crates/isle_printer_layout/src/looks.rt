//! A counter of looks at S-expressions, for contracts only.

ghost use Rattle.std.specs.Prelude.{◌≡◌, ◌+◌, ℕ};
ghost use Rattle.std.specs.Borrow.{ftrue};

use std::marker::{Model, PhantomData};

/// The number of examined nodes of S-expressions.
///
/// The count is a natural number that only contracts can read. It takes no memory, running code
/// can't read it, and it never overflows.
#[derive(Drop)]
pub struct Looks {
    marker: PhantomData<u8>,
    pub ghost count: { ℕ },
}

impl Model for Looks {
    ghost also_owns = { λ _. ftrue };
}

impl Looks {
    /// A counter at zero.
    pub fn new() -> Looks
        ensures { result.count ≡ 0 }
    {
        Looks {
            marker: PhantomData,
        }
    }

    /// Counts one look. It has no code to run.
    pub(super) fn look(&mut self)
        ensures { self.new.count ≡ self.old.count + 1 }
    {}
}
