//! What is kept from one message to the next.

ghost use Rattle.std.specs.Prelude.{◌≡◌, IfSome, true};

use std::alloc::{AllocError, Global};
use std::mem;

/// A value that may be about what is wanted.
pub trait About<W> {
    ghost is_about: { Self → W → Type 0 };

    /// Returns whether the value is about what is wanted.
    fn is_about(&self, wanted: W) -> bool
        ensures { result ≡ true → is_about self.now wanted };
}

/// Values that are kept while each message needs them. A value is taken out, and put back.
#[derive(Drop)]
pub struct Kept<T> {
    /// Those that are needed for the message that is handled.
    current: Vec<T>,
    /// Those that were needed for the message before.
    last: Vec<T>,
}

impl<T: Drop> Kept<T> {
    /// Nothing is kept.
    pub fn new(alloc: Global) -> Kept<T> {
        Kept {
            current: Vec::new(alloc),
            last: Vec::new(alloc),
        }
    }

    /// Begins to handle another message: those values are kept that it needs too.
    pub fn renew(&mut self, alloc: Global) {
        self.last = mem::replace(&mut self.current, Vec::new(alloc));
    }

    /// Takes out a value about what is wanted, if one is kept.
    pub fn take<W: Copy>(&mut self, wanted: W) -> Option<T>
    where
        T: About<W>,
        ensures { IfSome result (λ value. T.is_about value wanted) }
    {
        match take_from(&mut self.current, wanted) {
            Some(value) => Some(value),
            None => take_from(&mut self.last, wanted),
        }
    }

    /// Puts in a value that is needed for the message that is handled.
    pub fn put(&mut self, value: T) -> Result<(), AllocError> {
        self.current.push(value)?;
        Ok(())
    }
}

/// Takes a value about what is wanted out of a list, if one is there.
fn take_from<W: Copy, T: About<W>>(list: &mut Vec<T>, wanted: W) -> Option<T>
    ensures { IfSome result (λ value. T.is_about value wanted) }
{
    for at in 0..list.len() {
        if list[at].is_about(wanted) {
            return Some(list.remove(at));
        }
    }
    None
}
