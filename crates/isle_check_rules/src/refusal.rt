//! Why there is no answer.

ghost use Rattle.std.specs.Prelude.{◌≡◌};
ghost use Rattle.isle_check_rules.specs.declared.refusal.RuleRefusal.TheVariants.{Memory};

use isle_base::lexer::Pos;
use std::alloc::{AllocError, AllocFailed};

/// Why there is no answer for a program's rules.
#[derive(Clone, Copy)]
pub enum RuleRefusal {
    /// The depth is used up in the rule at this position: templates and conversions lie deeper in
    /// one another.
    TooDeep(Pos),
    /// Out of memory.
    Memory,
}

impl From<AllocError> for RuleRefusal {
    ghost from_gives = { λ _ refusal. refusal ≡ Memory };

    fn from(_error: AllocError) -> RuleRefusal {
        RuleRefusal::Memory
    }
}

impl<T: Drop> From<AllocFailed<T>> for RuleRefusal {
    ghost from_gives = { λ _ refusal. refusal ≡ Memory };

    fn from(_error: AllocFailed<T>) -> RuleRefusal {
        RuleRefusal::Memory
    }
}
