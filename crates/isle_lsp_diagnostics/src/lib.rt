//! What checking tells of documents: the diagnostics of one, which are what the parser, the check
//! of its programs and the lints find in it, and the notification that tells them; and the types of
//! its variables, behind their first mentions and in hovers.
#![tactic(auto)]

mod checked;
mod checks;
mod diagnostics;
mod hints;
mod hovers;
mod kept;
mod mentions;
mod published;
mod rules;
mod texts;

pub use checks::Checks;
pub use hints::inlay_hints;
pub use hovers::{hover_with_type, type_at};
pub use published::publish_diagnostics;
