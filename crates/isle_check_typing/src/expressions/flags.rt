//! What an expression may use.

/// Which terms an expression may use.
#[derive(Clone, Copy)]
pub struct Flags {
    /// Whether it must be pure: it may use pure terms and variants alone.
    pub pure: bool,
    /// Whether it may use multi terms.
    pub multi: bool,
    /// Whether it may use partial terms.
    pub partial: bool,
}
