//! The lints: their names, defaults and messages.

ghost use Rattle.std.specs.Prelude.{◌≡◌};
ghost use Rattle.std.specs.List.{find};
ghost use Rattle.std.specs.Str.{bytes_eq};
ghost use Rattle.isle_lint_core.specs.Lint.{all_lints, is_default, message, name};

/// A lint, which finds one kind of mistake.
#[derive(Clone, Copy, Debug, PartialEq, Eq, PartialOrd, Ord, Hash)]
pub enum Lint {
    /// A variable that a `let` binds and nothing uses.
    UnusedLet,
    /// The name of a rule that an earlier rule has too.
    DuplicateRuleName,
    /// A variable before an `@` that nothing uses.
    UnusedBinding,
    /// A variable alone in a pattern that nothing uses.
    UnusedPatternVariable,
    /// A variable that a `let` binds although it is bound already.
    ShadowedVariable,
}

impl Lint {
    /// Each lint once, in the order of the variants.
    pub const ALL: [Lint; 5] = [
        Lint::UnusedLet,
        Lint::DuplicateRuleName,
        Lint::UnusedBinding,
        Lint::UnusedPatternVariable,
        Lint::ShadowedVariable,
    ];

    /// The name of the lint on the command line, such as `unused-let`.
    pub fn name(&self) -> &'static str
        ensures { result.now ≡ name self.now }
    {
        match self {
            Lint::UnusedLet => "unused-let",
            Lint::DuplicateRuleName => "duplicate-rule-name",
            Lint::UnusedBinding => "unused-binding",
            Lint::UnusedPatternVariable => "unused-pattern-variable",
            Lint::ShadowedVariable => "shadowed-variable",
        }
    }

    /// The lint of this name, or `None` if there is none.
    pub fn named(text: &str) -> Option<Lint>
        ensures { result ≡ find (λ lint. bytes_eq (name lint) text.now) all_lints }
    {
        Lint::ALL.iter().copied().find(|lint| lint.name() == text)
    }

    /// Returns whether the lint is on by default.
    pub fn is_default(&self) -> bool
        ensures { result ≡ is_default self.now }
    {
        match self {
            Lint::UnusedLet | Lint::DuplicateRuleName => true,
            Lint::UnusedBinding | Lint::UnusedPatternVariable | Lint::ShadowedVariable => false,
        }
    }

    /// The message of a finding, which the name follows.
    pub fn message(&self) -> &'static str
        ensures { result.now ≡ message self.now }
    {
        match self {
            Lint::UnusedLet => "unused variable",
            Lint::DuplicateRuleName => "duplicate rule name",
            Lint::UnusedBinding => "unused binding",
            Lint::UnusedPatternVariable => "unused pattern variable",
            Lint::ShadowedVariable => "shadowed variable",
        }
    }
}
