//! What is found when rules are compared.

use isle_base_source::pos::Pos;
use isle_check_places::values::Value;

/// Something that is wrong with a rule, beside others or by itself.
#[derive(Drop)]
pub struct Fault {
    /// What is wrong.
    pub kind: Kind,
    /// The position of the rule.
    pub pos: Pos,
}

/// What is wrong with a rule.
#[derive(Drop)]
pub enum Kind {
    /// A value would have to match two constraints that differ: as they are written.
    TwoConstraints(String, String),
    /// Equal values would have to match constraints that differ.
    UnequalConstraints,
    /// A value would have to be a part of itself.
    PartOfItself,
    /// The rule and each of these may match one value, and neither has a higher priority; and so
    /// may as many more, which are left out.
    Overlaps(Vec<Other>, usize),
    /// The rules at these positions match nothing that this rule does not match, and it has a
    /// higher priority; and so do as many more, which are left out.
    Shadows(Vec<Pos>, usize),
    /// The rules at these positions ask for equal values, and match nothing that this rule does not
    /// match, and it has a higher priority; and so do as many more, which are left out.
    ShadowsWithEquals(Vec<Pos>, usize),
}

/// A rule that overlaps with another one.
#[derive(Drop)]
pub struct Other {
    /// The position of the rule.
    pub pos: Pos,
    /// The value that both match. It is sure if neither rule has equal places without a constraint
    /// or looks at each of several answers, and each value of the pattern satisfies the constraints
    /// of both.
    pub value: Value,
}

/// What is found of the rules of a program.
#[derive(Drop)]
pub struct Comparison {
    /// The errors.
    pub faults: Vec<Fault>,
    /// The warnings: the rules that would match a value that is a part of itself, which are not
    /// compared with others; and then those that hide rules with equal values.
    pub warnings: Vec<Fault>,
}
