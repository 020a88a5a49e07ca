//! What rules match.

use isle_base_source::pos::Pos;
use isle_check_places::{Clash, Settled};

/// What a rule matches.
#[derive(Drop)]
pub struct Matching<'a> {
    /// The term of the rule.
    pub term: &'a str,
    /// Whether the term is multi.
    pub is_multi: bool,
    /// Whether a pattern of the rule looks at each of several answers, of which there may be none.
    pub has_several: bool,
    /// The priority.
    pub prio: i64,
    /// The position of the rule.
    pub pos: Pos,
    /// The constraints that differ from the first one of their place.
    pub clashes: Vec<Clash<'a>>,
    /// What the constraints and the equal places come to.
    pub settled: Settled<'a>,
}
