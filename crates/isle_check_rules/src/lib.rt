//! The types of rules, and the other errors of rules in a program whose declarations are right.
#![tactic(auto)]

mod constructors;
mod extractors;
mod faults;
pub mod laws;
mod refusal;
mod rules;
mod typed;
mod variables;
mod warnings;

pub use extractors::multi_extractors;
pub use faults::rule_faults;
pub use refusal::RuleRefusal;
pub use rules::type_rule;
pub use typed::{RuleTyping, RulesTyping, TypedIfLet, TypedRule};
pub use variables::rule_variables;
pub use warnings::{Warning, WarningKind, conditions_without_constructor};
