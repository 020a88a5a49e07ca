//! What the findings of a program mean, as laws, which run no code: the types of patterns,
//! expressions and rules by rules, without errors; what each error says of the program, at its
//! position; what overlaps and hidden rules mean, by valuations of places and by runs of rules; and
//! what holds where there is no error.
#![tactic(auto)]

pub mod comparisons;
pub mod errors;
pub mod findings;
pub mod judgements;
