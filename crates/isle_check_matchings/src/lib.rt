//! What typed rules match: what they ask of the values at places, and which places are equal.
#![tactic(auto)]

mod asks;
mod infallible;
mod matchings;
mod openings;
mod rules;
mod values;

pub use matchings::rule_overlaps;
