//! The errors of definitions that name terms: the left sides of rules, internal extractors,
//! converters and external definitions. Upstream reports them in groups, after those of
//! `isle_check_declarations`: those of a group only if no earlier group has any.

mod converters;
mod externs;
mod extractors;
mod roots;
mod templates;

pub use converters::converter_faults;
pub use externs::extern_faults;
pub use extractors::extractor_faults;
pub use roots::root_faults;
