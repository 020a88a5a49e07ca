//! What a program tells of places in texts: lines for people, JSON objects, or annotations that
//! GitHub shows beside the code.
//!
//! | To | Call |
//! |---|---|
//! | know the format that a command line asks for | `format::format_of` |
//! | know whether a terminal shows the output, and may have colours | `terminals::shows_colours` |
//! | let it have them, unless the command line says otherwise | `colours::settle` |
//! | write a message about a place | `lines::told_line` |
//! | write the errors of texts that do not parse | `refusals::told_refusals` |
//! | write the line that counts errors and warnings | `refusals::told_count` |

mod annotations;
pub mod colours;
pub mod format;
pub mod lines;
pub mod message;
mod objects;
pub mod refusals;
pub mod terminals;
