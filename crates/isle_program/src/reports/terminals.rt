//! The terminal that a program may write to. No contract can say whether there is one.

use std::env::{Env, var};
use std::fs::{Files, canonicalize};

/// What leads to standard output, on Linux.
const OUTPUT: &str = "/proc/self/fd/1";

/// Returns whether standard output is a terminal that is to have colours: `NO_COLOR` is unset or
/// empty, and `TERM` is not `dumb`. It is `false` if that can't be told.
pub fn shows_colours<R: Files + Env + AllocGlobal>(rt: &R) -> bool {
    is_terminal(rt) && !is_no_colour_set(rt) && !is_dumb(rt)
}

fn is_terminal<R: Files + AllocGlobal>(rt: &R) -> bool {
    match canonicalize(rt, OUTPUT) {
        Ok(path) => is_terminal_path(path.as_str()),
        Err(_) => false,
    }
}

fn is_terminal_path(path: &str) -> bool {
    path.starts_with("/dev/pts/") || path.starts_with("/dev/tty") || path == "/dev/console"
}

fn is_no_colour_set<R: Env + AllocGlobal>(rt: &R) -> bool {
    match var(rt, "NO_COLOR") {
        Ok(value) => !value.is_empty(),
        Err(_) => false,
    }
}

fn is_dumb<R: Env + AllocGlobal>(rt: &R) -> bool {
    match var(rt, "TERM") {
        Ok(value) => value.as_str() == "dumb",
        Err(_) => false,
    }
}
