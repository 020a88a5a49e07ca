//! The answers of cases.

use crate::errors::{
    accepts, errors, faults, print_faults, refusal_of, shown_with_options, told_of_replaced,
};
use crate::files::{put_copied_files, put_files, put_lines, put_span};
use crate::lanes::{each_run_ends_at_each_place, each_run_ends_at_its_bytes, ends};
use crate::lexers::{put_lexer_answer, put_next_defs, put_unknown};
use crate::names::{full_name, is_of_identifiers, order_of};
use crate::prints::{long_bits_are_kept, own_print, put_own_copy, wide_bits_are_printed};
use crate::requests::put_request;
use crate::shared::{entries, put_expanded, put_programs, put_unflushed};
use crate::texts::{beginnings, damaged};
use isle_syntax::format;
use isle_syntax::lexer::Fault;
use isle_syntax::printer::Looks;
use isle_test_nodes::answer::Answer;
use isle_test_nodes::case::Case;
use isle_test_syntax::copies::are_operators_copied;
use isle_test_syntax::looks::{declaration_looks, fit_their_rooms, hundred_fit, pair_fits};
use isle_test_syntax::templates::{put_template, substitute};
use isle_test_syntax::told::put_told;
use isle_tidy_core::tidy;
use std::alloc::{AllocError, Global};

/// The answer of a case, with each position as `FILE:OFFSET`. `program` is the text of the last
/// `index` case.
pub fn answer(alloc: Global, case: &Case, program: &str) -> Result<String, AllocError> {
    let mut out = Answer::new(alloc);
    match put_answer(alloc, case, program, &mut out) {
        Ok(()) => {}
        Err(fault) => out.show_fault(&fault),
    }
    if !out.is_whole {
        return Err(AllocError);
    }
    placed(alloc, out.text.trim_end())
}

/// A text written by Debug, with each position as `FILE:OFFSET`.
fn placed(alloc: Global, text: &str) -> Result<String, AllocError> {
    let mut parts = text.split("Pos { file: ");
    let mut out = parts.next().unwrap_or("").to_string(alloc)?;
    for part in parts {
        push_placed(part, &mut out)?;
    }
    Ok(out)
}

/// Adds a part of such a text that begins with the number of a position's file.
fn push_placed(part: &str, out: &mut String) -> Result<(), AllocError> {
    let (file, rest) = part.split_once(", offset: ").unwrap_or((part, ""));
    let (offset, rest) = rest.split_once(" }").unwrap_or((rest, ""));
    write!(out, "{file}:{offset}{rest}")
}

/// Adds the answer of a case.
fn put_answer(alloc: Global, case: &Case, program: &str, out: &mut Answer) -> Result<(), Fault> {
    match case.call.as_str() {
        "tokens" | "copied" | "kinds" => put_lexer_answer(alloc, case, out),
        "next_def" | "next_def_of_copy" => put_next_defs(alloc, case, out),
        "format" => {
            out.show_answer(&formatted(alloc, case));
            Ok(())
        }
        "tidy" => {
            out.show_answer(&tidy(alloc, case.text(0)));
            Ok(())
        }
        "lines" => put_length(alloc, case, out),
        "substitute" | "put_in" => substitute(alloc, case, out),
        call if call.starts_with("index") => put_request(alloc, case, program, out),
        _ => Ok(put_answer_of_files(alloc, case, out)?),
    }
}

/// Adds the answer of a call about errors, files, or what programs share.
fn put_answer_of_files(alloc: Global, case: &Case, out: &mut Answer) -> Result<(), AllocError> {
    match case.call.as_str() {
        "line_map" => put_lines(alloc, case, out),
        "files" => put_files(alloc, case, out),
        "copied_files" => put_copied_files(alloc, case, out),
        "own_copy" => put_own_copy(alloc, case.text(0), out),
        "span" => put_span(case.number(0), case.number(1), out),
        "programs_with" => put_programs(alloc, case, out),
        _ => {
            put_plain_answer(alloc, case, out);
            Ok(())
        }
    }
}

/// Adds the answer of a call that shows one value.
fn put_plain_answer(alloc: Global, case: &Case, out: &mut Answer) {
    let (text, number) = (case.text(0), case.number(0));
    match case.call.as_str() {
        "refusal" => out.show_made(&refusal_of(alloc, text)),
        "beginnings" => out.put_made(&beginnings(alloc, text)),
        "damaged" => out.put_made(&damaged(alloc, text, case.text(1))),
        "parse_errors" | "overlap_error" | "shadowed_error" => {
            out.show_made(&errors(alloc, case));
        }
        "accepts" => out.show_made(&accepts(alloc, case)),
        "replaced" => out.show_made(&told_of_replaced(alloc, case)),
        "errors_with_options" => out.show_made(&shown_with_options(alloc)),
        "faults" => out.show_made(&faults(alloc)),
        "print_faults" => out.show_made(&print_faults(alloc)),
        "unknown" => put_unknown(case, out),
        "template" => put_template(alloc, case, out),
        "entries" => out.show_answer(&entries(alloc, text)),
        "expanded" => put_expanded(alloc, text, out),
        "unflushed" => put_unflushed(alloc, text, out),
        "own_print" => out.show_print(&own_print(alloc, text, number)),
        _ => put_answer_of_names(alloc, case, out),
    }
}

/// Adds the answer of a call about names or bytes, or of another call.
fn put_answer_of_names(alloc: Global, case: &Case, out: &mut Answer) {
    let (text, other, number) = (case.text(0), case.text(1), case.number(0));
    match case.call.as_str() {
        "is_identifier" | "begins_identifier" | "continues_identifier" => {
            out.show(&is_of_identifiers(&case.call, text));
        }
        "name_order" => out.show_made(&order_of(alloc, text, other, number)),
        "full_name" => out.show_made(&full_name(alloc, text, other, number)),
        "ends" => out.show(&ends()),
        "ends_at_each_place" => out.show(&each_run_ends_at_each_place()),
        "ends_at_each_byte" => out.show(&each_run_ends_at_its_bytes()),
        "operators_are_copied" => out.show(&are_operators_copied()),
        "wide_bits" => out.show(&wide_bits_are_printed(alloc)),
        "long_bits" => out.show_answer(&long_bits_are_kept(alloc)),
        call if call.starts_with("looks") => put_looks(alloc, call, out),
        _ => put_told(alloc, case, out),
    }
}

/// Adds the answer of a call of which contracts say how many looks it takes.
fn put_looks(alloc: Global, call: &str, out: &mut Answer) {
    let mut looks = Looks::new();
    match call {
        "looks_of_rooms" => out.show_made(&fit_their_rooms(alloc)),
        "looks_of_a_pair" => out.show_made(&pair_fits(alloc, &mut looks)),
        "looks_of_a_hundred" => out.show_made(&hundred_fit(alloc, &mut looks)),
        _ => out.show_print(&declaration_looks(alloc, 78, &mut looks)),
    }
}

/// The first text formatted at the first width, its output at the next width, and so on.
fn formatted(alloc: Global, case: &Case) -> Result<String, Fault> {
    let mut text = case.text(0).to_string(alloc)?;
    for width in &case.numbers {
        text = format(alloc, &text, *width)?;
    }
    Ok(text)
}

/// The numbers of lines, of bytes in the longest line, and of bytes, of the first text, repeated as
/// often as the second number says, at least once, and formatted.
fn put_length(alloc: Global, case: &Case, out: &mut Answer) -> Result<(), Fault> {
    let text = case.text(0).repeat(alloc, case.number(1).max(1))?;
    let text = format(alloc, &text, case.number(0))?;
    out.show(&text.lines().count());
    out.put(" lines, the longest of ");
    out.show(&text.lines().map(|line| line.len()).max().unwrap_or(0));
    out.put(" bytes, ");
    out.show(&text.len());
    out.put(" bytes in all");
    Ok(())
}
