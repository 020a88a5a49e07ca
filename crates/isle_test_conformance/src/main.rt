//! Answers calls of the syntax layer, of the index and of what the programs share, one a line, so
//! that their tests are data.
//!
//! Each line of standard input is answered by a line of standard output. A line that is empty or
//! begins with `#` is repeated. Any other line is a case: a call, then its numbers and texts. A
//! text is in quotes, with the escapes of Debug: `\n`, `\r`, `\t`, `\0`, `\"`, `\\` and `\u{..}`.
//!
//! The program exits with 0; with 4 if memory runs out, and then answers nothing to the line; and
//! with 3 if a stream fails. `tools/faults` makes each allocation of some cases fail in turn; where
//! memory runs out in another case, its answer may be another one.
//!
//! Answers are written as Debug does, but with each position as `FILE:OFFSET`. A lexer is one for
//! TEXT, in the file FILE, after READ calls of `next`. A missing number is 0. `beginnings` and
//! `damaged` also read each text with a lexer, parse it, and format it at the widths 0, 1 and the
//! greatest. All must succeed if the text is accepted, and otherwise fail at a place in the text;
//! if not, the answer is `wrong`.
//!
//! The cases, and their answers:
//!
//! - `tokens FILE READ TEXT`: each answer of `next`, after the lexer's state before the call
//! - `copied FILE READ TEXT`: what the copy of a lexer answers to `next`, between its states; and
//!   the state of the lexer
//! - `kinds FILE READ TEXT`: whether the token ahead is a symbol, an integer, and equal to its copy
//! - `next_def FILE COUNT TEXT`: a word for each of the first COUNT answers of `next_def`
//! - `next_def_of_copy FILE COUNT TEXT`: the same of the copy of a parser
//! - `format WIDTH.. TEXT`: the text formatted at the first width, that formatted at the next one,
//!   and so on
//! - `tidy TEXT`: the tidy text
//! - `lines WIDTH TIMES TEXT`: the numbers of lines, of bytes in the longest line, and of bytes,
//!   of the text repeated and formatted
//! - `refusal TEXT`: the error as Display shows it, or `accepted`
//! - `beginnings TEXT`: the number of beginnings of the text, those that are accepted, and a hash
//!   of the answers of `refusal` for the others
//! - `damaged PIECE TEXT`: the same for the texts with the piece in place of one character
//! - `parse_errors OFFSET.. NAME TEXT`: parse errors at these places of a file, as Display shows
//!   them
//! - `overlap_error OFFSET.. NAME TEXT`: an overlap of rules at these places, as Display shows it
//! - `shadowed_error MASK OFFSET.. NAME TEXT`: rules at these places that another one shadows, as
//!   Display shows them
//! - `accepts COUNT FILE OFFSET..`: whether parse errors at these places of a file are accepted
//!   with so many files
//! - `replaced OFFSET OTHER.. KIND`: how many errors a builder of two has after an error (`type` or
//!   `parse`) in their place and parse errors at the other places, if there are any; and the errors
//! - `errors_with_options`: the builder's two errors, with three format options
//! - `faults`, `print_faults`: each fault as Display shows it
//! - `line_map OFFSET.. TEXT`: the line of each place, and the line map
//! - `files OFFSET NAME TEXT`: the name, the text and the line map of a file, each beside that of a
//!   second one, which is not there; and the line of the offset
//! - `copied_files NAME TEXT`: whether files and a line map are equal to their copies
//! - `span FILE OFFSET`: the place of one byte, and the range of its copy
//! - `unknown FILE OFFSET`: the position, and whether it is unknown
//! - `own_print WIDTH KIND`: the print of a caller's node: `binding`, `nested` or `empty`
//! - `own_copy KIND`: whether the S-expression of that node is equal to its copy
//! - `template PATTERN NAMES`: whether the template of the pattern holds arguments of a macro, and
//!   the template
//! - `substitute PATTERN NAMES PATTERN..`: the text of the template with the patterns after the
//!   names put in
//! - `put_in PATTERN NAMES OTHERS PATTERN..`: the position of the template, its symbol if it is a
//!   term, and the template with the other patterns put in, which are templates with the names
//!   OTHERS, of file 3
//! - `is_identifier TEXT`: whether the text is an identifier
//! - `begins_identifier TEXT`, `continues_identifier TEXT`: whether its first character begins an
//!   identifier, or continues one
//! - `name_order OFFSET NAME OTHER`: how a name without a position compares with another one at an
//!   offset
//! - `full_name OFFSET TYPE VARIANT`: the full name of a variant at an offset of file 2
//! - `operators_are_copied`: whether an operator is equal to its copies alone
//! - `ends`, `ends_at_each_place`, `ends_at_each_byte`: the ends of symbols, blanks and comments
//! - `looks_of_..`: what `isle_test_syntax::looks` asks
//! - `wide_bits`, `long_bits`: whether long bit vectors are printed with all their digits
//! - `entries TEXT`: what tidying adds for each of the first nine entries, followed by a `|`
//! - `expanded TEXT`: the tree of the expansion, with its positions
//! - `programs_with FILE PATHS..`: the numbers of the programs with the file, and all their paths.
//!   The paths of each program are separated by blanks
//! - `unflushed TEXT`: what writing a text answers if the writer can't be flushed, and whether the
//!   writer holds the text
//! - `index PROGRAM`: how many symbols the program defines. The cases below ask the index of the
//!   last such program, file 0
//! - `index_at OFFSET`: the name there, and its occurrences, each definition with a `*`
//! - `index_symbols`: the program's definitions
//! - `index_candidates OFFSET FROM PREFIX`: the names that may be written there and begin with the
//!   prefix, with the variables from FROM on
//! - `index_can_rename OFFSET`: whether the name there can be renamed at all
//! - `index_rename OFFSET NAME`: the places that change when the name there is renamed, each with
//!   `>` and how many bytes stay in front of what changes if some do, or why it can't be renamed
//!
//! Any other call is about the tree of `FILE READ TEXT`, or, with a name that begins with `built`,
//! about that of `KIND NUMBER.. WORD..`, as `isle_test_syntax` has them:
//!
//! - `parse`, `parse_without_pos`: the tree, or the fault
//! - `nodes`: each definition and each of its parts, printed by itself, with the positions of
//!   patterns and expressions
//! - `print_nodes`, `to_sexprs`, `copies`: the same, printed at the width 20; their S-expressions;
//!   or whether each is equal to its copy
//! - `print`, `print_counted`: its print, with FILE as the width
//! - `fits`: whether the S-expression of each definition fits the room FILE
//! - `shape`: the S-expression of a conversion, or of a rule's one condition
//! - `writable`: whether it is writable
//! - `terms`: the position and the symbol of each term in rules and extractors
//! - `full_names`: the full name of each variant
//! - `walk FILE TEXT SYMBOL OTHER`: the position of the last term of the one rule's pattern, and
//!   whether its expression has terms of these symbols
//! - `apart`: whether each definition is equal to its copy, and to no other definition
//! - `apart_specs`: the same of the spec expressions of each spec, and of their lists
//! - `apart_places`: whether the definitions without positions differ from those in the file
//! - `holds_argument`: whether a definition holds the argument of a macro
//! - `built`: whether it is writable; an error if its print parses as the tree and it isn't, or the
//!   other way round, at any of four widths
//! - `built_alone`: whether each of its definitions is writable, without printing
//! - `built_print`: whether it is writable, and its print at width 78
//! - `built_arguments`: whether the argument of a macro is found in parts of rules and extractors
//!   and in each definition, and whether the printer rejects them for it
#![tactic(auto)]

mod answers;
mod errors;
mod files;
mod lanes;
mod lexers;
mod names;
mod prints;
mod requests;
mod shared;
mod texts;

use answers::answer;
use isle_test_nodes::case::Case;
use std::alloc::Global;
use std::io;
use std::io::{ErrorKind, Read, Write};
use std::process::ExitCode;

/// Answers a line. `program` is the text of the last `index` case.
fn write_answer<W: Write>(
    alloc: Global,
    line: &str,
    program: &mut String,
    output: &mut W,
) -> io::Result<()> {
    let case = Case::new(alloc, line)?;
    if case.call.as_str() == "index" {
        program.clear();
        program.push_str(case.text(0))?;
    }
    let answer = answer(alloc, &case, program)?;
    output.write_all(answer.as_bytes())
}

/// Answers each line of the input.
fn write_answers<R: Read, W: Write>(
    alloc: Global,
    input: &mut R,
    output: &mut W,
) -> io::Result<()> {
    let mut text = String::new(alloc);
    let mut program = String::new(alloc);
    input.read_to_string(&mut text)?;
    for line in text.lines() {
        if line.is_empty() || line.starts_with('#') {
            output.write_all(line.as_bytes())?;
        } else {
            write_answer(alloc, line, &mut program, output)?;
        }
        output.write_all(b"\n")?;
    }
    Ok(())
}

fn main(rt: HostRuntime) -> ExitCode {
    match write_answers(rt.alloc(), &mut rt.stdin(), &mut rt.stdout()) {
        Ok(()) => ExitCode::from(0),
        Err(error) if error.kind() == ErrorKind::OutOfMemory => ExitCode::from(4),
        Err(_) => ExitCode::from(3),
    }
}
