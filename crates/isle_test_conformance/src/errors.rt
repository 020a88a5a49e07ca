//! Errors and faults as Display shows them, and the builder of errors.

use crate::files::files_of;
use isle_syntax::error::{Error, Errors, ErrorsBuilder, Span};
use isle_syntax::files::Files;
use isle_syntax::lexer::{Fault, Pos};
use isle_syntax::printer::PrintFault;
use isle_test_nodes::case::Case;
use isle_test_nodes::trees::{drop_tree, parsed};
use std::alloc::{AllocError, Global};
use std::rc::Rc;

const TWO_FILES: [(&str, &str); 2] = [("a.isle", "(A)\n(B)\n"), ("b.isle", "(rule")];

/// Errors in one file, as Display shows them.
fn display(
    alloc: Global,
    errors: Vec<Error>,
    name: &str,
    text: &str,
) -> Result<String, AllocError> {
    let files = Rc::new(alloc, files_of(alloc, &[(name, text)])?)?;
    if Errors::accepts(&errors, &files) {
        Errors::new(errors, files).to_string(alloc)
    } else {
        "not accepted".to_string(alloc)
    }
}

/// The error of a text in the file `<stdin>`, or `accepted`.
pub fn refusal_of(alloc: Global, text: &str) -> Result<String, AllocError> {
    match parsed(alloc, 0, text) {
        Err(Fault::Error(error)) => display(alloc, vec![in alloc; error]?, "<stdin>", text),
        tree => {
            let word = match &tree {
                Ok(_) => "accepted",
                Err(Fault::Memory) => "memory",
                Err(_) => "failed",
            };
            drop_tree(tree);
            word.to_string(alloc)
        }
    }
}

/// The place at an offset of a file.
fn place(file: usize, offset: usize) -> Span {
    Span {
        from: Pos::new(file, offset),
        to: Pos::new(file, offset.saturating_add(1)),
    }
}

fn places(alloc: Global, offsets: &[usize]) -> Result<Vec<Span>, AllocError> {
    let mut places = Vec::new(alloc);
    for offset in offsets {
        places.push(place(0, *offset))?;
    }
    Ok(places)
}

fn parse_error(alloc: Global, file: usize, offset: usize) -> Result<Error, AllocError> {
    Ok(Error::ParseError {
        msg: "m".to_string(alloc)?,
        span: place(file, offset),
    })
}

/// Parse errors at these offsets of a file.
fn parse_errors(alloc: Global, file: usize, offsets: &[usize]) -> Result<Vec<Error>, AllocError> {
    let mut errors = Vec::new(alloc);
    for offset in offsets {
        errors.push(parse_error(alloc, file, *offset)?)?;
    }
    Ok(errors)
}

/// The error that a case names: rules at the offsets that overlap, or rules at all offsets but the
/// first, shadowed by one at the first.
fn rule_error(alloc: Global, case: &Case) -> Result<Error, AllocError> {
    match case.call.as_str() {
        "overlap_error" => Ok(Error::OverlapError {
            msg: "m".to_string(alloc)?,
            rules: places(alloc, &case.numbers)?,
        }),
        _ => Ok(Error::ShadowedError {
            shadowed: places(alloc, case.numbers_from(1))?,
            mask: place(0, case.number(0)),
        }),
    }
}

/// The errors of a case.
fn errors_of(alloc: Global, case: &Case) -> Result<Vec<Error>, AllocError> {
    match case.call.as_str() {
        "parse_errors" => parse_errors(alloc, 0, &case.numbers),
        _ => Ok(vec![in alloc; rule_error(alloc, case)?]?),
    }
}

/// The errors of a case, in the file of its texts, as Display shows them.
pub fn errors(alloc: Global, case: &Case) -> Result<String, AllocError> {
    display(alloc, errors_of(alloc, case)?, case.text(0), case.text(1))
}

/// Whether parse errors at the offsets after the first two numbers, in the file of the second one,
/// are accepted with as many files as the first one says.
pub fn accepts(alloc: Global, case: &Case) -> Result<bool, AllocError> {
    let errors = parse_errors(alloc, case.number(1), case.numbers_from(2))?;
    Ok(Errors::accepts(&errors, &some_files(alloc, case.number(0))?))
}

/// As many files, each with the same text.
fn some_files(alloc: Global, count: usize) -> Result<Files, AllocError> {
    let mut pairs = Vec::new(alloc);
    for _ in 0..count {
        pairs.push(("a.isle".to_string(alloc)?, "(A)".to_string(alloc)?))?;
    }
    Files::from_names_and_contents(alloc, pairs)
}

/// A builder of a shadowed rule in the first file, and a parse error at the end of the second.
fn builder(alloc: Global) -> Result<ErrorsBuilder, AllocError> {
    let files = Rc::new(alloc, files_of(alloc, &TWO_FILES)?)?;
    let shadowed = Error::ShadowedError {
        shadowed: places(alloc, &[4])?,
        mask: place(0, 0),
    };
    let errors = vec![in alloc; shadowed, parse_error(alloc, 1, 5)?]?;
    Ok(ErrorsBuilder::new(alloc)?.files(files).errors(errors))
}

/// The error of a case that replaces those of the builder: a type error in the second file, or a
/// parse error in the first.
fn replacing(alloc: Global, case: &Case) -> Result<Error, AllocError> {
    match case.text(0) {
        "type" => Ok(Error::TypeError {
            msg: "m".to_string(alloc)?,
            span: place(1, case.number(0)),
        }),
        _ => parse_error(alloc, 0, case.number(0)),
    }
}

/// The builder after that error, and after parse errors at the other offsets, if there are any.
fn replaced(alloc: Global, case: &Case) -> Result<ErrorsBuilder, AllocError> {
    let error = replacing(alloc, case)?;
    let builder = builder(alloc)?.error(alloc, error)?;
    match case.numbers_from(1) {
        [] => Ok(builder),
        others => Ok(builder.errors(parse_errors(alloc, 0, others)?)),
    }
}

/// The number of errors that are left, and the errors as Display shows them.
pub fn told_of_replaced(alloc: Global, case: &Case) -> Result<String, AllocError> {
    let builder = replaced(alloc, case)?;
    if !builder.is_buildable() {
        return "not buildable".to_string(alloc);
    }
    let errors = builder.build();
    format!(in alloc; "{}: {errors}", errors.errors().len())
}

/// The two errors as three format options show them.
pub fn shown_with_options(alloc: Global) -> Result<String, AllocError> {
    let builder = builder(alloc)?;
    if !builder.is_buildable() {
        return "not buildable".to_string(alloc);
    }
    let errors = builder.build();
    format!(in alloc; "{errors:#}{errors:>9}{errors:.3}")
}

/// Each fault as Display shows it, a line each.
pub fn faults(alloc: Global) -> Result<String, AllocError> {
    let refused = Fault::from(parse_error(alloc, 0, 0)?);
    let (failed, memory) = (Fault::Failed, Fault::Memory);
    format!(in alloc; "{refused}\n{failed:>40}\n{memory}\n")
}

/// Each fault of the printer as Display shows it, a line each.
pub fn print_faults(alloc: Global) -> Result<String, AllocError> {
    let (refused, memory) = (PrintFault::MacroArg, PrintFault::Memory);
    format!(in alloc; "{refused}\n{refused:#}\n{memory}\n")
}
