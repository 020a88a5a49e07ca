//! Files: their names, texts, line maps and lines.

use isle_syntax::error::Span;
use isle_syntax::files::{Files, LineMap};
use isle_syntax::lexer::Pos;
use isle_test_nodes::answer::{Answer, is_copied};
use isle_test_nodes::case::Case;
use std::alloc::{AllocError, Global};
use std::ops::Range;

/// The files with these names and texts.
pub fn files_of(alloc: Global, pairs: &[(&str, &str)]) -> Result<Files, AllocError> {
    let mut files = Vec::new(alloc);
    for (name, text) in pairs {
        files.push((name.to_string(alloc)?, text.to_string(alloc)?))?;
    }
    Files::from_names_and_contents(alloc, files)
}

/// The name, the text and the line map of a file, each beside that of a second one, which is not
/// there; and the line of an offset.
pub fn put_files(alloc: Global, case: &Case, out: &mut Answer) -> Result<(), AllocError> {
    let files = files_of(alloc, &[(case.text(0), case.text(1))])?;
    out.show(&(files.file_name(0), files.file_name(1)));
    out.put(" ");
    out.show(&(files.file_text(0), files.file_text(1)));
    out.put(" ");
    out.show(&(files.file_line_map(0), files.file_line_map(1)));
    out.put(" ");
    if files.file_name(0).is_some() {
        let line = Pos::new(0, case.number(0)).pretty_print_line(alloc, &files);
        out.show_made(&line);
    }
    Ok(())
}

/// Whether files are equal to their copy, and whether their line map is.
pub fn put_copied_files(alloc: Global, case: &Case, out: &mut Answer) -> Result<(), AllocError> {
    let files = files_of(alloc, &[(case.text(0), case.text(1))])?;
    let map = LineMap::from_str(alloc, case.text(1))?;
    let are_copied = [is_copied(&files, out), is_copied(&map, out)];
    out.show(&are_copied);
    Ok(())
}

/// The line of each offset in the first text, and the line map of the text.
pub fn put_lines(alloc: Global, case: &Case, out: &mut Answer) -> Result<(), AllocError> {
    let map = LineMap::from_str(alloc, case.text(0))?;
    let mut lines = Vec::new(alloc);
    for offset in &case.numbers {
        lines.push(map.line(*offset))?;
    }
    out.show(&lines);
    out.put(" ");
    out.show(&map);
    Ok(())
}

/// The place of one byte, and the range of its copy.
pub fn put_span(file: usize, offset: usize, out: &mut Answer) -> Result<(), AllocError> {
    let span = Span::new_single(Pos::new(file, offset.min(1 << 40)));
    out.show(&span);
    out.put(" ");
    out.show(&Range::from(&span.clone()?));
    Ok(())
}
