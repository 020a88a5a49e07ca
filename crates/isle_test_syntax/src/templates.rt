//! Templates of macros, and patterns put in for their arguments.

use isle_syntax::ast::{Def, Ident, Pattern};
use isle_syntax::lexer::Fault;
use isle_syntax::printer::{PrintFault, print_node};
use isle_test_nodes::answer::Answer;
use isle_test_nodes::case::Case;
use isle_test_nodes::trees::{drop_pattern, drop_tree, ident, parsed};
use std::alloc::{AllocError, Global};

/// The names in a text, separated by blanks.
fn names(alloc: Global, text: &str) -> Result<Vec<Ident>, AllocError> {
    let mut names = Vec::new(alloc);
    for word in text.split(' ') {
        names.push(ident(alloc, word)?)?;
    }
    Ok(names)
}

/// The template of a pattern; a failure if the pattern holds the argument of a macro.
pub fn filled(alloc: Global, pattern: &Pattern, names: &[Ident]) -> Result<Pattern, Fault> {
    if pattern.has_macro_arg() {
        return Err(Fault::Failed);
    }
    Ok(pattern.make_macro_template(alloc, names)?)
}

/// The template of the one extractor.
fn filled_one(alloc: Global, defs: &[Def], names: &[Ident]) -> Result<Pattern, Fault> {
    match defs {
        [Def::Extractor(extractor)] => filled(alloc, &extractor.template, names),
        _ => Err(Fault::Failed),
    }
}

/// The template of a pattern's text in a file. The names of its parameters are separated by blanks.
fn template_of(alloc: Global, file: usize, text: &str, params: &str) -> Result<Pattern, Fault> {
    let names = names(alloc, params)?;
    let text = format!(in alloc; "(extractor (A) {text})")?;
    let tree = parsed(alloc, file, &text);
    let template = match &tree {
        Ok(defs) => filled_one(alloc, defs, &names),
        Err(Fault::Memory) => Err(Fault::Memory),
        Err(_) => Err(Fault::Failed),
    };
    drop_tree(tree);
    template
}

/// Adds the template of the first text, with the names in the second as parameters, after whether
/// it holds arguments of a macro.
pub fn put_template(alloc: Global, case: &Case, out: &mut Answer) {
    match template_of(alloc, 0, case.text(0), case.text(1)) {
        Ok(template) => {
            out.show_ok(&(template.has_macro_arg(), &template));
            drop_pattern(template);
        }
        Err(fault) => out.show_error(&fault),
    }
}

/// The templates of texts in file 3, with the names in a text as parameters.
fn templates_of(alloc: Global, texts: &[String], params: &str) -> Result<Vec<Pattern>, Fault> {
    let mut patterns = Vec::new(alloc);
    for text in texts {
        patterns.push(template_of(alloc, 3, text, params)?)?;
    }
    Ok(patterns)
}

/// Adds the print of a template with patterns put in; `None` if there are too few of them, or if
/// there is no print.
fn put_print(alloc: Global, template: &Pattern, args: &[Pattern], out: &mut Answer) {
    match template.subst_macro_args(alloc, args) {
        Ok(Some(pattern)) => {
            let text = print_node(alloc, &pattern, usize::MAX);
            out.is_whole &= !matches!(&text, Err(PrintFault::Memory));
            out.show_ok(&text.ok());
            drop_pattern(pattern);
        }
        Ok(None) => out.put("Ok(None)"),
        Err(_) => out.is_whole = false,
    }
}

/// Adds the position of a template, its symbol if it is a term, and itself with patterns put in.
fn put_nodes(alloc: Global, template: &Pattern, args: &[Pattern], out: &mut Answer) {
    out.show(&(template.pos(), template.root_term()));
    out.put(" ");
    out.show_made(&template.subst_macro_args(alloc, args));
}

/// Puts patterns into the template of the first text, with the names in the second as parameters:
/// those of the other texts, or the templates of the texts after the third, with the names in it.
pub fn substitute(alloc: Global, case: &Case, out: &mut Answer) -> Result<(), Fault> {
    let template = template_of(alloc, 0, case.text(0), case.text(1))?;
    let put = put_in(alloc, case, &template, out);
    drop_pattern(template);
    put
}

fn put_in(alloc: Global, case: &Case, template: &Pattern, out: &mut Answer) -> Result<(), Fault> {
    match case.call.as_str() {
        "substitute" => {
            let args = templates_of(alloc, case.texts_from(2), "")?;
            put_print(alloc, template, &args, out);
        }
        _ => {
            let args = templates_of(alloc, case.texts_from(3), case.text(2))?;
            put_nodes(alloc, template, &args, out);
        }
    }
    Ok(())
}
