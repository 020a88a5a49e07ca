//! Prints of S-expressions of a caller's own, and of long bit vectors.

use isle_syntax::format;
use isle_syntax::lexer::Fault;
use isle_syntax::printer::{PrintFault, SExpr, ToSExpr, print_node};
use isle_test_nodes::answer::{Answer, is_copied};
use isle_test_syntax::constants::print_of_bits;
use std::alloc::{AllocError, Global};

/// A node of a caller's own that holds its S-expression.
#[derive(Drop)]
struct Fixed(SExpr);

impl ToSExpr for Fixed {
    ghost use Rattle.std.specs.Prelude.{Some};
    ghost use Rattle.isle_printer_layout.specs.SexpView.{sexp_of};

    ghost meaning = { λ node. Some (sexp_of node.0) };

    fn to_sexpr(&self, alloc: Global) -> Result<SExpr, PrintFault> {
        Ok(self.0.clone()?)
    }
}

/// `(B c)`
fn list(alloc: Global) -> Result<SExpr, AllocError> {
    let name = SExpr::Atom("B".to_string(alloc)?);
    let variable = SExpr::Atom("c".to_string(alloc)?);
    Ok(SExpr::List(vec![in alloc; name, variable]?))
}

/// `x @ (B c)`
fn binding(alloc: Global) -> Result<SExpr, AllocError> {
    let bound = Box::new(alloc, list(alloc)?)?;
    Ok(SExpr::Binding("x".to_string(alloc)?, bound))
}

/// `(())`
fn nested(alloc: Global) -> Result<SExpr, AllocError> {
    let empty = SExpr::List(Vec::new(alloc));
    Ok(SExpr::List(vec![in alloc; empty]?))
}

/// `x @ (B c)`, `(())` or `()`, by the name of its kind.
fn sexpr(alloc: Global, kind: &str) -> Result<SExpr, AllocError> {
    match kind {
        "binding" => binding(alloc),
        "nested" => nested(alloc),
        _ => Ok(SExpr::List(Vec::new(alloc))),
    }
}

/// The print of a caller's node of a kind, at a width.
pub fn own_print(alloc: Global, kind: &str, width: usize) -> Result<String, PrintFault> {
    let node = Fixed(sexpr(alloc, kind)?);
    print_node(alloc, &node, width)
}

/// Adds whether the S-expression of a kind is equal to its copy.
pub fn put_own_copy(alloc: Global, kind: &str, out: &mut Answer) -> Result<(), AllocError> {
    let sexpr = sexpr(alloc, kind)?;
    let is_copied = is_copied(&sexpr, out);
    out.show(&is_copied);
    Ok(())
}

/// Returns whether a bit vector of 8,001 bits is printed with all of them.
pub fn wide_bits_are_printed(alloc: Global) -> Result<bool, PrintFault> {
    let wide = print_of_bits(alloc, "1", "8001")?;
    Ok(wide.len() == 8003 && wide.starts_with("#b0000") && wide.ends_with("0001"))
}

/// Returns whether a bit vector of 65,536 digits formats as itself: upstream's longest is shorter.
pub fn long_bits_are_kept(alloc: Global) -> Result<bool, Fault> {
    let digits = "0".repeat(alloc, 65_536)?;
    let model = format!(in alloc; "(model M (const #x{digits}))\n")?;
    Ok(format(alloc, &model, 100_000)? == model)
}
