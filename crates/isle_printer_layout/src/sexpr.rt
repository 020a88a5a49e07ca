//! S-expressions that own their texts, for `to_sexpr` and `fits`.

ghost use Rattle.std.specs.Prelude.{◌≡◌, ◌&&◌, IfOk, Some};
ghost use Rattle.std.specs.Cmp.{partial_equiv_from_equiv};
ghost use Rattle.std.specs.Ordering.{on};
ghost use Rattle.isle_printer_layout.specs.FaultTexts.{print_fault_text};
ghost use Rattle.isle_printer_layout.specs.SameSexp.{s_expressions_equiv, same_sexp, same_sexps};
ghost use Rattle.isle_printer_layout.specs.Sexp.{sexps};
ghost use Rattle.isle_printer_layout.specs.SexpView.{sexp_of, sexps_of};
ghost use Rattle.isle_printer_layout.specs.declared.sexpr.PrintFault.TheVariants.{Memory};

use std::alloc::{AllocError, AllocFailed, Global};
use std::error::Error;
use std::fmt;

/// The S-expression of a node, which owns its texts.
#[derive(Debug, Drop)]
pub enum SExpr {
    /// A plain text, printed as it is.
    Atom(String),
    /// A name bound to an S-expression, `name @ ..`.
    Binding(String, Box<SExpr>),
    /// A list in parentheses, `(x y z)`.
    List(Vec<SExpr>),
}

impl Clone for SExpr {
    ghost is_clone = { λ s t. sexp_of t ≡ sexp_of s };

    fn clone(&self) -> Result<SExpr, AllocError> {
        copy(self)
    }
}

#[cycle(copy)]
fn copy(sexpr: &SExpr) -> Result<SExpr, AllocError>
    ensures { IfOk result (λ s. sexp_of s ≡ sexp_of sexpr.now) }
{
    match sexpr {
        SExpr::Atom(text) => Ok(SExpr::Atom(text.clone()?)),
        SExpr::Binding(name, inner) => {
            let copied = copy(inner)?;
            Ok(SExpr::Binding(name.clone()?, Box::new(*Box::allocator(inner), copied)?))
        }
        SExpr::List(items) => Ok(SExpr::List(copy_items(items)?)),
    }
}

#[cycle(copy)]
fn copy_items(items: &Vec<SExpr>) -> Result<Vec<SExpr>, AllocError>
    ensures { IfOk result (λ v. sexps_of v.items ≡ sexps_of items.now.items) }
{
    let mut copies = Vec::with_capacity(*items.allocator(), items.len())?;
    for item in items {
        copies.push(copy(item)?)?;
    }
    Ok(copies)
}

impl PartialEq for SExpr {
    ghost eq = { on sexp_of same_sexp };

    ghost laws = { partial_equiv_from_equiv s_expressions_equiv };

    fn eq(&self, other: &SExpr) -> bool {
        same_sexpr(self, other)
    }
}

impl Eq for SExpr {
    ghost laws = { s_expressions_equiv };
}

#[cycle(same)]
fn same_sexpr(a: &SExpr, b: &SExpr) -> bool
    ensures { result ≡ same_sexp (sexp_of a.now) (sexp_of b.now) }
{
    match (a, b) {
        (SExpr::Atom(text), SExpr::Atom(other)) => text == other,
        (SExpr::Binding(name, inner), SExpr::Binding(other, bound)) => {
            name == other && same_sexpr(inner, bound)
        }
        (SExpr::List(items), SExpr::List(others)) => same_items(items, others),
        _ => false,
    }
}

#[cycle(same)]
fn same_items(items: &Vec<SExpr>, others: &Vec<SExpr>) -> bool
    ensures { result
        ≡ same_sexps (sexps (sexps_of items.now.items)) (sexps (sexps_of others.now.items)) }
{
    if items.len() != others.len() {
        return false;
    }
    for i in 0..items.len() {
        if !same_sexpr(&items[i], &others[i]) {
            return false;
        }
    }
    true
}

/// The reason why a node was not printed.
#[derive(Debug, Drop)]
pub enum PrintFault {
    /// The node is, or contains, a macro argument, which has no syntax.
    MacroArg,
    /// Memory ran out.
    Memory,
}

/// Writes the fault as a short phrase, regardless of the format options.
impl fmt::Display for PrintFault {
    ghost output = { λ fault. Some (print_fault_text fault) };

    ghost styled_output = { λ fault _. Some (print_fault_text fault) };

    fn fmt<W: fmt::Write>(&self, f: &mut fmt::Formatter<W>) -> fmt::Result {
        match self {
            PrintFault::MacroArg => f.write_str("the argument of a macro has no print"),
            PrintFault::Memory => f.write_str("out of memory"),
        }
    }
}

impl Error for PrintFault {}

impl From<AllocError> for PrintFault {
    ghost from_gives = { λ _ e. e ≡ Memory };

    fn from(_error: AllocError) -> PrintFault {
        PrintFault::Memory
    }
}

impl<T: Drop> From<AllocFailed<T>> for PrintFault {
    ghost from_gives = { λ _ e. e ≡ Memory };

    fn from(_error: AllocFailed<T>) -> PrintFault {
        PrintFault::Memory
    }
}
