//! The number of looks that fitting and printing take.
//!
//! Running code can't read that number, so contracts of the functions here state it.

ghost use Rattle.std.specs.Prelude.{◌≡◌, ◌≤◌, ◌+◌, [], ◌∷◌, replicate, codes, true, false, IfOk};
ghost use Rattle.std.specs.Prelude.{OnOk};
ghost use Rattle.isle_printer_layout.specs.Sexp.{atom, list_of};
ghost use Rattle.isle_printer_layout.specs.SexpView.{sexp_of};
ghost use Rattle.isle_ast.specs.TreeView.{definition_of};
ghost use Rattle.isle_printer.specs.PrintedNodes.{nodes_of_definition};

use isle_syntax::ast::{Decl, Def};
use isle_syntax::printer::{Looks, PrintFault, SExpr, fits, print_counted};
use isle_test_nodes::trees::{drop_definition, ident, pos};
use std::alloc::{AllocError, Global};
use std::slice::from_ref;

fn atom(alloc: Global, text: &str) -> Result<SExpr, AllocError>
    ensures { IfOk result (λ s. sexp_of s ≡ atom text.now) }
{
    Ok(SExpr::Atom(String::from_str(alloc, text)?))
}

/// The list `(a b)`.
fn pair(alloc: Global) -> Result<SExpr, AllocError>
    ensures { IfOk result (λ s. sexp_of s ≡ list_of (atom (codes "a") ∷ atom (codes "b") ∷ [])) }
{
    let mut items = Vec::new(alloc);
    items.push(atom(alloc, "a")?)?;
    items.push(atom(alloc, "b")?)?;
    Ok(SExpr::List(items))
}

/// A list of `count` empty atoms.
fn empty_atoms(alloc: Global, count: usize) -> Result<SExpr, AllocError>
    ensures { IfOk result (λ s. sexp_of s ≡ list_of (replicate count (atom []))) }
{
    let mut items = Vec::new(alloc);
    for _ in 0..count {
        items.push(atom(alloc, "")?)?;
    }
    Ok(SExpr::List(items))
}

/// `(a b)` fits a room of 5, which takes 3 looks.
pub fn pair_fits(alloc: Global, looks: &mut Looks) -> Result<bool, AllocError>
    ensures fits { IfOk result (λ fits. fits ≡ true) }
    ensures looks { OnOk result (looks.new.count ≡ looks.old.count + 3) }
{
    Ok(fits(&pair(alloc)?, 5, looks))
}

/// A list of a hundred empty atoms doesn't fit a room of 3, which takes at most 4 looks.
pub fn hundred_fit(alloc: Global, looks: &mut Looks) -> Result<bool, AllocError>
    ensures fits { IfOk result (λ fits. fits ≡ false) }
    ensures looks { OnOk result (looks.new.count ≤ looks.old.count + 4) }
{
    Ok(fits(&empty_atoms(alloc, 100)?, 3, looks))
}

/// `(decl foo (A) B)`, whose S-expression has 6 nodes.
fn declaration(alloc: Global) -> Result<Def, AllocError>
    ensures { IfOk result (λ def. nodes_of_definition (definition_of def) ≡ 6) }
{
    let decl = Decl {
        term: ident(alloc, "foo")?,
        arg_tys: vec![in alloc; ident(alloc, "A")?]?,
        ret_ty: ident(alloc, "B")?,
        pure: false,
        multi: false,
        partial: false,
        rec: false,
        pos: pos(),
    };
    Ok(Def::Decl(decl))
}

/// Printing `(decl foo (A) B)` takes 6 to 12 looks, at any width.
pub fn declaration_looks(
    alloc: Global,
    width: usize,
    looks: &mut Looks,
) -> Result<String, PrintFault>
    ensures at_least { IfOk result (λ _. looks.old.count + 6 ≤ looks.new.count) }
    ensures at_most { looks.new.count ≤ looks.old.count + 12 }
{
    let def = declaration(alloc)?;
    let shown = print_counted(alloc, from_ref(&def), width, looks);
    drop_definition(def);
    shown
}

/// Returns whether S-expressions fit rooms of their counted lengths, and smaller ones.
pub fn fit_their_rooms(alloc: Global) -> Result<[bool; 5], AllocError> {
    let mut looks = Looks::new();
    let pair = pair(alloc)?;
    let hundred = empty_atoms(alloc, 100)?;
    Ok([
        fits(&pair, 5, &mut looks),
        fits(&pair, 4, &mut looks),
        fits(&hundred, 3, &mut looks),
        fits(&hundred, 100, &mut looks),
        fits(&hundred, 101, &mut looks),
    ])
}
