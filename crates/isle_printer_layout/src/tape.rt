//! Tapes: S-expressions as one list of pieces, with the recorded length of each list.
//!
//! A tape is built back to front: the end of a list, its items from last to first, and then its
//! start. So a list's length is known before any of the list is written, and no piece changes once
//! it is on the tape. Building adds no looks. The pieces are then taken from first to last. The
//! layout takes them only with `Pieces::look`, which adds one look for each node.

ghost use Rattle.std.specs.Prelude.{◌≡◌, ◌+◌, [], ◌∷◌, ℕ, IfNone, IfOk, IfSome, OnOk, OnSome};
ghost use Rattle.std.specs.Prelude.{string_bytes};
ghost use Rattle.isle_printer_layout.specs.Lengths.{record_of};
ghost use Rattle.isle_printer_layout.specs.Pieces.{FitsBefore, HasFirst, IsRecordAround};
ghost use Rattle.isle_printer_layout.specs.Pieces.{after_first, first_made, length_so_far};
ghost use Rattle.isle_printer_layout.specs.Pieces.{made_around, nothing_made, put_before};
ghost use Rattle.isle_printer_layout.specs.Pieces.{put_piece};
ghost use Rattle.isle_printer_layout.specs.Sexp.{atom, binding, list_of};

use super::looks::Looks;
use std::alloc::{AllocError, Global};
use std::marker::Model;

/// A piece of an S-expression.
#[derive(Drop)]
pub(super) enum Piece<'src> {
    /// An atom with a text of the tree, or a fixed word.
    Borrowed(&'src str),
    /// An atom with a text made for it, such as a number.
    Owned(String),
    /// The name of a binding. The S-expression that it binds comes next.
    Name(&'src str),
    /// The start of a list with its counted length, or `None` if that is 2^64 or more.
    Open(Option<usize>),
    /// The end of a list.
    Close,
}

/// S-expressions under construction, from last to first.
#[derive(Drop)]
pub struct Tape<'src> {
    pieces: Vec<Piece<'src>>,
    /// The length so far of the innermost list under construction, or `None` if that is 2^64 or
    /// more.
    length: Option<usize>,
}

impl<'src> Model for Tape<'src> {
    ghost use Rattle.isle_printer_layout.specs.Pieces.{FitTogether, Made, length_so_far, made_of};
    ghost use Rattle.isle_printer_layout.specs.Lengths.{record_of};
    ghost use Rattle.std.specs.Prelude.{◌≡◌};

    ghost Value = { Made };

    ghost use Rattle.isle_printer_layout.specs.Pieces.{made_code};

    ghost coded = { made_code };

    ghost view = { λ a. made_of a.pieces.items };

    ghost invariant = { λ a. FitTogether a.pieces.items
        × (a.length ≡ record_of (length_so_far (made_of a.pieces.items).0)) };
}

impl<'src> Tape<'src> {
    /// An empty tape, with memory for the pieces of most definitions.
    pub fn new(alloc: Global) -> Result<Tape<'src>, AllocError>
        ensures { IfOk result (λ tape. tape ≡ nothing_made) }
    {
        Ok(Tape {
            pieces: Vec::with_capacity(alloc, 32)?,
            length: recorded(1),
        })
    }

    /// Prepends an atom. Its text is not copied.
    pub fn atom(&mut self, text: &'src str) -> Result<(), AllocError>
        ensures { OnOk result (self.new ≡ put_before (atom text.now ∷ []) self.old) }
    {
        let length = sum(self.length, text.len());
        self.pieces.push(Piece::Borrowed(text))?;
        self.length = sum(length, 1);
        Ok(())
    }

    /// Prepends an atom with a text made for it.
    pub fn owned(&mut self, text: String) -> Result<(), AllocError>
        ensures { OnOk result (self.new ≡ put_before (atom (string_bytes text) ∷ []) self.old) }
    {
        let length = sum(self.length, text.len());
        self.pieces.push(Piece::Owned(text))?;
        self.length = sum(length, 1);
        Ok(())
    }

    /// Binds a name to the S-expression at the front of the tape.
    pub fn binding(&mut self, name: &'src str) -> Result<(), AllocError>
        requires { HasFirst self.old.0 }
        ensures { OnOk result (self.new
            ≡ (binding name.now (first_made self.old.0) ∷ after_first self.old.0, self.old.1)) }
    {
        let length = sum(self.length, name.len());
        self.pieces.push(Piece::Name(name))?;
        self.length = sum(length, 3);
        Ok(())
    }

    /// Prepends the end of a list. Returns the length so far of the list around it, for `open`.
    pub fn close(&mut self) -> Result<Option<usize>, AllocError>
        ensures made { OnOk result (self.new ≡ ([], self.old.0 ∷ self.old.1)) }
        ensures around { IfOk result (λ length. length ≡ record_of (length_so_far self.old.0)) }
    {
        let length = self.length;
        self.pieces.push(Piece::Close)?;
        self.length = recorded(1);
        Ok(length)
    }

    /// Prepends the start of a list. The length so far of the list around it is `outer`.
    pub fn open(&mut self, outer: Option<usize>) -> Result<(), AllocError>
        requires { IsRecordAround outer self.old.1 }
        ensures { OnOk result
            (self.new ≡ put_before (list_of self.old.0 ∷ []) (made_around self.old.1)) }
    {
        let length = self.length;
        self.pieces.push(Piece::Open(length))?;
        self.length = sum(both(outer, length), 1);
        Ok(())
    }

    /// The allocator for texts made for atoms.
    pub fn alloc(&self) -> Global {
        *self.pieces.allocator()
    }

    /// The finished pieces, for reading.
    pub fn pieces(self) -> Pieces<'src>
        ensures { result ≡ self.entry }
    {
        Pieces {
            pieces: self.pieces,
        }
    }
}

/// The record of a length that fits in 64 bits.
fn recorded(length: usize) -> Option<usize>
    ensures { result ≡ record_of length }
{
    Some(length)
}

/// The record of the sum of a recorded length and another length.
fn sum(one: Option<usize>, other: usize) -> Option<usize>
    ensures { (n : ℕ) → one ≡ record_of n → result ≡ record_of (n + other) }
{
    one?.checked_add(other)
}

/// The record of the sum of two recorded lengths.
fn both(one: Option<usize>, other: Option<usize>) -> Option<usize>
    ensures { (n m : ℕ) → one ≡ record_of n → other ≡ record_of m → result ≡ record_of (n + m) }
{
    one?.checked_add(other?)
}

/// The pieces of finished S-expressions, which are taken from first to last.
#[derive(Drop)]
pub struct Pieces<'src> {
    pieces: Vec<Piece<'src>>,
}

impl<'src> Model for Pieces<'src> {
    ghost use Rattle.isle_printer_layout.specs.Pieces.{FitTogether, Made, made_of};

    ghost Value = { Made };

    ghost use Rattle.isle_printer_layout.specs.Pieces.{made_code};

    ghost coded = { made_code };

    ghost view = { λ a. made_of a.pieces.items };

    ghost invariant = { λ a. FitTogether a.pieces.items };
}

impl<'src> Pieces<'src> {
    /// Takes the first piece of an S-expression, or the end of the list, for which it returns
    /// `None`. It adds no look.
    pub(super) fn item(&mut self) -> Option<Piece<'src>>
        ensures some { OnSome result (HasFirst self.old.0) }
        ensures piece { IfSome result (λ piece. self.old ≡ put_piece piece self.new) }
        ensures fits { IfSome result (λ piece. FitsBefore piece self.new) }
        ensures end { IfNone result ((self.old.0 ≡ []) × (self.new ≡ made_around self.old.1)) }
    {
        match self.pieces.pop()? {
            Piece::Close => None,
            piece => Some(piece),
        }
    }

    /// As `item`, but adds a look at the node that the piece begins.
    #[inline(always)]
    pub(super) fn look(&mut self, looks: &mut Looks) -> Option<Piece<'src>>
        ensures some { OnSome result (HasFirst self.old.0) }
        ensures piece { IfSome result (λ piece. self.old ≡ put_piece piece self.new) }
        ensures fits { IfSome result (λ piece. FitsBefore piece self.new) }
        ensures end { IfNone result ((self.old.0 ≡ []) × (self.new ≡ made_around self.old.1)) }
        ensures looks { OnSome result (looks.new.count ≡ looks.old.count + 1) }
        ensures unlooked { IfNone result (looks.new.count ≡ looks.old.count) }
    {
        let piece = self.item()?;
        looks.look();
        Some(piece)
    }
}
