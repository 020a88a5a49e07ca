//! Tidying a text entry by entry.

ghost use Rattle.std.specs.Prelude.{◌≡◌, ◌≢◌, ◌<◌, [], Err, IfErr, IfOk, List, None, Ok, OnOk, ℕ};
ghost use Rattle.std.specs.Prelude.{false, length, string_bytes, true};
ghost use Rattle.isle_base.specs.Steps.{IfError};
ghost use Rattle.isle_base.specs.declared.fault.Fault.TheVariants.{Failed};
ghost use Rattle.isle_tidy_core.specs.Ends.{body_of, mark_size, with_ends};
ghost use Rattle.isle_tidy_core.specs.Finds.{FindsBeside, FindsEntry};
ghost use Rattle.isle_tidy_core.specs.Refused.{HasDocument, HasNoDocument, IsRefusedFor, IsWithin};
ghost use Rattle.isle_tidy_core.specs.Streams.{HasLaidOut, HasWritten, IsMade};
ghost use Rattle.isle_tidy_core.specs.Streams.{LaysLast, LaysMore, PutsLast, PutsMore};
ghost use Rattle.isle_tidy_core.specs.Tidied.{IsLaidOut, IsTidyTextOf};
ghost use Rattle.isle_tidy_core.specs.declared.ends.LineEnd.TheVariants.{Lf};
ghost use Rattle.isle_tidy_core.specs.declared.reader.Step.TheVariants.{More};
ghost use Rattle.isle_tidy_layout.specs.EntriesView.{lexeme_of};

use crate::check_lexemes::has_document;
use crate::closings::closings_after;
use crate::ends::{LineEnd, has_return, line_end_of, mark_size, put_with_ends};
use crate::lexemes::{lexeme_at, part};
use crate::output::{PendingRange, is_printable_at, put_end, put_entry};
use crate::parentheses::check_parentheses;
use crate::reader::{Span, Step, common_width_at, step_at};
use isle_base::lexer::Fault;
use isle_tidy_layout::entries::{Entry, Gap, Lexeme};
use isle_tidy_layout::placer::Placer;
use std::alloc::{AllocError, Global};

/// A text that is being tidied, one entry after another.
///
/// It borrows the text, and holds no copy of it. Its tidy text it holds only if the text has a CR,
/// or a byte order mark that stands apart.
#[derive(Drop)]
pub struct Tidying<'src> {
    text: &'src str,
    /// The byte offset after the last entry.
    at: usize,
    /// The byte offset from which bytes are pending, up to `at`: they are next in the tidy text as
    /// they are, and are not appended yet.
    pending: usize,
    /// The gap before `at`: none, or the start of the text.
    gap: Gap,
    placer: Placer,
    /// The tidy text, if it is made beforehand.
    made: Option<String>,
}

impl<'src> Tidying<'src> {
    /// Checks a text, and begins to tidy it. The errors are those of `tidy`.
    pub fn new(alloc: Global, text: &'src str) -> Result<Tidying<'src>, Fault>
        ensures begun { IfOk result (HasWritten text.now []) }
        ensures refused { IfErr result (IfError (λ e. HasNoDocument text.now
            × IsRefusedFor text.now e × IsWithin (length text.now) e)) }
        ensures never_failed { result ≢ Err Failed }
    {
        if !has_document(text) {
            match check_parentheses(alloc, text) {
                Ok(()) => {}
                Err(fault) => return Err(fault),
            }
        }
        let made = made(alloc, text)?;
        let mut tidying = Tidying::begun(alloc, text);
        tidying.made = made;
        Ok(tidying)
    }

    /// Begins to lay out a text, which has a document.
    fn begun(alloc: Global, text: &'src str) -> Tidying<'src>
        requires { HasDocument text.now }
        ensures { HasLaidOut text.now [] result }
    {
        Tidying {
            text,
            at: 0,
            pending: 0,
            gap: Gap::Below(0, 0),
            placer: Placer::new(alloc),
            made: None,
        }
    }

    /// Goes past the next entry and returns `true`. After the last entry, appends the rest of the
    /// tidy text and returns `false`.
    ///
    /// Bytes that stay as they are may be appended by a later call, many at once.
    ///
    /// Fails if memory runs out. Do not call it again after an error or after `false`.
    #[inline(always)]
    pub fn put_next(&mut self, out: &mut String) -> Result<bool, AllocError>
        requires { (text before : List ℕ) × HasWritten text before self.old }
        ensures more { result ≡ Ok true
            → PutsMore self.old self.new (string_bytes out.old) (string_bytes out.new) }
        ensures moves { result ≡ Ok true → self.old.at < self.new.at }
        ensures last { result ≡ Ok false
            → PutsLast self.old (string_bytes out.old) (string_bytes out.new) }
    {
        if let Some(made) = &self.made {
            out.push_str(made.as_str())?;
            return Ok(false);
        }
        self.lay_next(out)
    }

    /// Goes past the next entry, as `put_next` does, if the tidy text is not made beforehand.
    #[inline(always)]
    fn lay_next(&mut self, out: &mut String) -> Result<bool, AllocError>
        requires { (text before : List ℕ) × HasLaidOut text before self.old }
        ensures more { result ≡ Ok true
            → LaysMore self.old self.new (string_bytes out.old) (string_bytes out.new) }
        ensures moves { result ≡ Ok true → self.old.at < self.new.at }
        ensures last { result ≡ Ok false
            → LaysLast self.old (string_bytes out.old) (string_bytes out.new) }
    {
        if self.put_common_entry(out)? {
            return Ok(true);
        }
        self.put_any(out)
    }

    /// Goes past the next entry, if it is like most: after one space or none, and no block comment.
    /// Otherwise does nothing and returns `false`.
    ///
    /// Each kind of lexeme has a call of its own, so that each is compiled by itself.
    #[inline(always)]
    fn put_common_entry(&mut self, out: &mut String) -> Result<bool, AllocError>
        requires { (text before : List ℕ) × HasLaidOut text before self.old }
        ensures more { IfOk result (λ _.
            LaysMore self.old self.new (string_bytes out.old) (string_bytes out.new)) }
        ensures moves { result ≡ Ok true → self.old.at < self.new.at }
        ensures left { result ≡ Ok false → self.new.at ≡ self.old.at }
    {
        let Gap::Beside(_) = self.gap else {
            return Ok(false);
        };
        let Some(width) = common_width_at(self.text.as_bytes(), self.at) else {
            return Ok(false);
        };
        match lexeme_at(self.text, self.at + width) {
            Some((Lexeme::Opening, end)) => self.put_beside(out, width, Lexeme::Opening, end),
            Some((Lexeme::Closing, end)) => self.put_beside(out, width, Lexeme::Closing, end),
            Some((Lexeme::At, end)) => self.put_beside(out, width, Lexeme::At, end),
            Some((Lexeme::Atom(atom), end)) => {
                self.put_beside(out, width, Lexeme::Atom(atom), end)
            }
            Some((Lexeme::LineComment(comment), end)) => {
                self.put_beside(out, width, Lexeme::LineComment(comment), end)
            }
            Some((Lexeme::BlockComment(_), _)) | None => Ok(false),
        }
    }

    /// Goes past the next entry: `width` spaces, and a lexeme that ends at the byte offset `end`.
    #[inline(always)]
    fn put_beside(
        &mut self,
        out: &mut String,
        width: usize,
        lexeme: Lexeme<'_>,
        end: usize,
    ) -> Result<bool, AllocError>
        requires begun { (text before : List ℕ) × HasLaidOut text before self.old }
        requires found { FindsBeside self.old.text.now self.old.gap self.old.at width
            (lexeme_of lexeme) end }
        ensures more { IfOk result (λ _.
            LaysMore self.old self.new (string_bytes out.old) (string_bytes out.new)) }
        ensures moves { result ≡ Ok true → self.old.at < self.new.at }
        ensures done { result ≢ Ok false }
    {
        let gap = Gap::Beside(width);
        let span = Span {
            start: self.at + width,
            end,
            is_canonical: true,
        };
        self.put(out, Entry { gap, lexeme }, span)?;
        Ok(true)
    }

    /// Goes past the next entry, whatever it is, as `lay_next` does.
    #[inline(never)]
    fn put_any(&mut self, out: &mut String) -> Result<bool, AllocError>
        requires { (text before : List ℕ) × HasLaidOut text before self.old }
        ensures more { result ≡ Ok true
            → LaysMore self.old self.new (string_bytes out.old) (string_bytes out.new) }
        ensures moves { result ≡ Ok true → self.old.at < self.new.at }
        ensures last { result ≡ Ok false
            → LaysLast self.old (string_bytes out.old) (string_bytes out.new) }
    {
        match step_at(self.text, self.gap, self.at) {
            Step::More(entry, span) => {
                self.put(out, entry, span)?;
                Ok(true)
            }
            Step::End => {
                let pending = PendingRange {
                    from: self.pending,
                    to: self.at,
                };
                put_end(out, self.text, pending, self.placer.before)?;
                Ok(false)
            }
            Step::Refused => unreachable!(),
        }
    }

    /// Goes past the next entry, which was read already.
    #[inline(always)]
    fn put(&mut self, out: &mut String, entry: Entry<'_>, span: Span) -> Result<(), AllocError>
        requires begun { (text before : List ℕ) × HasLaidOut text before self.old }
        requires found { FindsEntry self.old.text.now self.old.gap self.old.at (More entry span) }
        ensures more { OnOk result (
            LaysMore self.old self.new (string_bytes out.old) (string_bytes out.new)) }
        ensures moves { OnOk result (self.old.at < self.new.at) }
    {
        let before = self.placer.before;
        let closings = closings_after(self.text, &entry, span.end);
        let is_printable = is_printable_at(self.text, &entry.lexeme, span);
        let (gap, lexeme) = (entry.gap, &entry.lexeme);
        let placed = self.placer.place(gap, lexeme, closings, is_printable)?;
        let pending = PendingRange {
            from: self.pending,
            to: self.at,
        };
        self.pending = put_entry(out, self.text, pending, &entry, span, before, placed)?;
        self.gap = Gap::Beside(0);
        self.at = span.end;
        Ok(())
    }

    /// Goes past entries until `out` has `len` bytes or more, and returns `true`. After the last
    /// entry, appends the rest of the tidy text and returns `false`.
    ///
    /// Fails if memory runs out. Do not call it again after an error or after `false`.
    pub fn put_some(&mut self, out: &mut String, len: usize) -> Result<bool, AllocError>
        requires { (text before : List ℕ) × HasWritten text before self.old }
        ensures more { result ≡ Ok true
            → PutsMore self.old self.new (string_bytes out.old) (string_bytes out.new) }
        ensures moves { result ≡ Ok true → self.old.at < self.new.at }
        ensures last { result ≡ Ok false
            → PutsLast self.old (string_bytes out.old) (string_bytes out.new) }
    {
        while self.put_next(out)? {
            if out.len() >= len {
                return Ok(true);
            }
        }
        Ok(false)
    }
}

/// Returns the tidy text of a text that has a document, unless the text is plain: then its entries
/// can be written as they are placed.
fn made(alloc: Global, text: &str) -> Result<Option<String>, AllocError>
    requires { HasDocument text.now }
    ensures { IfOk result (IsMade text.now) }
{
    let mark = mark_size(text.as_bytes());
    if mark == 0 && !has_return(text.as_bytes()) {
        return Ok(None);
    }
    Ok(Some(made_behind(alloc, text, mark)?))
}

/// Returns the tidy text of a text that has a document, behind a mark of this size.
fn made_behind(alloc: Global, text: &str, mark: usize) -> Result<String, AllocError>
    requires document { HasDocument text.now }
    requires mark { mark ≡ mark_size text.now }
    ensures { IfOk result (λ made. IsTidyTextOf text.now (string_bytes made)) }
{
    let laid_out = laid_out_behind(alloc, text, mark)?;
    let mut made = String::new(alloc);
    made.push_str(part(text, 0, mark))?;
    put_with_ends(&mut made, laid_out.as_str(), line_end_of(text.as_bytes()))?;
    Ok(made)
}

/// Returns what is written, with LF, of a text behind a mark of this size.
fn laid_out_behind(alloc: Global, text: &str, mark: usize) -> Result<String, AllocError>
    requires document { HasDocument text.now }
    requires mark { mark ≡ mark_size text.now }
    ensures { IfOk result (λ answer. IsLaidOut (with_ends Lf (body_of text.now))
        (string_bytes answer)) }
{
    let mut plain = String::new(alloc);
    put_with_ends(&mut plain, part(text, mark, text.len()), LineEnd::Lf)?;
    laid_out(alloc, plain.as_str())
}

/// Returns what is written of a text that has a document.
fn laid_out(alloc: Global, text: &str) -> Result<String, AllocError>
    requires { HasDocument text.now }
    ensures { IfOk result (λ answer. IsLaidOut text.now (string_bytes answer)) }
{
    let mut tidying = Tidying::begun(alloc, text);
    let mut answer = String::new(alloc);
    while tidying.lay_next(&mut answer)? {}
    Ok(answer)
}
