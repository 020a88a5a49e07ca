//! Errors of the ISLE syntax layer, and how they are displayed.
//!
//! Names and behaviour follow the module `error` of the Rust crate `cranelift-isle`, in its plain
//! text form.
ghost use Rattle.std.specs.Prelude.{◌≡◌, ◌+◌, ◌^◌, ◌<◌, true, Some, [], ◌∷◌, IfOk};
ghost use Rattle.std.specs.List.{list_all};
ghost use Rattle.isle_base_source.specs.Diagnostic.{report_text};
ghost use Rattle.isle_base_source.specs.Labels.{all_fit, error_fits, span_fits};

pub(crate) mod show;

use crate::files::Files;
use crate::pos::Pos;
use std::alloc::{AllocError, Global};
use std::fmt;
use std::marker::Model;
use std::ops::Range;
use std::rc::Rc;

/// Errors from reading some ISLE files, together with those files.
///
/// Every value can be displayed: see `accepts`.
#[derive(Debug, Drop)]
pub struct Errors {
    errors: Vec<Error>,
    files: Rc<Files>,
}

impl Model for Errors {
    ghost use Rattle.std.specs.Prelude.{◌≡◌, true};
    ghost use Rattle.isle_base_source.specs.Diagnostic.{Report};
    ghost use Rattle.isle_base_source.specs.Labels.{all_fit};

    ghost Value = { Report };

    ghost view = { λ e. record { errors = e.errors.items; files = e.files.value } };

    ghost invariant = { λ e. all_fit e.files.value e.errors.items ≡ true };
}

impl std::error::Error for Errors {}

/// Writes each error with its places, and the number of errors if there is more than one.
///
/// An error is written as its message and a line end, then its places, then a line end. A place is
/// the file's name, the line and the column (in bytes, both from 1), and that line of the file. A
/// line feed is added if the line is the last and so has none. Rules are listed in their order, a
/// mask before the rules that it shadows. An offset past the end of the text is on the last line.
///
/// The text does not depend on the formatter's options, such as `{:#}`. Nothing is allocated.
/// Writing fails only if the formatter does, and what was written before stays written.
impl fmt::Display for Errors {
    ghost output = { λ report. Some (report_text report) };

    ghost styled_output = { λ report _. Some (report_text report) };

    fn fmt<W: fmt::Write>(&self, f: &mut fmt::Formatter<W>) -> fmt::Result {
        show::write_errors(f, &self.files, &self.errors)?;
        show::write_count(f, self.errors.len())
    }
}

/// An error of the ISLE compiler, with its places in the source.
#[derive(Debug, Drop)]
pub enum Error {
    /// The input is not valid ISLE.
    ParseError {
        /// The reason.
        msg: String,
        /// The place of the error.
        span: Span,
    },
    /// The input has a type error.
    TypeError {
        /// The reason.
        msg: String,
        /// The place of the error.
        span: Span,
    },
    /// A rule can never match any input.
    UnreachableError {
        /// The reason.
        msg: String,
        /// The place of the rule.
        span: Span,
    },
    /// Rules overlap in the inputs that they match.
    OverlapError {
        /// The reason.
        msg: String,
        /// The places of the overlapping rules, the one with the most overlaps first.
        rules: Vec<Span>,
    },
    /// A term is recursive but not declared so.
    RecursionError {
        /// The reason.
        msg: String,
        /// The place of the term's declaration.
        span: Span,
    },
    /// Rules can never match, because another rule always matches first.
    ShadowedError {
        /// The places of the rules that can never match.
        shadowed: Vec<Span>,
        /// The place of the rule that shadows them.
        mask: Span,
    },
}

impl Errors {
    /// Returns whether these errors can be displayed with these files. Each error must have a
    /// place, and each place must begin in a known file, at an offset other than `usize::MAX`.
    pub fn accepts(errors: &[Error], files: &Files) -> bool
        ensures { result ≡ all_fit files.now errors.now }
    {
        errors.iter().all(|error| error.fits(files))
    }

    /// Pairs errors with the files of their places.
    ///
    /// The caller must check that they can be displayed, with `accepts`.
    pub fn new(errors: Vec<Error>, files: Rc<Files>) -> Self
        requires { all_fit files.value errors.items ≡ true }
        ensures { result ≡ record { errors = errors.items; files = files.value } }
    {
        Self { errors, files }
    }

    pub fn errors(&self) -> &[Error]
        ensures { result.now ≡ self.now.errors }
    {
        self.errors.as_slice()
    }
}

impl Error {
    /// Returns whether the error can be displayed with these files.
    fn fits(&self, files: &Files) -> bool
        ensures { result ≡ error_fits files.now self.now }
    {
        match self {
            Error::ParseError { span, .. }
            | Error::TypeError { span, .. }
            | Error::UnreachableError { span, .. }
            | Error::RecursionError { span, .. } => span.fits(files),
            Error::OverlapError { rules, .. } => !rules.is_empty() && spans_fit(rules, files),
            Error::ShadowedError { shadowed, mask } => {
                mask.fits(files) && spans_fit(shadowed, files)
            }
        }
    }
}

/// Returns whether all of these places can be displayed with these files.
fn spans_fit(spans: &[Span], files: &Files) -> bool
    ensures { result ≡ list_all (span_fits files.now) spans.now }
{
    spans.iter().all(|span| span.fits(files))
}

/// Builder for [`Errors`].
#[derive(Drop)]
pub struct ErrorsBuilder {
    errors: Vec<Error>,
    files: Rc<Files>,
}

impl Model for ErrorsBuilder {
    ghost use Rattle.isle_base_source.specs.Diagnostic.{Report};

    ghost Value = { Report };

    ghost view = { λ b. record { errors = b.errors.items; files = b.files.value } };
}

impl ErrorsBuilder {
    /// Starts with no errors and no files.
    pub fn new(alloc: Global) -> Result<Self, AllocError>
        ensures { IfOk result (λ builder. builder ≡ record { errors = []; files = [] }) }
    {
        Ok(Self {
            errors: Vec::new(alloc),
            files: Rc::new(alloc, Files::default(alloc))?,
        })
    }

    /// Replaces the errors given before.
    pub fn errors(mut self, errors: Vec<Error>) -> Self
        ensures { result ≡ record self { errors = errors.items } }
    {
        self.errors = errors;
        self
    }

    /// Replaces the errors given before by this one.
    ///
    /// If memory runs out, the builder is dropped.
    pub fn error(self, alloc: Global, error: Error) -> Result<Self, AllocError>
        ensures { IfOk result (λ builder. builder ≡ record self { errors = error ∷ [] }) }
    {
        Ok(self.errors(vec![in alloc; error]?))
    }

    /// Replaces the files given before.
    pub fn files(mut self, files: Rc<Files>) -> Self
        ensures { result ≡ record self { files = files.value } }
    {
        self.files = files;
        self
    }

    /// Returns whether the errors can be displayed with the files, as `Errors::accepts` does.
    pub fn is_buildable(&self) -> bool
        ensures { result ≡ all_fit self.now.files self.now.errors }
    {
        Errors::accepts(&self.errors, &self.files)
    }

    /// Pairs the errors with the files.
    ///
    /// The caller must check that they can be displayed, with `is_buildable`.
    pub fn build(self) -> Errors
        requires { all_fit self.files self.errors ≡ true }
        ensures { result ≡ self }
    {
        Errors::new(self.errors, self.files)
    }
}

/// A range of source text, from one position up to another.
#[derive(Clone, Debug, Drop)]
pub struct Span {
    /// The position of its first byte.
    pub from: Pos,
    /// The position after its last byte.
    pub to: Pos,
}

impl Span {
    /// The span of the single byte at a position.
    ///
    /// The offset must not be `usize::MAX`, since the span ends one byte after it.
    pub fn new_single(pos: Pos) -> Span
        requires { pos.offset + 1 < 2 ^ 64 }
        ensures from { result.from ≡ pos }
        ensures to { result.to ≡ record { file = pos.file; offset = pos.offset + 1 } }
    {
        Span {
            from: pos,
            to: Pos::new(pos.file, pos.offset + 1),
        }
    }

    /// Returns whether the place can be displayed with these files.
    fn fits(&self, files: &Files) -> bool
        ensures { result ≡ span_fits files.now self.now }
    {
        files.file_name(self.from.file).is_some() && self.from.offset < usize::MAX
    }
}

/// The two byte offsets of a span, without its files.
impl From<&Span> for Range<usize> {
    ghost from_gives = { λ span range.
        range ≡ record { start = span.now.from.offset; end = span.now.to.offset } };

    fn from(span: &Span) -> Self {
        span.from.offset..span.to.offset
    }
}
