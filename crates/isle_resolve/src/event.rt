//! Events: each says that a name is defined, used or bound, or that a scope ends.

ghost use Rattle.std.specs.Prelude.{◌≡◌, ◌++◌, ◌∷◌, [], OnOk};
ghost use Rattle.isle_ast_names.specs.TreeView.{name_of};
ghost use Rattle.isle_resolve.specs.EventView.{event_of, events_of, word_of};

use isle_ast::ast::Ident;
use isle_base::lexer::Pos;
use std::alloc::AllocError;

/// The kind of a name that is visible in the whole program.
#[derive(Clone, Copy, PartialEq, Eq)]
pub enum Kind {
    /// A term declared by a `decl`, or a variant of a type, `TYPE.VARIANT`.
    Term,
    /// A type defined by a `type`.
    Type,
    /// A constant defined by an `extern const`. Its text has no `$`.
    Constant,
}

/// What a variable in a pattern is, or the parameter of an extractor.
#[derive(Clone, Copy, PartialEq, Eq)]
pub enum Role {
    /// A variable in a pattern of a rule.
    Plain,
    /// A parameter of an extractor.
    Parameter,
    /// A variable of a template that stands alone. If it is a parameter, an expansion has the
    /// argument in its place; otherwise the expansion has the variable.
    Template,
    /// A variable before an `@` in a template. An expansion has it even if it is a parameter,
    /// except before `@ _`.
    Named,
}

/// A name as it occurs in the source.
#[derive(Clone, Copy)]
pub struct Word<'a> {
    /// Its text, which for a constant has no `$`.
    pub text: &'a str,
    /// The position of its first byte, which for a constant is the `$`.
    pub pos: Pos,
}

impl<'a> Word<'a> {
    pub fn new(ident: &'a Ident) -> Self
        ensures { word_of result ≡ name_of ident.now }
    {
        Self {
            text: ident.0.as_str(),
            pos: ident.1,
        }
    }
}

/// What happens to a name at one place of the source, or the end of a scope.
#[derive(Clone, Copy)]
pub enum Event<'a> {
    /// A `decl`, a `type` or an `extern const` defines a name.
    Defines(Kind, Word<'a>),
    /// A name is used.
    Uses(Kind, Word<'a>),
    /// A `type` defines a variant, which is the term `OWNER.MEMBER`.
    DefinesVariant {
        /// The type.
        owner: Word<'a>,
        /// The variant's own name.
        member: Word<'a>,
    },
    /// A variable in a pattern, or a parameter of an extractor. It binds the variable if nothing
    /// has bound it before, and uses it otherwise.
    Occurs(Role, Word<'a>),
    /// A `let` binds a variable.
    Binds(Word<'a>),
    /// An expression uses a variable.
    Reads(Word<'a>),
    /// The scope of the variable that a `let` bound last ends.
    Closes,
    /// The scope of a rule or an extractor ends.
    Ends,
}

pub(crate) fn add<'a>(event: Event<'a>, found: &mut Vec<Event<'a>>) -> Result<(), AllocError>
    ensures { OnOk result (events_of found.new.items
        ≡ events_of found.old.items ++ event_of event.entry ∷ []) }
{
    found.push(event)?;
    Ok(())
}
