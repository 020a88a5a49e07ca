//! The environment in which rules are typed.

ghost use Rattle.std.specs.Prelude.{◌≡◌, IfOk, false, option_map, string_bytes};
ghost use Rattle.isle_ast.specs.MacroArgs.{definitions_have_macro_arg};
ghost use Rattle.isle_ast.specs.TreeView.{definitions_of};
ghost use Rattle.isle_ast_rules.specs.TreeView.{pattern_of};
ghost use Rattle.isle_check_environment.specs.signatures.Environment.{environment};
ghost use Rattle.isle_check_environment.specs.signatures.Views.{environment_of, term_of};

use crate::by_text::ByText;
use crate::names::{Names, has};
use crate::parts::types_in;
use crate::signatures::by_texts::value_at;
use crate::signatures::constants::constants;
use crate::signatures::converters::{Converters, converters};
use crate::signatures::externals::{constructors, extractors};
use crate::signatures::templates::templates;
use crate::signatures::terms::{Term, terms_by_text};
use crate::signatures::types::primitives;
use crate::terms::{Terms, known_terms};
use crate::types::{is_integer_type, is_type, type_names};
use isle_ast::ast::{Def, Pattern};
use std::alloc::{AllocError, Global};

/// What the definitions of a program declare, by text.
#[derive(Drop)]
pub struct Environment<'a> {
    /// The types that are defined.
    pub types: Names,
    /// Those of them that are primitive.
    pub primitives: Names,
    /// The types of constants.
    pub constants: ByText<String>,
    /// The terms: what is declared of each.
    pub terms: ByText<Term>,
    /// The terms: which sorts of definition each has.
    pub sorts: Terms,
    /// The templates of internal extractors.
    pub templates: ByText<Pattern>,
    /// The terms with an external extractor.
    pub extractors: Names,
    /// The terms with an external constructor.
    pub constructors: Names,
    /// The terms that convert, by the inner and the outer type.
    pub converters: Converters<'a>,
}

impl<'a> Environment<'a> {
    /// Returns the environment of a program. Doubled definitions are errors of other calls: here
    /// the last of them counts, and the first converter of two types. No template may hold a macro
    /// argument, `Pattern::MacroArg`, which the parser never makes. An `Err` means out of memory.
    pub fn new(alloc: Global, defs: &'a [Def]) -> Result<Environment<'a>, AllocError>
        requires { definitions_have_macro_arg (definitions_of defs.now) ≡ false }
        ensures { IfOk result
            (λ made. environment_of made ≡ environment (definitions_of defs.now)) }
    {
        let found = types_in(alloc, defs)?;
        let types = type_names(alloc, &found)?;
        let primitives = primitives(alloc, defs)?;
        let constants = constants(alloc, defs)?;
        let terms = terms_by_text(alloc, defs)?;
        let sorts = known_terms(alloc, defs)?;
        let templates = templates(alloc, defs)?;
        let extractors = extractors(alloc, defs)?;
        let constructors = constructors(alloc, defs)?;
        let converters = converters(alloc, defs)?;
        Ok(Environment {
            types,
            primitives,
            constants,
            terms,
            sorts,
            templates,
            extractors,
            constructors,
            converters,
        })
    }

    /// Returns whether a type is known.
    pub fn is_type(&self, text: &str) -> bool
        ensures { result ≡ (environment_of self.now).is_type text.now }
    {
        is_type(&self.types, text)
    }

    /// Returns whether an integer may be written for a value of a type: the type is a built-in
    /// integer type, or primitive.
    pub fn is_number(&self, text: &str) -> bool
        ensures { result ≡ (environment_of self.now).is_number text.now }
    {
        is_integer_type(text) || has(&self.primitives, text)
    }

    /// Returns the type of a constant, if the constant is known.
    pub fn constant(&self, text: &str) -> Option<&String>
        ensures { option_map (λ t. string_bytes t.now) result
            ≡ (environment_of self.now).constants text.now }
    {
        self.constants.get(text)
    }

    /// Returns a term, if it is known.
    pub fn term(&self, text: &str) -> Option<&Term>
        ensures { option_map (λ t. term_of t.now) result
            ≡ (environment_of self.now).terms text.now }
    {
        self.terms.get(text)
    }

    /// Returns the template of a term, if it has an internal extractor.
    pub fn template(&self, text: &str) -> Option<&Pattern>
        ensures { option_map (λ p. pattern_of p.now) result
            ≡ (environment_of self.now).templates text.now }
    {
        self.templates.get(text)
    }

    /// Returns the term that converts a value of the inner type to the outer one: that of the first
    /// converter of the two types, if there is one.
    pub fn converter(&self, inner: &str, outer: &str) -> Option<&String>
        ensures { option_map (λ t. string_bytes t.now) result
            ≡ (environment_of self.now).converters inner.now outer.now }
    {
        value_at(&self.converters, inner, outer).copied()
    }

    /// Returns whether a term may stand in an expression: it is a variant, the root of a rule, or
    /// has an external constructor.
    pub fn has_constructor(&self, text: &str) -> bool
        ensures { result ≡ (environment_of self.now).has_constructor text.now }
    {
        has(&self.sorts.variants, text)
            || has(&self.sorts.ruled, text)
            || has(&self.constructors, text)
    }

    /// Returns whether a term may stand in a pattern: it is a variant, or has an extractor.
    pub fn has_extractor(&self, text: &str) -> bool
        ensures { result ≡ (environment_of self.now).has_extractor text.now }
    {
        has(&self.sorts.variants, text)
            || has(&self.sorts.templates, text)
            || has(&self.extractors, text)
    }
}
