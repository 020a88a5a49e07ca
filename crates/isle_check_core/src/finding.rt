//! Findings.

ghost use Rattle.std.specs.Prelude.{◌≡◌, [], IfOk, OnOk, string_bytes};
ghost use Rattle.isle_ast_names.specs.TreeView.{name_of};
ghost use Rattle.isle_check_core.specs.FindingWords.{finding_notes, first_name, kind_words};
ghost use Rattle.isle_check_core.specs.FindingWords.{path_after};
ghost use Rattle.isle_check_core.specs.FindingWords.{warning_words, with_step};
ghost use Rattle.isle_check_core.specs.Findings.{constant_again, is_error};
ghost use Rattle.isle_check_core.specs.Findings.{is_overlap_error, is_rule_error};
ghost use Rattle.isle_check_core.specs.Findings.{parameter_count, recursive_extractor};
ghost use Rattle.isle_check_core.specs.Views.{finding_of, node_of};
ghost use Rattle.isle_check_messages.specs.Notes.{notes_of};
ghost use Rattle.isle_check_messages.specs.Words.{words_of};
ghost use Rattle.isle_check_overlaps.specs.Views as overlaps;
ghost use Rattle.isle_check_recursion.specs.Views.{names_at};
ghost use Rattle.isle_check_rules.specs.Views.{warning_kind_of};
ghost use Rattle.isle_check_typing.specs.Views.{kind_of};

use isle_ast::ast::Ident;
use isle_base::lexer::Pos;
use isle_check_messages::{
    Note, Words, about, about_three, about_two, declaration_words, overlap_notes, overlap_words,
    plain, rule_words,
};
use isle_check_rules::WarningKind;
use std::alloc::{AllocError, Global};

/// An error or a warning.
#[derive(Drop)]
pub struct Finding<'a> {
    /// What is wrong.
    pub kind: Kind<'a>,
    /// The position that it is reported at.
    pub pos: Pos,
}

impl<'a> Finding<'a> {
    /// Returns what is told of other rules, each at its position: those that overlap with a rule,
    /// and those that a rule hides. For all other kinds there is nothing. An `Err` means out of
    /// memory.
    pub fn notes(&self, alloc: Global) -> Result<Vec<Note>, AllocError>
        ensures { IfOk result (λ made. notes_of made.items ≡ finding_notes (finding_of self.now)) }
    {
        match &self.kind {
            Kind::Overlap(kind) => overlap_notes(alloc, self.pos, kind),
            _ => Ok(Vec::new(alloc)),
        }
    }
}

/// What is wrong in a program.
#[derive(Drop)]
pub enum Kind<'a> {
    /// An error of a declaration.
    Declaration(isle_check_declarations::Kind<'a>),
    /// An error: the expansion of an internal extractor does not come to an end. Each of the terms
    /// uses the next one. The position is that of the last one's template.
    RecursiveExtractor(Vec<&'a Ident>),
    /// An error of a rule, except for `ParameterWithoutArgument`, which is a warning: upstream
    /// leaves the pattern out and reports nothing.
    Rule(isle_check_typing::Kind),
    /// An error: more than 500 patterns or expressions of a rule lie in one another once templates
    /// are filled and conversions are written out. It is the first such rule, and no rule is
    /// checked. Behind it come the conversions that do not come to an end.
    DeepRule,
    /// An error of rules beside one another, except for `PartOfItself` and `ShadowsWithEquals`,
    /// which are warnings: upstream ends without an error, does not end, or fails later.
    Overlap(isle_check_overlaps::Kind),
    /// A warning: a constant is already declared.
    ConstantAgain(&'a Ident),
    /// A warning: an internal extractor has another number of parameters than its term has
    /// arguments.
    ParameterCount {
        /// The term.
        extractor: &'a Ident,
        /// The number of parameters.
        parameters: usize,
        /// The number of arguments that are declared.
        arguments: usize,
    },
    /// A warning: the conversion of the first type to the second one does not come to an end.
    EndlessConversion(&'a Ident, &'a Ident),
    /// A warning of a rule.
    RuleWarning(WarningKind),
}

impl<'a> Kind<'a> {
    /// Returns whether it is an error, and not a warning.
    pub fn is_error(&self) -> bool
        ensures { result ≡ is_error (node_of self.now) }
    {
        match self {
            Kind::Declaration(_) | Kind::RecursiveExtractor(_) | Kind::DeepRule => true,
            Kind::Rule(kind) => is_rule_error(kind),
            Kind::Overlap(kind) => is_overlap_error(kind),
            Kind::ConstantAgain(_)
            | Kind::ParameterCount { .. }
            | Kind::EndlessConversion(..)
            | Kind::RuleWarning(_) => false,
        }
    }

    /// Returns the name of the kind, and the message. An `Err` means out of memory.
    pub fn words(&self, alloc: Global) -> Result<Words, AllocError>
        ensures { IfOk result (λ made. words_of made ≡ kind_words (node_of self.now)) }
    {
        match self {
            Kind::Declaration(kind) => declaration_words(alloc, kind),
            Kind::RecursiveExtractor(path) => recursion_words(alloc, path),
            Kind::Rule(kind) => rule_words(alloc, kind),
            Kind::DeepRule => plain(
                alloc,
                "deep-rule",
                "This rule nests too deeply once extractors are expanded and conversions are \
                 written out: no rule is checked",
            ),
            Kind::Overlap(kind) => overlap_words(alloc, kind),
            Kind::ConstantAgain(name) => constant_words(alloc, name),
            Kind::ParameterCount {
                extractor,
                parameters,
                arguments,
            } => count_words(alloc, extractor, *parameters, *arguments),
            Kind::EndlessConversion(inner, outer) => about_two(
                alloc,
                "endless-conversion",
                "Conversion from '",
                inner.0.as_str(),
                "' to '",
                outer.0.as_str(),
                "' does not come to an end",
            ),
            Kind::RuleWarning(kind) => warning_words(alloc, kind),
        }
    }
}

/// Returns whether upstream reports it.
fn is_rule_error(kind: &isle_check_typing::Kind) -> bool
    ensures { result ≡ is_rule_error (kind_of kind.now) }
{
    !matches!(kind, isle_check_typing::Kind::ParameterWithoutArgument(_))
}

/// Returns whether upstream reports it.
fn is_overlap_error(kind: &isle_check_overlaps::Kind) -> bool
    ensures { result ≡ is_overlap_error (overlaps.kind_of kind.now) }
{
    !matches!(
        kind,
        isle_check_overlaps::Kind::PartOfItself | isle_check_overlaps::Kind::ShadowsWithEquals(..)
    )
}

fn recursion_words(alloc: Global, path: &[&Ident]) -> Result<Words, AllocError>
    ensures { IfOk result
        (λ made. words_of made ≡ kind_words (recursive_extractor (names_at path.now))) }
{
    let shown = path_text(alloc, path)?;
    about_two(
        alloc,
        "recursive-extractor",
        "`",
        first_name(path),
        "` extractor definition is recursive: ",
        shown.as_str(),
        "",
    )
}

fn first_name<'a>(path: &[&'a Ident]) -> &'a str
    ensures { result.now ≡ first_name (names_at path.now) }
{
    match path.first() {
        Some(name) => name.0.as_str(),
        None => "",
    }
}

/// Returns the names of terms with arrows between them.
fn path_text(alloc: Global, path: &[&Ident]) -> Result<String, AllocError>
    ensures { IfOk result (λ text. string_bytes text ≡ path_after [] (names_at path.now)) }
{
    let mut text = String::new(alloc);
    for name in path {
        add_step(&mut text, name)?;
    }
    Ok(text)
}

fn add_step(text: &mut String, name: &Ident) -> Result<(), AllocError>
    ensures { OnOk result (string_bytes text.new
        ≡ with_step (string_bytes text.old) (name_of name.now)) }
{
    if !text.is_empty() {
        text.push_str(" -> ")?;
    }
    text.push_str(name.0.as_str())
}

fn constant_words(alloc: Global, name: &Ident) -> Result<Words, AllocError>
    ensures { IfOk result
        (λ made. words_of made ≡ kind_words (constant_again (name_of name.now))) }
{
    about(
        alloc,
        "duplicate-constant",
        "Constant '$",
        name.0.as_str(),
        "' declared more than once: its last type counts",
    )
}

fn count_words(
    alloc: Global,
    extractor: &Ident,
    parameters: usize,
    arguments: usize,
) -> Result<Words, AllocError>
    ensures { IfOk result (λ made. words_of made
        ≡ kind_words (parameter_count (name_of extractor.now) parameters arguments)) }
{
    let parameters = format!(in alloc; "{parameters}")?;
    let arguments = format!(in alloc; "{arguments}")?;
    about_three(
        alloc,
        "extractor-parameters",
        "Extractor of '",
        extractor.0.as_str(),
        "' has ",
        parameters.as_str(),
        " parameters, but the term ",
        arguments.as_str(),
        " arguments",
    )
}

fn warning_words(alloc: Global, kind: &WarningKind) -> Result<Words, AllocError>
    ensures { IfOk result (λ made. words_of made ≡ warning_words (warning_kind_of kind.now)) }
{
    match kind {
        WarningKind::NoConstructor(term) => about(
            alloc,
            "condition-without-constructor",
            "term `",
            term.as_str(),
            "` cannot be used in an expression because it does not have a constructor",
        ),
        WarningKind::MultiExtractor(term) => about(
            alloc,
            "multi-extractor",
            "Multi-extractor '",
            term.as_str(),
            "' is used, but this rule is not in a multi-term",
        ),
    }
}
