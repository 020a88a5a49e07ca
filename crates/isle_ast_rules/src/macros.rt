//! Macro templates: patterns with placeholders for a macro's arguments, and their substitution.

ghost use Rattle.std.specs.Prelude.{◌≡◌, List, IfOk, false, is_none, option_map, slice_get};
ghost use Rattle.isle_ast_rules.specs.Tree.{PatternNode, macro_arg_pattern};
ghost use Rattle.isle_ast_rules.specs.MacroArgs.{has_macro_arg};
ghost use Rattle.isle_ast_rules.specs.Templates.{bound_index, first_index, indices, is_wildcard};
ghost use Rattle.isle_ast_rules.specs.Templates.{lacks, plug, plug_list, replace, replace_by};
ghost use Rattle.isle_ast_rules.specs.Templates.{replace_list};
ghost use Rattle.isle_ast_names.specs.TreeView.{name_of, names_of};
ghost use Rattle.isle_ast_rules.specs.TreeView.{pattern_of, pattern_list_of, patterns_of};

use crate::Pattern;
use isle_ast_names::Ident;
use std::alloc::{AllocError, Global};

impl Pattern {
    /// Turns the pattern into the template of a macro with these parameters: each variable with the
    /// name of a parameter is replaced by that parameter's argument.
    ///
    /// It replaces both `x` and `x @ _`. If two parameters have the same name, the first counts. In
    /// `x @ P` with any other pattern the variable stays, and only `P` is searched.
    ///
    /// The pattern must not contain macro arguments yet; check with `has_macro_arg`.
    pub fn make_macro_template(
        &self,
        alloc: Global,
        macro_args: &[Ident],
    ) -> Result<Pattern, AllocError>
        requires { has_macro_arg (pattern_of self.now) ≡ false }
        ensures template { IfOk result
            (λ made. pattern_of made
            ≡ replace (pattern_of self.now) (names_of macro_args.now) macro_arg_pattern) }
        ensures missing { IfOk result
            (λ made. (args : List PatternNode) → is_none (plug (pattern_of made) args)
            ≡ lacks args (indices (pattern_of made))) }
        ensures filled { IfOk result
            (λ made. (args : List PatternNode) → plug (pattern_of made) args
            ≡ replace_by (pattern_of self.now) (names_of macro_args.now)
            (λ i _. slice_get args i)) }
    {
        template_of(self, alloc, macro_args)
    }

    /// Substitutes patterns for the macro's arguments, each by its index. Returns `None` if an
    /// argument has no pattern.
    ///
    /// Substituted patterns are not searched again, so macro arguments in them stay.
    pub fn subst_macro_args(
        &self,
        alloc: Global,
        macro_args: &[Pattern],
    ) -> Result<Option<Pattern>, AllocError>
        ensures plugged { IfOk result
            (λ made. option_map pattern_of made
            ≡ plug (pattern_of self.now) (patterns_of macro_args.now)) }
        ensures missing { IfOk result
            (λ made. is_none made
            ≡ lacks (patterns_of macro_args.now) (indices (pattern_of self.now))) }
    {
        plugged(self, alloc, macro_args)
    }
}

/// Makes the template of a pattern.
#[cycle(template)]
fn template_of(pattern: &Pattern, alloc: Global, names: &[Ident]) -> Result<Pattern, AllocError>
    ensures { IfOk result
        (λ made. pattern_of made
        ≡ replace (pattern_of pattern.now) (names_of names.now) macro_arg_pattern) }
{
    match pattern {
        Pattern::Var { var, pos } => match first_index(var, names) {
            Some(index) => Ok(Pattern::MacroArg { index, pos: *pos }),
            None => pattern.clone(),
        },
        Pattern::BindPattern { var, subpat, pos } => match bound_index(var, subpat, names) {
            Some(index) => Ok(Pattern::MacroArg { index, pos: *pos }),
            None => {
                let made = template_of(subpat, alloc, names)?;
                Ok(Pattern::BindPattern {
                    var: var.clone()?,
                    subpat: Box::new(alloc, made)?,
                    pos: *pos,
                })
            }
        },
        Pattern::Term { sym, args, pos } => Ok(Pattern::Term {
            sym: sym.clone()?,
            args: templates_of(args, alloc, names)?,
            pos: *pos,
        }),
        Pattern::And { subpats, pos } => Ok(Pattern::And {
            subpats: templates_of(subpats, alloc, names)?,
            pos: *pos,
        }),
        Pattern::ConstBool { .. }
        | Pattern::ConstInt { .. }
        | Pattern::ConstPrim { .. }
        | Pattern::Wildcard { .. }
        | Pattern::MacroArg { .. } => pattern.clone(),
    }
}

#[cycle(template)]
fn templates_of(
    patterns: &Vec<Pattern>,
    alloc: Global,
    names: &[Ident],
) -> Result<Vec<Pattern>, AllocError>
    ensures { IfOk result
        (λ made. pattern_list_of (patterns_of made.items)
        ≡ replace_list (pattern_list_of (patterns_of patterns.now.items)) (names_of names.now)
        macro_arg_pattern) }
{
    let mut made = Vec::with_capacity(alloc, patterns.len())?;
    for pattern in patterns {
        made.push(template_of(pattern, alloc, names)?)?;
    }
    Ok(made)
}

/// The index of the argument that replaces `x @ P`: none unless `P` is `_`.
fn bound_index(var: &Ident, subpat: &Pattern, names: &[Ident]) -> Option<usize>
    ensures { result
        ≡ bound_index (name_of var.now).text (pattern_of subpat.now) (names_of names.now) }
{
    if is_wildcard(subpat) {
        first_index(var, names)
    } else {
        None
    }
}

/// Returns whether a pattern is `_`.
fn is_wildcard(pattern: &Pattern) -> bool
    ensures { result ≡ is_wildcard (pattern_of pattern.now) }
{
    matches!(pattern, Pattern::Wildcard { .. })
}

/// The index of the first name with the text of a variable.
fn first_index(var: &Ident, names: &[Ident]) -> Option<usize>
    ensures { result ≡ first_index (name_of var.now).text (names_of names.now) }
{
    for (i, name) in names.iter().enumerate() {
        if name.0 == var.0 {
            return Some(i);
        }
    }
    None
}

/// Substitutes patterns for a macro's arguments.
#[cycle(plug)]
fn plugged(
    pattern: &Pattern,
    alloc: Global,
    macro_args: &[Pattern],
) -> Result<Option<Pattern>, AllocError>
    ensures { IfOk result
        (λ made. option_map pattern_of made
        ≡ plug (pattern_of pattern.now) (patterns_of macro_args.now)) }
{
    match pattern {
        Pattern::BindPattern { var, subpat, pos } => match plugged(subpat, alloc, macro_args)? {
            Some(made) => Ok(Some(Pattern::BindPattern {
                var: var.clone()?,
                subpat: Box::new(alloc, made)?,
                pos: *pos,
            })),
            None => Ok(None),
        },
        Pattern::Term { sym, args, pos } => match plugged_list(args, alloc, macro_args)? {
            Some(args) => Ok(Some(Pattern::Term {
                sym: sym.clone()?,
                args,
                pos: *pos,
            })),
            None => Ok(None),
        },
        Pattern::And { subpats, pos } => match plugged_list(subpats, alloc, macro_args)? {
            Some(subpats) => Ok(Some(Pattern::And { subpats, pos: *pos })),
            None => Ok(None),
        },
        Pattern::MacroArg { index, .. } => argument(*index, macro_args),
        Pattern::Var { .. }
        | Pattern::ConstBool { .. }
        | Pattern::ConstInt { .. }
        | Pattern::ConstPrim { .. }
        | Pattern::Wildcard { .. } => Ok(Some(pattern.clone()?)),
    }
}

/// Copies the pattern with this index, if there is one.
fn argument(index: usize, macro_args: &[Pattern]) -> Result<Option<Pattern>, AllocError>
    ensures { IfOk result
        (λ made. option_map pattern_of made ≡ slice_get (patterns_of macro_args.now) index) }
{
    match macro_args.get(index) {
        Some(arg) => Ok(Some(arg.clone()?)),
        None => Ok(None),
    }
}

/// Substitutes patterns for a macro's arguments in each pattern.
#[cycle(plug)]
fn plugged_list(
    patterns: &Vec<Pattern>,
    alloc: Global,
    macro_args: &[Pattern],
) -> Result<Option<Vec<Pattern>>, AllocError>
    ensures { IfOk result
        (λ made. option_map (λ ps. pattern_list_of (patterns_of ps.items)) made
        ≡ plug_list (pattern_list_of (patterns_of patterns.now.items))
        (patterns_of macro_args.now)) }
{
    let mut made = Vec::with_capacity(alloc, patterns.len())?;
    for pattern in patterns {
        match plugged(pattern, alloc, macro_args)? {
            Some(next) => made.push(next)?,
            None => return Ok(None),
        }
    }
    Ok(Some(made))
}
