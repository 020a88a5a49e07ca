//! The names that variables can have.

ghost use Rattle.std.specs.Prelude.{◌≡◌};
ghost use Rattle.isle_ast_names.specs.TreeView.{name_of};
ghost use Rattle.isle_ast_rules.specs.WritableDeciders.{is_expression_variable};

use isle_ast_names::Ident;
use isle_ast_names::writability::{begins_with_dollar, is_bool_name, is_name};

/// Returns whether a variable of an expression can have this name: it is not `true` or `false`, and
/// doesn't begin with `$`.
pub(super) fn is_expression_variable(name: &Ident) -> bool
    ensures { result ≡ is_expression_variable (name_of name.now) }
{
    is_name(name) && !is_bool_name(name) && !begins_with_dollar(name)
}
