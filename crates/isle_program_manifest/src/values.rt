//! The members of TOML tables, and the levels among them.

ghost use Rattle.std.specs.Prelude.{◌≡◌, option_map};
ghost use Rattle.toml.specs.Data.{get_member};
ghost use Rattle.toml.specs.View.{table_view, view};
ghost use Rattle.isle_program_manifest.specs.Levels.{level_in};

use crate::levels::Level;
use toml::{Table, Value};

/// The value at a key.
pub(crate) fn member<'a>(table: &'a Table, key: &str) -> Option<&'a Value>
    ensures { option_map (λ v. view v.now) result ≡ get_member key.now (table_view table.now) }
{
    table.get(key)
}

/// The level that a value names, if it is a string that does.
pub(crate) fn level_in(value: &Value) -> Option<Level>
    ensures { result ≡ level_in (view value.now) }
{
    match value.as_str() {
        Some(word) => Level::named(word),
        None => None,
    }
}
