//! Names as the environment holds them, which live as long as it does.

ghost use Rattle.std.specs.Prelude.{◌≡◌, IfSome, is_some, option_map, string_bytes};
ghost use Rattle.isle_check_environment.specs.Types.{is_built_in};
ghost use Rattle.isle_check_environment.specs.signatures.Views.{environment_of, term_of};
ghost use Rattle.isle_check_typing.specs.Integers.{is_signed};

use isle_check_environment::signatures::{Environment, Term};

/// Returns the name of a type, if the type is known.
pub fn known_type<'e>(env: &'e Environment, text: &str) -> Option<&'e str>
    ensures known { is_some result ≡ (environment_of env.now).is_type text.now }
    ensures same { IfSome result (λ ty. ty.now ≡ text.now) }
{
    match built_in(text) {
        Some(ty) => Some(ty),
        None => match env.types.get_key_value(text) {
            Some((ty, _)) => Some(ty.as_str()),
            None => None,
        },
    }
}

/// Returns the name of a type that is built in.
fn built_in(text: &str) -> Option<&'static str>
    ensures known { is_some result ≡ is_built_in text.now }
    ensures same { IfSome result (λ ty. ty.now ≡ text.now) }
{
    match text {
        "bool" => Some("bool"),
        "u8" => Some("u8"),
        "u16" => Some("u16"),
        "u32" => Some("u32"),
        "u64" => Some("u64"),
        "u128" => Some("u128"),
        "usize" => Some("usize"),
        _ => signed(text),
    }
}

/// Returns the name of an integer type with a sign.
fn signed(text: &str) -> Option<&'static str>
    ensures known { is_some result ≡ is_signed text.now }
    ensures same { IfSome result (λ ty. ty.now ≡ text.now) }
{
    match text {
        "i8" => Some("i8"),
        "i16" => Some("i16"),
        "i32" => Some("i32"),
        "i64" => Some("i64"),
        "i128" => Some("i128"),
        "isize" => Some("isize"),
        _ => None,
    }
}

/// Returns a term with its name, if the term is known.
pub fn known_term<'e>(env: &'e Environment, text: &str) -> Option<(&'e str, &'e Term)>
    ensures known { option_map (λ t. term_of t.1.now) result
        ≡ (environment_of env.now).terms text.now }
    ensures same { IfSome result (λ t. t.0.now ≡ text.now) }
{
    match env.terms.get_key_value(text) {
        Some((name, term)) => Some((name.as_str(), term)),
        None => None,
    }
}

/// Returns the name of a constant and its type, if the constant is known.
pub fn known_constant<'e>(env: &'e Environment, text: &str) -> Option<(&'e str, &'e str)>
    ensures known { option_map (λ c. c.1.now) result
        ≡ (environment_of env.now).constants text.now }
    ensures same { IfSome result (λ c. c.0.now ≡ text.now) }
{
    match env.constants.get_key_value(text) {
        Some((name, ty)) => Some((name.as_str(), ty.as_str())),
        None => None,
    }
}
