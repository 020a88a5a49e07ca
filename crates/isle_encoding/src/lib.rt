//! An encoding of ISLE's tree as bytes, for callers in other languages; in its module `findings`,
//! one of what is found in a tree.
//!
//! A tree is a version, the encoding of each definition, and a 0. A node is a byte for its kind,
//! then its parts in the order of its fields. A number is written in base 64, lowest digit first,
//! with 64 added to each digit but the last. A text is its length in bytes and its bytes, and a
//! name is a text and a position. A list is its length and its items. The result is valid UTF-8,
//! since all bytes outside of texts are below 128.
//!
//! Each `put_..` function appends the encoding of its argument. `specs/Encoded.antt` defines the
//! encoding, and the law `laws::encodings_end` says that it loses nothing. What puts numbers,
//! flags, texts and positions is public, so that other encodings have them the same way.
#![tactic(auto)]

ghost use Rattle.std.specs.Prelude.{◌≡◌, ◌++◌, [], ◌∷◌, IfOk, OnOk, string_bytes};
ghost use Rattle.isle_ast.specs.TreeView.{definitions_of};
ghost use Rattle.isle_encoding.specs.Encoded.{encoded};

mod definitions;
pub mod findings;
pub mod laws;
mod names;
mod nodes;
mod numbers;
mod rules;
mod verification;

pub use definitions::put_definition;
use isle_ast::ast::Def;
pub use names::{put_position, put_text};
use numbers::put_byte;
pub use numbers::{put_flag, put_number};
use std::alloc::{AllocError, Global};

/// Encodes a tree.
pub fn encode(alloc: Global, defs: &[Def]) -> Result<String, AllocError>
    ensures { IfOk result (λ bytes. string_bytes bytes ≡ encoded (definitions_of defs.now)) }
{
    let mut out = String::new(alloc);
    put_start(&mut out)?;
    for def in defs {
        put_definition(&mut out, def)?;
    }
    put_end(&mut out)?;
    Ok(out)
}

/// Appends the start of an encoding, before the definitions: its version.
pub fn put_start(out: &mut String) -> Result<(), AllocError>
    ensures { OnOk result (string_bytes out.new ≡ string_bytes out.old ++ 1 ∷ []) }
{
    put_byte(out, 1)
}

/// Appends the end of an encoding, after the definitions.
pub fn put_end(out: &mut String) -> Result<(), AllocError>
    ensures { OnOk result (string_bytes out.new ≡ string_bytes out.old ++ 0 ∷ []) }
{
    put_byte(out, 0)
}
