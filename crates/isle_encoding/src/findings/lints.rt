//! Encodes the findings of lints.

ghost use Rattle.std.specs.Prelude.{◌≡◌, ◌++◌, OnOk, map, string_bytes};
ghost use Rattle.isle_lint_core.specs.Finding.{finding_of};
ghost use Rattle.isle_encoding.specs.findings.Encoded.{encoded, finding, told_lint};

use crate::findings::notes::put_start;
use crate::findings::told::{Told, put_told};
use isle_lint_core::Finding;
use std::alloc::{AllocError, Global};

/// Appends the encoding of findings.
pub fn put_lint_findings(
    alloc: Global,
    out: &mut String,
    found: &[Finding],
) -> Result<(), AllocError>
    ensures { OnOk result (string_bytes out.new
        ≡ string_bytes out.old ++ encoded (map told_lint (map finding_of found.now))) }
{
    put_start(out, found.len())?;
    for one in found {
        put_lint_finding(alloc, out, one)?;
    }
    Ok(())
}

fn put_lint_finding(alloc: Global, out: &mut String, value: &Finding) -> Result<(), AllocError>
    ensures { OnOk result (string_bytes out.new
        ≡ string_bytes out.old ++ finding (told_lint (finding_of value.now))) }
{
    let message = value.message(alloc)?;
    let told = Told {
        is_error: false,
        name: value.lint.name(),
        pos: value.pos,
        message: message.as_str(),
        notes: &[],
    };
    put_told(out, &told)
}
