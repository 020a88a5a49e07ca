//! Encodes the errors and warnings of `isle-check`.

ghost use Rattle.std.specs.Prelude.{◌≡◌, ◌++◌, OnOk, map, string_bytes};
ghost use Rattle.isle_check_core.specs.Views.{finding_of, findings_of};
ghost use Rattle.isle_encoding.specs.findings.Encoded.{encoded, finding, told};

use crate::findings::notes::put_start;
use crate::findings::told::{Told, put_told};
use isle_check_core::Finding;
use std::alloc::{AllocError, Global};

/// Appends the encoding of findings.
pub fn put_findings(alloc: Global, out: &mut String, found: &[Finding]) -> Result<(), AllocError>
    ensures { OnOk result (string_bytes out.new
        ≡ string_bytes out.old ++ encoded (map told (findings_of found.now))) }
{
    put_start(out, found.len())?;
    for one in found {
        put_finding(alloc, out, one)?;
    }
    Ok(())
}

fn put_finding(alloc: Global, out: &mut String, value: &Finding) -> Result<(), AllocError>
    ensures { OnOk result (string_bytes out.new
        ≡ string_bytes out.old ++ finding (told (finding_of value.now))) }
{
    let words = value.kind.words(alloc)?;
    let notes = value.notes(alloc)?;
    let told = Told {
        is_error: value.kind.is_error(),
        name: words.name,
        pos: value.pos,
        message: words.message.as_str(),
        notes: notes.as_slice(),
    };
    put_told(out, &told)
}
