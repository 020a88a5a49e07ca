//! Programs with the findings that are told of them.

ghost use Rattle.std.specs.Prelude.{◌≡◌, IfOk, map, string_bytes};
ghost use Rattle.isle_lint_core.specs.Finding.{finding_of};
ghost use Rattle.isle_program_findings.specs.Programs.{share_of};
ghost use Rattle.isle_lint.specs.Linted.{found_of, is_among, is_same, linted_of, programs_of};
ghost use Rattle.isle_lint.specs.Linted.{share_of_linted};

use isle_base::lexer::Pos;
use isle_lint_core::{Finding, Lint};
use isle_program_findings::programs::{Part, Share, is_own, tag};
use std::alloc::{AllocError, Global};

/// A finding that outlives the trees.
#[derive(Drop)]
pub struct Told {
    pub pos: Pos,
    pub lint: Lint,
    pub name: String,
}

/// A program that is linted.
#[derive(Drop)]
pub struct Linted<'a> {
    pub part: &'a Part,
    pub told: Vec<Told>,
}

impl Told {
    /// The finding.
    pub fn finding(&self) -> Finding<'_>
        ensures { finding_of result ≡ found_of self.now }
    {
        Finding {
            pos: self.pos,
            lint: self.lint,
            name: self.name.as_str(),
        }
    }
}

/// The names of the programs that have a finding, as ` [x64, aarch64]`; empty if each program that
/// has its file has it.
pub fn programs_of(
    alloc: Global,
    linted: &[Linted],
    finding: &Finding,
) -> Result<String, AllocError>
    ensures { IfOk result (λ text. string_bytes text
        ≡ programs_of (finding_of finding.now) (map linted_of linted.now)) }
{
    let shares = shares_of(alloc, linted, finding)?;
    tag(alloc, &shares)
}

/// Each program, and whether it has the file of a finding, and the finding.
fn shares_of<'a>(
    alloc: Global,
    linted: &'a [Linted],
    finding: &Finding,
) -> Result<Vec<Share<'a>>, AllocError>
    ensures { IfOk result (λ shares. map share_of shares.items
        ≡ map (share_of_linted (finding_of finding.now)) (map linted_of linted.now)) }
{
    let mut shares = Vec::new(alloc);
    for program in linted {
        shares.push(share_in(program, finding))?;
    }
    Ok(shares)
}

/// A program, and whether it has the file of a finding, and the finding.
fn share_in<'a>(program: &'a Linted, finding: &Finding) -> Share<'a>
    ensures { share_of result ≡ share_of_linted (finding_of finding.now) (linted_of program.now) }
{
    Share {
        name: program.part.name.as_str(),
        has_file: is_own(&program.part.has, finding.pos.file),
        has_finding: has_told(&program.told, finding),
    }
}

/// Returns whether a finding is told of a program.
fn has_told(told: &[Told], finding: &Finding) -> bool
    ensures { result ≡ is_among (map found_of told.now) (finding_of finding.now) }
{
    for other in told {
        if is_same(finding, &other.finding()) {
            return true;
        }
    }
    false
}

/// Returns whether two findings are the same: one lint finds one name at one place.
pub fn is_same(a: &Finding, b: &Finding) -> bool
    ensures { result ≡ is_same (finding_of a.now) (finding_of b.now) }
{
    a.pos.file == b.pos.file
        && a.pos.offset == b.pos.offset
        && a.lint.name() == b.lint.name()
        && a.name == b.name
}
