//! What is listed of a text that would change: its name, or its diff.

ghost use Rattle.std.specs.Prelude.{◌≡◌, ◌++◌, IfErr, IfOk, OnOk, codes, map};
ghost use Rattle.std.specs.Io.KnownBytes.{Appends};
ghost use Rattle.isle_cli.specs.Arguments.{given_of};
ghost use Rattle.isle_cli.specs.Streams.{AppendsBeginning, Writes};
ghost use Rattle.isle_cli.specs.declared.failure.Failure.TheVariants.{Output};
ghost use Rattle.isle_tidy.specs.declared.listings.Listing.TheVariants.{Diffs};
ghost use Rattle.isle_tidy.specs.Doing.{FailsListing, IsListing, IsTidyFailure, listing_of};
ghost use Rattle.isle_tidy.specs.Doing.{option_of};

use crate::pieces::tidied;
use isle_cli::arguments::{Argument, has_flag};
use isle_cli::failure::Failure;
use isle_cli::program::put;
use isle_cli::streams::write_whole;
use isle_tidy_diff::diff;
use std::alloc::Global;
use std::io::Write;

/// What is listed of texts that would change.
#[derive(Clone, Copy)]
pub enum Listing {
    /// Their names, each in a line.
    Names,
    /// Their unified diffs.
    Diffs,
}

/// What the arguments ask to be listed; `None` if texts are to be tidied.
#[tactic(auto, unfolding(crate::specs::Doing::listing_of))]
pub fn listing_of(arguments: &[Argument]) -> Option<Listing>
    ensures { result ≡ listing_of (map given_of arguments.now) }
{
    if has_flag(arguments, "--diff") {
        return Some(Listing::Diffs);
    }
    if has_flag(arguments, "--check") {
        return Some(Listing::Names);
    }
    None
}

/// The option that asks for it.
#[tactic(auto, unfolding(crate::specs::Doing::option_of))]
pub fn option_of(listing: Option<Listing>) -> &'static str
    ensures { result.now ≡ option_of listing }
{
    match listing {
        None => "--check",
        Some(Listing::Names) => "--check",
        Some(Listing::Diffs) => "--diff",
    }
}

/// Lists a text of this name, which must be untidy, on the output.
///
/// After an error the output has a beginning of what is listed, which is empty unless the output
/// failed.
pub fn put_listing<W: Write>(
    alloc: Global,
    listing: Listing,
    name: &str,
    text: &str,
    output: &mut W,
) -> Result<(), Failure>
    ensures ok { OnOk result (Writes (W.contents output.old) (W.contents output.new)
        (IsListing listing name.now text.now)) }
    ensures err { IfErr result (λ failure. FailsListing failure listing name.now text.now
        (W.contents output.old) (W.contents output.new)) }
{
    match listing {
        Listing::Names => put_line(output, name),
        Listing::Diffs => put_diff(alloc, name, text, output),
    }
}

/// Writes the diff of a text and its tidy text to the output.
fn put_diff<W: Write>(alloc: Global, name: &str, text: &str, output: &mut W) -> Result<(), Failure>
    ensures ok { OnOk result (Writes (W.contents output.old) (W.contents output.new)
        (IsListing Diffs name.now text.now)) }
    ensures err { IfErr result (λ failure. FailsListing failure Diffs name.now text.now
        (W.contents output.old) (W.contents output.new)) }
{
    match diff_of(alloc, name, text) {
        Ok(diff) => match write_whole(output, &diff) {
            Ok(()) => Ok(()),
            Err(_) => Err(Failure::Output),
        },
        Err(failure) => Err(failure),
    }
}

/// The diff of a text and its tidy text.
fn diff_of(alloc: Global, name: &str, text: &str) -> Result<Vec<u8>, Failure>
    ensures ok { IfOk result (λ diff. IsListing Diffs name.now text.now diff.items) }
    ensures err { IfErr result (λ failure. IsTidyFailure failure name.now text.now) }
{
    let tidy = tidied(alloc, name, text)?;
    match diff(alloc, name, text, tidy.as_str()) {
        Ok(diff) => Ok(diff),
        Err(_) => Err(Failure::Memory),
    }
}

/// Writes a text and a line end to the output.
fn put_line<W: Write>(output: &mut W, text: &str) -> Result<(), Failure>
    ensures ok { OnOk result (Appends (W.contents output.old) (W.contents output.new)
        (text.now ++ codes "\n")) }
    ensures err { IfErr result (λ failure. (failure ≡ Output)
        × AppendsBeginning (W.contents output.old) (W.contents output.new)
        (text.now ++ codes "\n")) }
{
    put(output, text)?;
    put(output, "\n")
}
