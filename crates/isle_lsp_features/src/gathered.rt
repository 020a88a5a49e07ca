//! The index of a program, and the indexes of the last few programs.

ghost use Rattle.std.specs.Prelude.{◌≡◌, ◌<◌, ◌≤◌, [], IfErr, IfOk, IfSome, None, OnOk, Some};
ghost use Rattle.std.specs.Prelude.{length, map};
ghost use Rattle.isle_lsp_features.specs.Programs.{bytes_of, question_of, text_of};
ghost use Rattle.isle_cli.specs.declared.failure.Failure.TheVariants.{Memory};
ghost use Rattle.isle_lsp_features.specs.Answers.{IsAnswer};
ghost use Rattle.isle_lsp_features.specs.Gathered.{IsOf, Renews, kept_of};
ghost use Rattle.isle_lsp_protocol.specs.Replies.{outcome_of};

use crate::known::{Known, events_before, is_text, put, refused_in};
use crate::pieces::add_text;
use crate::{Question, Text, answer_from};
use isle_cli::failure::Failure;
use isle_index::Index;
use isle_lsp_protocol::replies::Outcome;
use std::alloc::{AllocError, Global};
use std::marker::Model;
use std::mem;

/// How many texts change before the index is made anew: it keeps the texts of names that are gone.
const MOST_CHANGES: usize = 1000;

/// Of how many programs an index is kept.
const MOST_PROGRAMS: usize = 8;

/// The indexes of the programs that were asked about last, those of the last at the end. A program
/// is known by the paths of its files, in their order.
#[derive(Drop)]
pub struct Gathered {
    latest: Vec<OfFiles>,
}

impl Gathered {
    /// No program was asked about.
    pub fn new(alloc: Global) -> Gathered {
        Gathered {
            latest: Vec::new(alloc),
        }
    }

    /// Answers a request about the names of a program, as the function `answer` does.
    pub(crate) fn answer<'a>(
        &mut self,
        alloc: Global,
        program: &[Text<'a>],
        question: Question,
    ) -> Result<Outcome<'a>, Failure>
        ensures ok { IfOk result (λ outcome. IsAnswer (question_of question.entry)
            (map text_of program.now) (outcome_of outcome)) }
        ensures err { IfErr result (λ failure. failure ≡ Memory) }
    {
        let mut last = take_index(alloc, &mut self.latest, program)?;
        let answered = last.indexed.answer(alloc, program, question)?;
        self.latest.push(last)?;
        Ok(answered)
    }
}

/// The index of a program, with the paths of its files.
#[derive(Drop)]
struct OfFiles {
    files: Vec<String>,
    indexed: Indexed,
}

/// Takes out the index of a program of these files, or makes one of no text. Then so few are left
/// that there is room for one more: the one that was asked about first goes.
fn take_index(
    alloc: Global,
    latest: &mut Vec<OfFiles>,
    program: &[Text],
) -> Result<OfFiles, AllocError> {
    if let Some(place) = place_of(latest, program) {
        return Ok(latest.remove(place));
    }
    if latest.len() >= MOST_PROGRAMS {
        latest.remove(0);
    }
    let mut files = Vec::new(alloc);
    for text in program {
        files.push(String::from_str(alloc, text.file)?)?;
    }
    Ok(OfFiles {
        files,
        indexed: Indexed::new(alloc),
    })
}

/// The place of the index of a program of these files, if there is one.
fn place_of(latest: &[OfFiles], program: &[Text]) -> Option<usize>
    ensures { IfSome result (λ place. place < length latest.now) }
{
    for (place, known) in latest.iter().enumerate() {
        if are_files(&known.files, program) {
            return Some(place);
        }
    }
    None
}

/// Returns whether these are the paths of the files of a program.
fn are_files(files: &[String], program: &[Text]) -> bool {
    if files.len() != program.len() {
        return false;
    }
    for (place, text) in program.iter().enumerate() {
        if !is_file_at(files, place, text.file) {
            return false;
        }
    }
    true
}

/// Returns whether this is the path at a place.
fn is_file_at(files: &[String], place: usize, file: &str) -> bool {
    match files.get(place) {
        Some(known) => known.as_str() == file,
        None => false,
    }
}

/// The index of a program, with the texts that it is of.
#[derive(Drop)]
struct Indexed {
    /// The texts.
    texts: Vec<Known>,
    /// The index of the definitions that are known.
    index: Index,
    /// How many texts have changed since it was made.
    changes: usize,
}

impl Model for Indexed {
    ghost use Rattle.std.specs.Prelude.{ℕ, List, map};
    ghost use Rattle.isle_lsp_features.specs.Gathered.{IsOf, bytes_in, kept_of};

    ghost Value = { List (List ℕ) };

    ghost view = { λ g. bytes_in (map kept_of g.texts.items) };

    ghost invariant = { λ g. IsOf (map kept_of g.texts.items) g.index };
}

impl Indexed {
    /// The index of a program that has no text.
    fn new(alloc: Global) -> Indexed
        ensures { result ≡ [] }
    {
        Indexed {
            texts: Vec::new(alloc),
            index: Index::new(alloc),
            changes: 0,
        }
    }

    /// Answers a request about the names of a program from this index, once it is brought up to
    /// date.
    fn answer<'a>(
        &mut self,
        alloc: Global,
        program: &[Text<'a>],
        question: Question,
    ) -> Result<Outcome<'a>, Failure>
        ensures ok { IfOk result (λ outcome. IsAnswer (question_of question.entry)
            (map text_of program.now) (outcome_of outcome)) }
        ensures err { IfErr result (λ failure. failure ≡ Memory) }
    {
        let last = mem::replace(self, Indexed::new(alloc));
        let last = last_or_new(alloc, last, program.len());
        let gathered = gathered_from(alloc, program, last)?;
        let refused = refused_in(&gathered.texts);
        let answered = answer_from(alloc, program, &gathered.index, refused, question)?;
        *self = gathered;
        Ok(answered)
    }
}

/// The last index, unless it is of more texts than these or many have changed: then one of no text.
fn last_or_new(alloc: Global, last: Indexed, len: usize) -> Indexed
    ensures { length result ≤ len }
{
    if last.texts.len() > len || last.changes > MOST_CHANGES {
        Indexed::new(alloc)
    } else {
        last
    }
}

/// The index of a program, from that of a program that has no more texts. A text that is the same
/// at the same place is not parsed. Only one definition is in memory at a time. The only `Err` is
/// `Memory`.
fn gathered_from(alloc: Global, program: &[Text], last: Indexed) -> Result<Indexed, Failure>
    requires { length last ≤ length program.now }
    ensures ok { IfOk result
        (λ gathered. gathered ≡ map bytes_of (map text_of program.now)) }
    ensures err { IfErr result (λ failure. failure ≡ Memory) }
{
    let Indexed {
        mut texts,
        mut index,
        mut changes,
    } = last;
    for (file, source) in program.iter().enumerate() {
        if !is_text(&texts, file, source.text) {
            renew(alloc, file, source.text, &mut texts, &mut index)?;
            changes = changes.saturating_add(1);
        }
    }
    Ok(Indexed {
        texts,
        index,
        changes,
    })
}

/// Puts a text into a program, and its known definitions into the index, instead of the text of
/// that number and its definitions, or at the end.
fn renew(
    alloc: Global,
    file: usize,
    text: &str,
    texts: &mut Vec<Known>,
    index: &mut Index,
) -> Result<(), Failure>
    requires place { file ≤ length texts.old.items }
    requires last { IsOf (map kept_of texts.old.items) index.old }
    ensures ok { OnOk result (IsOf (map kept_of texts.new.items) index.new) }
    ensures texts { OnOk result (Renews file text.now (map kept_of texts.old.items)
        (map kept_of texts.new.items)) }
    ensures err { IfErr result (λ failure. failure ≡ Memory) }
{
    let start = events_before(texts, file)?;
    let stop = events_before(texts, file + 1)?;
    let end = index.event_count();
    let refusals = add_text(alloc, file, text, index)?;
    let events = index.event_count().saturating_sub(end);
    index.replace(alloc, start, stop, end)?;
    let known = Known {
        text: String::from_str(alloc, text)?,
        events,
        is_refused: !refusals.is_empty(),
    };
    put(texts, file, known)?;
    Ok(())
}
