//! What is found in programs, and what is known of texts, kept from one message to the next.

ghost use Rattle.std.specs.Prelude.{◌≡◌, ◌+◌, ◌^◌, ◌<◌, ◌++◌, IfErr, IfOk, OnOk, false, length};
ghost use Rattle.std.specs.Prelude.{map, true};
ghost use Rattle.std.specs.List.{flat_map};
ghost use Rattle.isle_ast.specs.MacroArgs.{definitions_have_macro_arg};
ghost use Rattle.isle_check_core.specs.Views.{finding_of, findings_of};
ghost use Rattle.isle_check_messages.specs.Notes.{notes_of};
ghost use Rattle.isle_cli.specs.Sources.{source_of};
ghost use Rattle.isle_cli.specs.declared.failure.Failure.TheVariants.{Memory};
ghost use Rattle.isle_lsp_features.specs.Programs.{text_of};
ghost use Rattle.isle_lsp_diagnostics.specs.Checked as wanted;
ghost use Rattle.isle_lsp_diagnostics.specs.Checked.{AreTold, AreToldAfter, told_of};
ghost use Rattle.isle_lsp_diagnostics.specs.Known.{tree_of};

use crate::kept::{About, Kept};
use crate::texts::{Known, Place, Tree, refuses_one, take_known};
use isle_base::lexer::Pos;
use isle_check_core::{Finding, Note, check};
use isle_cli::failure::Failure;
use isle_cli::sources::Source;
use isle_lsp_features::Text;
use std::alloc::{AllocError, Global};
use std::marker::Model;

/// What a finding tells, or one of its notes.
#[derive(Drop)]
pub struct Told {
    /// The position that it is reported at.
    pub pos: Pos,
    /// Whether it is an error, and not a warning.
    pub is_error: bool,
    /// The name of its kind, such as `unknown-term`.
    pub kind: &'static str,
    /// The message.
    pub message: String,
}

/// A program that is checked.
#[derive(Drop)]
pub struct Checked {
    /// Its texts, without names.
    sources: Vec<Source>,
    /// What the check tells.
    all: Vec<Told>,
}

impl Model for Checked {
    ghost use Rattle.std.specs.Prelude.{map};
    ghost use Rattle.isle_cli.specs.Sources.{source_of};
    ghost use Rattle.isle_lsp_diagnostics.specs.Checked.{AreTold, CheckedProgram, told_of};

    ghost Value = { CheckedProgram };

    ghost view = { λ c. record {
      sources = map source_of c.sources.items;
      all = map told_of c.all.items;
    } };

    ghost invariant = { λ c. AreTold (map source_of c.sources.items) (map told_of c.all.items) };
}

impl Checked {
    /// What the check tells of the program.
    pub fn all(&self) -> &[Told]
        ensures { map told_of result.now ≡ self.now.all }
    {
        &self.all
    }
}

/// The findings of a program with these texts are wanted.
impl About<&[Text<'_>]> for Checked {
    ghost is_about = { λ checked program.
        AreTold (wanted.sources_of (map text_of program.now)) checked.all };

    fn is_about(&self, program: &[Text]) -> bool {
        are_sources(&self.sources, program)
    }
}

/// The programs that are checked, and what is known of texts. What is kept of a program with the
/// same texts is not looked for again, and a text that is kept is not parsed again.
#[derive(Drop)]
pub struct Checks {
    /// What is known of texts.
    pub(crate) texts: Kept<Known>,
    /// The programs that are checked.
    pub(crate) programs: Kept<Checked>,
}

impl Checks {
    /// No program is checked, and no text is parsed.
    pub fn new(alloc: Global) -> Checks {
        Checks {
            texts: Kept::new(alloc),
            programs: Kept::new(alloc),
        }
    }

    /// Begins to handle another message: of programs and texts, those are kept that it needs too.
    pub fn renew(&mut self, alloc: Global) {
        self.texts.renew(alloc);
        self.programs.renew(alloc);
    }

    /// Keeps what is known of the texts of these programs, which the message that is handled needs.
    pub fn keep(&mut self, programs: &[Vec<Text>]) -> Result<(), AllocError> {
        for program in programs {
            for (number, text) in program.iter().enumerate() {
                let file = text.file;
                if let Some(known) = self.texts.take(Place { number, file }) {
                    self.texts.put(known)?;
                }
            }
        }
        Ok(())
    }

    /// Takes out a program, which is checked now if none of the same texts is kept. Nothing is
    /// found in it if one of its texts is refused, and no text is parsed if one is known to be. The
    /// only error is `Memory`.
    pub fn take(&mut self, alloc: Global, program: &[Text]) -> Result<Checked, Failure>
        ensures ok { IfOk result (λ checked.
            AreTold (wanted.sources_of (map text_of program.now)) checked.all) }
        ensures err { IfErr result (λ failure. failure ≡ Memory) }
    {
        if let Some(checked) = self.programs.take(program) {
            return Ok(checked);
        }
        let mut all = Vec::new(alloc);
        if !refuses_one(&mut self.texts, program)? {
            let mut before = Tree {
                defs: Vec::new(alloc),
            };
            all = told_after(alloc, &mut self.texts, &mut before, 0, program)?;
        }
        let sources = sources_of(alloc, program)?;
        Ok(Checked { sources, all })
    }
}

/// What the check tells of a program that begins with these definitions, and has these texts behind
/// them, the first of which is the file of this number. Each tree joins the definitions, and is put
/// back after the check. The only error is `Memory`.
fn told_after(
    alloc: Global,
    texts: &mut Kept<Known>,
    before: &mut Tree,
    number: usize,
    program: &[Text],
) -> Result<Vec<Told>, Failure>
    requires plain { definitions_have_macro_arg (tree_of before.old) ≡ false }
    requires few { number + length program.now < 2 ^ 64 }
    ensures ok { IfOk result (λ all. AreToldAfter (tree_of before.old) number
        (wanted.sources_of (map text_of program.now)) (map told_of all.items)) }
    ensures before { OnOk result (before.new.defs.items ≡ before.old.defs.items) }
    ensures err { IfErr result (λ failure. failure ≡ Memory) }
{
    let [text, more @ ..] = program else {
        return Ok(all_told(alloc, &check(alloc, &before.defs)?)?);
    };
    let file = text.file;
    let mut known = take_known(alloc, texts, Place { number, file }, text.text)?;
    let Some(mut tree) = known.take_tree(alloc)? else {
        texts.put(known)?;
        return Ok(Vec::new(alloc));
    };
    let start = before.defs.len();
    before.defs.append(&mut tree.defs)?;
    drop(tree);
    let all = told_after(alloc, texts, before, number + 1, more)?;
    let defs = before.defs.split_off(start)?;
    known.put_tree(Tree { defs });
    texts.put(known)?;
    Ok(all)
}

/// Returns whether these are the texts of a program, without names.
fn are_sources(sources: &[Source], program: &[Text]) -> bool
    ensures { result ≡ true → map source_of sources.now
        ≡ wanted.sources_of (map text_of program.now) }
{
    match (sources, program) {
        ([], []) => true,
        ([source, more @ ..], [text, later @ ..]) => {
            is_source(source, text) && are_sources(more, later)
        }
        _ => false,
    }
}

/// Returns whether this is a text of a program, without a name.
fn is_source(source: &Source, text: &Text) -> bool
    ensures { result ≡ true → source_of source.now ≡ wanted.source_of (text_of text.now) }
{
    source.name.as_str() == "" && source.text.as_str() == text.text
}

/// The texts of a program, without names.
pub fn sources_of(alloc: Global, program: &[Text]) -> Result<Vec<Source>, AllocError>
    ensures { IfOk result (λ sources. map source_of sources.items
        ≡ wanted.sources_of (map text_of program.now)) }
{
    let mut sources = Vec::new(alloc);
    for source in program {
        sources.push(Source {
            name: String::new(alloc),
            text: String::from_str(alloc, source.text)?,
        })?;
    }
    Ok(sources)
}

/// What findings and their notes tell.
fn all_told(alloc: Global, found: &[Finding]) -> Result<Vec<Told>, AllocError>
    ensures { IfOk result (λ all. map told_of all.items
        ≡ flat_map wanted.all_told (findings_of found.now)) }
{
    let mut all = Vec::new(alloc);
    for finding in found {
        add_told(alloc, finding, &mut all)?;
    }
    Ok(all)
}

/// Adds what a finding and its notes tell.
fn add_told(alloc: Global, finding: &Finding, all: &mut Vec<Told>) -> Result<(), AllocError>
    ensures { OnOk result (map told_of all.new.items
        ≡ map told_of all.old.items ++ wanted.all_told (finding_of finding.now)) }
{
    let words = finding.kind.words(alloc)?;
    let is_error = finding.kind.is_error();
    let kind = words.name;
    all.push(Told {
        pos: finding.pos,
        is_error,
        kind,
        message: words.message,
    })?;
    add_notes(is_error, kind, finding.notes(alloc)?, all)
}

fn add_notes(
    is_error: bool,
    kind: &'static str,
    notes: Vec<Note>,
    all: &mut Vec<Told>,
) -> Result<(), AllocError>
    ensures { OnOk result (map told_of all.new.items ≡ map told_of all.old.items
        ++ map (wanted.told_note is_error kind.now) (notes_of notes.items)) }
{
    for note in notes {
        all.push(Told {
            pos: note.pos,
            is_error,
            kind,
            message: note.message,
        })?;
    }
    Ok(())
}
