//! Renaming: whether a name can get another text, and which positions change.

ghost use Rattle.std.specs.Prelude.{◌≡◌, IfOk, map, option_map};
ghost use Rattle.std.specs.List.{list_any};
ghost use Rattle.isle_index.specs.Entries.{all_of, event_in, unpacked};
ghost use Rattle.isle_resolve.specs.Names.{global, is_number, named_of};
ghost use Rattle.isle_resolve.specs.declared.event.Kind.TheVariants.{Term};
ghost use Rattle.isle_index.specs.Renaming.{can_be_renamed, changed_places, changes, defines_it};
ghost use Rattle.isle_index.specs.Renaming.{has_left, is_fixed, is_left, leaves};
ghost use Rattle.isle_index.specs.Renaming.{has, has_member, is_captured, is_double, part_of};
ghost use Rattle.isle_index.specs.Renaming.{is_definition, is_member, is_variable, shares};
ghost use Rattle.isle_index.specs.Renaming.{type_is_taken, variable_text};
ghost use Rattle.isle_index.specs.Renaming.{is_new_name, is_reserved, is_taken, member_of, members};
ghost use Rattle.isle_index.specs.Renaming.{position, refusal, renamed_variable, same_binder};
ghost use Rattle.isle_index.specs.Renaming.{same_binders, with_text, writes_member};
ghost use Rattle.isle_resolve.specs.Scopes.{seen, seen_of};
ghost use Rattle.isle_resolve.specs.EventView.{event_of};

use crate::entries::{Entries, Entry};
use crate::parts::first_variant;
use isle_ast_names::identifier::is_identifier;
use isle_base::lexer::Pos;
use isle_resolve::event::{Event, Kind, Role, Word};
use isle_resolve::names::{Name, full_name, is_full_name, is_number};
use isle_resolve::scopes::{Seen, bind, binder};
use std::alloc::{AllocError, Global};

/// Why a name cannot be renamed.
#[derive(Clone, Copy, PartialEq, Eq)]
pub enum Refusal {
    /// The new text is no identifier, begins with `$`, or is a keyword.
    NotAName,
    /// The program doesn't define the name.
    Undefined,
    /// The name is that of a variant, and a variant of another type is the same term.
    Variant,
    /// Another name of the same kind has the new text, or a variant would get another term's name.
    Taken,
    /// A variable would be captured: it would be bound elsewhere than before, or may be in an
    /// expansion, since a template leaves a variable with the old or the new text to the rules
    /// that use its extractor.
    Captured,
}

/// The first reason that holds why `name` cannot be renamed to `new`, if there is one.
pub fn refusal_for(
    alloc: Global,
    entries: &Entries,
    name: &Name,
    new: &str,
) -> Result<Option<Refusal>, AllocError>
    ensures { IfOk result
        (λ why. why ≡ refusal (named_of name.now) new.now (all_of entries.now)) }
{
    if !is_new_name(new) {
        return Ok(Some(Refusal::NotAName));
    }
    if !is_defined(entries, name) {
        return Ok(Some(Refusal::Undefined));
    }
    if is_double(alloc, entries, name)? {
        return Ok(Some(Refusal::Variant));
    }
    if is_taken(alloc, entries, name, new)? {
        return Ok(Some(Refusal::Taken));
    }
    if is_captured(alloc, entries, name, new)? {
        return Ok(Some(Refusal::Captured));
    }
    Ok(None)
}

/// Returns whether `name` can be renamed at all: every other name is rejected, whatever its new
/// text.
pub fn can_be_renamed(alloc: Global, entries: &Entries, name: &Name) -> Result<bool, AllocError>
    ensures { IfOk result
        (λ can. can ≡ can_be_renamed (named_of name.now) (all_of entries.now)) }
{
    if !is_defined(entries, name) {
        return Ok(false);
    }
    Ok(!is_fixed(alloc, entries, name)?)
}

/// Returns whether a name that is defined cannot be renamed: another type has a variant that is the
/// same term as one of the type's own, or as the variant, or a template leaves a variable of this
/// name to rules.
fn is_fixed(alloc: Global, entries: &Entries, name: &Name) -> Result<bool, AllocError>
    ensures { IfOk result
        (λ fixed. fixed ≡ is_fixed (named_of name.now) (all_of entries.now)) }
{
    match name {
        Name::Global {
            kind: Kind::Type,
            text,
        } => {
            let members = members(alloc, entries, text.as_str())?;
            has_shared(alloc, entries, text.as_str(), &members)
        }
        Name::Global {
            kind: Kind::Term,
            ..
        } => is_double(alloc, entries, name),
        Name::Global {
            kind: Kind::Constant,
            ..
        } => Ok(false),
        Name::Variable { text, .. } => Ok(has_left(entries, text.as_str())),
    }
}

fn is_new_name(text: &str) -> bool
    ensures { result ≡ is_new_name text.now }
{
    is_identifier(text) && !text.starts_with('$') && !is_reserved(text)
}

/// Returns whether ISLE parses `text` as something other than a name, at some place of a name.
fn is_reserved(text: &str) -> bool
    ensures { result ≡ is_reserved text.now }
{
    matches!(
        text,
        "_" | "true"
            | "false"
            | "and"
            | "let"
            | "if"
            | "rule"
            | "pure"
            | "multi"
            | "partial"
            | "rec"
            | "infallible"
    )
}

fn is_defined(entries: &Entries, name: &Name) -> bool
    ensures { result ≡ list_any (defines_it (named_of name.now)) (all_of entries.now) }
{
    for (number, entry) in entries.items.iter().enumerate() {
        if entries.is_of(name, number, entry) && is_definition(&entries.unpack(number, entry)) {
            return true;
        }
    }
    false
}

/// Returns whether an event defines a name or binds its variable.
fn is_definition(seen: &Seen) -> bool
    ensures { result ≡ is_definition (event_of seen.now.event)
        (is_number seen.now.number seen.now.binder) }
{
    match seen.event {
        Event::Defines(..) | Event::DefinesVariant { .. } => true,
        Event::Occurs(..) | Event::Binds(_) | Event::Reads(_) => {
            is_number(seen.number, seen.binder)
        }
        Event::Uses(..) | Event::Closes | Event::Ends => false,
    }
}

/// Returns whether `name` is a variant, and a variant of another type is the same term.
fn is_double(alloc: Global, entries: &Entries, name: &Name) -> Result<bool, AllocError>
    ensures { IfOk result (λ double. double
        ≡ is_double (part_of (named_of name.now) (all_of entries.now)) (all_of entries.now)) }
{
    match name {
        Name::Global {
            kind: Kind::Term,
            text,
        } => match first_variant(entries, text.as_str()) {
            Some(variant) => has_shared(alloc, entries, variant.owner, &[variant.member]),
            None => Ok(false),
        },
        _ => Ok(false),
    }
}

/// Returns whether something else has the new name already.
fn is_taken(alloc: Global, entries: &Entries, name: &Name, new: &str) -> Result<bool, AllocError>
    ensures { IfOk result
        (λ taken. taken ≡ is_taken (named_of name.now) new.now (all_of entries.now)) }
{
    match name {
        Name::Global {
            kind: Kind::Type,
            text,
        } => {
            let members = members(alloc, entries, text.as_str())?;
            type_is_taken(alloc, entries, text.as_str(), new, &members)
        }
        Name::Global {
            kind: Kind::Term,
            text,
        } => term_is_taken(alloc, entries, text.as_str(), new),
        Name::Global {
            kind: Kind::Constant,
            ..
        } => Ok(has(entries, Kind::Constant, new)),
        Name::Variable { .. } => Ok(false),
    }
}

/// Returns whether another term has the new name of a term. That of a variant begins with its type.
fn term_is_taken(alloc: Global, entries: &Entries, old: &str, new: &str) -> Result<bool, AllocError>
    ensures { IfOk result
        (λ taken. taken ≡ is_taken (global Term old.now) new.now (all_of entries.now)) }
{
    match first_variant(entries, old) {
        Some(variant) => {
            let term = full_name(alloc, variant.owner, new)?;
            Ok(has(entries, Kind::Term, term.as_str()))
        }
        None => Ok(has(entries, Kind::Term, new)),
    }
}

/// Returns whether something else has the new name of a type, or the new name of one of its
/// variants, `members`.
fn type_is_taken(
    alloc: Global,
    entries: &Entries,
    old: &str,
    new: &str,
    members: &[&str],
) -> Result<bool, AllocError>
    ensures { IfOk result (λ taken. taken ≡ type_is_taken old.now new.now
        (map (λ m. m.now) members.now) (all_of entries.now)) }
{
    if has(entries, Kind::Type, new) {
        return Ok(true);
    }
    if has_member(alloc, entries, new, members)? {
        return Ok(true);
    }
    has_shared(alloc, entries, old, members)
}

/// Returns whether a variant, `new` and one of `members`, has the name of another term.
fn has_member(
    alloc: Global,
    entries: &Entries,
    new: &str,
    members: &[&str],
) -> Result<bool, AllocError>
    ensures { IfOk result (λ taken. taken
        ≡ has_member new.now (map (λ m. m.now) members.now) (all_of entries.now)) }
{
    for member in members {
        let term = full_name(alloc, new, member)?;
        if has(entries, Kind::Term, term.as_str()) {
            return Ok(true);
        }
    }
    Ok(false)
}

/// Returns whether another type has a variant that is the same term as one of `owner`'s.
fn has_shared(
    alloc: Global,
    entries: &Entries,
    owner: &str,
    members: &[&str],
) -> Result<bool, AllocError>
    ensures { IfOk result (λ shared. shared ≡ list_any
        (λ s. shares owner.now (map (λ m. m.now) members.now) s.event) (all_of entries.now)) }
{
    for entry in entries.items {
        if shares(alloc, entries, entry, owner, members)? {
            return Ok(true);
        }
    }
    Ok(false)
}

/// Returns whether the event of an entry defines a variant of another type that is the same term as
/// one of `owner`'s.
fn shares(
    alloc: Global,
    entries: &Entries,
    entry: &Entry,
    owner: &str,
    members: &[&str],
) -> Result<bool, AllocError>
    ensures { IfOk result (λ shared. shared ≡ shares owner.now (map (λ m. m.now) members.now)
        (event_in entries.now.texts.now entry.now)) }
{
    match entry {
        Entry::DefinesVariant {
            owner: other,
            member,
        } if entries.text_of(other) != owner => {
            let term = full_name(alloc, entries.text_of(other), entries.text_of(member))?;
            Ok(is_member(term.as_str(), owner, members))
        }
        _ => Ok(false),
    }
}

fn has(entries: &Entries, kind: Kind, text: &str) -> bool
    ensures { result ≡ has kind text.now (all_of entries.now) }
{
    for entry in entries.items {
        if entries.gives(entry, kind, text) {
            return true;
        }
    }
    false
}

/// The variant of the type `owner` that the event of an entry defines, if it defines one.
fn member_of<'a>(entries: &Entries<'a>, entry: &Entry, owner: &str) -> Option<&'a str>
    ensures { option_map (λ m. m.now) result
        ≡ member_of owner.now (event_in entries.now.texts.now entry.now) }
{
    match entry {
        Entry::DefinesVariant { owner: of, member } if entries.text_of(of) == owner => {
            Some(entries.text_of(member))
        }
        _ => None,
    }
}

fn members<'a>(
    alloc: Global,
    entries: &Entries<'a>,
    owner: &str,
) -> Result<Vec<&'a str>, AllocError>
    ensures { IfOk result (λ found. map (λ m. m.now) found.items
        ≡ members owner.now (all_of entries.now)) }
{
    let mut found = Vec::new(alloc);
    for entry in entries.items {
        if let Some(member) = member_of(entries, entry, owner) {
            found.push(member)?;
        }
    }
    Ok(found)
}

/// Returns whether the event of an entry is a term `OWNER.MEMBER`, for one of `members`.
fn writes_member(entries: &Entries, entry: &Entry, owner: &str, members: &[&str]) -> bool
    ensures { result ≡ writes_member owner.now (map (λ m. m.now) members.now)
        (event_in entries.now.texts.now entry.now) }
{
    match entry {
        Entry::Defines(Kind::Term, spot) | Entry::Uses(Kind::Term, spot) => {
            is_member(entries.text_of(spot), owner, members)
        }
        _ => false,
    }
}

/// Returns whether `text` is `OWNER.MEMBER`, for one of `members`.
fn is_member(text: &str, owner: &str, members: &[&str]) -> bool
    ensures { result ≡ is_member owner.now (map (λ m. m.now) members.now) text.now }
{
    for member in members {
        if is_full_name(text, owner, member) {
            return true;
        }
    }
    false
}

/// Returns whether renaming `name`, whose variants are `members` if it is a type, changes the text
/// of the event of `entry`, whose number is `number`.
fn changes(entries: &Entries, number: usize, entry: &Entry, name: &Name, members: &[&str]) -> bool
    ensures { result ≡ changes (map (λ m. m.now) members.now) (named_of name.now)
        (unpacked entries.now.texts.now number entry.now) }
{
    match name {
        Name::Global {
            kind: Kind::Type,
            text,
        } => {
            entries.is_of(name, number, entry)
                || writes_member(entries, entry, text.as_str(), members)
        }
        Name::Global { .. } => entries.is_of(name, number, entry),
        Name::Variable { binder, text } => {
            is_variable(&entries.unpack(number, entry), *binder, text.as_str())
        }
    }
}

/// The positions that change, in the order of the events.
pub fn changed_places(alloc: Global, entries: &Entries, name: &Name) -> Result<Vec<Pos>, AllocError>
    ensures { IfOk result
        (λ places. places.items ≡ changed_places (named_of name.now) (all_of entries.now)) }
{
    let members = members(alloc, entries, name.text())?;
    let mut places = Vec::new(alloc);
    for (number, entry) in entries.items.iter().enumerate() {
        if changes(entries, number, entry, name, &members) {
            if let Some(place) = position(&entries.event_of(entry)) {
                places.push(place)?;
            }
        }
    }
    Ok(places)
}

/// The position of an event's name, if it has one.
pub fn position(event: &Event) -> Option<Pos>
    ensures { result ≡ position (event_of event.now) }
{
    match event {
        Event::Defines(_, word)
        | Event::Uses(_, word)
        | Event::DefinesVariant { member: word, .. }
        | Event::Occurs(_, word)
        | Event::Binds(word)
        | Event::Reads(word) => Some(word.pos),
        Event::Closes | Event::Ends => None,
    }
}

/// Returns whether a variable would be bound elsewhere than before.
fn is_captured(alloc: Global, entries: &Entries, name: &Name, new: &str) -> Result<bool, AllocError>
    ensures { IfOk result
        (λ captured. captured ≡ is_captured (named_of name.now) new.now (all_of entries.now)) }
{
    match name {
        Name::Global { .. } => Ok(false),
        Name::Variable { binder, text } => {
            if has_left(entries, text.as_str()) || has_left(entries, new) {
                return Ok(true);
            }
            Ok(!keeps_binders(alloc, entries, *binder, text.as_str(), new)?)
        }
    }
}

/// Returns whether a template leaves a variable of this text to the rules that use its extractor.
fn has_left(entries: &Entries, text: &str) -> bool
    ensures { result ≡ has_left text.now (all_of entries.now) }
{
    for (number, entry) in entries.items.iter().enumerate() {
        let event = entries.unpack(number, entry);
        if leaves(&event, text) {
            return true;
        }
    }
    false
}

/// Returns whether an event is a variable of this text that a template leaves to rules.
fn leaves(seen: &Seen, text: &str) -> bool
    ensures { result ≡ leaves text.now (seen_of seen.now) }
{
    match &seen.event {
        Event::Occurs(role, word) => {
            is_left(*role, is_number(seen.number, seen.binder)) && word.text == text
        }
        _ => false,
    }
}

/// Returns whether a template leaves a variable of this role to rules: one that is no parameter, or
/// stands before an `@`. `own` says whether it is the first one of its text.
fn is_left(role: Role, own: bool) -> bool
    ensures { result ≡ is_left role own }
{
    match role {
        Role::Plain | Role::Parameter => false,
        Role::Template => own,
        Role::Named => true,
    }
}

/// Returns whether each variable keeps its binder when the one bound by the event `variable` gets
/// the text `new`.
fn keeps_binders(
    alloc: Global,
    entries: &Entries,
    variable: usize,
    old: &str,
    new: &str,
) -> Result<bool, AllocError>
    ensures { IfOk result (λ kept. kept ≡ same_binders
        (seen (map (renamed_variable variable old.now new.now) (all_of entries.now)))
        (all_of entries.now)) }
{
    let mut bound = Vec::new(alloc);
    for (number, entry) in entries.items.iter().enumerate() {
        let event = entries.unpack(number, entry);
        let renamed = rename_variable(&event, variable, old, new);
        if !same_binder(binder(&renamed, number, &bound), event.binder) {
            return Ok(false);
        }
        bind(&renamed, number, &mut bound)?;
    }
    Ok(true)
}

/// The event with the text `new` if its variable is the one bound by the event `variable`.
fn rename_variable<'a>(seen: &Seen<'a>, variable: usize, old: &str, new: &'a str) -> Event<'a>
    ensures { event_of result ≡ renamed_variable variable old.now new.now (seen_of seen.now) }
{
    if is_variable(seen, variable, old) {
        with_text(&seen.event, new)
    } else {
        seen.event
    }
}

/// Returns whether an event has the variable bound by the event `variable`, with this text.
fn is_variable(seen: &Seen, variable: usize, text: &str) -> bool
    ensures { result ≡ is_variable variable text.now (seen_of seen.now) }
{
    is_number(variable, seen.binder) && variable_text(&seen.event) == text
}

/// The text of an event's variable, empty if it has none.
fn variable_text<'a>(event: &Event<'a>) -> &'a str
    ensures { result.now ≡ variable_text (event_of event.now) }
{
    match event {
        Event::Occurs(_, word) | Event::Binds(word) | Event::Reads(word) => word.text,
        _ => "",
    }
}

/// The event with another text in its variable, if it has one.
fn with_text<'a>(event: &Event<'a>, new: &'a str) -> Event<'a>
    ensures { event_of result ≡ with_text new.now (event_of event.now) }
{
    match event {
        Event::Occurs(role, word) => {
            let pos = word.pos;
            Event::Occurs(*role, Word { text: new, pos })
        }
        Event::Binds(word) => Event::Binds(Word {
            text: new,
            pos: word.pos,
        }),
        Event::Reads(word) => Event::Reads(Word {
            text: new,
            pos: word.pos,
        }),
        _ => *event,
    }
}

fn same_binder(first: Option<usize>, second: Option<usize>) -> bool
    ensures { result ≡ same_binder first second }
{
    first == second
}
