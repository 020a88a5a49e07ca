//! Entries that get other numbers, as definitions move within an index.

ghost use Rattle.std.specs.Prelude.{◌≡◌, ◌++◌, IfOk, OnOk, drop, length, map, take};
ghost use Rattle.isle_index.specs.Entries.{moved, moved_number};

use crate::entries::Entry;
use crate::numbers::narrow;
use std::alloc::{AllocError, Global};

/// Takes the entries from number `at` on out of a list.
pub fn split(alloc: Global, entries: &mut Vec<Entry>, at: usize) -> Result<Vec<Entry>, AllocError>
    ensures front { OnOk result (entries.new.items ≡ take at entries.old.items) }
    ensures back { IfOk result (λ rest. rest.items ≡ drop at entries.old.items) }
{
    if at < entries.len() {
        entries.split_off(at)
    } else {
        Ok(Vec::new(alloc))
    }
}

/// Adds entries at the end, the first of which had the number `from`.
pub fn add_moved(entries: &mut Vec<Entry>, more: &[Entry], from: usize) -> Result<(), AllocError>
    ensures { OnOk result (entries.new.items ≡ entries.old.items
        ++ map (moved from (length entries.old.items)) more.now) }
{
    let to = entries.len();
    for entry in more {
        entries.push(moved(entry, from, to)?)?;
    }
    Ok(())
}

/// The entry after the number `from` has become `to`, and each later one has followed.
fn moved(entry: &Entry, from: usize, to: usize) -> Result<Entry, AllocError>
    ensures { IfOk result (λ other. other ≡ moved from to entry.now) }
{
    match entry {
        Entry::Occurs(role, spot, binder) => {
            let binder = moved_number(*binder, from, to)?;
            Ok(Entry::Occurs(*role, *spot, binder))
        }
        Entry::Reads(spot, Some(binder)) => {
            let binder = moved_number(*binder, from, to)?;
            Ok(Entry::Reads(*spot, Some(binder)))
        }
        entry => Ok(*entry),
    }
}

fn moved_number(number: u32, from: usize, to: usize) -> Result<u32, AllocError>
    ensures { IfOk result (λ other. other ≡ moved_number from to number) }
{
    let past = (number as usize).saturating_sub(from);
    narrow(past.checked_add(to).ok_or(AllocError)?)
}
