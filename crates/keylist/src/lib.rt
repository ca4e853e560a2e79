// Document 01, "Key List Entry and list": a list of Key List Entries, judged whole and walked entry by entry.
#![tactic(auto)]

ghost use Rattle.std.specs.Prelude.{◌≡◌, ◌+◌, ◌≤◌, ◌<◌, length};
ghost use Rattle.refusal.specs.Chain.{first_of};
ghost use Rattle.refusal.specs.Number.{outcome_number};
ghost use Rattle.wire.specs.Parts.{LiesAt};
ghost use Rattle.keylist.specs.Reading.{extent_checks, extent_of, bounds_number, bounds_span, list_of};
ghost use Rattle.keylist.specs.Passing.{entry_at};
ghost use Rattle.keylist.specs.Stepping.{end_at, arrived, advance_of, list_span, list_part};

use keyentry::{Entry, EntryPart};
use records::LIMIT;
use refusal::Refusal;
use wire::{Span, le32_at};

pub mod walk;

// Why a list is refused, with the index of the entry that the refusal is given for (0 where none is told).
#[derive(Clone, Copy, Debug, PartialEq, Eq)]
pub struct ListRefusal {
    pub refusal: Refusal,
    pub index: u32,
}

// Where a walk stands: the offset of the next entry, and its index.
#[derive(Clone, Copy, Debug, PartialEq, Eq)]
pub struct Place {
    pub at: usize,
    pub index: u32,
}

// An entry of a list: its index, its offset in the list, and what its reader shows, with places counted from its first byte.
#[derive(Clone, Copy, Debug, PartialEq, Eq)]
pub struct Found {
    pub index: u32,
    pub at: usize,
    pub entry: Entry,
}

// What a step of the walk finds. A Result of an Option was tried: a step into an entry takes 117 instructions with it, and 111 with this, so that
// a walk misses the reference's count.
#[derive(Clone, Copy, Debug, PartialEq, Eq)]
pub enum Step {
    Entry(Found),
    End,
    Refused(ListRefusal),
}

// A step, and the place after it.
#[derive(Clone, Copy, Debug, PartialEq, Eq)]
pub struct Advance {
    pub step: Step,
    pub place: Place,
}

impl ListRefusal {
    // A refusal that is given for no entry.
    fn whole(refusal: Refusal) -> ListRefusal
        ensures { result ≡ record { refusal = refusal; index = 0 } }
    {
        ListRefusal { refusal, index: 0 }
    }
}

impl Place {
    // Behind the count, at index 0.
    pub const START: Place = Place { at: 4, index: 0 };
}

// One step of the walk: the entry at a place, or the end, or the refusal (the list's 1 and 2; then the list rule's
// and the reader's, given for the entry). At the last two the place stays. An entry's answer is matched, as a step beside its place is no Result;
// list and place stay apart, as a host holds the place alone (`gw_list_step`).
pub fn next_step(list: &[u8], place: Place) -> Advance
    ensures { result ≡ advance_of list.now place }
{
    if LIMIT < list.len() {
        return stay(Step::Refused(ListRefusal::whole(Refusal::TooLong)), place);
    }
    if list.len() < 4 {
        return stay(Step::Refused(ListRefusal::whole(Refusal::Short)), place);
    }
    if le32_at(list, 0) <= place.index {
        return finish(list, place);
    }
    let Place { at, index } = place;
    match entry_at(list, at) {
        Ok((entry, len)) => Advance {
            step: Step::Entry(Found { index, at, entry }),
            place: Place {
                at: at + len,
                index: index + 1,
            },
        },
        Err(refusal) => stay(Step::Refused(ListRefusal { refusal, index }), place),
    }
}

// A part of the entry at a place: those very bytes of the list, or the empty part where the step there shows no entry.
pub fn part(list: &[u8], place: Place, which: EntryPart) -> &[u8]
    ensures bytes { result.now ≡ list_part list.now place which }
    ensures place { LiesAt result list.entry (list_span list.now place which).at }
{
    wire::part(list, part_at(list, place, which))
}

// Where that part stands in the list; empty at 0 where the step shows no entry.
#[tactic(auto, unfolding(crate::specs::Stepping::arrived, crate::specs::Stepping::step_span))]
fn part_at(list: &[u8], place: Place, which: EntryPart) -> Span
    ensures { result ≡ list_span list.now place which }
{
    match next_step(list, place).step {
        Step::Entry(found) => {
            let span = found.entry.span(which);
            Span {
                at: found.at + span.at,
                len: span.len,
            }
        }
        Step::End => Span { at: 0, len: 0 },
        Step::Refused(_) => Span { at: 0, len: 0 },
    }
}

// The list rule: the record at a place is its Length bytes, 20 at least, which lie inside; else 2 or 3.
pub fn extent(list: &[u8], at: usize) -> Result<Span, Refusal>
    ensures answer { result ≡ extent_of list.now at }
    ensures number { bounds_number result ≡ outcome_number (first_of (extent_checks list.now at)) }
    ensures inside { (bounds_span result).at + (bounds_span result).len ≤ length list.now }
{
    if list.len() < at {
        return Err(Refusal::Short);
    }
    let left = list.len() - at;
    if left < 20 {
        return Err(Refusal::Short);
    }
    let len = le32_at(list, at) as usize;
    if (len < 20) | (left < len) {
        return Err(Refusal::LengthsDisagree);
    }
    Ok(Span { at, len })
}

// Behind the last entry: the end, or 22 where bytes are left.
#[tactic(auto, unfolding(crate::specs::Stepping::end_at, crate::specs::Stepping::arrived, crate::specs::Stepping::place_after))]
fn finish(list: &[u8], place: Place) -> Advance
    ensures { result ≡ arrived list.now place (end_at list.now place.at) }
{
    if place.at == list.len() {
        return stay(Step::End, place);
    }
    stay(Step::Refused(ListRefusal::whole(Refusal::BytesLeft)), place)
}

// A final step: the place stays.
fn stay(step: Step, place: Place) -> Advance
    ensures { result ≡ record { step = step; place = place } }
{
    Advance { step, place }
}

// The entry at a place and its length, where the list rule and the entry's reader accept it.
fn entry_at(list: &[u8], at: usize) -> Result<(Entry, usize), Refusal>
    ensures { result ≡ entry_at list.now at }
{
    let span = extent(list, at)?;
    let entry = keyentry::read(wire::part(list, span))?;
    Ok((entry, span.len))
}

// The list's count, or its refusal, in one pass. The two checks of its head stand in `next_step` too: shared, each would have to tell the refusal
// its own way again. A `map_err` with `?` was tried for the entry's refusal, and its proof did not close.
pub fn judge(list: &[u8]) -> Result<u32, ListRefusal>
    ensures { result ≡ list_of list.now }
{
    if LIMIT < list.len() {
        return Err(ListRefusal::whole(Refusal::TooLong));
    }
    if list.len() < 4 {
        return Err(ListRefusal::whole(Refusal::Short));
    }
    let count = le32_at(list, 0);
    let mut at = 4;
    for index in 0..count {
        match entry_at(list, at) {
            Ok((_, len)) => at += len,
            Err(refusal) => return Err(ListRefusal { refusal, index }),
        }
    }
    if at == list.len() {
        return Ok(count);
    }
    Err(ListRefusal::whole(Refusal::BytesLeft))
}
