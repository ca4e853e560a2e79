// Document 01, "Key List Entry and list", as C has its answers: the entry, the list judged whole, and one step of its walk.
#![tactic(auto)]

ghost use Rattle.std.specs.Prelude.{◌≡◌, Ok, Err};
ghost use Rattle.face_entries.specs.Entries.{algorithm_code, entry_answer};
ghost use Rattle.face_entries.specs.Lists.{list_answer, step_answer, no_entry};

use face::Part;
use keyentry::{Algorithm, Entry};
use keylist::{Advance, ListRefusal, Place, Step};
use refusal::Refusal;

// An entry. Its algorithm is 1 for RSA, 2 for AES-256, 3 for one that is not supported.
#[repr(C)]
#[derive(Clone, Copy, Debug, PartialEq, Eq)]
pub struct EntryAnswer {
    pub refusal: u32,
    pub algorithm: u32,
    pub flags: u32,
    pub reserved: u32,
    pub item: Part,
    pub fek: Part,
}

// A list: its count; or the refusal, with the index of the entry that it is given for.
#[repr(C)]
#[derive(Clone, Copy, Debug, PartialEq, Eq)]
pub struct ListAnswer {
    pub refusal: u32,
    pub count: u32,
    pub index: u32,
}

// A step: found is 1 for an entry, 2 for the end. The entry's parts count from its first byte, which is at `at` in the list. The
// next place is the one behind the entry; at the end and on a refusal it is the place asked at.
#[repr(C)]
#[derive(Clone, Copy, Debug, PartialEq, Eq)]
pub struct StepAnswer {
    pub refusal: u32,
    pub found: u32,
    pub index: u32,
    pub algorithm: u32,
    pub flags: u32,
    pub next_index: u32,
    pub next_at: usize,
    pub at: usize,
    pub item: Part,
    pub fek: Part,
}

// Accepted: what the entry shows.
impl From<Entry> for EntryAnswer {
    ghost from_gives = { λ entry answer. answer ≡ entry_answer (Ok entry) };

    #[tactic(auto, unfolding(crate::specs::Entries::entry_answer, crate::specs::Entries::entry_algorithm, keyentry::specs::Reading::entry_number, keyentry::specs::Reading::entry_values))]
    fn from(entry: Entry) -> EntryAnswer {
        EntryAnswer {
            refusal: 0,
            algorithm: algorithm_code(entry.algorithm()),
            flags: entry.flags,
            reserved: 0,
            item: Part::from(entry.item),
            fek: Part::from(entry.fek),
        }
    }
}

// Refused: the number, and zeros.
impl From<Refusal> for EntryAnswer {
    ghost from_gives = { λ refusal answer. answer ≡ entry_answer (Err refusal) };

    #[tactic(auto, unfolding(crate::specs::Entries::entry_answer, crate::specs::Entries::entry_algorithm, keyentry::specs::Reading::entry_number, keyentry::specs::Reading::entry_values))]
    fn from(refusal: Refusal) -> EntryAnswer {
        EntryAnswer {
            refusal: refusal.number(),
            algorithm: 0,
            flags: 0,
            reserved: 0,
            item: Part { at: 0, len: 0 },
            fek: Part { at: 0, len: 0 },
        }
    }
}

impl From<Result<u32, ListRefusal>> for ListAnswer {
    ghost from_gives = { λ read answer. answer ≡ list_answer read };

    #[tactic(auto, unfolding(crate::specs::Lists::list_answer, keylist::specs::Reading::list_number, keylist::specs::Reading::list_count, keylist::specs::Reading::list_index))]
    fn from(read: Result<u32, ListRefusal>) -> ListAnswer {
        match read {
            Ok(count) => ListAnswer {
                refusal: 0,
                count,
                index: 0,
            },
            Err(refused) => ListAnswer {
                refusal: refused.refusal.number(),
                count: 0,
                index: refused.index,
            },
        }
    }
}

impl From<Advance> for StepAnswer {
    ghost from_gives = { λ advance answer. answer ≡ step_answer advance };

    #[tactic(auto, unfolding(crate::specs::Lists::step_answer, crate::specs::Lists::found_code, crate::specs::Lists::step_algorithm, keylist::specs::Stepping::step_number, keylist::specs::Stepping::step_index, keylist::specs::Stepping::step_found))]
    fn from(advance: Advance) -> StepAnswer {
        let next = advance.place;
        match advance.step {
            Step::Entry(found) => {
                let entry = found.entry;
                StepAnswer {
                    refusal: 0,
                    found: 1,
                    index: found.index,
                    algorithm: algorithm_code(entry.algorithm()),
                    flags: entry.flags,
                    next_index: next.index,
                    next_at: next.at,
                    at: found.at,
                    item: Part::from(entry.item),
                    fek: Part::from(entry.fek),
                }
            }
            Step::End => no_entry(0, 2, 0, next),
            Step::Refused(refused) => no_entry(refused.refusal.number(), 0, refused.index, next),
        }
    }
}

// A step that shows no entry: zeros but for these, and the place after it.
fn no_entry(refusal: u32, found: u32, index: u32, next: Place) -> StepAnswer
    ensures { result ≡ no_entry refusal found index next }
{
    StepAnswer {
        refusal,
        found,
        index,
        algorithm: 0,
        flags: 0,
        next_index: next.index,
        next_at: next.at,
        at: 0,
        item: Part { at: 0, len: 0 },
        fek: Part { at: 0, len: 0 },
    }
}

// Codes of the C interface, which needs numbers; neither type is of this crate, so that this is no `From`; nor is it the
// variant's own number, as C's codes are the face's alone.
#[tactic(auto, unfolding(crate::specs::Entries::algorithm_code))]
fn algorithm_code(algorithm: Algorithm) -> u32
    ensures { result ≡ algorithm_code algorithm }
{
    match algorithm {
        Algorithm::Rsa => 1,
        Algorithm::Aes256 => 2,
        Algorithm::Unsupported => 3,
    }
}
