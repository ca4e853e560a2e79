// Document 01, "Key List Entry and list": the Key List Entry (MS-EFSR 2.2.2.1.2), read and written.
#![tactic(auto)]

ghost use Rattle.std.specs.Prelude.{◌≡◌, Ok, ℕ, ◌+◌, ◌≤◌, length};
ghost use Rattle.refusal.specs.Chain.{first_of};
ghost use Rattle.wire.specs.Parts.{onto, LiesAt};
ghost use Rattle.records.specs.Writing.{output_of};
ghost use Rattle.keyentry.specs.Layout.{outside, run_checks, item_checks};
ghost use Rattle.keyentry.specs.Reading.{entry_checks, shown, entry_of, algorithm_of, span_of, entry_span, entry_part};
ghost use Rattle.keyentry.specs.Writing.{entry_length, entry_bytes, write_checks, entry_written};

use records::{LIMIT, grown};
use refusal::Refusal;
use wire::{Span, copy_into, le32_at, put_le32s};

// An accepted entry: the Flags, and where the public key item and the FEK stand, counted from the entry's first byte.
#[derive(Clone, Copy, Debug, PartialEq, Eq)]
pub struct Entry {
    pub flags: u32,
    pub item: Span,
    pub fek: Span,
}

// What Flags say of the FEK's encryption.
#[derive(Clone, Copy, Debug, PartialEq, Eq)]
pub enum Algorithm {
    Rsa,
    Aes256,
    Unsupported,
}

// An item as an entry's numbers place it: `len` bytes from `at` on, whether or not they lie in the entry.
#[derive(Clone, Copy, Debug, PartialEq, Eq)]
struct Item {
    at: u32,
    len: u32,
}

// The parts of an entry.
#[derive(Clone, Copy, Debug, PartialEq, Eq)]
pub enum EntryPart {
    Item,
    Fek,
}

impl Entry {
    #[tactic(auto, unfolding(crate::specs::Reading::algorithm_of))]
    pub fn algorithm(self) -> Algorithm
        ensures { result ≡ algorithm_of self.flags }
    {
        match self.flags {
            0 => Algorithm::Rsa,
            1 => Algorithm::Aes256,
            _ => Algorithm::Unsupported,
        }
    }

    // Where a part stands.
    #[tactic(auto, unfolding(crate::specs::Reading::span_of))]
    pub fn span(self, which: EntryPart) -> Span
        ensures { result ≡ span_of (Ok self) which }
    {
        match which {
            EntryPart::Item => self.item,
            EntryPart::Fek => self.fek,
        }
    }
}

impl Item {
    // Where it ends.
    fn end(self) -> usize
        ensures { result ≡ self.at + self.len }
    {
        self.at as usize + self.len as usize
    }

    // It does not lie in the Data Fields of an entry of len bytes.
    #[tactic(auto, unfolding(crate::specs::Layout::outside))]
    fn is_outside(self, len: usize) -> bool
        ensures { result ≡ outside self.at self.len len }
    {
        (self.at < 20) | (len < self.end())
    }
}

// Where a part of what was read stands: each part of a refused entry is empty at 0.
#[tactic(auto, unfolding(crate::specs::Reading::span_of))]
pub fn span_of(read: Result<Entry, Refusal>, which: EntryPart) -> Span
    ensures { result ≡ span_of read which }
{
    read.map_or(Span { at: 0, len: 0 }, |entry| entry.span(which))
}

// What an entry shows, or its refusal.
#[tactic(auto, unfolding(crate::specs::Reading::entry_of, refusal::specs::Chain::unless_refused))]
pub fn read(s: &[u8]) -> Result<Entry, Refusal>
    ensures { result ≡ entry_of s.now }
{
    judge(s)?;
    Ok(shown(s))
}

// The checks, in document 01's order; a number is read just before its check.
#[tactic(auto, unfolding(crate::specs::Reading::entry_checks, refusal::specs::Chain::first_of))]
fn judge(s: &[u8]) -> Result<(), Refusal>
    ensures { result ≡ first_of (entry_checks s.now) }
{
    let len = s.len();
    if LIMIT < len {
        return Err(Refusal::TooLong);
    }
    if len < 20 {
        return Err(Refusal::Short);
    }
    if le32_at(s, 0) as usize != len {
        return Err(Refusal::LengthsDisagree);
    }
    let at = le32_at(s, 4);
    if (Item { at, len: 4 }).is_outside(len) {
        return Err(Refusal::Misplaced);
    }
    let item = Item {
        at,
        len: le32_at(s, at as usize),
    };
    let fek = Item {
        at: le32_at(s, 12),
        len: le32_at(s, 8),
    };
    judge_items(item, fek, len)
}

// The checks behind the item's own length, which is read only where it lies inside. Items and length stay apart: as one value they
// would be put together here, and taken apart in each test.
#[tactic(auto, unfolding(crate::specs::Layout::item_checks, refusal::specs::Chain::first_of))]
fn judge_items(item: Item, fek: Item, len: usize) -> Result<(), Refusal>
    ensures { result ≡ first_of (item_checks item.at item.len fek.at fek.len len) }
{
    if item.len < 4 {
        return Err(Refusal::EmptyItem);
    }
    if len < item.end() {
        return Err(Refusal::Misplaced);
    }
    if fek.len == 0 {
        return Err(Refusal::EmptyItem);
    }
    if fek.is_outside(len) {
        return Err(Refusal::Misplaced);
    }
    judge_runs(item, fek, len)
}

// 8 and 9: one item ends before the other begins, and the runs around them are short.
#[tactic(auto, using(crate::proofs::Tests::runs_turned, crate::proofs::Tests::run_overlap))]
fn judge_runs(item: Item, fek: Item, len: usize) -> Result<(), Refusal>
    ensures { result ≡ first_of (run_checks item.at item.len fek.at fek.len len) }
{
    if item.end() <= fek.at as usize {
        return judge_ordered(item, fek, len);
    }
    if fek.end() <= item.at as usize {
        return judge_ordered(fek, item, len);
    }
    Err(Refusal::Overlap)
}

// 9, where the first item ends before the second begins.
#[tactic(auto, using(crate::proofs::Tests::run_before_lem, crate::proofs::Tests::run_between_lem, crate::proofs::Tests::run_after_lem, crate::proofs::Tests::runs_short))]
fn judge_ordered(first: Item, second: Item, len: usize) -> Result<(), Refusal>
    requires { first.at + first.len ≤ second.at }
    ensures { result ≡ first_of (run_checks first.at first.len second.at second.len len) }
{
    if 28 < first.at {
        return Err(Refusal::UnusedRun);
    }
    if first.end() + 8 < second.at as usize {
        return Err(Refusal::UnusedRun);
    }
    if second.end() + 8 < len {
        return Err(Refusal::UnusedRun);
    }
    Ok(())
}

// What an accepted entry shows.
#[tactic(auto, unfolding(crate::specs::Reading::shown))]
fn shown(s: &[u8]) -> Entry
    ensures { result ≡ shown s.now }
{
    let p = le32_at(s, 4) as usize;
    Entry {
        flags: le32_at(s, 16),
        item: Span {
            at: p,
            len: le32_at(s, p) as usize,
        },
        fek: Span {
            at: le32_at(s, 12) as usize,
            len: le32_at(s, 8) as usize,
        },
    }
}

// The bytes of a part: those very bytes of s, or the empty part on a refusal.
// As `span_of`, one line in each record's crate: a trait that has both would ask each for the kind of part, the reader, the places and the law
// that they lie inside, which is more than these lines.
#[tactic(auto, using(wire::proofs::Parts::start_in, crate::proofs::Reading::part_inside))]
pub fn part(s: &[u8], which: EntryPart) -> &[u8]
    ensures bytes { result.now ≡ entry_part s.now which }
    ensures place { LiesAt result s.entry (entry_span s.now which).at }
{
    wire::part(s, span_of(read(s), which))
}

// Writes an entry: what is given is judged, then 13. A refusal keeps the output's bytes; success keeps those behind the record.
// The shape is that of each record's writer, over its own judge, length and `put`: a trait for it would ask for these three, and a type of
// what is given. As one value it would be put together by each caller, and taken apart in `put`.
pub fn write(out: &mut [u8], flags: u32, item: &[u8], fek: &[u8]) -> Result<usize, Refusal>
    ensures answer { result ≡ entry_written flags item.now fek.now (length out.old) }
    ensures output { out.new ≡ output_of result (entry_bytes flags item.now fek.now) out.old }
{
    judge_given(item, fek)?;
    let len = 20 + item.len() + fek.len();
    if out.len() < len {
        return Err(Refusal::NoRoom);
    }
    put(out, flags, item, fek);
    Ok(len)
}

// 1, 7, 3, then as the reader would say of the bytes, which is 7 for an empty FEK. Flags never refuse.
fn judge_given(item: &[u8], fek: &[u8]) -> Result<(), Refusal>
    ensures { (flags : ℕ) → result ≡ first_of (write_checks flags item.now fek.now) }
{
    if LIMIT < grown(grown(20, item.len()), fek.len()) {
        return Err(Refusal::TooLong);
    }
    if item.len() < 4 {
        return Err(Refusal::EmptyItem);
    }
    if le32_at(item, 0) as usize != item.len() {
        return Err(Refusal::LengthsDisagree);
    }
    if fek.len() == 0 {
        return Err(Refusal::EmptyItem);
    }
    Ok(())
}

// The head, and each body into its own part of the output.
fn put(out: &mut [u8], flags: u32, item: &[u8], fek: &[u8])
    requires { (entry_length item.now fek.now ≤ 65535) × (entry_length item.now fek.now ≤ length out.old) }
    ensures { out.new ≡ onto (entry_bytes flags item.now fek.now) out.old }
{
    let at = 20 + item.len();
    let len = at + fek.len();
    let head = [len as u32, 20, fek.len() as u32, at as u32, flags];
    put_le32s(&mut out[0..20], &head);
    copy_into(&mut out[20..at], item);
    copy_into(&mut out[at..len], fek);
}
