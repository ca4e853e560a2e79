// Document 02, No. 1: the Data Segment Encryption Header (MS-EFSR 2.2.3.3), read and written.
#![tactic(auto)]

ghost use Rattle.std.specs.Prelude.{◌≡◌, ◌+◌, ◌*◌, ◌^◌, ◌≤◌, length};
ghost use Rattle.refusal.specs.Chain.{first_of};
ghost use Rattle.wire.specs.Parts.{onto, LiesAt};
ghost use Rattle.records.specs.Writing.{output_of};
ghost use Rattle.segment.specs.Layout.{unit_shift, block_count, size_at, shifts_of, head_of, length_for, lengths_disagree, marks_wrong, shifts_wrong, larger_than};
ghost use Rattle.segment.specs.Reading.{segment_checks, shown, segment_of, span_of, segment_span, segment_part, size_of};
ghost use Rattle.segment.specs.Writing.{segment_length, segment_bytes, write_checks, segment_written};

use records::LIMIT;
use refusal::Refusal;
use wire::{Span, byte_at, le16_at, le32_at, le64_at, put_le32s, put_le64};

// The most blocks that a record within the limit has: 28 + 4 * 16,376 is 65,532.
const MOST_BLOCKS: usize = 16376;

// The numbers that a header carries beside its length and its blocks.
#[derive(Clone, Copy, Debug, PartialEq, Eq)]
pub struct Head {
    pub start_offset: u64,
    pub bytes_in_stream: u32,
    pub bytes_in_vdl: u32,
    pub shifts: Shifts,
}

// The base-2 logarithms of three sizes: of a data unit, a chunk and a cluster.
#[derive(Clone, Copy, Debug, PartialEq, Eq)]
pub struct Shifts {
    pub unit: u32,
    pub chunk: u32,
    pub cluster: u32,
}

// An accepted header: its numbers, its length, how many blocks it has and where their sizes stand, and how many of the blocks are
// larger than the data unit.
#[derive(Clone, Copy, Debug, PartialEq, Eq)]
pub struct Segment {
    pub head: Head,
    pub length: u32,
    pub blocks: u32,
    pub sizes: Span,
    pub larger: u32,
}

impl Shifts {
    // 25 if chunk and unit shift differ or any of the three is over 31.
    #[tactic(auto, unfolding(crate::specs::Layout::shifts_wrong))]
    fn are_wrong(self) -> bool
        ensures { result ≡ shifts_wrong self.unit self.chunk self.cluster }
    {
        (self.chunk != self.unit) | (31 < self.unit) | (31 < self.chunk) | (31 < self.cluster)
    }

    // The data unit's size.
    fn data_unit(self) -> u32
        requires { self.unit ≤ 31 }
        ensures { result ≡ 2 ^ self.unit }
    {
        1 << self.unit
    }
}

// Where the sizes of what was read stand: those of a refused header are empty at 0.
#[tactic(auto, unfolding(crate::specs::Reading::segment_values))]
pub fn span_of(read: Result<Segment, Refusal>) -> Span
    ensures { result ≡ span_of read }
{
    read.map_or(Span { at: 0, len: 0 }, |segment| segment.sizes)
}

// What a header shows, or its refusal.
#[tactic(auto, using(crate::proofs::Reading::segment_judged), unfolding(refusal::specs::Chain::unless_refused))]
pub fn read(s: &[u8]) -> Result<Segment, Refusal>
    ensures { result ≡ segment_of s.now }
{
    judge(s)?;
    Ok(shown(s))
}

// The checks, in document 02's order; a number is read just before its check.
#[tactic(auto, unfolding(crate::specs::Reading::segment_checks, refusal::specs::Chain::first_of))]
fn judge(s: &[u8]) -> Result<(), Refusal>
    ensures { result ≡ first_of (segment_checks s.now) }
{
    let len = s.len();
    if LIMIT < len {
        return Err(Refusal::TooLong);
    }
    if len < 28 {
        return Err(Refusal::Short);
    }
    if do_disagree(le32_at(s, 8), le16_at(s, 26), len) {
        return Err(Refusal::LengthsDisagree);
    }
    if are_marks_wrong(le16_at(s, 20), byte_at(s, 25)) {
        return Err(Refusal::WrongMark);
    }
    if shifts_in(s).are_wrong() {
        return Err(Refusal::WrongShifts);
    }
    Ok(())
}

// 3 unless Length is the record's length and at least 28 plus four per block.
fn do_disagree(length: u32, blocks: u16, len: usize) -> bool
    ensures { result ≡ lengths_disagree len length blocks }
{
    (length as usize != len) | ((length as usize) < 28 + 4 * (blocks as usize))
}

// 4 for the two zero bytes and the byte 01.
fn are_marks_wrong(zeros: u16, one: u8) -> bool
    ensures { result ≡ marks_wrong zeros one }
{
    (zeros != 0) | (one != 1)
}

// What an accepted header shows.
#[tactic(auto, unfolding(crate::specs::Reading::shown, crate::specs::Layout::head_of))]
fn shown(s: &[u8]) -> Segment
    requires { (unit_shift s.now ≤ 31) × (length_for (block_count s.now) ≤ length s.now) }
    ensures { result ≡ shown s.now }
{
    let head = head_in(s);
    let blocks = le16_at(s, 26);
    Segment {
        head,
        length: le32_at(s, 8),
        blocks: blocks as u32,
        sizes: Span {
            at: 28,
            len: 4 * (blocks as usize),
        },
        larger: larger(s, blocks, head.shifts.data_unit()),
    }
}

// The numbers that are shown as they stand.
#[tactic(auto, unfolding(crate::specs::Layout::head_of))]
fn head_in(s: &[u8]) -> Head
    ensures { result ≡ head_of s.now }
{
    Head {
        start_offset: le64_at(s, 0),
        bytes_in_stream: le32_at(s, 12),
        bytes_in_vdl: le32_at(s, 16),
        shifts: shifts_in(s),
    }
}

fn shifts_in(s: &[u8]) -> Shifts
    ensures { result ≡ shifts_of s.now }
{
    Shifts {
        unit: byte_at(s, 22) as u32,
        chunk: byte_at(s, 23) as u32,
        cluster: byte_at(s, 24) as u32,
    }
}

// How many blocks are larger than the data unit, in one pass over their sizes. By place: cut by `chunks_exact`, which was tried, sixteen
// take some ten instructions more, and so more than the reference, whose read takes 131 where this takes 122.
#[tactic(auto, using(crate::proofs::Blocks::size_in, crate::proofs::Blocks::one_larger, crate::proofs::Blocks::not_larger), unfolding(lemmas::specs::Counting::count))]
fn larger(s: &[u8], blocks: u16, unit: u32) -> u32
    requires { length_for blocks ≤ length s.now }
    ensures { result ≡ larger_than unit blocks (size_at s.now) }
{
    let mut larger = 0;
    for k in 0..blocks as usize {
        let at = 28 + 4 * k;
        if unit < le32_at(&s[at..at + 4], 0) {
            larger += 1;
        }
    }
    larger
}

// The size of the block at an index, none beyond the count; what the reader refuses is refused.
#[tactic(auto, unfolding(crate::specs::Reading::size_of, crate::specs::Layout::size_at, refusal::specs::Chain::unless_refused))]
pub fn size(s: &[u8], index: usize) -> Result<Option<u32>, Refusal>
    ensures { result ≡ size_of s.now index }
{
    judge(s)?;
    if le16_at(s, 26) as usize <= index {
        return Ok(None);
    }
    Ok(Some(le32_at(s, 28 + 4 * index)))
}

// The bytes of the sizes: those very bytes of s, or the empty part on a refusal.
// As `span_of`, one line in each record's crate: a trait that has both would ask each for the kind of part, the reader, the places and the law
// that they lie inside, which is more than these lines.
#[tactic(auto, using(wire::proofs::Parts::start_in, crate::proofs::Reading::part_inside))]
pub fn part(s: &[u8]) -> &[u8]
    ensures bytes { result.now ≡ segment_part s.now }
    ensures place { LiesAt result s.entry (segment_span s.now).at }
{
    wire::part(s, span_of(read(s)))
}

// Writes a header of its numbers and the blocks' sizes, with no bytes after them: what is given is judged, then 13. A refusal keeps
// the output's bytes; success keeps those behind the record.
// The shape is that of each record's writer, over its own judge, length and `put`: a trait for it would ask for these three, and a type of
// what is given. As one value it would be put together by each caller, and taken apart in `put`.
#[tactic(auto, using(crate::proofs::Writing::fits), unfolding(records::specs::Writing::written_of, records::specs::Writing::output_of, refusal::specs::Chain::unless_refused, refusal::specs::Chain::refuse_if))]
pub fn write(out: &mut [u8], head: Head, sizes: &[u32]) -> Result<usize, Refusal>
    ensures answer { result ≡ segment_written head sizes.now (length out.old) }
    ensures output { out.new ≡ output_of result (segment_bytes head sizes.now) out.old }
{
    judge_given(head, sizes)?;
    let len = 28 + 4 * sizes.len();
    if out.len() < len {
        return Err(Refusal::NoRoom);
    }
    put(out, head, sizes);
    Ok(len)
}

// 1, 25: what the reader would say of the bytes.
#[tactic(auto, unfolding(crate::specs::Writing::write_checks, refusal::specs::Chain::first_of))]
fn judge_given(head: Head, sizes: &[u32]) -> Result<(), Refusal>
    ensures { result ≡ first_of (write_checks head sizes.now) }
{
    if MOST_BLOCKS < sizes.len() {
        return Err(Refusal::TooLong);
    }
    if head.shifts.are_wrong() {
        return Err(Refusal::WrongShifts);
    }
    Ok(())
}

// The start offset, the numbers of four bytes behind it, and the sizes, each into its own part of the output. The fixed bytes, the
// shifts and the count make two such numbers, by sums: bytes laid out would be read back as numbers for `put_le32s`.
fn put(out: &mut [u8], head: Head, sizes: &[u32])
    requires limit { segment_length sizes.now ≤ 65535 }
    requires shifts { (head.shifts.chunk ≡ head.shifts.unit) × (head.shifts.unit ≤ 31) × (head.shifts.cluster ≤ 31) }
    requires room { segment_length sizes.now ≤ length out.old }
    ensures { out.new ≡ onto (segment_bytes head sizes.now) out.old }
{
    let len = 28 + 4 * sizes.len();
    let numbers = [
        len as u32,
        head.bytes_in_stream,
        head.bytes_in_vdl,
        65536 * head.shifts.unit + 16777216 * head.shifts.chunk,
        head.shifts.cluster + 256 + 65536 * (sizes.len() as u32),
    ];
    put_le64(&mut out[0..8], head.start_offset);
    put_le32s(&mut out[8..28], &numbers);
    put_le32s(&mut out[28..len], sizes);
}
