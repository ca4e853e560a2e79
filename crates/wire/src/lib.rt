// Numbers in bytes, parts of a slice, and putting bytes into a lent part. Every function is total: a number or a part that
// does not lie wholly inside is 0 or empty, and what does not fit changes nothing.
#![tactic(auto)]

ghost use Rattle.std.specs.Prelude.{◌≡◌, ◌+◌, drop};
ghost use Rattle.wire.specs.Numbers.{le_of, le_bytes, be_of};
ghost use Rattle.wire.specs.Parts.{le_at, be_at, part_of, start_of, onto, le32_bytes, LiesAt};

// A place in a slice: `len` bytes from `at` on.
#[derive(Debug, Clone, Copy, PartialEq, Eq)]
pub struct Span {
    pub at: usize,
    pub len: usize,
}

// The bytes of a span: those very bytes of s, or the empty part where any of it lies outside. By a range:
// clause `place` says where they lie, which of what `get` hands out is not known.
#[tactic(auto, unfolding(crate::specs::Parts::part_of, crate::specs::Parts::start_of))]
pub fn part(s: &[u8], span: Span) -> &[u8]
    ensures bytes { result.now ≡ part_of s.now span.at span.len }
    ensures place { LiesAt result s.entry (start_of s.now span.at span.len) }
{
    let Span { at, len } = span;
    if at <= s.len() && len <= s.len() - at {
        &s[at..at + len]
    } else {
        &s[..0]
    }
}

// The bytes from `at` on; none where that lies behind the end.
#[tactic(auto, using(crate::proofs::Parts::rest_whole))]
pub fn rest(s: &[u8], at: usize) -> &[u8]
    ensures { result.now ≡ drop at s.now }
{
    s.get(at..).unwrap_or(&[])
}

// The N bytes from `at` on; zeros where any of them lies outside. The numbers below differ in width and order of bytes: each is one line
// over this, as it would be in an impl of a trait.
fn array_at<const N: usize>(s: &[u8], at: usize) -> [u8; N]
    ensures little { le_of result ≡ le_at N s.now at }
    ensures big { be_of result ≡ be_at N s.now at }
{
    part(s, Span { at, len: N }).try_into().unwrap_or([0; N])
}

// The byte at `at`, or 0 where it does not lie inside.
#[tactic(auto, using(crate::proofs::Numbers::byte_read))]
pub fn byte_at(s: &[u8], at: usize) -> u8
    ensures { result ≡ le_at 1 s.now at }
{
    s.get(at).copied().unwrap_or(0)
}

// The little-endian u16 at `at`, or 0 where it does not lie wholly inside.
#[tactic(auto, unfolding(crate::specs::Numbers::le_of))]
pub fn le16_at(s: &[u8], at: usize) -> u16
    ensures { result ≡ le_at 2 s.now at }
{
    u16::from_le_bytes(array_at(s, at))
}

// The little-endian u32 at `at`, or 0 where it does not lie wholly inside.
#[tactic(auto, unfolding(crate::specs::Numbers::le_of))]
pub fn le32_at(s: &[u8], at: usize) -> u32
    ensures { result ≡ le_at 4 s.now at }
{
    u32::from_le_bytes(array_at(s, at))
}

// The little-endian u64 at `at`, or 0 where it does not lie wholly inside.
pub fn le64_at(s: &[u8], at: usize) -> u64
    ensures { result ≡ le_at 8 s.now at }
{
    u64::from_le_bytes(array_at(s, at))
}

// The u32 at `at`, most significant byte first, or 0 where it does not lie wholly inside.
#[tactic(auto, unfolding(crate::specs::Numbers::be_of, crate::specs::Numbers::le_of))]
pub fn be32_at(s: &[u8], at: usize) -> u32
    ensures { result ≡ be_at 4 s.now at }
{
    u32::from_be_bytes(array_at(s, at))
}

// The u64 at `at`, most significant byte first, or 0 where it does not lie wholly inside.
pub fn be64_at(s: &[u8], at: usize) -> u64
    ensures { result ≡ be_at 8 s.now at }
{
    u64::from_be_bytes(array_at(s, at))
}

// A slice copied to the start of a lent part.
#[tactic(auto, unfolding(crate::specs::Parts::onto))]
pub fn copy_into(dst: &mut [u8], src: &[u8])
    ensures { dst.new ≡ onto src.now dst.old }
{
    if src.len() <= dst.len() {
        dst[..src.len()].copy_from_slice(src);
    }
}

// A u64 put at the start of a lent part, little-endian.
#[tactic(auto, using(crate::proofs::Numbers::le_stored))]
pub fn put_le64(dst: &mut [u8], x: u64)
    ensures { dst.new ≡ onto (le_bytes 8 x) dst.old }
{
    copy_into(dst, &x.to_le_bytes());
}

// Numbers put one after the other at the start of a lent part, each a little-endian u32. By their places: of what a loop over
// `chunks_exact_mut` writes nothing is known.
pub fn put_le32s(dst: &mut [u8], xs: &[u32])
    ensures { dst.new ≡ onto (le32_bytes xs.now) dst.old }
{
    if xs.len() <= dst.len() / 4 {
        for (i, x) in xs.iter().enumerate() {
            copy_into(&mut dst[4 * i..4 * i + 4], &x.to_le_bytes());
        }
    }
}
