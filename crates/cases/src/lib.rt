// What the programs that run cases share: identifiers, records put together in a lent buffer, its first bytes, the words for what was
// compared, and a line written.
#![tactic(auto)]

ghost use Rattle.std.specs.Prelude.{◌≡◌, OnOk};
ghost use Rattle.std.specs.Io.KnownBytes.{Appends};
ghost use Rattle.gkid.specs.Identifier.{gkid};
ghost use Rattle.wire.specs.Parts.{part_of, le32_bytes};
ghost use Rattle.line.specs.Text.{text_of, behind, newline, put, put_all};
ghost use Rattle.cases.specs.Building.{put_at, entry_put, envelope_put};
ghost use Rattle.cases.specs.Comparing.{compared_word, around_words, kept_word, fill_kept_words};

use gkid::{Gkid, L0, L1, L2};
use line::{Line, Text};
use std::io;
use std::io::Write;
use wire::Span;

// What a writer's output is filled with beforehand.
pub const FILL: u8 = 238;

// Document 01, "Group Key Envelope": the mark 4B 44 53 4B as a number.
pub const MARK: u32 = 0x4B53_444B;

// The identifier of three indices.
pub fn gkid(l0: u32, l1: u32, l2: u32) -> Gkid
    ensures { result ≡ gkid l0 l1 l2 }
{
    Gkid {
        l0: L0(l0),
        l1: L1(l1),
        l2: L2(l2),
    }
}

// The first `len` bytes; none where there are fewer.
pub fn first(s: &[u8], len: usize) -> &[u8]
    ensures { result.now ≡ part_of s.now 0 len }
{
    wire::part(s, Span { at: 0, len })
}

// Bytes put at an offset, where they fit.
pub fn bytes(dst: &mut [u8], at: usize, src: &[u8])
    ensures { dst.new ≡ put_at at src.now dst.old }
{
    if at <= dst.len() {
        wire::copy_into(&mut dst[at..], src);
    }
}

// Numbers put one after the other from an offset on, where they fit. It is `bytes` over numbers: each is one line over its own writer of `wire`.
pub fn numbers(dst: &mut [u8], at: usize, xs: &[u32])
    ensures { dst.new ≡ put_at at (le32_bytes xs.now) dst.old }
{
    if at <= dst.len() {
        wire::put_le32s(&mut dst[at..], xs);
    }
}

// A Key List Entry: Length, public key offset, FEK length, FEK offset and Flags; and the public key item's own length `n` at its
// first byte.
pub fn entry(dst: &mut [u8], head: [u32; 5], n: u32)
    ensures { dst.new ≡ entry_put head n dst.old }
{
    numbers(dst, 0, &head);
    numbers(dst, head[1] as usize, &[n]);
}

// An envelope's head: version, mark, flags, L0, L1 and L2; the root identifier; and the ten lengths.
pub fn envelope(dst: &mut [u8], front: [u32; 6], root: &[u8], lengths: [u32; 10])
    ensures { dst.new ≡ envelope_put front root.now lengths dst.old }
{
    numbers(dst, 0, &front);
    bytes(dst, 24, root);
    numbers(dst, 40, &lengths);
}

// SAME where two slices have the same bytes, else OTHER.
pub fn compared<T: Text>(out: &mut T, a: &[u8], b: &[u8])
    ensures { T.buffer out.new ≡ put (T.buffer out.old) (compared_word a.now b.now) }
{
    if a == b {
        out.text(b"SAME");
    } else {
        out.text(b"OTHER");
    }
}

// Two records compared around a field that is left out: the first `before` bytes, those behind it, and the whole, each behind a space.
#[tactic(auto, unfolding(line::specs::Text::put_all, crate::specs::Comparing::around_words))]
pub fn compared_around<T: Text>(out: &mut T, a: &[u8], b: &[u8], before: usize, behind: Span)
    ensures { T.buffer out.new ≡ put_all (T.buffer out.old) (around_words a.now b.now before behind) }
{
    out.text(b" ");
    compared(out, first(a, before), first(b, before));
    out.text(b" ");
    compared(out, wire::part(a, behind), wire::part(b, behind));
    out.text(b" ");
    compared(out, a, b);
}

// KEPT where an output's bytes from `len` on are those from before, else CHANGED.
pub fn kept<T: Text>(out: &mut T, before: &[u8], after: &[u8], len: usize)
    ensures { T.buffer out.new ≡ put (T.buffer out.old) (kept_word before.now after.now len) }
{
    if wire::rest(before, len) == wire::rest(after, len) {
        out.text(b"KEPT");
    } else {
        out.text(b"CHANGED");
    }
}

// KEPT, behind a space, where an output that was filled with FILL beforehand has it still from `len` on, else CHANGED.
#[tactic(auto, unfolding(line::specs::Text::put_all, crate::specs::Comparing::fill_kept_words))]
pub fn fill_kept<T: Text, const N: usize>(out: &mut T, after: &[u8; N], len: usize)
    ensures { T.buffer out.new ≡ put_all (T.buffer out.old) (fill_kept_words N after.now len) }
{
    out.text(b" ");
    kept(out, &[FILL; N], after, len);
}

// A finished line, ended and written.
pub fn print<W: Write>(to: &mut W, mut line: Line) -> io::Result<()>
    ensures { OnOk result (Appends (W.contents to.old) (W.contents to.new) (behind (text_of line) newline)) }
{
    line.text(b"\n");
    to.write_all(line.as_bytes())
}
