// Envelopes read.
use crate::write;
use cases::MARK;
use std::io;

// A seed envelope at (0, 0, 0).
pub const FRONT: [u32; 6] = [0, MARK, 0, 0, 0, 0];

// Four texts of 2 bytes, and nothing else.
pub const TEXTS: [u32; 10] = [2, 0, 2, 0, 0, 0, 0, 0, 2, 2];

// An envelope of len bytes with this head, whose bodies are zeros.
// The numbers stay apart, here and in `spelt`: so nine of twenty cases of heads are one line; a struct would take a line for each, or a maker with the same numbers.
pub fn headed(
    rt: &impl Print,
    name: &[u8],
    len: usize,
    front: [u32; 6],
    lengths: [u32; 10],
) -> io::Result<()> {
    spelt(rt, name, len, front, lengths, b"")
}

// The same, whose bodies begin with these bytes.
pub fn spelt(
    rt: &impl Print,
    name: &[u8],
    len: usize,
    front: [u32; 6],
    lengths: [u32; 10],
    bodies: &[u8],
) -> io::Result<()> {
    let mut s = [0; 65536];
    cases::envelope(&mut s, front, b"", lengths);
    cases::bytes(&mut s, 80, bodies);
    told(rt, name, cases::first(&s, len))
}

// The case's name, then the line that the program `envinfo` writes for these bytes.
pub fn told(rt: &impl Print, name: &[u8], s: &[u8]) -> io::Result<()> {
    write(rt, name)?;
    write(rt, envline::line_of(s).as_bytes())
}
