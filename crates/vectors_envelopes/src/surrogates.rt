// Document 02, No. 6: surrogates in the four texts, whose units are little-endian: D83D is 3D D8.
use crate::reader::{FRONT, spelt};
use cases::MARK;
use std::io;

pub fn run(rt: &impl Print) -> io::Result<()> {
    pairs(rt)?;
    single(rt)?;
    unpaired(rt)?;
    ends(rt)?;
    malformed(rt)?;
    texts(rt)?;
    orders(rt)
}

fn pairs(rt: &impl Print) -> io::Result<()> {
    kdf(rt, b"pair: alone: ", 6, b"\x3D\xD8\x11\xDD\0\0")?;
    kdf(
        rt,
        b"pair: behind a letter: ",
        8,
        b"a\0\x3D\xD8\x11\xDD\0\0",
    )?;
    kdf(
        rt,
        b"pair: before a letter: ",
        8,
        b"\x3D\xD8\x11\xDDa\0\0\0",
    )?;
    kdf(
        rt,
        b"pair: twice: ",
        10,
        b"\x3D\xD8\x11\xDD\x3D\xD8\x11\xDD\0\0",
    )?;
    kdf(
        rt,
        b"pair: first high, first low: ",
        6,
        b"\x00\xD8\x00\xDC\0\0",
    )?;
    kdf(
        rt,
        b"pair: first high, last low: ",
        6,
        b"\x00\xD8\xFF\xDF\0\0",
    )?;
    kdf(
        rt,
        b"pair: last high, first low: ",
        6,
        b"\xFF\xDB\x00\xDC\0\0",
    )?;
    kdf(
        rt,
        b"pair: last high, last low: ",
        6,
        b"\xFF\xDB\xFF\xDF\0\0",
    )
}

// Units that are no surrogates, whatever a host thinks of them.
fn single(rt: &impl Print) -> io::Result<()> {
    kdf(rt, b"unit: before the surrogates: ", 4, b"\xFF\xD7\0\0")?;
    kdf(rt, b"unit: behind the surrogates: ", 4, b"\x00\xE0\0\0")?;
    kdf(rt, b"unit: byte order mark: ", 6, b"\xFF\xFEa\0\0\0")?;
    kdf(rt, b"unit: noncharacter FFFE: ", 6, b"\xFE\xFFa\0\0\0")?;
    kdf(
        rt,
        b"unit: noncharacters FFFF and FDD0: ",
        6,
        b"\xFF\xFF\xD0\xFD\0\0",
    )?;
    kdf(
        rt,
        b"unit: big-endian surrogates: ",
        6,
        b"\xD8\x3D\xDD\x11\0\0",
    )?;
    kdf(
        rt,
        b"unit: a pair across units: ",
        8,
        b"a\x3D\xD8\x11\xDDa\0\0",
    )?;
    kdf(rt, b"unit: a half across units: ", 6, b"a\x3D\xD8a\0\0")
}

fn unpaired(rt: &impl Print) -> io::Result<()> {
    kdf(rt, b"unpaired: high: ", 4, b"\x3D\xD8\0\0")?;
    kdf(
        rt,
        b"unpaired: high before a letter: ",
        6,
        b"\x3D\xD8a\0\0\0",
    )?;
    kdf(
        rt,
        b"unpaired: high behind a letter: ",
        6,
        b"a\0\x3D\xD8\0\0",
    )?;
    kdf(rt, b"unpaired: low: ", 4, b"\x11\xDD\0\0")?;
    kdf(
        rt,
        b"unpaired: low behind a letter: ",
        6,
        b"a\0\x11\xDD\0\0",
    )?;
    kdf(rt, b"unpaired: low, high: ", 6, b"\x11\xDD\x3D\xD8\0\0")?;
    kdf(
        rt,
        b"unpaired: high, high, low: ",
        8,
        b"\x3D\xD8\x3D\xD8\x11\xDD\0\0",
    )?;
    kdf(
        rt,
        b"unpaired: high, low, low: ",
        8,
        b"\x3D\xD8\x11\xDD\x11\xDD\0\0",
    )
}

fn ends(rt: &impl Print) -> io::Result<()> {
    kdf(rt, b"unpaired: the first high: ", 4, b"\x00\xD8\0\0")?;
    kdf(rt, b"unpaired: the last high: ", 4, b"\xFF\xDB\0\0")?;
    kdf(rt, b"unpaired: the first low: ", 4, b"\x00\xDC\0\0")?;
    kdf(rt, b"unpaired: the last low: ", 4, b"\xFF\xDF\0\0")?;
    kdf(rt, b"unpaired: high, high: ", 6, b"\x00\xD8\xFF\xDB\0\0")?;
    kdf(rt, b"unpaired: low, low: ", 6, b"\x00\xDC\xFF\xDF\0\0")
}

// In one text 10 is ruled out first.
fn malformed(rt: &impl Print) -> io::Result<()> {
    kdf(rt, b"10, then 24: no terminator: ", 2, b"\x3D\xD8")?;
    kdf(rt, b"10, then 24: of 5 bytes: ", 5, b"\x3D\xD8\0\0\0")?;
    kdf(rt, b"10, then 24: zero behind it: ", 6, b"\x3D\xD8\0\0\0\0")?;
    kdf(rt, b"10, then 24: zero before it: ", 6, b"\0\0\x3D\xD8\0\0")
}

// The other three texts; and that one does not go on in the next.
fn texts(rt: &impl Print) -> io::Result<()> {
    bodies(
        rt,
        b"half a pair: agreement algorithm: ",
        [2, 4, 2, 2],
        b"\0\0\x3D\xD8\0\0",
    )?;
    bodies(
        rt,
        b"half a pair: domain: ",
        [2, 2, 4, 2],
        b"\0\0\0\0\x3D\xD8\0\0",
    )?;
    bodies(
        rt,
        b"half a pair: forest: ",
        [2, 2, 2, 4],
        b"\0\0\0\0\0\0\x3D\xD8\0\0",
    )?;
    bodies(
        rt,
        b"half a pair: the other half in the next text: ",
        [4, 4, 2, 2],
        b"\x3D\xD8\0\0\x11\xDD\0\0",
    )?;
    bodies(
        rt,
        b"pair: in the other three: ",
        [2, 6, 6, 6],
        b"\0\0\x3D\xD8\x11\xDD\0\0\x3D\xD8\x11\xDD\0\0\x3D\xD8\x11\xDD\0\0",
    )
}

// Two refusals apply: the first text that is refused is the answer; 5 and 3 come before the texts, and 11 after them.
fn orders(rt: &impl Print) -> io::Result<()> {
    bodies(
        rt,
        b"texts: 24, then 10: ",
        [4, 2, 2, 2],
        b"\x3D\xD8\0\0a\0",
    )?;
    bodies(
        rt,
        b"texts: 10, then 24: ",
        [2, 4, 2, 2],
        b"a\0\x3D\xD8\0\0",
    )?;
    bodies(
        rt,
        b"texts: 24 of the domain, 10 of the forest: ",
        [2, 2, 4, 2],
        b"\0\0\0\0\x3D\xD8\0\0a\0",
    )?;
    bodies(
        rt,
        b"texts: 10 of the domain, 24 of the forest: ",
        [2, 2, 2, 4],
        b"\0\0\0\0a\0\x3D\xD8\0\0",
    )?;
    headed(
        rt,
        b"envelope: 5 before 24: ",
        90,
        [0, MARK, 0, 0, 32, 0],
        0,
        b"\x3D\xD8\0\0",
    )?;
    headed(
        rt,
        b"envelope: 3 before 24: ",
        89,
        FRONT,
        0,
        b"\x3D\xD8\0\0",
    )?;
    headed(
        rt,
        b"envelope: 24 before 11: ",
        154,
        FRONT,
        64,
        b"\x3D\xD8\0\0",
    )
}

// A keyless envelope at (0, 0, 0), whose KDF algorithm is the first `len` of these bytes.
fn kdf(rt: &impl Print, name: &[u8], len: u32, text: &[u8]) -> io::Result<()> {
    bodies(rt, name, [len, 2, 2, 2], text)
}

// A keyless envelope at (0, 0, 0) with texts of these lengths, which are these bytes and zeros behind them.
fn bodies(rt: &impl Print, name: &[u8], lengths: [u32; 4], texts: &[u8]) -> io::Result<()> {
    let [kdf, agreement, domain, forest] = lengths;
    let len = 80 + kdf as usize + agreement as usize + domain as usize + forest as usize;
    spelt(
        rt,
        name,
        len,
        FRONT,
        [kdf, 0, agreement, 0, 0, 0, 0, 0, domain, forest],
        texts,
    )
}

// An envelope of len bytes with this front, a KDF algorithm of 4 bytes and an L1 key of so many zeros.
// The numbers stay apart: a struct would take two lines more in each of the three cases, or a maker with the same numbers.
fn headed(
    rt: &impl Print,
    name: &[u8],
    len: usize,
    front: [u32; 6],
    l1_key: u32,
    text: &[u8],
) -> io::Result<()> {
    spelt(
        rt,
        name,
        len,
        front,
        [4, 0, 2, 0, 0, 0, l1_key, 0, 2, 2],
        text,
    )
}
