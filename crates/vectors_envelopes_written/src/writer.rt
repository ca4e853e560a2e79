// Envelopes written, and read back.
use cases::FILL;
use envelope::{Bodies, Head};
use gkid::{Gkid, L0, L1, L2};
use line::{Line, Text};
use refusal::Refusal;
use rootid::RootId;
use std::io;
use std::io::Write;

// The head of a seed envelope at (5, 3, 7).
pub const HEAD: Head = Head {
    version: 1,
    flags: 0,
    at: Gkid {
        l0: L0(5),
        l1: L1(3),
        l2: L2(7),
    },
    root: RootId { high: 1, low: 2 },
    private_length: 0,
    public_length: 0,
};

const EMPTY: &[u8] = b"\0\0";

// Four empty texts, and nothing else.
pub const EMPTIES: Bodies<&[u8]> = Bodies {
    kdf: EMPTY,
    kdf_parameters: b"",
    agreement: EMPTY,
    agreement_parameters: b"",
    domain: EMPTY,
    forest: EMPTY,
    l1_key: b"",
    l2_key: b"",
};

pub fn run(to: &mut impl Write) -> io::Result<()> {
    rooms(to)?;
    refusals(to)?;
    orders(to)?;
    at_31(to)?;
    refused_at_31(to)
}

fn rooms(to: &mut impl Write) -> io::Result<()> {
    write(to, b"envelope writer: room to spare: ", 200, 3, 0, 2, 0, 0)?;
    write(to, b"envelope writer: just room: ", 88, 3, 0, 2, 0, 0)?;
    write(to, b"envelope writer: a byte short: ", 87, 3, 0, 2, 0, 0)?;
    write(to, b"envelope writer: an L1 key: ", 200, 3, 0, 2, 0, 64)
}

fn refusals(to: &mut impl Write) -> io::Result<()> {
    write(to, b"envelope writer: L1 index 32: ", 200, 32, 0, 2, 0, 0)?;
    write(to, b"envelope writer: empty text: ", 200, 3, 0, 0, 0, 0)?;
    write(
        to,
        b"envelope writer: no zero at the end: ",
        200,
        3,
        97,
        2,
        0,
        0,
    )?;
    write(to, b"envelope writer: L1 key of 63: ", 200, 3, 0, 2, 0, 63)?;
    write(
        to,
        b"envelope writer: L1 key in row 0: ",
        200,
        0,
        0,
        2,
        0,
        64,
    )?;
    write(
        to,
        b"envelope writer: 65536 bytes: ",
        200,
        3,
        0,
        2,
        65_448,
        0,
    )?;
    write(
        to,
        b"envelope writer: 65535 bytes in too little room: ",
        200,
        3,
        0,
        2,
        65_447,
        0,
    )
}

// Two refusals apply: the first is the answer.
fn orders(to: &mut impl Write) -> io::Result<()> {
    write(
        to,
        b"envelope writer: 1 before 5: ",
        200,
        32,
        0,
        2,
        65_448,
        0,
    )?;
    write(to, b"envelope writer: 5 before 10: ", 200, 32, 97, 2, 0, 0)?;
    write(to, b"envelope writer: 10 before 11: ", 200, 3, 97, 2, 0, 63)?;
    write(to, b"envelope writer: 11 before 13: ", 0, 3, 0, 2, 0, 63)
}

// Document 02, No. 4: a public envelope at L2 index 31 is written with its key.
fn at_31(to: &mut impl Write) -> io::Result<()> {
    keyed(to, b"writer at L2 31: public: ", 200, 1, 20, 0, 0)?;
    keyed(to, b"writer at L2 31: public, its key: ", 200, 1, 20, 0, 20)?;
    keyed(to, b"writer at L2 31: just room: ", 108, 1, 20, 0, 20)?;
    keyed(to, b"writer at L2 31: a byte short: ", 107, 1, 20, 0, 20)?;
    keyed(to, b"writer at L2 31: key length 0: ", 200, 1, 0, 0, 0)?;
    keyed(to, b"writer at L2 31: seed, L1 key: ", 200, 0, 20, 64, 0)
}

// What stays refused there; the last one has no room either.
fn refused_at_31(to: &mut impl Write) -> io::Result<()> {
    keyed(to, b"writer at L2 31: a key of 19: ", 200, 1, 20, 0, 19)?;
    keyed(to, b"writer at L2 31: a key of 21: ", 200, 1, 20, 0, 21)?;
    keyed(to, b"writer at L2 31: length 0, a key: ", 200, 1, 0, 0, 1)?;
    keyed(to, b"writer at L2 31: public, L1 key: ", 200, 1, 20, 64, 0)?;
    keyed(
        to,
        b"writer at L2 31: public, both keys: ",
        200,
        1,
        20,
        64,
        20,
    )?;
    keyed(to, b"writer at L2 31: seed, L2 key: ", 200, 0, 64, 0, 64)?;
    keyed(to, b"writer at L2 31: 11 before 13: ", 0, 0, 20, 0, 20)
}

// A seed envelope at (5, l1, 7) written into `room` bytes, whose KDF algorithm is the first n bytes of this letter and a zero, with
// KDF parameters and an L1 key of so many zeros.
// The numbers stay apart: so most cases are one line; a struct would take a line for each, or a maker with the same numbers.
fn write(
    to: &mut impl Write,
    name: &[u8],
    room: usize,
    l1: u32,
    letter: u8,
    n: usize,
    kdf_parameters: usize,
    l1_key: usize,
) -> io::Result<()> {
    let kdf = [letter, 0];
    let zeros = [0; 65536];
    let head = Head {
        at: cases::gkid(5, l1, 7),
        ..HEAD
    };
    let bodies = Bodies {
        kdf: cases::first(&kdf, n),
        kdf_parameters: cases::first(&zeros, kdf_parameters),
        l1_key: cases::first(&zeros, l1_key),
        ..EMPTIES
    };
    written(to, name, room, head, bodies)
}

// An envelope at (5, 3, 31) with these flags and this public key length, four texts of 2 bytes and keys of so many zeros.
// The numbers stay apart: so most cases are one line; a struct would take a line for each, or a maker with the same numbers.
fn keyed(
    to: &mut impl Write,
    name: &[u8],
    room: usize,
    flags: u32,
    public_length: u32,
    l1_key: usize,
    l2_key: usize,
) -> io::Result<()> {
    let zeros = [0; 64];
    let head = Head {
        flags,
        at: cases::gkid(5, 3, 31),
        public_length,
        ..HEAD
    };
    let bodies = Bodies {
        l1_key: cases::first(&zeros, l1_key),
        l2_key: cases::first(&zeros, l2_key),
        ..EMPTIES
    };
    written(to, name, room, head, bodies)
}

// These written into `room` bytes.
// Each record's writer has its cases in this shape, here with `shown`: one function for all would take the writer and what reads back as closures, two for each.
pub fn written(
    to: &mut impl Write,
    name: &[u8],
    room: usize,
    head: Head,
    bodies: Bodies<&[u8]>,
) -> io::Result<()> {
    let mut out = [FILL; 200];
    let mut line = Line::new();
    line.text(name);
    if room <= out.len() {
        let answer = envelope::write(&mut out[0..room], head, bodies);
        shown(&mut line, answer, &out);
    }
    cases::print(to, line)
}

// The answer; the record that was written, as it reads back; and whether the output behind it, or all of it on a refusal, is as it was.
fn shown(line: &mut Line, answer: Result<usize, Refusal>, out: &[u8; 200]) {
    words::written(line, answer);
    if let Ok(len) = answer {
        line.text(b" ");
        envline::shown(line, cases::first(out, len));
        return cases::fill_kept(line, out, len);
    }
    cases::fill_kept(line, out, 0)
}
