// The four texts.
use crate::reader::{FRONT, spelt};
use std::io;

pub fn run(rt: &impl Print) -> io::Result<()> {
    accepted(rt)?;
    malformed(rt)?;
    others(rt)
}

fn accepted(rt: &impl Print) -> io::Result<()> {
    worded(rt, b"text: one letter: ", [4, 0, 2, 0], b"a\0\0\0")?;
    worded(
        rt,
        b"text: zeros across units: ",
        [6, 0, 2, 0],
        b"a\0\0a\0\0",
    )?;
    worded(
        rt,
        b"text: at an odd offset: ",
        [2, 1, 4, 0],
        b"\0\0pa\0\0\0",
    )?;
    worded(
        rt,
        b"text: parameters of any bytes: ",
        [2, 3, 2, 4],
        b"\0\0abc\0\0\0\0\0d",
    )
}

fn malformed(rt: &impl Print) -> io::Result<()> {
    worded(rt, b"text: of 3 bytes: ", [3, 0, 2, 0], b"a\0\0")?;
    worded(rt, b"text: of 1 byte: ", [1, 0, 2, 0], b"\0")?;
    worded(rt, b"text: empty: ", [0, 0, 2, 0], b"")?;
    worded(rt, b"text: zero inside: ", [4, 0, 2, 0], b"\0\0\0\0")?;
    worded(rt, b"text: no zero at the end: ", [2, 0, 2, 0], b"a\0")?;
    worded(rt, b"text: half a zero at the end: ", [2, 0, 2, 0], b"\0a")
}

// The other three texts.
fn others(rt: &impl Print) -> io::Result<()> {
    worded(
        rt,
        b"text: agreement algorithm malformed: ",
        [2, 0, 2, 0],
        b"\0\0a\0",
    )?;
    worded(
        rt,
        b"text: domain malformed: ",
        [2, 0, 2, 0],
        b"\0\0\0\0a\0",
    )?;
    worded(
        rt,
        b"text: forest malformed: ",
        [2, 0, 2, 0],
        b"\0\0\0\0\0\0a\0",
    )
}

// A keyless envelope at (0, 0, 0) with a domain and a forest of 2 bytes and these four lengths before them.
fn worded(rt: &impl Print, name: &[u8], lengths: [u32; 4], bodies: &[u8]) -> io::Result<()> {
    let [kdf, kdf_parameters, agreement, agreement_parameters] = lengths;
    let before = 80 + kdf as usize + kdf_parameters as usize;
    let len = before + agreement as usize + agreement_parameters as usize + 4;
    spelt(
        rt,
        name,
        len,
        FRONT,
        [
            kdf,
            kdf_parameters,
            agreement,
            agreement_parameters,
            0,
            0,
            0,
            0,
            2,
            2,
        ],
        bodies,
    )
}
