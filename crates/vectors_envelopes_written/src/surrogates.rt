// Document 02, No. 6: surrogates in the four texts that a writer is given.
use crate::writer::{EMPTIES, HEAD, written};
use envelope::{Bodies, Head};
use std::io;
use std::io::Write;

// The high surrogate D83D and the low one DD11.
const PAIR: &[u8] = b"\x3D\xD8\x11\xDD\0\0";

const HIGH: &[u8] = b"\x3D\xD8\0\0";

const LOW: &[u8] = b"\x11\xDD\0\0";

// The low one before the high one.
const TURNED: &[u8] = b"\x11\xDD\x3D\xD8\0\0";

// A high one without a terminator.
const OPEN: &[u8] = b"\x3D\xD8";

// A byte less than an L1 key.
const SHORT: &[u8] = &[0; 63];

pub fn run(to: &mut impl Write) -> io::Result<()> {
    kdfs(to)?;
    texts(to)?;
    orders(to)
}

fn kdfs(to: &mut impl Write) -> io::Result<()> {
    kdf(to, b"writer, surrogates: a pair: ", 200, PAIR)?;
    kdf(to, b"writer, surrogates: a pair, just room: ", 92, PAIR)?;
    kdf(to, b"writer, surrogates: a pair, a byte short: ", 91, PAIR)?;
    kdf(to, b"writer, surrogates: high: ", 200, HIGH)?;
    kdf(to, b"writer, surrogates: low: ", 200, LOW)?;
    kdf(to, b"writer, surrogates: low, high: ", 200, TURNED)?;
    kdf(to, b"writer, surrogates: no terminator: ", 200, OPEN)
}

// The other three texts; and where two are refused, the first of them is the answer.
fn texts(to: &mut impl Write) -> io::Result<()> {
    write(
        to,
        b"writer, surrogates: pairs: ",
        Bodies {
            kdf: PAIR,
            agreement: PAIR,
            domain: PAIR,
            forest: PAIR,
            ..EMPTIES
        },
    )?;
    write(
        to,
        b"writer, surrogates: high in the agreement algorithm: ",
        Bodies {
            agreement: HIGH,
            ..EMPTIES
        },
    )?;
    write(
        to,
        b"writer, surrogates: high in the domain: ",
        Bodies {
            domain: HIGH,
            ..EMPTIES
        },
    )?;
    write(
        to,
        b"writer, surrogates: high in the forest: ",
        Bodies {
            forest: HIGH,
            ..EMPTIES
        },
    )?;
    write(
        to,
        b"writer, surrogates: high, and low in the next text: ",
        Bodies {
            kdf: HIGH,
            agreement: LOW,
            ..EMPTIES
        },
    )?;
    write(
        to,
        b"writer, surrogates: 24, then 10: ",
        Bodies {
            kdf: HIGH,
            agreement: OPEN,
            ..EMPTIES
        },
    )?;
    write(
        to,
        b"writer, surrogates: 10, then 24: ",
        Bodies {
            kdf: OPEN,
            agreement: HIGH,
            ..EMPTIES
        },
    )
}

// Two refusals apply: the first is the answer.
fn orders(to: &mut impl Write) -> io::Result<()> {
    let high = Bodies {
        kdf: HIGH,
        ..EMPTIES
    };
    let keyed = Bodies {
        l1_key: SHORT,
        ..high
    };
    let outside = Head {
        at: cases::gkid(5, 32, 7),
        ..HEAD
    };
    written(to, b"envelope writer: 5 before 24: ", 200, outside, high)?;
    written(to, b"envelope writer: 24 before 11: ", 200, HEAD, keyed)?;
    kdf(to, b"envelope writer: 24 before 13: ", 0, HIGH)
}

// A keyless envelope at (5, 3, 7) with this KDF algorithm, written into `room` bytes.
fn kdf(to: &mut impl Write, name: &[u8], room: usize, kdf: &'static [u8]) -> io::Result<()> {
    written(to, name, room, HEAD, Bodies { kdf, ..EMPTIES })
}

// A keyless envelope at (5, 3, 7) with these texts.
fn write(to: &mut impl Write, name: &[u8], texts: Bodies<&[u8]>) -> io::Result<()> {
    written(to, name, 200, HEAD, texts)
}
