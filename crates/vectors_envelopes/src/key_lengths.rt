// The keys that an envelope carries, and its reach.
use crate::reader::headed;
use cases::MARK;
use std::io;

pub fn run(rt: &impl Print) -> io::Result<()> {
    seeds(rt)?;
    publics(rt)?;
    publics_at_31(rt)?;
    key_lengths(rt)?;
    key_lengths_at_31(rt)
}

fn seeds(rt: &impl Print) -> io::Result<()> {
    keyed(rt, b"seed: no key: ", 0, 3, 7, 0, 0, 0)?;
    keyed(rt, b"seed: L1 key: ", 0, 3, 7, 0, 64, 0)?;
    keyed(rt, b"seed: L2 key: ", 0, 3, 7, 0, 0, 64)?;
    keyed(rt, b"seed: both keys: ", 0, 3, 7, 0, 64, 64)?;
    keyed(rt, b"seed: L2 key in row 0: ", 0, 0, 2, 0, 0, 64)?;
    keyed(rt, b"seed: L2 key at the first: ", 0, 0, 0, 0, 0, 64)?;
    keyed(rt, b"seed: both keys in row 1: ", 0, 1, 0, 0, 64, 64)?;
    keyed(
        rt,
        b"seed: both keys before the last: ",
        0,
        31,
        30,
        0,
        64,
        64,
    )?;
    keyed(rt, b"seed: no key at L2 31: ", 0, 3, 31, 0, 0, 0)?;
    keyed(rt, b"seed: L1 key at L2 31: ", 0, 3, 31, 0, 64, 0)?;
    keyed(rt, b"seed: L1 key at L2 31 of row 0: ", 0, 0, 31, 0, 64, 0)?;
    keyed(rt, b"seed: L1 key at the last: ", 0, 31, 31, 0, 64, 0)?;
    keyed(rt, b"seed: flags 2: ", 2, 3, 7, 0, 64, 64)?;
    keyed(rt, b"seed: flags 80000000: ", 0x8000_0000, 3, 7, 0, 64, 64)
}

fn publics(rt: &impl Print) -> io::Result<()> {
    keyed(rt, b"public: with its key: ", 1, 3, 7, 20, 0, 20)?;
    keyed(rt, b"public: with a key of 64: ", 1, 3, 7, 64, 0, 64)?;
    keyed(rt, b"public: at the first: ", 1, 0, 0, 20, 0, 20)?;
    keyed(rt, b"public: flags 3: ", 3, 3, 7, 20, 0, 20)?;
    keyed(rt, b"public: all flags: ", 4_294_967_295, 3, 7, 20, 0, 20)?;
    keyed(rt, b"public: without its key: ", 1, 3, 7, 20, 0, 0)?;
    keyed(rt, b"public: key length 0: ", 1, 3, 7, 0, 0, 0)
}

// Document 02, No. 4: a public envelope at L2 index 31 may carry its key.
fn publics_at_31(rt: &impl Print) -> io::Result<()> {
    keyed(
        rt,
        b"public at L2 31: without its key: ",
        1,
        3,
        31,
        20,
        0,
        0,
    )?;
    keyed(rt, b"public at L2 31: with its key: ", 1, 3, 31, 20, 0, 20)?;
    keyed(
        rt,
        b"public at L2 31: with a key of 64: ",
        1,
        3,
        31,
        64,
        0,
        64,
    )?;
    keyed(rt, b"public at L2 31: with a key of 1: ", 1, 3, 31, 1, 0, 1)?;
    keyed(rt, b"public at L2 31: key length 0: ", 1, 3, 31, 0, 0, 0)?;
    keyed(rt, b"public at L2 31: in row 0: ", 1, 0, 31, 20, 0, 20)?;
    keyed(rt, b"public at L2 31: at the last: ", 1, 31, 31, 20, 0, 20)?;
    keyed(
        rt,
        b"public at L2 31: all flags: ",
        4_294_967_295,
        3,
        31,
        20,
        0,
        20,
    )
}

fn key_lengths(rt: &impl Print) -> io::Result<()> {
    keyed(rt, b"keys: L1 key at the first: ", 0, 0, 0, 0, 64, 0)?;
    keyed(rt, b"keys: L1 key in row 0: ", 0, 0, 30, 0, 64, 0)?;
    keyed(rt, b"keys: both keys in row 0: ", 0, 0, 7, 0, 64, 64)?;
    keyed(rt, b"keys: L1 key of 63: ", 0, 3, 7, 0, 63, 0)?;
    keyed(rt, b"keys: L2 key of 63: ", 0, 3, 7, 0, 0, 63)?;
    keyed(rt, b"keys: L2 key of 128: ", 0, 3, 7, 0, 0, 128)?;
    keyed(rt, b"keys: seed with a public key: ", 0, 3, 7, 20, 0, 20)?;
    keyed(rt, b"keys: public with an L1 key: ", 1, 3, 7, 20, 64, 20)?;
    keyed(rt, b"keys: public with a seed key: ", 1, 3, 7, 20, 0, 64)?;
    keyed(rt, b"keys: public with key length 0: ", 1, 3, 7, 0, 0, 64)
}

// What stays refused at L2 index 31: an L2 key of a seed envelope, an L1 key of a public one, and a public key of another length.
fn key_lengths_at_31(rt: &impl Print) -> io::Result<()> {
    keyed(
        rt,
        b"L2 31: seed with an L1 key of 65: ",
        0,
        3,
        31,
        0,
        65,
        0,
    )?;
    keyed(rt, b"L2 31: seed with an L2 key: ", 0, 3, 31, 0, 0, 64)?;
    keyed(rt, b"L2 31: seed with both keys: ", 0, 3, 31, 0, 64, 64)?;
    keyed(rt, b"L2 31: seed with a public key: ", 0, 3, 31, 20, 0, 20)?;
    keyed(rt, b"L2 31: public with a key of 19: ", 1, 3, 31, 20, 0, 19)?;
    keyed(rt, b"L2 31: public with a key of 21: ", 1, 3, 31, 20, 0, 21)?;
    keyed(rt, b"L2 31: public with a seed key: ", 1, 3, 31, 20, 0, 64)?;
    keyed(rt, b"L2 31: public with key length 0: ", 1, 3, 31, 0, 0, 1)?;
    keyed(rt, b"L2 31: public with an L1 key: ", 1, 3, 31, 20, 64, 0)?;
    keyed(rt, b"L2 31: public with both keys: ", 1, 3, 31, 20, 64, 20)
}

// An envelope at (5, l1, l2) with four texts of 2 bytes and these keys.
// The numbers stay apart: so most cases are one line; a struct would take a line for each, or a maker with the same numbers.
fn keyed(
    rt: &impl Print,
    name: &[u8],
    flags: u32,
    l1: u32,
    l2: u32,
    public_length: u32,
    l1_key: u32,
    l2_key: u32,
) -> io::Result<()> {
    headed(
        rt,
        name,
        88 + l1_key as usize + l2_key as usize,
        [0, MARK, flags, 5, l1, l2],
        [2, 0, 2, 0, 0, public_length, l1_key, l2_key, 2, 2],
    )
}
