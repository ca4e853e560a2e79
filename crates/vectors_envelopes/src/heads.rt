// Lengths, marks and indices.
use crate::reader::{FRONT, TEXTS, headed};
use cases::MARK;
use std::io;

pub fn run(rt: &impl Print) -> io::Result<()> {
    lengths(rt)?;
    marks(rt)
}

fn lengths(rt: &impl Print) -> io::Result<()> {
    headed(rt, b"envelope: four texts of 2: ", 88, FRONT, TEXTS)?;
    headed(rt, b"envelope: no bytes: ", 0, FRONT, TEXTS)?;
    headed(rt, b"envelope: 79 bytes: ", 79, FRONT, TEXTS)?;
    headed(rt, b"envelope: 65536 bytes: ", 65_536, FRONT, TEXTS)?;
    headed(
        rt,
        b"envelope: 65535 bytes: ",
        65_535,
        FRONT,
        [2, 65_447, 2, 0, 0, 0, 0, 0, 2, 2],
    )?;
    headed(rt, b"envelope: a byte missing: ", 87, FRONT, TEXTS)?;
    headed(rt, b"envelope: a byte too many: ", 89, FRONT, TEXTS)?;
    headed(
        rt,
        b"envelope: lengths past 32 bits: ",
        88,
        FRONT,
        [2, 4_294_967_295, 2, 1, 0, 0, 0, 0, 2, 2],
    )?;
    headed(
        rt,
        b"envelope: greatest private and public key lengths: ",
        88,
        FRONT,
        [2, 0, 2, 0, 4_294_967_295, 4_294_967_295, 0, 0, 2, 2],
    )
}

fn marks(rt: &impl Print) -> io::Result<()> {
    headed(rt, b"envelope: 80 zeros: ", 80, [0; 6], [0; 10])?;
    headed(
        rt,
        b"envelope: mark reversed: ",
        88,
        [0, 0x4B44_534B, 0, 0, 0, 0],
        TEXTS,
    )?;
    headed(
        rt,
        b"envelope: L1 index 32: ",
        88,
        [0, MARK, 0, 0, 32, 0],
        TEXTS,
    )?;
    headed(
        rt,
        b"envelope: L2 index 32: ",
        88,
        [0, MARK, 0, 0, 0, 32],
        TEXTS,
    )?;
    headed(
        rt,
        b"envelope: greatest version and L0: ",
        88,
        [4_294_967_295, MARK, 0, 4_294_967_295, 31, 31],
        TEXTS,
    )
}

// Two refusals apply: the first is the answer.
pub fn orders(rt: &impl Print) -> io::Result<()> {
    headed(rt, b"envelope: 1 before 4: ", 65_536, [0; 6], TEXTS)?;
    headed(rt, b"envelope: 2 before 4: ", 79, [0; 6], TEXTS)?;
    headed(
        rt,
        b"envelope: 4 before 5: ",
        88,
        [0, 0, 0, 0, 32, 0],
        TEXTS,
    )?;
    headed(
        rt,
        b"envelope: 5 before 3: ",
        87,
        [0, MARK, 0, 0, 32, 0],
        TEXTS,
    )?;
    headed(
        rt,
        b"envelope: 3 before 10: ",
        87,
        FRONT,
        [0, 0, 2, 0, 0, 0, 0, 0, 2, 2],
    )?;
    headed(
        rt,
        b"envelope: 10 before 11: ",
        154,
        FRONT,
        [4, 0, 2, 0, 0, 0, 64, 0, 2, 2],
    )
}
