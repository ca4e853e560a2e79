// One record each, at (5,3,7) unless it says another clock, against a table of one row of zeros.
use crate::{LATEST, MINUS_ONE, NOW, recorded, told};
use std::io;

pub fn run(rt: &impl Print) -> io::Result<()> {
    samples(rt)?;
    flags(rt)?;
    stray(rt)?;
    roots(rt)?;
    indices(rt)?;
    clocks(rt)?;
    parts(rt)?;
    tables(rt)
}

// No root: seed rights are 0x50 with the verdict yes, public ones 0x30, none 0x10.
fn samples(rt: &impl Print) -> io::Result<()> {
    asked(rt, b"latest, seed rights: ", 0x50, LATEST)?;
    asked(rt, b"latest, public rights: ", 0x30, LATEST)?;
    asked(rt, b"(5,3,8), seed rights: ", 0x50, [5, 3, 8])?;
    asked(rt, b"latest, no rights: ", 0x10, LATEST)?;
    asked(rt, b"latest, verdict no: ", 0x40, LATEST)?;
    asked(rt, b"(4,0,2), public rights: ", 0x30, [4, 0, 2])
}

fn flags(rt: &impl Print) -> io::Result<()> {
    asked(rt, b"rights 3: ", 0x70, LATEST)?;
    asked(rt, b"first spare bit: ", 0x58, LATEST)?;
    asked(rt, b"second spare bit: ", 0x54, LATEST)?;
    asked(rt, b"third spare bit: ", 0x52, LATEST)?;
    asked(rt, b"fourth spare bit: ", 0x51, LATEST)?;
    asked(rt, b"spare bit before verdict no: ", 0x41, LATEST)?;
    asked(rt, b"rights 3 before verdict no: ", 0x60, LATEST)
}

// Bits of the identifier, in bytes 21 to 37.
fn stray(rt: &impl Print) -> io::Result<()> {
    with_root(rt, b"identifier's first bit, no root: ", 0x50, 21, 0x80)?;
    with_root(rt, b"identifier's last bit, no root: ", 0x50, 36, 0x01)?;
    with_root(rt, b"identifier's bit 64, no root: ", 0x50, 29, 0x80)?;
    with_root(rt, b"identifier's bit before verdict no: ", 0x40, 28, 0x01)
}

fn roots(rt: &impl Print) -> io::Result<()> {
    asked(rt, b"root given, of zeros: ", 0xD0, LATEST)?;
    with_root(rt, b"root given, first bit of another: ", 0xD0, 21, 0x80)?;
    with_root(rt, b"root given, last bit of another: ", 0xD0, 36, 0x01)?;
    asked(rt, b"root given, (5,0,0): ", 0xD0, [5, 0, 0])?;
    asked(rt, b"root given, (4,2,2): ", 0xD0, [4, 2, 2])?;
    asked(rt, b"no root, (4,0,2): ", 0x50, [4, 0, 2])
}

// Two's complement: 0xFFFFFFFE is -2, 0x80000000 the lowest, 0x7FFFFFFF the highest.
fn indices(rt: &impl Print) -> io::Result<()> {
    asked(rt, b"L0 -2: ", 0x50, [0xffff_fffe, MINUS_ONE, MINUS_ONE])?;
    asked(rt, b"L0 the lowest: ", 0x50, [0x8000_0000, 0, 0])?;
    asked(rt, b"L0 the highest: ", 0x50, [0x7fff_ffff, 0, 0])?;
    asked(rt, b"L1 32: ", 0x50, [0, 32, 0])?;
    asked(rt, b"L2 -2: ", 0x50, [0, 0, 0xffff_fffe])?;
    asked(rt, b"L0 -1, others 0: ", 0x50, [MINUS_ONE, 0, 0])?;
    asked(rt, b"L2 -1, others 0: ", 0x50, [0, 0, MINUS_ONE])?;
    asked(rt, b"(5,3,7): ", 0x50, [5, 3, 7])
}

fn clocks(rt: &impl Print) -> io::Result<()> {
    timed(rt, b"clock 0: ", 0)?;
    timed(rt, b"clock 359999999999: ", 359999999999)?;
    timed(rt, b"clock 360000000000: ", 360000000000)?;
    timed(rt, b"clock 368640000000000: ", 368640000000000)?;
    timed(rt, b"clock of 64 bits set: ", 18446744073709551615)
}

fn parts(rt: &impl Print) -> io::Result<()> {
    let s = recorded(NOW, 0x50, LATEST);
    cut(rt, b"36 bytes: ", cases::first(&s, 36))?;
    cut(rt, b"9 bytes: ", cases::first(&s, 9))?;
    cut(rt, b"1 byte: ", cases::first(&s, 1))
}

// A table of 33 bytes is 20, behind 16; one of no row has a root key created for the latest.
fn tables(rt: &impl Print) -> io::Result<()> {
    table_of_33(rt, b"table of 33 bytes: ", 0x50)?;
    table_of_33(rt, b"table of 33 bytes, verdict no: ", 0x40)?;
    no_row(rt, b"table of no row: ", LATEST)?;
    no_row(rt, b"table of no row, (5,3,7): ", [5, 3, 7])
}

fn table_of_33(rt: &impl Print, name: &[u8], flags: u8) -> io::Result<()> {
    let s = recorded(NOW, flags, LATEST);
    told(rt, name, &[0; 33], &s)?;
    Ok(())
}

fn no_row(rt: &impl Print, name: &[u8], indices: [u32; 3]) -> io::Result<()> {
    let s = recorded(NOW, 0x50, indices);
    told(rt, name, &[0; 0], &s)?;
    Ok(())
}

fn asked(rt: &impl Print, name: &[u8], flags: u8, indices: [u32; 3]) -> io::Result<()> {
    let s = recorded(NOW, flags, indices);
    told(rt, name, &[0; 32], &s)?;
    Ok(())
}

fn with_root(rt: &impl Print, name: &[u8], flags: u8, at: usize, bits: u8) -> io::Result<()> {
    let mut s = recorded(NOW, flags, LATEST);
    cases::bytes(&mut s, at, &[bits]);
    told(rt, name, &[0; 32], &s)?;
    Ok(())
}

fn timed(rt: &impl Print, name: &[u8], clock: u64) -> io::Result<()> {
    let s = recorded(clock, 0x50, LATEST);
    told(rt, name, &[0; 32], &s)?;
    Ok(())
}

fn cut(rt: &impl Print, name: &[u8], s: &[u8]) -> io::Result<()> {
    told(rt, name, &[0; 32], s)?;
    Ok(())
}
