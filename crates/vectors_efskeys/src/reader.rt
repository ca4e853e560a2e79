// Keys read.
use crate::put_sid;
use efskey::{EfsKey, SidHint};
use line::{Line, Text};
use std::io;
use std::io::Write;

pub fn run(to: &mut impl Write) -> io::Result<()> {
    accepted(to)?;
    lengths(to)?;
    heads(to)?;
    places(to)?;
    sids(to)?;
    zeros(to)?;
    near_zeros(to)?;
    orders(to)
}

fn accepted(to: &mut impl Write) -> io::Result<()> {
    plain(to, b"key: 1-byte certificate, no SID: ", 33, 0, 1, 28)?;
    key(to, b"key: SID of 1: ", 47, 28, 3, 40, 1, 1)?;
    key(to, b"key: SID of 0: ", 41, 28, 1, 36, 1, 0)?;
    key(to, b"key: SID of 15: ", 101, 28, 1, 96, 1, 15)?;
    plain(to, b"key: longest of all: ", 65_535, 0, 65_503, 28)?;
    headed(
        to,
        b"key: Reserved2 set: ",
        33,
        [33, 29, 0, 2, 1, 28, 4_294_967_295, 4_294_967_295],
    )
}

fn lengths(to: &mut impl Write) -> io::Result<()> {
    headed(to, b"key: 65536 bytes: ", 65_536, [0; 8])?;
    headed(to, b"key: no bytes: ", 0, [0; 8])?;
    plain(to, b"key: 31 bytes: ", 31, 0, 1, 26)?;
    lengthed(to, b"key: Length1 34 in 33 bytes: ", 34, 30)?;
    lengthed(to, b"key: Length1 32 in 33 bytes: ", 32, 28)?;
    lengthed(to, b"key: Length2 33: ", 33, 33)?;
    lengthed(to, b"key: Length2 28: ", 33, 28)?;
    lengthed(
        to,
        b"key: Length1 0, Length2 4294967292: ",
        0,
        4_294_967_292,
    )
}

fn heads(to: &mut impl Write) -> io::Result<()> {
    headed(to, b"key: Reserved1 0: ", 33, [33, 29, 0, 0, 1, 28, 0, 0])?;
    headed(
        to,
        b"key: Reserved1 00 00 00 02: ",
        33,
        [33, 29, 0, 0x0200_0000, 1, 28, 0, 0],
    )?;
    plain(to, b"key: the head alone: ", 32, 0, 0, 28)
}

fn places(to: &mut impl Write) -> io::Result<()> {
    plain(to, b"key: certificate of 0: ", 33, 0, 0, 28)?;
    plain(to, b"key: certificate at 27: ", 33, 0, 2, 27)?;
    plain(to, b"key: certificate past the end: ", 33, 0, 2, 28)?;
    plain(to, b"key: bytes behind the certificate: ", 35, 0, 1, 28)?;
    plain(to, b"key: certificate from byte 0: ", 33, 0, 1, 32)?;
    plain(
        to,
        b"key: certificate at 4294967292: ",
        33,
        0,
        33,
        4_294_967_292,
    )?;
    key(to, b"key: SID at 4: ", 47, 4, 3, 40, 1, 1)?;
    key(to, b"key: SID from byte 0: ", 47, 32, 3, 40, 1, 1)?;
    key(
        to,
        b"key: SID at 4294967295: ",
        47,
        4_294_967_295,
        3,
        40,
        1,
        1,
    )?;
    key(to, b"key: no SID, but its bytes: ", 47, 0, 3, 40, 1, 1)
}

fn sids(to: &mut impl Write) -> io::Result<()> {
    key(to, b"key: SID of 16: ", 105, 28, 1, 100, 1, 16)?;
    key(to, b"key: bytes behind the SID: ", 45, 28, 1, 40, 1, 0)?;
    key(to, b"key: SID cut short: ", 41, 28, 1, 36, 1, 1)?;
    key(to, b"key: area of 7: ", 40, 28, 1, 35, 1, 0)?;
    key(to, b"key: area of 1: ", 34, 28, 1, 29, 1, 0)?;
    plain(to, b"key: area of 0: ", 33, 28, 1, 28)?;
    key(to, b"key: SID of revision 2: ", 41, 28, 1, 36, 2, 0)?;
    key(to, b"key: SID of revision 0: ", 45, 28, 1, 40, 0, 1)
}

// At least one byte, and all zeros: no hint. An area of 0 stays above, with 12.
fn zeros(to: &mut impl Write) -> io::Result<()> {
    plain(to, b"key: 1 zero: ", 34, 28, 1, 29)?;
    plain(to, b"key: 7 zeros: ", 40, 28, 1, 35)?;
    plain(to, b"key: 8 zeros: ", 41, 28, 1, 36)?;
    plain(to, b"key: 68 zeros: ", 101, 28, 1, 96)?;
    plain(to, b"key: the most zeros: ", 65_535, 28, 1, 65_530)?;
    plain(to, b"key: zeros, the SID at 32: ", 45, 32, 1, 40)?;
    plain(to, b"key: zeros, but no SID: ", 45, 0, 1, 40)
}

// One byte that is not zero, and the SID rule decides: an area of 8 that begins with 1, or of 12 with 1, 1, is a SID.
fn near_zeros(to: &mut impl Write) -> io::Result<()> {
    for at in 32..44 {
        marked(to, at)?;
    }
    area(
        to,
        b"key: SID of 0, its authority zero: ",
        head(41, 28, 1, 36),
        &[1],
    )?;
    area(
        to,
        b"key: SID of 1, all else zero: ",
        head(45, 28, 1, 40),
        &[1, 1],
    )
}

// Two refusals apply: the first is the answer.
fn orders(to: &mut impl Write) -> io::Result<()> {
    headed(to, b"key: 2 before 3: ", 31, [0; 8])?;
    headed(to, b"key: 3 before 4: ", 33, [33, 28, 0, 0, 1, 28, 0, 0])?;
    headed(to, b"key: 4 before 7: ", 33, [33, 29, 0, 0, 0, 28, 0, 0])?;
    plain(to, b"key: 7 before 6: ", 33, 0, 0, 0)?;
    key(to, b"key: 6 before 12: ", 42, 28, 1, 36, 2, 0)
}

// A record of len bytes with proper lengths and Reserved1, a certificate of n at the offset c, and zeros behind the head.
// The numbers of the head stay apart, here and in `key`: so most cases are one line; a struct would take a line for each, or a maker with the same numbers.
fn plain(to: &mut impl Write, name: &[u8], len: u32, sid: u32, n: u32, c: u32) -> io::Result<()> {
    headed(to, name, len as usize, head(len, sid, n, c))
}

// The same, with the first bytes of a SID behind the head.
fn key(
    to: &mut impl Write,
    name: &[u8],
    len: u32,
    sid: u32,
    n: u32,
    c: u32,
    revision: u8,
    count: u8,
) -> io::Result<()> {
    let mut first = [0; 12];
    put_sid(&mut first, 0, revision, count);
    area(to, name, head(len, sid, n, c), &first)
}

// A record of as many bytes as this head says, with these bytes behind the head, and zeros behind them.
fn area(to: &mut impl Write, name: &[u8], head: [u32; 8], first: &[u8]) -> io::Result<()> {
    let mut s = [0; 65536];
    cases::numbers(&mut s, 0, &head);
    cases::bytes(&mut s, 32, first);
    let mut line = Line::new();
    line.text(name);
    read(&mut line, cases::first(&s, head[0] as usize));
    cases::print(to, line)
}

// A record of 45 bytes, with a SID area of 12 zeros but for a 1 at that byte of the record.
fn marked(to: &mut impl Write, at: usize) -> io::Result<()> {
    let mut s = [0; 65536];
    cases::numbers(&mut s, 0, &head(45, 28, 1, 40));
    cases::bytes(&mut s, at, &[1]);
    let mut line = Line::new();
    line.text(b"key: 12 zeros, 1 at ");
    line.number(at as u64);
    line.text(b": ");
    read(&mut line, cases::first(&s, 45));
    cases::print(to, line)
}

fn head(len: u32, sid: u32, n: u32, c: u32) -> [u32; 8] {
    [len, len.wrapping_sub(4), sid, 2, n, c, 0, 0]
}

// A record of 33 bytes with these lengths.
fn lengthed(to: &mut impl Write, name: &[u8], length1: u32, length2: u32) -> io::Result<()> {
    headed(to, name, 33, [length1, length2, 0, 2, 1, 28, 0, 0])
}

// A record of len bytes with this head, and zeros behind it.
fn headed(to: &mut impl Write, name: &[u8], len: usize, head: [u32; 8]) -> io::Result<()> {
    let mut s = [0; 65536];
    cases::numbers(&mut s, 0, &head);
    let mut line = Line::new();
    line.text(name);
    read(&mut line, cases::first(&s, len));
    cases::print(to, line)
}

pub fn read(line: &mut Line, s: &[u8]) {
    match efskey::read(s) {
        Ok(key) => shown(line, key),
        Err(refusal) => words::refused(line, refusal),
    }
}

// What an accepted record shows: the places of SID and certificate.
fn shown(line: &mut Line, key: EfsKey) {
    hinted(line, key.sid);
    line.text(b" CERTIFICATE ");
    words::span(line, key.certificate);
}

fn hinted(line: &mut Line, sid: SidHint) {
    match sid {
        SidHint::None => line.text(b"NO SID"),
        SidHint::Sid(span) => {
            line.text(b"SID ");
            words::span(line, span);
        }
        SidHint::NoHint(span) => {
            line.text(b"NO HINT ");
            words::span(line, span);
        }
    }
}
