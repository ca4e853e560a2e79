// Keys written, and read back.
use crate::{put_sid, reader};
use cases::FILL;
use efskey::EfsKeyPart;
use line::{Line, Text};
use std::io;
use std::io::Write;
use wire::Span;

pub fn run(to: &mut impl Write) -> io::Result<()> {
    lengths(to)?;
    zeros(to)?;
    near_zeros(to)?;
    orders(to)?;
    let mut sid = [0; 12];
    rewritten(to, b"key with no hint rewritten: ", 0, &sid)?;
    rewritten(to, b"key with no hint rewritten, Reserved2 set: ", 1, &sid)?;
    put_sid(&mut sid, 0, 1, 1);
    rewritten(to, b"key rewritten: ", 0, &sid)?;
    rewritten(to, b"key rewritten, Reserved2 set: ", 1, &sid)
}

fn lengths(to: &mut impl Write) -> io::Result<()> {
    write(to, b"key writer: room to spare: ", 64, 1, 1, 12, 3)?;
    write(to, b"key writer: empty SID: ", 64, 1, 1, 0, 1)?;
    write(to, b"key writer: just room: ", 33, 1, 1, 0, 1)?;
    write(to, b"key writer: a byte short: ", 32, 1, 1, 0, 1)?;
    write(to, b"key writer: certificate of 0: ", 64, 1, 1, 12, 0)?;
    write(to, b"key writer: SID of revision 2: ", 64, 2, 0, 8, 1)?;
    write(to, b"key writer: a byte behind the SID: ", 64, 1, 0, 9, 1)?;
    write(to, b"key writer: 65536 bytes: ", 64, 1, 1, 0, 65_504)?;
    write(
        to,
        b"key writer: 65535 bytes in too little room: ",
        64,
        1,
        1,
        0,
        65_503,
    )
}

// Two refusals apply: the first is the answer.
fn orders(to: &mut impl Write) -> io::Result<()> {
    write(to, b"key writer: 1 before 7: ", 64, 1, 1, 65_504, 0)?;
    write(to, b"key writer: 7 before 12: ", 64, 2, 0, 8, 0)?;
    write(to, b"key writer: 12 before 13: ", 0, 2, 0, 8, 1)
}

// Zeros, one at least: they are written, and read back as no hint.
fn zeros(to: &mut impl Write) -> io::Result<()> {
    zeroed(to, b"key writer: 1 zero: ", 64, 1, 1)?;
    zeroed(to, b"key writer: 7 zeros: ", 64, 7, 1)?;
    zeroed(to, b"key writer: 8 zeros: ", 64, 8, 1)?;
    zeroed(to, b"key writer: 68 zeros: ", 128, 68, 1)?;
    zeroed(to, b"key writer: the most zeros: ", 65_535, 65_502, 1)?;
    zeroed(to, b"key writer: a zero more: ", 65_536, 65_503, 1)?;
    zeroed(to, b"key writer: zeros, certificate of 0: ", 64, 12, 0)?;
    zeroed(to, b"key writer: zeros, a byte short: ", 44, 12, 1)
}

// One byte that is not zero, and the SID rule decides.
fn near_zeros(to: &mut impl Write) -> io::Result<()> {
    for at in 0..12 {
        marked(to, at)?;
    }
    given(
        to,
        b"key writer: SID of 0, its authority zero: ",
        64,
        &[1, 0, 0, 0, 0, 0, 0, 0],
        1,
    )?;
    given(
        to,
        b"key writer: SID of 1, all else zero: ",
        64,
        &[1, 1, 0, 0, 0, 0, 0, 0, 0, 0, 0, 0],
        1,
    )
}

// A record written into `room` bytes, with a SID of k bytes and a certificate of n.
// The numbers stay apart, here, in `zeroed`, `given` and `put`: so most cases are one line; a struct would take a line for each, or a maker with the same numbers.
fn write(
    to: &mut impl Write,
    name: &[u8],
    room: usize,
    revision: u8,
    count: u8,
    k: usize,
    n: usize,
) -> io::Result<()> {
    let mut sid = [0; 65536];
    put_sid(&mut sid, 0, revision, count);
    given(to, name, room, cases::first(&sid, k), n)
}

// The same, with k zeros for a SID.
fn zeroed(to: &mut impl Write, name: &[u8], room: usize, k: usize, n: usize) -> io::Result<()> {
    let zeros = [0; 65536];
    given(to, name, room, cases::first(&zeros, k), n)
}

// The same, with 12 zeros but for a 1 at that place.
fn marked(to: &mut impl Write, at: usize) -> io::Result<()> {
    let mut area = [0; 12];
    cases::bytes(&mut area, at, &[1]);
    let mut line = Line::new();
    line.text(b"key writer: 12 zeros, 1 at ");
    line.number(at as u64);
    line.text(b": ");
    put(to, line, 64, &area, 1)
}

fn given(to: &mut impl Write, name: &[u8], room: usize, sid: &[u8], n: usize) -> io::Result<()> {
    let mut line = Line::new();
    line.text(name);
    put(to, line, room, sid, n)
}

fn put(to: &mut impl Write, mut line: Line, room: usize, sid: &[u8], n: usize) -> io::Result<()> {
    let certificate = [99; 65536];
    let mut out = [FILL; 65536];
    written(
        &mut line,
        &mut out,
        room,
        sid,
        cases::first(&certificate, n),
    );
    cases::print(to, line)
}

// Each record's writer has its cases in this shape: one function for all would take the writer and what reads back as closures, two for each.
// The room is the case's, of a buffer that is filled whole, so that it is seen what stands behind.
fn written(line: &mut Line, out: &mut [u8; 65536], room: usize, sid: &[u8], certificate: &[u8]) {
    if room <= out.len() {
        let answer = efskey::write(&mut out[0..room], sid, certificate);
        words::written(line, answer);
        if let Ok(len) = answer {
            line.text(b" ");
            read_back(line, cases::first(out, len), sid, certificate);
            return cases::fill_kept(line, out, len);
        }
        cases::fill_kept(line, out, 0);
    }
}

// What is read of a record, whether its parts are those that were written, and Reserved2.
fn read_back(line: &mut Line, s: &[u8], sid: &[u8], certificate: &[u8]) {
    reader::read(line, s);
    parts_compared(line, s, sid, certificate);
    line.text(b" RESERVED2 ");
    line.number(wire::le64_at(s, 24));
}

fn parts_compared(line: &mut Line, s: &[u8], sid: &[u8], certificate: &[u8]) {
    line.text(b" ");
    cases::compared(line, efskey::part(s, EfsKeyPart::Sid), sid);
    line.text(b" ");
    cases::compared(line, efskey::part(s, EfsKeyPart::Certificate), certificate);
}

// What was read from a record of 47 bytes, of them 12 of a SID, is written: before Reserved2, behind it, and as a whole.
fn rewritten(to: &mut impl Write, name: &[u8], reserved2: u32, sid: &[u8]) -> io::Result<()> {
    let mut s = [0; 47];
    let mut out = [FILL; 47];
    cases::numbers(&mut s, 0, &[47, 43, 28, 2, 3, 40, reserved2, 0]);
    cases::bytes(&mut s, 32, sid);
    cases::bytes(&mut s, 44, b"abc");
    let mut line = Line::new();
    line.text(name);
    rewrite(&mut line, &mut out, &s);
    cases::print(to, line)
}

fn rewrite(line: &mut Line, out: &mut [u8], s: &[u8]) {
    let sid = efskey::part(s, EfsKeyPart::Sid);
    let certificate = efskey::part(s, EfsKeyPart::Certificate);
    words::written(line, efskey::write(out, sid, certificate));
    cases::compared_around(line, out, s, 24, Span { at: 32, len: 15 });
}
