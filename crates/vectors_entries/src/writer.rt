// Entries written, and read back.
use crate::entries;
use cases::FILL;
use keyentry::EntryPart;
use line::{Line, Text};
use std::io;
use std::io::Write;

pub fn run(to: &mut impl Write) -> io::Result<()> {
    lengths(to)?;
    orders(to)
}

fn lengths(to: &mut impl Write) -> io::Result<()> {
    write(to, b"entry writer: room to spare: ", 64, 1, 8, 8, 3)?;
    write(to, b"entry writer: just room: ", 31, 0, 8, 8, 3)?;
    write(to, b"entry writer: a byte short: ", 30, 0, 8, 8, 3)?;
    write(to, b"entry writer: item of 3: ", 64, 0, 3, 3, 3)?;
    write(to, b"entry writer: item of 0: ", 64, 0, 0, 0, 3)?;
    write(to, b"entry writer: item of 8 that says 7: ", 64, 0, 7, 8, 3)?;
    write(to, b"entry writer: FEK of 0: ", 64, 0, 8, 8, 0)?;
    write(to, b"entry writer: 65536 bytes: ", 64, 0, 4, 4, 65_512)?;
    write(
        to,
        b"entry writer: 65535 bytes in too little room: ",
        64,
        0,
        4,
        4,
        65_511,
    )
}

// Two refusals apply: the first is the answer.
fn orders(to: &mut impl Write) -> io::Result<()> {
    write(to, b"entry writer: 1 before 7: ", 64, 0, 0, 0, 65_516)?;
    write(to, b"entry writer: 3 before 7: ", 64, 0, 7, 8, 0)?;
    write(to, b"entry writer: 7 before 13: ", 0, 0, 8, 8, 0)
}

// An entry written into `room` bytes, with an item of n bytes that says so many, and a FEK of e.
// The numbers stay apart: so most cases are one line; a struct would take a line for each, or a maker with the same numbers.
fn write(
    to: &mut impl Write,
    name: &[u8],
    room: usize,
    flags: u32,
    says: u32,
    n: usize,
    e: usize,
) -> io::Result<()> {
    let mut item = [105; 8];
    let fek = [102; 65536];
    let mut out = [FILL; 64];
    cases::numbers(&mut item, 0, &[says]);
    let mut line = Line::new();
    line.text(name);
    written(
        &mut line,
        &mut out,
        room,
        flags,
        cases::first(&item, n),
        cases::first(&fek, e),
    );
    cases::print(to, line)
}

// Each record's writer has its cases in this shape: one function for all would take the writer and what reads back as closures, two for each.
// The room is the case's, of a buffer that is filled whole, so that it is seen what stands behind.
fn written(line: &mut Line, out: &mut [u8; 64], room: usize, flags: u32, item: &[u8], fek: &[u8]) {
    if room <= out.len() {
        let answer = keyentry::write(&mut out[0..room], flags, item, fek);
        words::written(line, answer);
        if let Ok(len) = answer {
            line.text(b" ");
            read_back(line, cases::first(out, len), item, fek);
            return cases::fill_kept(line, out, len);
        }
        cases::fill_kept(line, out, 0);
    }
}

// What is read of a record, and whether its parts are those that were written.
fn read_back(line: &mut Line, s: &[u8], item: &[u8], fek: &[u8]) {
    entries::read(line, s);
    line.text(b" ");
    cases::compared(line, keyentry::part(s, EntryPart::Item), item);
    line.text(b" ");
    cases::compared(line, keyentry::part(s, EntryPart::Fek), fek);
}
