// Entries read.
use keyentry::{Algorithm, Entry};
use line::{Line, Text};
use std::io;
use std::io::Write;

// An item or a FEK, as an entry says where it stands.
#[derive(Clone, Copy, Debug, PartialEq, Eq)]
struct Part {
    offset: u32,
    len: u32,
}

pub fn run(to: &mut impl Write) -> io::Result<()> {
    accepted(to)?;
    lengths(to)?;
    places(to)?;
    feks(to)?;
    runs(to)?;
    orders(to)
}

fn accepted(to: &mut impl Write) -> io::Result<()> {
    entry(to, b"entry: FEK at 48: ", 304, at(20, 28), at(48, 256))?;
    entry(to, b"entry: FEK at 56: ", 312, at(20, 28), at(56, 256))?;
    entry(to, b"entry: least of all: ", 25, at(20, 4), at(24, 1))?;
    entry(
        to,
        b"entry: FEK before the item: ",
        44,
        at(28, 16),
        at(20, 8),
    )?;
    entry(
        to,
        b"entry: longest of all: ",
        65_535,
        at(20, 4),
        at(24, 65_511),
    )?;
    flagged(to, b"entry: AES-256: ", 1)?;
    flagged(to, b"entry: Flags 2: ", 2)?;
    flagged(to, b"entry: greatest Flags: ", 4_294_967_295)
}

fn lengths(to: &mut impl Write) -> io::Result<()> {
    headed(to, b"entry: 65536 bytes: ", 65_536, [0; 5], 0)?;
    headed(to, b"entry: no bytes: ", 0, [0; 5], 0)?;
    headed(to, b"entry: 19 bytes: ", 19, [19, 20, 1, 20, 0], 4)?;
    headed(
        to,
        b"entry: Length 304 in 303 bytes: ",
        303,
        [304, 20, 256, 48, 0],
        28,
    )?;
    headed(
        to,
        b"entry: Length 303 in 304 bytes: ",
        304,
        [303, 20, 256, 48, 0],
        28,
    )?;
    headed(
        to,
        b"entry: Length 65536 in 25 bytes: ",
        25,
        [65_536, 20, 1, 24, 0],
        4,
    )
}

fn places(to: &mut impl Write) -> io::Result<()> {
    entry(to, b"entry: item at 0: ", 304, at(0, 304), at(48, 256))?;
    entry(
        to,
        b"entry: item at 16, in the head: ",
        304,
        at(16, 28),
        at(48, 256),
    )?;
    entry(
        to,
        b"entry: item at 19, in the head: ",
        304,
        at(19, 28),
        at(48, 256),
    )?;
    entry(
        to,
        b"entry: item's length at the end: ",
        25,
        at(21, 4),
        at(20, 1),
    )?;
    entry(
        to,
        b"entry: item's length past the end: ",
        25,
        at(22, 4),
        at(20, 1),
    )?;
    entry(
        to,
        b"entry: item offset 4294967295: ",
        304,
        at(4_294_967_295, 28),
        at(48, 256),
    )?;
    entry(to, b"entry: item of 3: ", 304, at(20, 3), at(48, 256))?;
    entry(to, b"entry: item of 0: ", 304, at(20, 0), at(48, 256))?;
    entry(
        to,
        b"entry: item past the end: ",
        304,
        at(20, 285),
        at(48, 256),
    )?;
    entry(
        to,
        b"entry: item of 4294967295: ",
        304,
        at(20, 4_294_967_295),
        at(48, 256),
    )
}

fn feks(to: &mut impl Write) -> io::Result<()> {
    entry(to, b"entry: FEK of 0: ", 304, at(20, 28), at(48, 0))?;
    entry(to, b"entry: FEK at 0: ", 304, at(20, 28), at(0, 256))?;
    entry(to, b"entry: FEK at 19: ", 25, at(20, 4), at(19, 1))?;
    entry(
        to,
        b"entry: FEK past the end: ",
        304,
        at(20, 28),
        at(48, 257),
    )?;
    entry(
        to,
        b"entry: FEK offset 4294967295: ",
        304,
        at(20, 28),
        at(4_294_967_295, 256),
    )?;
    entry(
        to,
        b"entry: FEK of 4294967295: ",
        304,
        at(20, 28),
        at(48, 4_294_967_295),
    )?;
    entry(to, b"entry: FEK at 47: ", 303, at(20, 28), at(47, 256))?;
    entry(
        to,
        b"entry: item within the FEK: ",
        36,
        at(24, 4),
        at(20, 16),
    )?;
    entry(
        to,
        b"entry: FEK within the item: ",
        36,
        at(20, 16),
        at(24, 4),
    )
}

fn runs(to: &mut impl Write) -> io::Result<()> {
    entry(to, b"entry: three runs of 8: ", 49, at(28, 4), at(40, 1))?;
    entry(
        to,
        b"entry: three runs of 8, FEK first: ",
        56,
        at(40, 8),
        at(28, 4),
    )?;
    entry(to, b"entry: FEK at 57: ", 313, at(20, 28), at(57, 256))?;
    entry(to, b"entry: run of 9 before: ", 34, at(29, 4), at(33, 1))?;
    entry(
        to,
        b"entry: run of 9 before, FEK first: ",
        34,
        at(30, 4),
        at(29, 1),
    )?;
    entry(to, b"entry: run of 9 between: ", 34, at(20, 4), at(33, 1))?;
    entry(
        to,
        b"entry: run of 9 between, FEK first: ",
        34,
        at(30, 4),
        at(20, 1),
    )?;
    entry(to, b"entry: run of 9 after: ", 34, at(20, 4), at(24, 1))?;
    entry(
        to,
        b"entry: run of 9 after, FEK first: ",
        34,
        at(21, 4),
        at(20, 1),
    )
}

// Two refusals apply: the first is the answer.
fn orders(to: &mut impl Write) -> io::Result<()> {
    headed(to, b"entry: 3 before 6: ", 25, [26, 19, 1, 24, 0], 4)?;
    entry(
        to,
        b"entry: 6 before 7, item in the head: ",
        304,
        at(16, 3),
        at(48, 256),
    )?;
    entry(
        to,
        b"entry: 7 before 6, item of 3: ",
        304,
        at(20, 3),
        at(0, 256),
    )?;
    entry(
        to,
        b"entry: 6 before 7, item too long: ",
        304,
        at(20, 285),
        at(48, 0),
    )?;
    entry(
        to,
        b"entry: 7 before 6, FEK of 0: ",
        304,
        at(20, 28),
        at(0, 0),
    )?;
    entry(to, b"entry: 6 before 8: ", 25, at(20, 4), at(19, 2))?;
    entry(to, b"entry: 8 before 9: ", 40, at(20, 4), at(20, 1))?;
    entry(to, b"entry: 20 bytes: ", 20, at(20, 4), at(20, 1))?;
    entry(
        to,
        b"entry: 24 bytes, item of 3: ",
        24,
        at(20, 3),
        at(20, 1),
    )?;
    entry(
        to,
        b"entry: 24 bytes, item of 4: ",
        24,
        at(20, 4),
        at(20, 1),
    )
}

fn at(offset: u32, len: u32) -> Part {
    Part { offset, len }
}

// An entry of RSA of len bytes, with this item and this FEK.
fn entry(to: &mut impl Write, name: &[u8], len: u32, item: Part, fek: Part) -> io::Result<()> {
    let head = [len, item.offset, fek.len, fek.offset, 0];
    headed(to, name, len as usize, head, item.len)
}

fn flagged(to: &mut impl Write, name: &[u8], flags: u32) -> io::Result<()> {
    headed(to, name, 25, [25, 20, 1, 24, flags], 4)
}

// An entry of len bytes with this head and item length.
fn headed(to: &mut impl Write, name: &[u8], len: usize, head: [u32; 5], n: u32) -> io::Result<()> {
    let mut s = [0; 65536];
    cases::entry(&mut s, head, n);
    let mut line = Line::new();
    line.text(name);
    read(&mut line, cases::first(&s, len));
    cases::print(to, line)
}

pub fn read(line: &mut Line, s: &[u8]) {
    match keyentry::read(s) {
        Ok(entry) => shown(line, entry),
        Err(refusal) => words::refused(line, refusal),
    }
}

// What an accepted entry shows: Flags, and the places of item and FEK.
pub fn shown(line: &mut Line, entry: Entry) {
    let item = entry.item;
    let fek = entry.fek;
    line.text(b"FLAGS ");
    line.number(entry.flags as u64);
    algorithm(line, entry.algorithm());
    line.text(b" ITEM ");
    words::span(line, item);
    line.text(b" FEK ");
    words::span(line, fek);
}

fn algorithm(line: &mut Line, algorithm: Algorithm) {
    match algorithm {
        Algorithm::Rsa => line.text(b" RSA"),
        Algorithm::Aes256 => line.text(b" AES-256"),
        Algorithm::Unsupported => line.text(b" UNSUPPORTED"),
    }
}
