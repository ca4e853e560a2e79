// Document 02, No. 5: security descriptors. Each case is a line: its name, then SOUND or the part that fails first. The file `stdout`
// beside src/ holds what the paper says.
#![tactic(auto)]

mod items;
mod places;

use descriptor::Part;
use line::{Line, Text};
use std::io;
use std::io::{Read, Write};

// Revision 1 and the control bit 0x8000, as the head's first number.
const FIRST: u32 = 0x8000_0001;

fn main(rt: HostRuntime) -> io::Result<()> {
    let to = &mut rt.stdout();
    peer(to, &mut rt.stdin())?;
    lengths(to)?;
    heads(to)?;
    items::run(to)?;
    places::run(to)?;
    orders(to)
}

// Another implementation's, on standard input: owner at 48, DACL at 20 with one entry of 20 bytes.
fn peer(to: &mut impl Write, from: &mut impl Read) -> io::Result<()> {
    let mut bytes = [0; 64];
    if let Ok(len) = input::read_all(from, &mut bytes) {
        told(to, b"descriptor: a peer's: ", cases::first(&bytes, len))?;
    }
    Ok(())
}

fn lengths(to: &mut impl Write) -> io::Result<()> {
    let mut bytes = [0; 65536];
    cases::numbers(&mut bytes, 0, &[FIRST]);
    told(to, b"descriptor: the least: ", cases::first(&bytes, 20))?;
    told(to, b"descriptor: 19 bytes: ", cases::first(&bytes, 19))?;
    told(to, b"descriptor: empty: ", cases::first(&bytes, 0))?;
    told(
        to,
        b"descriptor: 65,535 bytes: ",
        cases::first(&bytes, 65535),
    )?;
    told(to, b"descriptor: 65,536 bytes: ", &bytes)
}

fn heads(to: &mut impl Write) -> io::Result<()> {
    changed(to, b"descriptor: four items: ", 0, &[FIRST])?;
    changed(to, b"descriptor: revision 0: ", 0, &[0x8000_0000])?;
    changed(to, b"descriptor: revision 2: ", 0, &[0x8000_0002])?;
    changed(to, b"descriptor: control 0x7FFF: ", 0, &[0x7FFF_0001])?;
    changed(to, b"descriptor: control 0xFFFF: ", 0, &[0xFFFF_0001])?;
    changed(to, b"descriptor: Sbz1 of 255: ", 0, &[0x8000_FF01])
}

// Each part where the next fails too.
fn orders(to: &mut impl Write) -> io::Result<()> {
    changed(to, b"descriptor: head before owner: ", 0, &[0, 1])?;
    changed(to, b"descriptor: owner before group: ", 4, &[1, 1])?;
    changed(to, b"descriptor: group before SACL: ", 8, &[1, 1])?;
    changed(to, b"descriptor: SACL before DACL: ", 12, &[1, 1])
}

// A sound descriptor of 92 bytes with numbers put into it from a place on. A number at the start of an ACL or an entry has its size in
// the upper half. The items stand end to end: the owner at 20, 16 bytes; the
// group at 36, 8 bytes; the SACL at 44, 20 bytes, with entries of 4 and 8 bytes at 52 and 56; the DACL at 64, 28 bytes, with an entry of
// 20 bytes at 72.
fn changed(to: &mut impl Write, name: &[u8], at: usize, numbers: &[u32]) -> io::Result<()> {
    let mut bytes = [0; 92];
    four_items(&mut bytes);
    cases::numbers(&mut bytes, at, numbers);
    told(to, name, &bytes)
}

fn four_items(bytes: &mut [u8]) {
    cases::numbers(bytes, 0, &[FIRST, 20, 36, 44, 64]);
    cases::numbers(bytes, 20, &[0x0201]);
    cases::numbers(bytes, 36, &[0x0001]);
    cases::numbers(bytes, 44, &[0x0014_0002, 2, 0x0004_0000, 0x0008_0000]);
    cases::numbers(bytes, 64, &[0x001C_0002, 1, 0x0014_0000]);
}

// A case: its name, and what is found.
fn told(to: &mut impl Write, name: &[u8], bytes: &[u8]) -> io::Result<()> {
    let mut line = Line::new();
    line.text(name);
    found(&mut line, descriptor::check(bytes));
    cases::print(to, line)
}

fn found(line: &mut Line, finding: Result<(), Part>) {
    match finding {
        Ok(()) => line.text(b"SOUND"),
        Err(Part::Head) => line.text(b"HEAD"),
        Err(Part::Owner) => line.text(b"OWNER"),
        Err(Part::Group) => line.text(b"GROUP"),
        Err(Part::Sacl) => line.text(b"SACL"),
        Err(Part::Dacl) => line.text(b"DACL"),
    }
}
