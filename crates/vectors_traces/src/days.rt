// Traces of several records, each for the latest with seed rights and the verdict yes unless it says otherwise: byte 0x50. The byte 0x51 has a
// spare bit set, which is 26; 0x40 has the verdict no, which is 16.
use crate::{LATEST, NOW, recorded, told};
use std::io;

pub fn run(rt: &impl Print) -> io::Result<()> {
    empty(rt)?;
    three(
        rt,
        b"clocks that rise\n",
        [(NOW, 0x50), (NOW + 1, 0x50), (NOW + 2, 0x50)],
    )?;
    three(
        rt,
        b"equal clocks\n",
        [(NOW, 0x50), (NOW, 0x50), (NOW, 0x50)],
    )?;
    three(
        rt,
        b"clocks that go back twice\n",
        [(NOW + 2, 0x50), (NOW + 1, 0x50), (NOW, 0x50)],
    )?;
    three(
        rt,
        b"26 between clocks that go back\n",
        [(NOW + 2, 0x50), (NOW + 3, 0x51), (NOW, 0x50)],
    )?;
    three(
        rt,
        b"26 goes back alone\n",
        [(NOW + 2, 0x50), (NOW, 0x51), (NOW + 2, 0x50)],
    )?;
    three(
        rt,
        b"26 first\n",
        [(NOW + 2, 0x51), (NOW + 1, 0x50), (NOW, 0x50)],
    )?;
    three(
        rt,
        b"a refused record counts for the clock\n",
        [(NOW + 2, 0x50), (NOW, 0x40), (NOW + 1, 0x50)],
    )?;
    cut(rt, b"a part of a record at the end\n")?;
    created(rt, b"no row: created anew each time\n")
}

fn empty(rt: &impl Print) -> io::Result<()> {
    let s = [0u8; 0];
    day(rt, b"no record\n", &[0; 32], &s)
}

fn three(rt: &impl Print, name: &[u8], records: [(u64, u8); 3]) -> io::Result<()> {
    let s = trace(records);
    day(rt, name, &[0; 32], &s)
}

// Two records and 36 bytes of a third.
fn cut(rt: &impl Print, name: &[u8]) -> io::Result<()> {
    let s = trace([(NOW, 0x50), (NOW, 0x50), (0, 0x50)]);
    day(rt, name, &[0; 32], cases::first(&s, 110))
}

fn created(rt: &impl Print, name: &[u8]) -> io::Result<()> {
    let s = trace([(NOW, 0x50), (NOW, 0x30), (NOW, 0x10)]);
    day(rt, name, &[0; 0], &s)
}

// Three records, each of its clock and its byte 8.
fn trace(records: [(u64, u8); 3]) -> [u8; 111] {
    let mut s = [0u8; 111];
    for (k, record) in records.iter().enumerate() {
        cases::bytes(&mut s, 37 * k, &recorded(record.0, record.1, LATEST));
    }
    s
}

fn day(rt: &impl Print, name: &[u8], table: &[u8], trace: &[u8]) -> io::Result<()> {
    let state = told(rt, name, table, trace)?;
    rt.write_all(report::total_line(state.tally).as_bytes())
}
