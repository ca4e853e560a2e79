// Document 01, "Time and identifiers": conversions, start times and next older identifiers. Each case is a line: its name, then what
// the library answers. The file `stdout` beside src/ holds what the paper says.
#![tactic(auto)]

use cases::gkid;
use gkid::{FileTime, Gkid};
use line::{Line, Text};
use std::io;
use std::io::Write;

fn main(rt: HostRuntime) -> io::Result<()> {
    let to = &mut rt.stdout();
    times(to)?;
    starts(to)?;
    olders(to)
}

fn times(to: &mut impl Write) -> io::Result<()> {
    time(to, b"time: first reading: ", 0)?;
    time(
        to,
        b"time: last tick of the first L2 step: ",
        359_999_999_999,
    )?;
    time(
        to,
        b"time: first tick of the second L2 step: ",
        360_000_000_000,
    )?;
    time(
        to,
        b"time: last tick of the first L1 step: ",
        11_519_999_999_999,
    )?;
    time(
        to,
        b"time: first tick of the second L1 step: ",
        11_520_000_000_000,
    )?;
    time(
        to,
        b"time: last tick of the first L0 step: ",
        368_639_999_999_999,
    )?;
    time(
        to,
        b"time: first tick of the second L0 step: ",
        368_640_000_000_000,
    )?;
    time(
        to,
        b"time: first reading of the upper half: ",
        9_223_372_036_854_775_808,
    )?;
    time(
        to,
        b"time: last tick before the highest identifier: ",
        18_446_743_799_999_999_999,
    )?;
    time(
        to,
        b"time: first tick of the highest identifier: ",
        18_446_743_800_000_000_000,
    )?;
    time(to, b"time: last reading: ", 18_446_744_073_709_551_615)?;
    identifier(to, b"time: the highest identifier: ", Gkid::HIGHEST)?;
    time(
        to,
        b"time: now of the decision's cases: ",
        1_880_280_000_000_000,
    )
}

fn starts(to: &mut impl Write) -> io::Result<()> {
    start(to, b"start: one L2 step: ", gkid(0, 0, 1))?;
    start(to, b"start: one L1 step: ", gkid(0, 1, 0))?;
    start(to, b"start: one L0 step: ", gkid(1, 0, 0))?;
    start(to, b"start: last of the first L0 step: ", gkid(0, 31, 31))?;
    start(to, b"start: now of the decision's cases: ", gkid(5, 3, 7))?;
    start(to, b"start: highest identifier: ", gkid(50_039, 31, 27))?;
    start(to, b"start: one past the highest: ", gkid(50_039, 31, 28))?;
    start(to, b"start: past the highest by L0: ", gkid(50_040, 0, 0))?;
    start(
        to,
        b"start: greatest of all L0 groups: ",
        gkid(4_294_967_295, 31, 31),
    )?;
    start(to, b"start: L1 index 32: ", gkid(0, 32, 0))?;
    start(to, b"start: L2 index 32: ", gkid(0, 0, 32))?;
    start(to, b"start: 5 before 21: ", gkid(50_040, 32, 0))?;
    start(
        to,
        b"start: greatest indices of all: ",
        gkid(4_294_967_295, 4_294_967_295, 4_294_967_295),
    )
}

fn olders(to: &mut impl Write) -> io::Result<()> {
    older(to, b"older: within a row: ", gkid(5, 3, 7))?;
    older(to, b"older: across rows: ", gkid(5, 3, 0))?;
    older(
        to,
        b"older: past the highest identifier: ",
        gkid(4_294_967_295, 31, 31),
    )?;
    older(to, b"older: second of its group: ", gkid(5, 0, 1))?;
    older(to, b"older: first of its group: ", gkid(5, 0, 0))?;
    older(to, b"older: L1 index 32: ", gkid(5, 32, 0))?;
    older(to, b"older: 5 before none: ", gkid(5, 0, 32))
}

fn time(to: &mut impl Write, name: &[u8], ticks: u64) -> io::Result<()> {
    identifier(to, name, Gkid::at(FileTime(ticks)))
}

fn identifier(to: &mut impl Write, name: &[u8], at: Gkid) -> io::Result<()> {
    let mut line = Line::new();
    line.text(name);
    words::identifier(&mut line, at);
    cases::print(to, line)
}

fn start(to: &mut impl Write, name: &[u8], at: Gkid) -> io::Result<()> {
    let mut line = Line::new();
    line.text(name);
    match at.start() {
        Ok(time) => line.number(time.0),
        Err(refusal) => words::refused(&mut line, refusal),
    }
    cases::print(to, line)
}

fn older(to: &mut impl Write, name: &[u8], at: Gkid) -> io::Result<()> {
    let mut line = Line::new();
    line.text(name);
    match at.older() {
        Ok(Some(i)) => words::identifier(&mut line, i),
        Ok(None) => line.text(b"NONE"),
        Err(refusal) => words::refused(&mut line, refusal),
    }
    cases::print(to, line)
}
