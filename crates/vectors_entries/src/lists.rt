// Lists judged whole, and walked entry by entry.
use crate::entries;
use keyentry::EntryPart;
use keylist::walk::Walk;
use keylist::{ListRefusal, Place, Step};
use line::{Line, Text};
use std::io;
use std::io::Write;

// The head of a sound entry of 25 bytes, whose item of 4 is at 20 and whose FEK of 1 is at 24.
const SOUND: [u32; 5] = [25, 20, 1, 24, 0];

// An item in the head.
const MISPLACED: [u32; 5] = [25, 19, 1, 24, 0];

pub fn run(to: &mut impl Write) -> io::Result<()> {
    counts(to)?;
    second_entries(to)?;
    first_entries(to)?;
    orders(to)?;
    walks(to)?;
    held(to)?;
    parts(to)
}

fn counts(to: &mut impl Write) -> io::Result<()> {
    counted(to, b"list: count 0 in four bytes: ", 4, 0)?;
    counted(to, b"list: one entry: ", 29, 1)?;
    counted(to, b"list: two entries: ", 54, 2)?;
    counted(to, b"list: no bytes: ", 0, 0)?;
    counted(to, b"list: 3 bytes: ", 3, 0)?;
    counted(to, b"list: 65536 bytes: ", 65_536, 2)?;
    counted(to, b"list: 65535 bytes: ", 65_535, 2)?;
    counted(to, b"list: count 3, two entries: ", 54, 3)?;
    counted(
        to,
        b"list: count 4294967295, two entries: ",
        54,
        4_294_967_295,
    )?;
    counted(to, b"list: count 4294967295, no entry: ", 4, 4_294_967_295)?;
    counted(to, b"list: count 1, two entries: ", 54, 1)?;
    counted(to, b"list: count 0 in five bytes: ", 5, 0)?;
    counted(to, b"list: one byte left: ", 55, 2)
}

fn second_entries(to: &mut impl Write) -> io::Result<()> {
    counted(to, b"list: 19 bytes for the second: ", 48, 2)?;
    second(to, b"list: second of Length 19: ", [19, 20, 1, 24, 0])?;
    second(
        to,
        b"list: second of Length 26 in 25 bytes: ",
        [26, 20, 1, 24, 0],
    )?;
    second(
        to,
        b"list: second of Length 4294967295: ",
        [4_294_967_295, 20, 1, 24, 0],
    )?;
    second(to, b"list: second of Length 20: ", [20, 20, 1, 24, 0])?;
    second(to, b"list: second misplaced: ", MISPLACED)?;
    second(to, b"list: second with an empty FEK: ", [25, 20, 0, 24, 0])?;
    second(to, b"list: second overlaps: ", [25, 20, 1, 23, 0])?;
    list(
        to,
        b"list: second with a run of 9: ",
        63,
        2,
        SOUND,
        [34, 20, 1, 33, 0],
    )
}

fn first_entries(to: &mut impl Write) -> io::Result<()> {
    list(
        to,
        b"list: first of Length 19: ",
        54,
        2,
        [19, 20, 1, 24, 0],
        SOUND,
    )?;
    list(
        to,
        b"list: first with a FEK past its end: ",
        54,
        2,
        [25, 20, 2, 24, 0],
        SOUND,
    )
}

// Two refusals apply: the first is the answer.
fn orders(to: &mut impl Write) -> io::Result<()> {
    list(to, b"list: 2 before 3: ", 23, 1, [19, 20, 1, 24, 0], SOUND)?;
    second(to, b"list: 3 before 6: ", [26, 19, 1, 24, 0])?;
    list(to, b"list: 6 before 22: ", 54, 1, MISPLACED, SOUND)?;
    list(
        to,
        b"list: the first refused entry is told: ",
        54,
        2,
        MISPLACED,
        [19, 20, 1, 24, 0],
    )
}

// The first len bytes of a list of two sound entries, with this count.
fn counted(to: &mut impl Write, name: &[u8], len: usize, count: u32) -> io::Result<()> {
    list(to, name, len, count, SOUND, SOUND)
}

// A list of two entries, of which the first is sound.
fn second(to: &mut impl Write, name: &[u8], second: [u32; 5]) -> io::Result<()> {
    list(to, name, 54, 2, SOUND, second)
}

// Two entries behind a count, each with an item of 4: the first at 4, the second at 29.
fn put(s: &mut [u8], count: u32, first: [u32; 5], second: [u32; 5]) {
    cases::numbers(s, 0, &[count]);
    put_entry(s, 4, first);
    put_entry(s, 29, second);
}

fn put_entry(s: &mut [u8], at: usize, head: [u32; 5]) {
    if at <= s.len() {
        cases::entry(&mut s[at..], head, 4);
    }
}

// The first len bytes of such a list, judged.
// `walk` and `hold` differ from it in one call, and begin with a sound entry: one function would take that call as a closure of each.
// The numbers stay apart, here and there: so most cases are one line; a struct would take a line for each, or a maker with the same numbers.
fn list(
    to: &mut impl Write,
    name: &[u8],
    len: usize,
    count: u32,
    first: [u32; 5],
    second: [u32; 5],
) -> io::Result<()> {
    let mut s = [0; 65536];
    put(&mut s, count, first, second);
    let mut line = Line::new();
    line.text(name);
    judged(&mut line, cases::first(&s, len));
    cases::print(to, line)
}

fn judged(line: &mut Line, list: &[u8]) {
    match keylist::judge(list) {
        Ok(n) => {
            line.text(b"COUNT ");
            line.number(n as u64);
        }
        Err(told) => refused(line, told),
    }
}

// A refusal, and the index of the entry that it is given for.
fn refused(line: &mut Line, told: ListRefusal) {
    words::refused(line, told.refusal);
    line.text(b" INDEX ");
    line.number(told.index as u64);
}

fn walks(to: &mut impl Write) -> io::Result<()> {
    walk(to, b"walk: two entries:", 54, 2, SOUND)?;
    walk(to, b"walk: count 0:", 4, 0, SOUND)?;
    walk(to, b"walk: 3 bytes:", 3, 0, SOUND)?;
    walk(to, b"walk: 65536 bytes:", 65_536, 2, SOUND)?;
    walk(to, b"walk: second misplaced:", 54, 2, MISPLACED)?;
    walk(to, b"walk: one entry and bytes left:", 54, 1, SOUND)?;
    walk(to, b"walk: count 4294967295:", 54, 4_294_967_295, SOUND)
}

// Four steps over a list whose first entry is sound.
fn walk(
    to: &mut impl Write,
    name: &[u8],
    len: usize,
    count: u32,
    second: [u32; 5],
) -> io::Result<()> {
    let mut s = [0; 65536];
    put(&mut s, count, SOUND, second);
    let mut line = Line::new();
    line.text(name);
    steps(&mut line, cases::first(&s, len));
    cases::print(to, line)
}

fn steps(line: &mut Line, list: &[u8]) {
    let mut place = Place::START;
    for _ in 0..4u8 {
        place = step(line, place, list);
    }
}

fn step(line: &mut Line, from: Place, list: &[u8]) -> Place {
    let advance = keylist::next_step(list, from);
    line.text(b" ");
    found(line, advance.step);
    advance.place
}

// The same by one walk, which holds the list and its place.
fn held(to: &mut impl Write) -> io::Result<()> {
    hold(to, b"held walk: two entries:", 54, 2, SOUND)?;
    hold(to, b"held walk: second misplaced:", 54, 2, MISPLACED)
}

fn hold(
    to: &mut impl Write,
    name: &[u8],
    len: usize,
    count: u32,
    second: [u32; 5],
) -> io::Result<()> {
    let mut s = [0; 65536];
    put(&mut s, count, SOUND, second);
    let mut line = Line::new();
    line.text(name);
    told(&mut line, ask(cases::first(&s, len)));
    cases::print(to, line)
}

// What one walk answers when it is asked four times.
fn ask(list: &[u8]) -> [Step; 4] {
    let mut walk = Walk::over(list);
    [walk.next(), walk.next(), walk.next(), walk.next()]
}

fn told(line: &mut Line, asked: [Step; 4]) {
    for step in asked {
        line.text(b" ");
        found(line, step);
    }
}

fn found(line: &mut Line, step: Step) {
    match step {
        Step::Entry(found) => {
            let entry = found.entry;
            line.text(b"ENTRY ");
            line.number(found.index as u64);
            line.text(b" AT ");
            line.number(found.at as u64);
            line.text(b" ");
            entries::shown(line, entry);
        }
        Step::End => line.text(b"END"),
        Step::Refused(told) => refused(line, told),
    }
}

fn parts(to: &mut impl Write) -> io::Result<()> {
    item(to, b"part: item of the second: ", SOUND, 4)?;
    item(to, b"part: second misplaced: ", MISPLACED, 0)
}

// Whether the second entry's item, handed out of the list, is the first n bytes of an item of 4.
fn item(to: &mut impl Write, name: &[u8], second: [u32; 5], n: usize) -> io::Result<()> {
    let mut s = [0; 65536];
    let whole = [4, 0, 0, 0];
    put(&mut s, 2, SOUND, second);
    let mut line = Line::new();
    line.text(name);
    cases::compared(
        &mut line,
        keylist::part(
            cases::first(&s, 54),
            Place { at: 29, index: 1 },
            EntryPart::Item,
        ),
        cases::first(&whole, n),
    );
    cases::print(to, line)
}
