// Document 01, "The GetKey decision": requests at the clock reading of (5, 3, 7), with the least sound descriptor, and the T cases by verdict
// too. Each case is a line: its name, then what the library answers. The file `stdout` beside src/ holds what the paper says.
#![tactic(auto)]

use getkey::{Granted, Rights};
use gkid::{FileTime, Gkid};
use keys::Form;
use line::{Line, Text};
use refusal::Refusal;
use request::Request;
use rootid::RootId;
use std::io;
use std::io::Write;

const NOW: FileTime = FileTime(1_880_280_000_000_000);

// The start of (4, 0, 2).
const START: u64 = 1_475_280_000_000_000;

const LATEST: [i32; 3] = [-1, -1, -1];

// A row: the low half of a root's identifier, use-start and create time.
#[derive(Clone, Copy, Debug, PartialEq, Eq)]
struct Row {
    low: u64,
    starts: u64,
    created: u64,
}

fn main(rt: HostRuntime) -> io::Result<()> {
    let to = &mut rt.stdout();
    bench(to)?;
    descriptors(to)?;
    granted(to)?;
    indices(to)?;
    rights(to)?;
    tables(to)?;
    ties(to)?;
    starts(to)?;
    orders(to)
}

fn bench(to: &mut impl Write) -> io::Result<()> {
    both_ways(
        to,
        b"decision: root given, now's L0: ",
        request(root(1), [5, 0, 0]),
    )?;
    both_ways(
        to,
        b"decision: root given, earlier L0: ",
        request(root(1), [4, 2, 2]),
    )?;
    both_ways(to, b"decision: no root, named: ", request(None, [4, 0, 2]))?;
    both_ways(to, b"decision: next after now: ", request(None, [5, 3, 8]))?;
    both_ways(to, b"decision: L1 of -1 alone: ", request(None, [0, -1, 0]))?;
    both_ways(to, b"decision: L2 of 32: ", request(None, [0, 0, 32]))
}

fn granted(to: &mut impl Write) -> io::Result<()> {
    asked(to, b"decision: no root, latest: ", request(None, LATEST))?;
    asked(
        to,
        b"decision: root given, latest: ",
        request(root(1), LATEST),
    )?;
    asked(to, b"decision: no root, now: ", request(None, [5, 3, 7]))?;
    asked(
        to,
        b"decision: root given, now: ",
        request(root(1), [5, 3, 7]),
    )?;
    asked(
        to,
        b"decision: no root, L2 of 31: ",
        request(None, [5, 2, 31]),
    )?;
    asked(
        to,
        b"decision: no root, L1 of 1: ",
        request(None, [5, 1, 0]),
    )?;
    asked(
        to,
        b"decision: another root, latest: ",
        request(root(2), LATEST),
    )?;
    asked(
        to,
        b"decision: another root, named: ",
        request(root(2), [5, 0, 0]),
    )
}

fn indices(to: &mut impl Write) -> io::Result<()> {
    asked(to, b"decision: L0 of -2: ", request(None, [-2, -2, -2]))?;
    asked(
        to,
        b"decision: least L0: ",
        request(None, [-2_147_483_648, 0, 0]),
    )?;
    asked(
        to,
        b"decision: greatest L0: ",
        request(None, [2_147_483_647, 0, 0]),
    )?;
    asked(to, b"decision: L1 of 32: ", request(None, [0, 32, 0]))?;
    asked(to, b"decision: L1 of -2: ", request(None, [0, -2, 0]))?;
    asked(to, b"decision: L2 of -2: ", request(None, [0, 0, -2]))?;
    asked(to, b"decision: L0 of -1 alone: ", request(None, [-1, 0, 0]))?;
    asked(to, b"decision: L2 of -1 alone: ", request(None, [0, 0, -1]))?;
    asked(
        to,
        b"decision: L0 and L1 of -1: ",
        request(None, [-1, -1, 0]),
    )?;
    asked(
        to,
        b"decision: L1 later, L0 now's: ",
        request(None, [5, 4, 0]),
    )?;
    asked(to, b"decision: L0 later: ", request(None, [6, 0, 0]))
}

fn rights(to: &mut impl Write) -> io::Result<()> {
    allowed(
        to,
        b"decision: public, latest: ",
        Rights::Public,
        request(None, LATEST),
    )?;
    allowed(
        to,
        b"decision: public, root given, latest: ",
        Rights::Public,
        request(root(1), LATEST),
    )?;
    allowed(
        to,
        b"decision: public, named: ",
        Rights::Public,
        request(None, [4, 0, 2]),
    )?;
    allowed(
        to,
        b"decision: public, root given, named: ",
        Rights::Public,
        request(root(1), [4, 0, 2]),
    )?;
    allowed(
        to,
        b"decision: no rights, latest: ",
        Rights::None,
        request(None, LATEST),
    )
}

fn tables(to: &mut impl Write) -> io::Result<()> {
    let empty: &[u8] = b"";
    answer(
        to,
        b"decision: no row, latest: ",
        Rights::Seed,
        request(None, LATEST),
        empty,
    )?;
    answer(
        to,
        b"decision: no row, public: ",
        Rights::Public,
        request(None, LATEST),
        empty,
    )?;
    answer(
        to,
        b"decision: no row, root given: ",
        Rights::Seed,
        request(root(1), LATEST),
        empty,
    )?;
    answer(
        to,
        b"decision: no row, named: ",
        Rights::Seed,
        request(None, [4, 0, 2]),
        empty,
    )?;
    let mut table = [0; 2080];
    put(&mut table, 63, root_row(1, 0, 0));
    answer(
        to,
        b"decision: last of 64 rows: ",
        Rights::Seed,
        request(root(1), LATEST),
        cases::first(&table, 2048),
    )?;
    answer(
        to,
        b"decision: 65 rows: ",
        Rights::Seed,
        request(root(1), LATEST),
        &table,
    )?;
    answer(
        to,
        b"decision: half a row: ",
        Rights::Seed,
        request(None, LATEST),
        cases::first(&table, 16),
    )?;
    answer(
        to,
        b"decision: a row and a byte: ",
        Rights::Seed,
        request(None, LATEST),
        cases::first(&table, 33),
    )
}

// Rows 0 and 3 share an identifier, 1 and 2 the highest use-start, 0 and 2 the highest create time.
fn ties(to: &mut impl Write) -> io::Result<()> {
    let mut table = [0; 128];
    put(&mut table, 0, root_row(1, 100, 9));
    put(&mut table, 1, root_row(2, 200, 7));
    put(&mut table, 2, root_row(3, 200, 9));
    put(&mut table, 3, root_row(1, 150, 8));
    answer(
        to,
        b"decision: first of two with that identifier: ",
        Rights::Seed,
        request(root(1), LATEST),
        &table,
    )?;
    answer(
        to,
        b"decision: third row's identifier: ",
        Rights::Seed,
        request(root(3), LATEST),
        &table,
    )?;
    answer(
        to,
        b"decision: first of the highest use-start: ",
        Rights::Seed,
        request(None, LATEST),
        &table,
    )?;
    answer(
        to,
        b"decision: first of the highest create time: ",
        Rights::Seed,
        request(None, [4, 0, 2]),
        &table,
    )?;
    answer(
        to,
        b"decision: none in use at 0: ",
        Rights::Seed,
        request(None, [0, 0, 0]),
        &table,
    )
}

// The named identifier's start decides, not the clock; a given root and the latest ask for no time.
fn starts(to: &mut impl Write) -> io::Result<()> {
    let mut table = [0; 64];
    put(&mut table, 0, root_row(1, START + 1, 9));
    put(&mut table, 1, root_row(2, START, 5));
    answer(
        to,
        b"decision: in use from the start on: ",
        Rights::Seed,
        request(None, [4, 0, 2]),
        &table,
    )?;
    answer(
        to,
        b"decision: in use a tick after the start: ",
        Rights::Seed,
        request(None, [4, 0, 2]),
        cases::first(&table, 32),
    )?;
    answer(
        to,
        b"decision: both in use, highest create time: ",
        Rights::Seed,
        request(None, [4, 0, 3]),
        &table,
    )?;
    put(&mut table, 0, root_row(1, 18_446_744_073_709_551_615, 0));
    answer(
        to,
        b"decision: latest, use-start to come: ",
        Rights::Seed,
        request(None, LATEST),
        &table,
    )?;
    answer(
        to,
        b"decision: root given, use-start to come: ",
        Rights::Seed,
        request(root(1), [5, 0, 0]),
        &table,
    )
}

// 16 exactly where the descriptor is not sound. An owner that stands at 20 has no byte in 20.
fn descriptors(to: &mut impl Write) -> io::Result<()> {
    let mut bytes = least();
    described(to, b"decision: a sound descriptor: ", &bytes, LATEST)?;
    described(
        to,
        b"decision: 19 bytes of it: ",
        cases::first(&bytes, 19),
        LATEST,
    )?;
    described(
        to,
        b"decision: none of it: ",
        cases::first(&bytes, 0),
        LATEST,
    )?;
    cases::numbers(&mut bytes, 4, &[20]);
    described(to, b"decision: with an owner outside: ", &bytes, LATEST)?;
    described(to, b"decision: 16 before 14: ", &bytes, [0, 0, 32])
}

// The least sound descriptor: revision 1, the control bit 0x8000, and no item.
fn least() -> [u8; 20] {
    [1, 0, 0, 128, 0, 0, 0, 0, 0, 0, 0, 0, 0, 0, 0, 0, 0, 0, 0, 0]
}

// Seed rights, no root, and one row that suits.
fn described(
    to: &mut impl Write,
    name: &[u8],
    descriptor: &[u8],
    indices: [i32; 3],
) -> io::Result<()> {
    let mut table = [0; 32];
    put(&mut table, 0, root_row(1, 3, 4));
    let asked = request(None, indices);
    let answer = getkey::decide(descriptor, Rights::Seed, asked, NOW, &table);
    let mut line = Line::new();
    line.text(name);
    decided(&mut line, answer);
    cases::print(to, line)
}

// Each refusal where the next in order applies too.
fn orders(to: &mut impl Write) -> io::Result<()> {
    let short = [0; 31];
    let refused = getkey::decide_by_verdict(
        false,
        Rights::Seed,
        request(None, [0, 0, 32]),
        NOW,
        &short,
    );
    let mut line = Line::new();
    line.text(b"decision: 16 before 14, by verdict: ");
    decided(&mut line, refused);
    cases::print(to, line)?;
    asked(to, b"decision: 14 before 15: ", request(None, [0, -1, 32]))?;
    asked(
        to,
        b"decision: 14 before 15, L0 of -2: ",
        request(None, [-2, -1, 0]),
    )?;
    asked(to, b"decision: 15 before 17: ", request(None, [6, -1, 0]))?;
    allowed(
        to,
        b"decision: 17 before 18: ",
        Rights::None,
        request(None, [5, 3, 8]),
    )?;
    answer(
        to,
        b"decision: 18 before 20: ",
        Rights::None,
        request(root(2), LATEST),
        &short,
    )?;
    answer(
        to,
        b"decision: 20 before 19: ",
        Rights::Seed,
        request(root(2), LATEST),
        &short,
    )
}

fn root(low: u64) -> Option<RootId> {
    Some(RootId { high: 0, low })
}

fn request(root: Option<RootId>, indices: [i32; 3]) -> Request {
    Request {
        root,
        l0: indices[0],
        l1: indices[1],
        l2: indices[2],
    }
}

fn root_row(low: u64, starts: u64, created: u64) -> Row {
    Row {
        low,
        starts,
        created,
    }
}

// A row at its place in a table.
fn put(table: &mut [u8], place: u32, row: Row) {
    let at = 32 * place as usize;
    if at <= table.len() {
        put_row(&mut table[at..], row);
    }
}

// The times most significant byte first.
fn put_row(bytes: &mut [u8], row: Row) {
    if bytes.len() >= 32 {
        RootId {
            high: 0,
            low: row.low,
        }
        .put(&mut bytes[0..16]);
        bytes[16..24].copy_from_slice(&row.starts.to_be_bytes());
        bytes[24..32].copy_from_slice(&row.created.to_be_bytes());
    }
}

// With seed rights, and one row that suits: by descriptor, then by verdict.
fn both_ways(to: &mut impl Write, name: &[u8], request: Request) -> io::Result<()> {
    asked(to, name, request)?;
    let mut table = [0; 32];
    put(&mut table, 0, root_row(1, 3, 4));
    let answer = getkey::decide_by_verdict(true, Rights::Seed, request, NOW, &table);
    let mut line = Line::new();
    line.text(name);
    line.text(b"by verdict ");
    decided(&mut line, answer);
    cases::print(to, line)
}

// With seed rights, and one row that suits.
fn asked(to: &mut impl Write, name: &[u8], request: Request) -> io::Result<()> {
    allowed(to, name, Rights::Seed, request)
}

// One row: root 1, in use since 3, made at 4.
fn allowed(to: &mut impl Write, name: &[u8], rights: Rights, request: Request) -> io::Result<()> {
    let mut table = [0; 32];
    put(&mut table, 0, root_row(1, 3, 4));
    answer(to, name, rights, request, &table)
}

fn answer(
    to: &mut impl Write,
    name: &[u8],
    rights: Rights,
    request: Request,
    table: &[u8],
) -> io::Result<()> {
    let descriptor = least();
    let answer = getkey::decide(&descriptor, rights, request, NOW, table);
    let mut line = Line::new();
    line.text(name);
    decided(&mut line, answer);
    cases::print(to, line)
}

// The row or CREATE, or the refusal.
// These are the words of an answer in report's line, but for the total that the form reaches: the cases tell it as well, between form and row.
fn decided(line: &mut Line, answer: Result<Granted, Refusal>) {
    let granted = match answer {
        Ok(granted) => granted,
        Err(refusal) => return words::refused(line, refusal),
    };
    granted_form(line, granted.at, granted.form);
    match granted.row {
        Some(row) => {
            line.text(b" ROW ");
            line.number(row as u64);
        }
        None => line.text(b" CREATE"),
    }
}

// The identifier, the form, and how many it reaches there.
fn granted_form(line: &mut Line, at: Gkid, form: Form) {
    words::identifier(line, at);
    line.text(b" ");
    words::form(line, form);
    line.text(b" ");
    let total = reach::form_reach(form, at).map_or(0, |reach| reach.total());
    line.number(u64::from(total));
}
