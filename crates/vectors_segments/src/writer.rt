// Headers written, and read back.
use crate::{Header, MOST, THREE, front, put, reader};
use cases::FILL;
use line::{Line, Text};
use segment::{Head, Shifts};
use std::io;
use std::io::Write;
use wire::Span;

// The shifts of the headers that are accepted, but for the highest.
const SOUND: Shifts = Shifts {
    unit: 12,
    chunk: 12,
    cluster: 9,
};

pub fn run(to: &mut impl Write) -> io::Result<()> {
    lengths(to)?;
    wrong_shifts(to)?;
    limits(to)?;
    orders(to)?;
    rewritten(to, b"segment rewritten: ", 36)?;
    rewritten(to, b"segment rewritten, 4 bytes behind: ", 40)
}

fn lengths(to: &mut impl Write) -> io::Result<()> {
    three(to, b"segment writer: room to spare: ", 64)?;
    three(to, b"segment writer: just room: ", 40)?;
    three(to, b"segment writer: a byte short: ", 39)?;
    three(to, b"segment writer: no room: ", 0)?;
    none(to, b"segment writer: no block: ", 28)?;
    none(to, b"segment writer: no block, a byte short: ", 27)?;
    highest(to, b"segment writer: shifts of 31: ", 65_536)
}

fn wrong_shifts(to: &mut impl Write) -> io::Result<()> {
    shifted(
        to,
        b"segment writer: chunk shift 13: ",
        64,
        shifts(12, 13, 9),
    )?;
    shifted(
        to,
        b"segment writer: unit shift 13: ",
        64,
        shifts(13, 12, 9),
    )?;
    shifted(
        to,
        b"segment writer: unit and chunk 32: ",
        64,
        shifts(32, 32, 9),
    )?;
    shifted(
        to,
        b"segment writer: cluster shift 32: ",
        64,
        shifts(12, 12, 32),
    )?;
    shifted(
        to,
        b"segment writer: chunk shift 268: ",
        64,
        shifts(12, 268, 9),
    )?;
    shifted(
        to,
        b"segment writer: unit and chunk 268: ",
        64,
        shifts(268, 268, 9),
    )?;
    shifted(
        to,
        b"segment writer: cluster shift 265: ",
        64,
        shifts(12, 12, 265),
    )?;
    shifted(
        to,
        b"segment writer: cluster shift 4294967295: ",
        64,
        shifts(12, 12, 4_294_967_295),
    )
}

fn limits(to: &mut impl Write) -> io::Result<()> {
    many(to, b"segment writer: 16376 blocks: ", 65_532, 16_376, SOUND)?;
    many(
        to,
        b"segment writer: 16376 blocks, a byte short: ",
        65_531,
        16_376,
        SOUND,
    )?;
    many(to, b"segment writer: 16377 blocks: ", 65_536, 16_377, SOUND)?;
    many(to, b"segment writer: 65536 blocks: ", 65_536, 65_536, SOUND)
}

// Two refusals apply: the first is the answer.
fn orders(to: &mut impl Write) -> io::Result<()> {
    many(
        to,
        b"segment writer: 1 before 25: ",
        65_536,
        16_377,
        shifts(12, 13, 9),
    )?;
    many(to, b"segment writer: 1 before 13: ", 0, 16_377, SOUND)?;
    shifted(to, b"segment writer: 25 before 13: ", 31, shifts(12, 13, 9))
}

// Three blocks.
fn three(to: &mut impl Write, name: &[u8], room: usize) -> io::Result<()> {
    let expected = Header {
        front: front(40),
        fixed: THREE,
        sizes: &[4096, 4097, 0],
    };
    write(to, name, room, head(SOUND), expected)
}

// No block.
fn none(to: &mut impl Write, name: &[u8], room: usize) -> io::Result<()> {
    let expected = Header {
        front: front(28),
        fixed: [0, 0, 12, 12, 9, 1, 0, 0],
        sizes: &[],
    };
    write(to, name, room, head(SOUND), expected)
}

// Shifts as high as they can be.
fn highest(to: &mut impl Write, name: &[u8], room: usize) -> io::Result<()> {
    let expected = Header {
        front: front(36),
        fixed: [0, 0, 31, 31, 31, 1, 2, 0],
        sizes: &[2_147_483_648, 2_147_483_649],
    };
    write(to, name, room, head(shifts(31, 31, 31)), expected)
}

// A block, with shifts that are refused.
fn shifted(to: &mut impl Write, name: &[u8], room: usize, shifts: Shifts) -> io::Result<()> {
    let expected = Header {
        front: front(32),
        fixed: [0; 8],
        sizes: &[4096],
    };
    write(to, name, room, head(shifts), expected)
}

// Blocks of 4097 bytes, of which 16,376 are accepted.
fn many(
    to: &mut impl Write,
    name: &[u8],
    room: usize,
    blocks: usize,
    shifts: Shifts,
) -> io::Result<()> {
    let sizes = [4097; 65536];
    if blocks <= 65_536 {
        let expected = Header {
            front: front(65_532),
            fixed: MOST,
            sizes: &sizes[0..blocks],
        };
        write(to, name, room, head(shifts), expected)?;
    }
    Ok(())
}

fn head(shifts: Shifts) -> Head {
    Head {
        start_offset: 4_294_967_298,
        bytes_in_stream: 3,
        bytes_in_vdl: 4,
        shifts,
    }
}

fn shifts(unit: u32, chunk: u32, cluster: u32) -> Shifts {
    Shifts {
        unit,
        chunk,
        cluster,
    }
}

// A header with the expected one's sizes, written into `room` bytes. Where it is accepted, the output has to be the expected one.
fn write(
    to: &mut impl Write,
    name: &[u8],
    room: usize,
    head: Head,
    expected: Header,
) -> io::Result<()> {
    let mut out = [FILL; 65536];
    let mut line = Line::new();
    line.text(name);
    written(&mut line, &mut out, room, head, expected);
    cases::print(to, line)
}

// Each record's writer has its cases in this shape: one function for all would take the writer and what reads back as closures, two for each.
// The room is the case's, of a buffer that is filled whole, so that it is seen what stands behind.
fn written(line: &mut Line, out: &mut [u8; 65536], room: usize, head: Head, expected: Header) {
    if room <= out.len() {
        let answer = segment::write(&mut out[0..room], head, expected.sizes);
        words::written(line, answer);
        if let Ok(len) = answer {
            line.text(b" ");
            reader::read(line, cases::first(out, len));
            return same(line, out, expected);
        }
        cases::fill_kept(line, out, 0);
    }
}

// Whether the output is that header, and behind it as it was.
fn same(line: &mut Line, out: &[u8], header: Header) {
    let mut expected = [FILL; 65536];
    put(&mut expected, header);
    line.text(b" ");
    cases::compared(line, out, &expected);
}

// What was read from a header of two blocks is written: before Length, behind it, and as a whole.
fn rewritten(to: &mut impl Write, name: &[u8], len: u32) -> io::Result<()> {
    let mut s = [255; 40];
    put(
        &mut s,
        Header {
            front: front(len),
            fixed: [0, 0, 12, 12, 9, 1, 2, 0],
            sizes: &[4096, 4097],
        },
    );
    let mut line = Line::new();
    line.text(name);
    rewrite(&mut line, cases::first(&s, len as usize));
    cases::print(to, line)
}

fn rewrite(line: &mut Line, s: &[u8]) {
    match segment::read(s) {
        Ok(segment) => {
            let mut out = [FILL; 36];
            let sizes = [size_at(s, 0), size_at(s, 1)];
            let answer = segment::write(&mut out, segment.head, &sizes);
            words::written(line, answer);
            cases::compared_around(line, &out, s, 8, Span { at: 12, len: 24 });
        }
        Err(refusal) => words::refused(line, refusal),
    }
}

fn size_at(s: &[u8], index: usize) -> u32 {
    segment::size(s, index).ok().flatten().unwrap_or(0)
}
