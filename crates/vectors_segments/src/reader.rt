// Headers read.
use crate::{Header, MOST, THREE, front, put};
use line::{Line, Text};
use segment::{Head, Segment, Shifts};
use std::io;
use std::io::Write;
use wire::Span;

pub fn run(to: &mut impl Write) -> io::Result<()> {
    accepted(to)?;
    behind(to)?;
    longest(to)?;
    lengths(to)?;
    blocks(to)?;
    marks(to)?;
    shifts(to)?;
    orders(to)
}

fn accepted(to: &mut impl Write) -> io::Result<()> {
    whole(
        to,
        b"segment: no block: ",
        28,
        [0, 0, 12, 12, 9, 1, 0, 0],
        [0; 3],
    )?;
    whole(
        to,
        b"segment: 4096, 4097 and 0: ",
        40,
        THREE,
        [4096, 4097, 0],
    )?;
    whole(
        to,
        b"segment: shifts of 31: ",
        36,
        [0, 0, 31, 31, 31, 1, 2, 0],
        [2_147_483_648, 2_147_483_649, 0],
    )?;
    whole(
        to,
        b"segment: shifts of 0: ",
        40,
        [0, 0, 0, 0, 0, 1, 3, 0],
        [0, 1, 2],
    )?;
    whole(
        to,
        b"segment: all larger: ",
        40,
        [0, 0, 9, 9, 12, 1, 3, 0],
        [513, 65_536, 4_294_967_295],
    )?;
    headed(
        to,
        b"segment: greatest numbers: ",
        40,
        Header {
            front: [
                4_294_967_295,
                4_294_967_295,
                40,
                4_294_967_295,
                4_294_967_295,
            ],
            fixed: THREE,
            sizes: &[0; 3],
        },
    )
}

// What stands behind the sizes is no size.
fn behind(to: &mut impl Write) -> io::Result<()> {
    whole(
        to,
        b"segment: a byte behind: ",
        33,
        [0, 0, 12, 12, 9, 1, 1, 0],
        [4097; 3],
    )?;
    whole(
        to,
        b"segment: 8 bytes behind: ",
        40,
        [0, 0, 12, 12, 9, 1, 1, 0],
        [4096, 4097, 4097],
    )?;
    whole(to, b"segment: 16 bytes behind: ", 56, THREE, [4097; 3])
}

fn longest(to: &mut impl Write) -> io::Result<()> {
    most(to, b"segment: 16376 blocks: ", 65_532, MOST)?;
    most(to, b"segment: 16376 blocks, 3 bytes behind: ", 65_535, MOST)?;
    most(
        to,
        b"segment: 16377 blocks: ",
        65_536,
        [0, 0, 12, 12, 9, 1, 249, 63],
    )
}

fn lengths(to: &mut impl Write) -> io::Result<()> {
    lengthed(to, b"segment: 65536 bytes: ", 65_536, 65_536)?;
    lengthed(to, b"segment: no bytes: ", 0, 0)?;
    lengthed(to, b"segment: 27 bytes: ", 27, 27)?;
    lengthed(to, b"segment: Length 41 in 40 bytes: ", 40, 41)?;
    lengthed(to, b"segment: Length 39 in 40 bytes: ", 40, 39)?;
    lengthed(to, b"segment: Length 65576 in 40 bytes: ", 40, 65_576)?;
    lengthed(to, b"segment: Length 0 in 40 bytes: ", 40, 0)
}

// Length is the record's, and too small for the block count.
fn blocks(to: &mut impl Write) -> io::Result<()> {
    counted(to, b"segment: a block in 28 bytes: ", 28, 1)?;
    counted(to, b"segment: a block in 31 bytes: ", 31, 1)?;
    counted(to, b"segment: a block in 32 bytes: ", 32, 1)?;
    counted(to, b"segment: 256 blocks in 32 bytes: ", 32, 256)?;
    counted(to, b"segment: 16384 blocks in 28 bytes: ", 28, 16_384)?;
    counted(
        to,
        b"segment: 16377 blocks in 65535 bytes: ",
        65_535,
        16_377,
    )?;
    counted(
        to,
        b"segment: 65535 blocks in 65535 bytes: ",
        65_535,
        65_535,
    )
}

fn marks(to: &mut impl Write) -> io::Result<()> {
    forty(to, b"segment: byte 20 is 1: ", [1, 0, 12, 12, 9, 1, 3, 0])?;
    forty(to, b"segment: byte 21 is 1: ", [0, 1, 12, 12, 9, 1, 3, 0])?;
    forty(to, b"segment: byte 25 is 0: ", [0, 0, 12, 12, 9, 0, 3, 0])?;
    forty(to, b"segment: byte 25 is 2: ", [0, 0, 12, 12, 9, 2, 3, 0])?;
    forty(
        to,
        b"segment: byte 25 is 129: ",
        [0, 0, 12, 12, 9, 129, 3, 0],
    )
}

fn shifts(to: &mut impl Write) -> io::Result<()> {
    forty(to, b"segment: chunk shift 13: ", [0, 0, 12, 13, 9, 1, 3, 0])?;
    forty(to, b"segment: unit shift 13: ", [0, 0, 13, 12, 9, 1, 3, 0])?;
    forty(
        to,
        b"segment: chunk shift 140: ",
        [0, 0, 12, 140, 9, 1, 3, 0],
    )?;
    forty(
        to,
        b"segment: unit and chunk 32: ",
        [0, 0, 32, 32, 9, 1, 3, 0],
    )?;
    forty(
        to,
        b"segment: unit and chunk 255: ",
        [0, 0, 255, 255, 9, 1, 3, 0],
    )?;
    forty(
        to,
        b"segment: cluster shift 32: ",
        [0, 0, 12, 12, 32, 1, 3, 0],
    )?;
    forty(
        to,
        b"segment: cluster shift 255: ",
        [0, 0, 12, 12, 255, 1, 3, 0],
    )
}

// Two refusals apply: the first is the answer.
fn orders(to: &mut impl Write) -> io::Result<()> {
    lengthed(to, b"segment: 1 before 3: ", 65_536, 0)?;
    lengthed(to, b"segment: 2 before 3: ", 27, 0)?;
    headed(
        to,
        b"segment: 3 before 4, by Length: ",
        40,
        Header {
            front: front(41),
            fixed: [1, 0, 12, 12, 9, 1, 3, 0],
            sizes: &[0; 3],
        },
    )?;
    forty(
        to,
        b"segment: 3 before 4, by the count: ",
        [0, 0, 12, 12, 9, 0, 4, 0],
    )?;
    forty(to, b"segment: 3 before 25: ", [0, 0, 12, 13, 9, 1, 4, 0])?;
    forty(to, b"segment: 4 before 25: ", [0, 0, 32, 32, 9, 0, 3, 0])
}

// A header of len bytes, whose Length says so.
fn whole(
    to: &mut impl Write,
    name: &[u8],
    len: u32,
    fixed: [u8; 8],
    sizes: [u32; 3],
) -> io::Result<()> {
    headed(
        to,
        name,
        len as usize,
        Header {
            front: front(len),
            fixed,
            sizes: &sizes,
        },
    )
}

// Len bytes of a header of three blocks, with this Length.
fn lengthed(to: &mut impl Write, name: &[u8], len: usize, length: u32) -> io::Result<()> {
    headed(
        to,
        name,
        len,
        Header {
            front: front(length),
            fixed: THREE,
            sizes: &[4096, 4097, 0],
        },
    )
}

// A header of len bytes with this block count.
fn counted(to: &mut impl Write, name: &[u8], len: u32, count: u16) -> io::Result<()> {
    let [low, high] = count.to_le_bytes();
    whole(
        to,
        name,
        len,
        [0, 0, 12, 12, 9, 1, low, high],
        [4096, 4097, 0],
    )
}

// A header of 40 bytes.
fn forty(to: &mut impl Write, name: &[u8], fixed: [u8; 8]) -> io::Result<()> {
    whole(to, name, 40, fixed, [4096, 4097, 0])
}

// The first len bytes of this header, and of bytes behind it that are no zeros.
fn headed(to: &mut impl Write, name: &[u8], len: usize, header: Header) -> io::Result<()> {
    let mut s = [255; 65536];
    put(&mut s, header);
    let mut line = Line::new();
    line.text(name);
    read(&mut line, cases::first(&s, len));
    cases::print(to, line)
}

// A header of len bytes, with 16,377 sizes of 4097.
fn most(to: &mut impl Write, name: &[u8], len: u32, fixed: [u8; 8]) -> io::Result<()> {
    headed(
        to,
        name,
        len as usize,
        Header {
            front: front(len),
            fixed,
            sizes: &[4097; 16377],
        },
    )
}

pub fn read(line: &mut Line, s: &[u8]) {
    match segment::read(s) {
        Ok(segment) => shown(line, segment),
        Err(refusal) => words::refused(line, refusal),
    }
}

// What an accepted header shows.
fn shown(line: &mut Line, segment: Segment) {
    let head = segment.head;
    numbered(line, head, segment.length);
    shifted(line, head.shifts);
    sized(line, segment.blocks, segment.sizes, segment.larger);
}

fn numbered(line: &mut Line, head: Head, length: u32) {
    line.text(b"START ");
    line.number(head.start_offset);
    line.text(b" LENGTH ");
    line.number(length as u64);
    line.text(b" STREAM ");
    line.number(head.bytes_in_stream as u64);
    line.text(b" VDL ");
    line.number(head.bytes_in_vdl as u64);
}

fn shifted(line: &mut Line, shifts: Shifts) {
    line.text(b" SHIFTS ");
    line.number(shifts.unit as u64);
    line.text(b" ");
    line.number(shifts.chunk as u64);
    line.text(b" ");
    line.number(shifts.cluster as u64);
}

fn sized(line: &mut Line, blocks: u32, sizes: Span, larger: u32) {
    line.text(b" BLOCKS ");
    line.number(blocks as u64);
    line.text(b" SIZES ");
    words::span(line, sizes);
    line.text(b" LARGER ");
    line.number(larger as u64);
}
