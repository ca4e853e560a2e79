// The size of one block, asked for by its index.
use crate::{Header, MOST, THREE, front, put};
use line::{Line, Text};
use std::io;
use std::io::Write;

pub fn run(to: &mut impl Write) -> io::Result<()> {
    three(to)?;
    others(to)
}

fn three(to: &mut impl Write) -> io::Result<()> {
    asked(to, b"size at 0: ", 0, THREE)?;
    asked(to, b"size at 1: ", 1, THREE)?;
    asked(to, b"size at 2: ", 2, THREE)?;
    asked(to, b"size at 3: ", 3, THREE)?;
    asked(to, b"size at 2^62: ", 4_611_686_018_427_387_904, THREE)?;
    asked(to, b"size at 2^64 - 1: ", 18_446_744_073_709_551_615, THREE)
}

fn others(to: &mut impl Write) -> io::Result<()> {
    asked(
        to,
        b"size at 2, two blocks: ",
        2,
        [0, 0, 12, 12, 9, 1, 2, 0],
    )?;
    asked(to, b"size at 0, no block: ", 0, [0, 0, 12, 12, 9, 1, 0, 0])?;
    asked(to, b"size at 0, refused: ", 0, [0, 0, 12, 13, 9, 1, 3, 0])?;
    asked(to, b"size at 3, refused: ", 3, [0, 0, 12, 12, 9, 0, 3, 0])?;
    last(to, b"size at 16375: ", 16_375)?;
    last(to, b"size at 16376: ", 16_376)
}

// A header of 40 bytes, with three sizes.
fn asked(to: &mut impl Write, name: &[u8], index: usize, fixed: [u8; 8]) -> io::Result<()> {
    let mut s = [255; 64];
    put(
        &mut s,
        Header {
            front: front(40),
            fixed,
            sizes: &[4096, 4097, 0],
        },
    );
    let mut line = Line::new();
    line.text(name);
    size(&mut line, cases::first(&s, 40), index);
    cases::print(to, line)
}

// A header of 16,376 blocks, with 16,377 sizes.
fn last(to: &mut impl Write, name: &[u8], index: usize) -> io::Result<()> {
    let mut s = [255; 65536];
    put(
        &mut s,
        Header {
            front: front(65_535),
            fixed: MOST,
            sizes: &[4097; 16377],
        },
    );
    let mut line = Line::new();
    line.text(name);
    size(&mut line, cases::first(&s, 65_535), index);
    cases::print(to, line)
}

fn size(line: &mut Line, s: &[u8], index: usize) {
    match segment::size(s, index) {
        Ok(Some(bytes)) => {
            line.text(b"SIZE ");
            line.number(bytes as u64);
        }
        Ok(None) => line.text(b"NONE"),
        Err(refusal) => words::refused(line, refusal),
    }
}
