// Document 02, No. 1: data segment headers read and written. Each case is a line: its name, then what the library answers. The file
// `stdout` beside src/ holds what the paper says.
#![tactic(auto)]

mod reader;
mod sizes;
mod writer;

use std::io;

// The bytes from 20 on of a header with three blocks: two zeros, the three shifts, 01 and the block count.
const THREE: [u8; 8] = [0, 0, 12, 12, 9, 1, 3, 0];

// The same with 16,376 blocks, as many as there can be.
const MOST: [u8; 8] = [0, 0, 12, 12, 9, 1, 248, 63];

// A header that a case puts together: the numbers in front, the bytes from 20 on, and the sizes from 28 on.
#[derive(Clone, Copy, Debug, PartialEq, Eq)]
struct Header<'a> {
    front: [u32; 5],
    fixed: [u8; 8],
    sizes: &'a [u32],
}

fn main(rt: HostRuntime) -> io::Result<()> {
    let to = &mut rt.stdout();
    reader::run(to)?;
    sizes::run(to)?;
    writer::run(to)
}

// The numbers in front of those bytes: the start offset 4,294,967,298, Length, 3 bytes in the stream and 4 in the VDL.
fn front(length: u32) -> [u32; 5] {
    [2, 1, length, 3, 4]
}

fn put(s: &mut [u8], header: Header) {
    cases::numbers(s, 0, &header.front);
    cases::bytes(s, 20, &header.fixed);
    cases::numbers(s, 28, header.sizes);
}
