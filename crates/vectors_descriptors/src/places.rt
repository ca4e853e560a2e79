// Where items may stand: offsets, in the descriptor of four items unless another is made.
use super::{FIRST, changed, four_items, told};
use std::io;
use std::io::Write;

pub fn run(to: &mut impl Write) -> io::Result<()> {
    none(to)?;
    shared(to)?;
    outside(to)?;
    wrapping(to)?;
    inside_head(to)
}

fn none(to: &mut impl Write) -> io::Result<()> {
    changed(to, b"offset: no owner: ", 4, &[0])?;
    changed(to, b"offset: no group: ", 8, &[0])?;
    changed(to, b"offset: no SACL: ", 12, &[0])?;
    changed(to, b"offset: no DACL: ", 16, &[0])?;
    changed(to, b"offset: none: ", 4, &[0, 0, 0, 0])
}

// The group's SID is no ACL: its size would be 0. A SID at 84 is the last 8 bytes of the DACL's entry.
fn shared(to: &mut impl Write) -> io::Result<()> {
    changed(to, b"offset: owner and group the same: ", 8, &[20])?;
    changed(to, b"offset: SACL and DACL the same: ", 12, &[64])?;
    changed(to, b"offset: the owner's a byte on: ", 4, &[21])?;
    changed(to, b"offset: a SID for the SACL: ", 12, &[36])?;
    changed(to, b"offset: an ACL for the owner: ", 4, &[44])?;
    let mut bytes = [0; 92];
    four_items(&mut bytes);
    cases::numbers(&mut bytes, 8, &[84]);
    cases::numbers(&mut bytes, 84, &[1]);
    told(to, b"offset: the group's SID inside the DACL: ", &bytes)?;
    told(
        to,
        b"offset: the same without its last byte: ",
        cases::first(&bytes, 91),
    )
}

fn outside(to: &mut impl Write) -> io::Result<()> {
    changed(to, b"offset: owner at the end: ", 4, &[92])?;
    changed(to, b"offset: owner 7 bytes before the end: ", 4, &[85])?;
    changed(to, b"offset: group past the end: ", 8, &[65536])?;
    changed(to, b"offset: SACL at the end: ", 12, &[92])?;
    changed(to, b"offset: DACL past the end: ", 16, &[93])
}

// In 32 bits these come to a place inside: 0xFFFF_FFF8 and 28 bytes to 20; and 0x8000_0040 without its highest bit is 64.
fn wrapping(to: &mut impl Write) -> io::Result<()> {
    changed(to, b"offset: owner at 0xFFFFFFFF: ", 4, &[0xFFFF_FFFF])?;
    changed(to, b"offset: group at 0xFFFFFFF8: ", 8, &[0xFFFF_FFF8])?;
    changed(to, b"offset: SACL at 0xFFFFFFF8: ", 12, &[0xFFFF_FFF8])?;
    changed(to, b"offset: DACL at 0xFFFFFFFF: ", 16, &[0xFFFF_FFFF])?;
    changed(to, b"offset: DACL at 0x80000040: ", 16, &[0x8000_0040])
}

// Sound but for the place. A SID at 1: revision 1 in Sbz1, count 0 in the control's lower byte. An ACL at 1: its size is 128, from the
// control's upper byte and the owner's offset of 0, and its count 0. A SID at 19: its revision is the last byte of the DACL's offset.
fn inside_head(to: &mut impl Write) -> io::Result<()> {
    let mut bytes = [0; 129];
    cases::numbers(&mut bytes, 0, &[0x8000_0101, 1]);
    told(to, b"offset: owner at 1, else a SID: ", &bytes)?;
    cases::numbers(&mut bytes, 0, &[0x8000_0101, 0, 1]);
    told(to, b"offset: group at 1, else a SID: ", &bytes)?;
    cases::numbers(&mut bytes, 0, &[FIRST, 0, 0, 1]);
    told(to, b"offset: SACL at 1, else an ACL: ", &bytes)?;
    cases::numbers(&mut bytes, 0, &[FIRST, 0, 0, 0, 1]);
    told(to, b"offset: DACL at 1, else an ACL: ", &bytes)?;
    cases::numbers(&mut bytes, 0, &[FIRST, 19, 0, 0, 0x0100_0000]);
    told(to, b"offset: owner at 19, else a SID: ", &bytes)?;
    cases::numbers(&mut bytes, 0, &[FIRST, 20, 0, 0, 0, 1]);
    told(
        to,
        b"offset: owner at 20, the first behind the head: ",
        &bytes,
    )
}
