// SIDs and ACLs, each rule broken alone, in the descriptor of four items.
use super::changed;
use std::io;
use std::io::Write;

pub fn run(to: &mut impl Write) -> io::Result<()> {
    sids(to)?;
    acl_heads(to)?;
    entries(to)?;
    unjudged(to)
}

fn sids(to: &mut impl Write) -> io::Result<()> {
    changed(to, b"SID: revision 0: ", 20, &[0x0200])?;
    changed(to, b"SID: revision 2: ", 20, &[0x0202])?;
    changed(to, b"SID: count 15, over the others: ", 20, &[0x0F01])?;
    changed(to, b"SID: count 16, which would fit: ", 20, &[0x1001])?;
    changed(to, b"SID: zeros: ", 20, &[0])?;
    changed(to, b"SID: of the group, revision 2: ", 36, &[2])?;
    changed(to, b"SID: of the group, count 13, to 96: ", 36, &[0x0D01])?;
    changed(
        to,
        b"SID: of the group, count 12, to the end: ",
        36,
        &[0x0C01],
    )
}

fn acl_heads(to: &mut impl Write) -> io::Result<()> {
    changed(to, b"ACL: size 7, no entry: ", 44, &[0x0007_0002, 0])?;
    changed(to, b"ACL: size 8, no entry: ", 44, &[0x0008_0002, 0])?;
    changed(to, b"ACL: size 8, one entry: ", 44, &[0x0008_0002, 1])?;
    changed(to, b"ACL: size 0: ", 44, &[0x0000_0002])?;
    changed(to, b"ACL: size 48, to the end: ", 44, &[0x0030_0002])?;
    changed(to, b"ACL: size 49, past the end: ", 44, &[0x0031_0002])?;
    changed(to, b"ACL: of the DACL, size 7: ", 64, &[0x0007_0002, 0])?;
    changed(
        to,
        b"ACL: of the DACL, size 29, past the end: ",
        64,
        &[0x001D_0002],
    )
}

fn entries(to: &mut impl Write) -> io::Result<()> {
    changed(to, b"ACL: entries end a byte past it: ", 44, &[0x0013_0002])?;
    changed(
        to,
        b"ACL: a byte left, no multiple of 4: ",
        44,
        &[0x0015_0002],
    )?;
    changed(to, b"ACL: one entry counted: ", 48, &[1])?;
    changed(to, b"ACL: none counted: ", 48, &[0])?;
    changed(to, b"ACL: three counted: ", 48, &[3])?;
    changed(to, b"ACL: 65,535 counted: ", 48, &[65535])?;
    changed(to, b"entry: size 3: ", 52, &[0x0003_0000])?;
    changed(to, b"entry: size 0: ", 52, &[0])?;
    changed(
        to,
        b"entry: the last of 7, no multiple of 4: ",
        56,
        &[0x0007_0000],
    )?;
    changed(
        to,
        b"entry: the last of 9, past the ACL: ",
        56,
        &[0x0009_0000],
    )?;
    changed(to, b"entry: of the DACL, 21: ", 72, &[0x0015_0000])?;
    changed(to, b"entry: of the DACL, 19: ", 72, &[0x0013_0000])
}

fn unjudged(to: &mut impl Write) -> io::Result<()> {
    changed(to, b"ACL: revision 0: ", 44, &[0x0014_0000])?;
    changed(to, b"ACL: Sbz1 of 255: ", 44, &[0x0014_FF02])?;
    changed(to, b"ACL: Sbz2 of 65,535: ", 48, &[0xFFFF_0002])?;
    changed(to, b"entry: type and flags of 255: ", 52, &[0x0004_FFFF])
}
