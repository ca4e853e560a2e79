// Two envelopes with all that they show, each written again: one with a value of its own in each field, and one that another
// implementation made (sample data of the test suite of Samba 4.22), which stands on standard input.
use cases::MARK;
use envelope::{Bodies, EnvelopePart, Head};
use line::{Line, Text};
use std::io;
use std::io::{Read, Write};
use wire::Span;

pub fn run(to: &mut impl Write, from: &mut impl Read) -> io::Result<()> {
    own(to)?;
    peer(to, from)
}

fn own(to: &mut impl Write) -> io::Result<()> {
    let mut s = [0; 226];
    cases::envelope(
        &mut s,
        [7, MARK, 0x8000_0002, 5, 3, 7],
        b"\x01\x02\x03\x04\x05\x06\x07\x08\x09\x0a\x0b\x0c\x0d\x0e\x0f\x10",
        [4, 1, 2, 3, 9, 10, 64, 64, 6, 2],
    );
    cases::bytes(&mut s, 80, b"a\0\0\0p\0\0qrsb\0c\0\0\0\0\0key");
    view(to, &s)
}

fn peer(to: &mut impl Write, from: &mut impl Read) -> io::Result<()> {
    let mut buffer = [0; 65536];
    if let Ok(len) = input::read_all(from, &mut buffer) {
        let s = cases::first(&buffer, len);
        let mut line = Line::new();
        line.text(b"peer: ");
        envline::shown(&mut line, s);
        cases::print(to, line)?;
        view(to, s)?;
        names(to, s)?;
    }
    Ok(())
}

// The names in the peer's texts.
fn names(to: &mut impl Write, s: &[u8]) -> io::Result<()> {
    named(
        to,
        b"peer: KDF algorithm: ",
        envelope::part(s, EnvelopePart::Kdf),
        b"S\0P\08\00\00\0_\01\00\08\0_\0C\0T\0R\0_\0H\0M\0A\0C\0\0\0",
    )?;
    named(
        to,
        b"peer: agreement algorithm: ",
        envelope::part(s, EnvelopePart::Agreement),
        b"D\0H\0\0\0",
    )?;
    named(
        to,
        b"peer: domain: ",
        envelope::part(s, EnvelopePart::Domain),
        b"e\0x\0a\0m\0p\0l\0e\0.\0c\0o\0m\0\0\0",
    )?;
    named(
        to,
        b"peer: forest: ",
        envelope::part(s, EnvelopePart::Forest),
        envelope::part(s, EnvelopePart::Domain),
    )
}

fn named(to: &mut impl Write, name: &[u8], text: &[u8], expected: &[u8]) -> io::Result<()> {
    let mut line = Line::new();
    line.text(name);
    cases::compared(&mut line, text, expected);
    cases::print(to, line)
}

fn view(to: &mut impl Write, s: &[u8]) -> io::Result<()> {
    let mut line = Line::new();
    line.text(b"envelope: all values: ");
    match envelope::read(s) {
        Ok(envelope) => {
            let head = envelope.head;
            let bodies = envelope.bodies;
            show_head(&mut line, head);
            show_bodies(&mut line, bodies);
            cases::print(to, line)?;
            rewritten(to, head, s)
        }
        Err(refusal) => {
            words::refused(&mut line, refusal);
            cases::print(to, line)
        }
    }
}

fn show_head(line: &mut Line, head: Head) {
    let at = head.at;
    let root = head.root;
    line.text(b"VERSION ");
    line.number(head.version as u64);
    line.text(b" FLAGS ");
    line.number(head.flags as u64);
    line.text(b" AT ");
    words::identifier(line, at);
    line.text(b" ROOT ");
    line.number(root.low);
    line.text(b" ");
    line.number(root.high);
    line.text(b" PRIVATE ");
    line.number(head.private_length as u64);
    line.text(b" PUBLIC ");
    line.number(head.public_length as u64);
}

// The eight places.
fn show_bodies(line: &mut Line, bodies: Bodies<Span>) {
    line.text(b" BODIES");
    place(line, bodies.kdf);
    place(line, bodies.kdf_parameters);
    place(line, bodies.agreement);
    place(line, bodies.agreement_parameters);
    place(line, bodies.domain);
    place(line, bodies.forest);
    place(line, bodies.l1_key);
    place(line, bodies.l2_key);
}

fn place(line: &mut Line, span: Span) {
    line.text(b" ");
    words::span(line, span);
}

// What was read from an accepted envelope is written into as many bytes, and they are compared.
fn rewritten(to: &mut impl Write, head: Head, s: &[u8]) -> io::Result<()> {
    let mut out = [0; 65536];
    if s.len() <= out.len() {
        let mut line = Line::new();
        line.text(b"envelope rewritten: ");
        rewrite(&mut line, &mut out[0..s.len()], head, s);
        cases::print(to, line)?;
    }
    Ok(())
}

fn rewrite(line: &mut Line, out: &mut [u8], head: Head, s: &[u8]) {
    let bodies = Bodies {
        kdf: envelope::part(s, EnvelopePart::Kdf),
        kdf_parameters: envelope::part(s, EnvelopePart::KdfParameters),
        agreement: envelope::part(s, EnvelopePart::Agreement),
        agreement_parameters: envelope::part(s, EnvelopePart::AgreementParameters),
        domain: envelope::part(s, EnvelopePart::Domain),
        forest: envelope::part(s, EnvelopePart::Forest),
        l1_key: envelope::part(s, EnvelopePart::L1Key),
        l2_key: envelope::part(s, EnvelopePart::L2Key),
    };
    let answer = envelope::write(out, head, bodies);
    words::written(line, answer);
    line.text(b" ");
    cases::compared(line, out, s);
}
