// Document 01, "Reach, and the two envelopes": which of two envelopes serves, by which key. Each case is a line: its name, then what
// the library answers. The file `stdout` beside src/ holds what the paper says.
#![tactic(auto)]

use cases::{MARK, gkid};
use gkid::Gkid;
use line::{Line, Text};
use refusal::Refusal;
use rootid::RootId;
use serving::{Choice, SeedKey, Serving};
use std::io;
use std::io::Write;
use wire::Span;

// An envelope of len bytes at (5, l1, l2), under the root of that low half.
#[derive(Clone, Copy, Debug, PartialEq, Eq)]
struct Held {
    len: usize,
    root: u64,
    flags: u32,
    l1: u32,
    l2: u32,
    l1_key: u32,
    l2_key: u32,
    // The length of its KDF algorithm, and its first unit.
    kdf: u32,
    unit: u32,
}

fn main(rt: HostRuntime) -> io::Result<()> {
    let to = &mut rt.stdout();
    cached(to)?;
    fetched(to)?;
    neither(to)?;
    keyless(to)?;
    public_at_31(to)?;
    half_a_pair(to)
}

fn cached(to: &mut impl Write) -> io::Result<()> {
    let own = both(3, 7);
    let l1_alone = alone(3, 7, 64, 0);
    let l2_alone = alone(3, 7, 0, 64);
    choice(
        to,
        b"choice: its own identifier: ",
        own,
        none(),
        gkid(5, 3, 7),
    )?;
    choice(
        to,
        b"choice: the first of its row: ",
        own,
        none(),
        gkid(5, 3, 0),
    )?;
    choice(
        to,
        b"choice: the last of the row below: ",
        own,
        none(),
        gkid(5, 2, 31),
    )?;
    choice(
        to,
        b"choice: the first of all: ",
        own,
        none(),
        gkid(5, 0, 0),
    )?;
    choice(to, b"choice: both serve: ", own, both(9, 0), gkid(5, 3, 7))?;
    choice(to, b"choice: equal envelopes: ", own, own, gkid(5, 3, 7))?;
    choice(
        to,
        b"choice: the L1 key at L2 31: ",
        alone(3, 31, 64, 0),
        none(),
        gkid(5, 3, 31),
    )?;
    choice(
        to,
        b"choice: the L1 key alone, a row below: ",
        l1_alone,
        none(),
        gkid(5, 2, 0),
    )?;
    choice(
        to,
        b"choice: the L2 key alone, its own: ",
        l2_alone,
        none(),
        gkid(5, 3, 7),
    )
}

fn fetched(to: &mut impl Write) -> io::Result<()> {
    let own = both(3, 7);
    let later = both(9, 0);
    choice(
        to,
        b"choice: fetched by its L1 key: ",
        own,
        later,
        gkid(5, 3, 8),
    )?;
    choice(
        to,
        b"choice: fetched by its L2 key: ",
        own,
        later,
        gkid(5, 9, 0),
    )?;
    choice(
        to,
        b"choice: cached of another root: ",
        other_root(own),
        later,
        gkid(5, 3, 7),
    )?;
    choice(
        to,
        b"choice: cached cut to 79 bytes: ",
        cut(own),
        later,
        gkid(5, 3, 7),
    )?;
    choice(
        to,
        b"choice: cached breaks the key rule: ",
        both(0, 7),
        later,
        gkid(5, 0, 7),
    )?;
    choice(
        to,
        b"choice: cached is public: ",
        public(3, 7),
        later,
        gkid(5, 3, 7),
    )?;
    choice(to, b"choice: no cached one: ", none(), later, gkid(5, 3, 7))
}

fn neither(to: &mut impl Write) -> io::Result<()> {
    let own = both(3, 7);
    let later = both(9, 0);
    choice(to, b"choice: past both: ", own, later, gkid(5, 9, 1))?;
    choice(to, b"choice: an earlier L0: ", own, later, gkid(4, 0, 0))?;
    choice(to, b"choice: a later L0: ", own, later, gkid(6, 0, 0))?;
    choice(to, b"choice: L1 index 32: ", own, later, gkid(5, 32, 0))?;
    choice(to, b"choice: L2 index 32: ", own, later, gkid(5, 0, 32))?;
    choice(
        to,
        b"choice: both of another root: ",
        other_root(own),
        other_root(later),
        gkid(5, 3, 7),
    )?;
    choice(
        to,
        b"choice: both cut to 79 bytes: ",
        cut(own),
        cut(later),
        gkid(5, 3, 7),
    )?;
    choice(to, b"choice: no envelopes: ", none(), none(), gkid(5, 3, 7))
}

// An absent key isn't replaced by another.
fn keyless(to: &mut impl Write) -> io::Result<()> {
    choice(
        to,
        b"choice: public at the wanted one: ",
        public(3, 7),
        none(),
        gkid(5, 3, 7),
    )?;
    choice(
        to,
        b"choice: keyless at the wanted one: ",
        alone(3, 7, 0, 0),
        none(),
        gkid(5, 3, 7),
    )?;
    choice(
        to,
        b"choice: the L1 key alone, its own: ",
        alone(3, 7, 64, 0),
        none(),
        gkid(5, 3, 7),
    )?;
    choice(
        to,
        b"choice: the L2 key alone, a row below: ",
        alone(3, 7, 0, 64),
        none(),
        gkid(5, 2, 31),
    )?;
    choice(
        to,
        b"choice: a row past the L1 key at L2 31: ",
        alone(3, 31, 64, 0),
        none(),
        gkid(5, 4, 0),
    )
}

// Document 02, No. 4: a public envelope that carries its key at L2 index 31 serves nothing.
fn public_at_31(to: &mut impl Write) -> io::Result<()> {
    let at_31 = public(3, 31);
    let seed = alone(3, 31, 64, 0);
    choice(
        to,
        b"choice: public at L2 31: ",
        at_31,
        none(),
        gkid(5, 3, 31),
    )?;
    choice(
        to,
        b"choice: public, below L2 31: ",
        at_31,
        none(),
        gkid(5, 3, 0),
    )?;
    choice(
        to,
        b"choice: both public at L2 31: ",
        at_31,
        at_31,
        gkid(5, 3, 31),
    )?;
    choice(
        to,
        b"choice: cached public at L2 31: ",
        at_31,
        seed,
        gkid(5, 3, 31),
    )
}

// Document 02, No. 6: an envelope with an unpaired surrogate in a text serves nothing: the other one, or neither.
fn half_a_pair(to: &mut impl Write) -> io::Result<()> {
    let own = both(3, 7);
    let broken = surrogate(own);
    choice(
        to,
        b"choice: half a pair in the cached one: ",
        broken,
        own,
        gkid(5, 3, 7),
    )?;
    choice(
        to,
        b"choice: half a pair in the fetched one: ",
        own,
        broken,
        gkid(5, 3, 7),
    )?;
    choice(
        to,
        b"choice: half a pair in the cached one alone: ",
        broken,
        none(),
        gkid(5, 3, 7),
    )?;
    choice(
        to,
        b"choice: half a pair in both: ",
        broken,
        broken,
        gkid(5, 3, 7),
    )
}

// A seed envelope with keys of these lengths.
// The two indices stay apart, here and in Held: as an identifier each envelope would say the L0 that all share, and `put` take it apart.
fn alone(l1: u32, l2: u32, l1_key: u32, l2_key: u32) -> Held {
    Held {
        len: 88 + l1_key as usize + l2_key as usize,
        root: 2,
        flags: 0,
        l1,
        l2,
        l1_key,
        l2_key,
        kdf: 2,
        unit: 0,
    }
}

fn both(l1: u32, l2: u32) -> Held {
    alone(l1, l2, 64, 64)
}

fn public(l1: u32, l2: u32) -> Held {
    let mut held = alone(l1, l2, 0, 64);
    held.flags = 1;
    held
}

fn none() -> Held {
    let mut held = both(0, 0);
    held.len = 0;
    held
}

fn cut(mut held: Held) -> Held {
    held.len = 79;
    held
}

// With the high surrogate D83D before the KDF algorithm's terminator.
fn surrogate(mut held: Held) -> Held {
    held.len = 218;
    held.kdf = 4;
    held.unit = 0xD83D;
    held
}

fn other_root(mut held: Held) -> Held {
    held.root = 3;
    held
}

// The envelope's bytes. Its L1 key begins with the number mark + 1, its L2 key with mark + 2.
fn put(s: &mut [u8], held: Held, mark: u8) {
    let mut root = [0; 16];
    RootId {
        high: 1,
        low: held.root,
    }
    .put(&mut root);
    cases::envelope(
        s,
        [0, MARK, held.flags, 5, held.l1, held.l2],
        &root,
        [held.kdf, 0, 2, 0, 0, 64, held.l1_key, held.l2_key, 2, 2],
    );
    cases::numbers(s, 80, &[held.unit]);
    let keys = 86 + held.kdf as usize;
    cases::numbers(s, keys, &[mark as u32 + 1]);
    cases::numbers(s, keys + held.l1_key as usize, &[mark as u32 + 2]);
}

// The choice for this identifier under the root whose low half is 2.
fn choice(
    to: &mut impl Write,
    name: &[u8],
    cached: Held,
    fetched: Held,
    wanted: Gkid,
) -> io::Result<()> {
    let mut a = [0; 218];
    let mut b = [0; 218];
    put(&mut a, cached, 10);
    put(&mut b, fetched, 20);
    let mut line = Line::new();
    line.text(name);
    chosen(
        &mut line,
        wanted,
        cases::first(&a, cached.len),
        cases::first(&b, fetched.len),
    );
    cases::print(to, line)
}

// The answer; and the part's length and the number that it begins with.
fn chosen<'a>(line: &mut Line, wanted: Gkid, cached: &'a [u8], fetched: &'a [u8]) {
    let root = RootId { high: 1, low: 2 };
    let part = serving::serving_key(root, wanted, cached, fetched);
    answer(line, serving::choose(root, wanted, cached, fetched));
    line.text(b" PART ");
    line.number(part.len() as u64);
    line.text(b" ");
    line.number(wire::le32_at(part, 0) as u64);
}

fn answer(line: &mut Line, choice: Result<Choice, Refusal>) {
    match choice {
        Ok(Choice::Cached(serving)) => {
            line.text(b"CACHED ");
            by(line, serving);
        }
        Ok(Choice::Fetched(serving)) => {
            line.text(b"FETCHED ");
            by(line, serving);
        }
        Err(refusal) => words::refused(line, refusal),
    }
}

fn by(line: &mut Line, serving: Serving) {
    match serving.key {
        SeedKey::L1 => line.text(b"L1 "),
        SeedKey::L2 => line.text(b"L2 "),
    }
    words::span(line, serving.place);
}
