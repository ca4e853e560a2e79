// Document 01, "Group Key Envelope" (MS-GKDI 2.2.4), read and written.
#![tactic(auto)]

ghost use Rattle.std.specs.Prelude.{◌≡◌, ◌++◌, ◌+◌, ◌≤◌, ◌<◌, ◌^◌, min, length};
ghost use Rattle.refusal.specs.Chain.{first_of};
ghost use Rattle.wire.specs.Parts.{onto, joined, LiesAt};
ghost use Rattle.records.specs.Writing.{output_of};
ghost use Rattle.keys.specs.KeyRule.{key_checks};
ghost use Rattle.keys.specs.Forms.{keys_of};
ghost use Rattle.envelope.specs.Layout.{head_of, is_public, lengths_of, LengthsFit, end_at, bodies_of, body};
ghost use Rattle.envelope.specs.Reading.{head_checks, four_texts, layout_checks, envelope_checks, shown, envelope_of, span_of, envelope_span, envelope_part, form_of};
ghost use Rattle.envelope.specs.Writing.{given_in, given_lengths, envelope_length, head_pieces, envelope_bytes, write_checks, envelope_written};

use gkid::{Gkid, L0, L1, L2};
use keys::{Form, SeedKeys};
use records::{LIMIT, grown};
use refusal::Refusal;
use rootid::RootId;
use wire::{Span, copy_into, le32_at, put_le32s};

// The head's values. The private and the public key length have no body.
#[derive(Clone, Copy, Debug, PartialEq, Eq)]
pub struct Head {
    pub version: u32,
    pub flags: u32,
    pub at: Gkid,
    pub root: RootId,
    pub private_length: u32,
    pub public_length: u32,
}

// The eight bodies, in their order: of each its length, where it stands, or its bytes.
#[derive(Clone, Copy, Debug, PartialEq, Eq)]
pub struct Bodies<T> {
    pub kdf: T,
    pub kdf_parameters: T,
    pub agreement: T,
    pub agreement_parameters: T,
    pub domain: T,
    pub forest: T,
    pub l1_key: T,
    pub l2_key: T,
}

// The lengths of the eight bodies, as 32 bits hold each.
#[derive(Clone, Copy, Debug, PartialEq, Eq)]
struct Lengths {
    each: Bodies<usize>,
    ghost fits: { LengthsFit each },
}

// An accepted envelope: the head's values, and where the bodies stand.
#[derive(Clone, Copy, Debug, PartialEq, Eq)]
pub struct Envelope {
    pub head: Head,
    pub bodies: Bodies<Span>,
}

// The parts of an envelope: its bodies.
#[derive(Clone, Copy, Debug, PartialEq, Eq)]
pub enum EnvelopePart {
    Kdf,
    KdfParameters,
    Agreement,
    AgreementParameters,
    Domain,
    Forest,
    L1Key,
    L2Key,
}

// "Bit 31 (LSB)" of dwFlags has the value 1.
#[tactic(auto, unfolding(crate::specs::Layout::is_public))]
pub fn is_public(flags: u32) -> bool
    ensures { result ≡ is_public flags }
{
    flags % 2 == 1
}

// Where a body stands: each body of a refused envelope is empty at 0.
#[tactic(auto, unfolding(crate::specs::Reading::span_of))]
pub fn span_of(read: Result<Envelope, Refusal>, which: EnvelopePart) -> Span
    ensures { result ≡ span_of read which }
{
    read.map_or(
        Span { at: 0, len: 0 },
        |envelope| envelope.bodies.body(which),
    )
}

impl<T: Copy> Bodies<T> {
    // Of the eight the one that is asked for.
    #[tactic(auto, unfolding(crate::specs::Layout::body))]
    fn body(self, which: EnvelopePart) -> T
        ensures { result ≡ body self which }
    {
        match which {
            EnvelopePart::Kdf => self.kdf,
            EnvelopePart::KdfParameters => self.kdf_parameters,
            EnvelopePart::Agreement => self.agreement,
            EnvelopePart::AgreementParameters => self.agreement_parameters,
            EnvelopePart::Domain => self.domain,
            EnvelopePart::Forest => self.forest,
            EnvelopePart::L1Key => self.l1_key,
            EnvelopePart::L2Key => self.l2_key,
        }
    }
}

// The form that an envelope's keys make.
#[tactic(auto, unfolding(crate::specs::Reading::form_of))]
pub fn form_of(envelope: Envelope) -> Form
    ensures { result ≡ form_of envelope }
{
    let Envelope { head, bodies } = envelope;
    if (bodies.l1_key.len == 0) & (bodies.l2_key.len == 0) {
        return Form::Keyless;
    }
    if is_public(head.flags) {
        return Form::Public;
    }
    if bodies.l2_key.len == 0 {
        return Form::L1Only;
    }
    if bodies.l1_key.len == 0 {
        return Form::L2Only;
    }
    Form::Both
}

// The seed keys of that form: those that are there, unless the envelope is public.
#[tactic(auto, using(crate::proofs::Forms::form_keys))]
pub fn seed_keys_of(envelope: Envelope) -> SeedKeys
    ensures { result ≡ keys_of (form_of envelope) }
{
    let Envelope { head, bodies } = envelope;
    let seed = !is_public(head.flags);
    SeedKeys {
        l1: seed & (bodies.l1_key.len != 0),
        l2: seed & (bodies.l2_key.len != 0),
    }
}

// What an envelope shows, or its refusal.
#[tactic(auto, unfolding(crate::specs::Reading::envelope_of, refusal::specs::Chain::unless_refused))]
pub fn read(s: &[u8]) -> Result<Envelope, Refusal>
    ensures { result ≡ envelope_of s.now }
{
    judge(s)?;
    Ok(shown(s))
}

// The checks, in document 01's order.
#[tactic(auto, using(refusal::proofs::Chains::first_append), unfolding(crate::specs::Reading::envelope_checks, refusal::specs::Chain::unless_refused))]
fn judge(s: &[u8]) -> Result<(), Refusal>
    ensures { result ≡ first_of (envelope_checks s.now) }
{
    judge_head(s)?;
    judge_layout(s)
}

// 1, 2 and 4: what a caller can answer without the reader.
#[tactic(auto, unfolding(crate::specs::Reading::head_checks, refusal::specs::Chain::first_of, wire::specs::Numbers::le_of))]
pub fn judge_head(s: &[u8]) -> Result<(), Refusal>
    ensures { result ≡ first_of (head_checks s.now) }
{
    if LIMIT < s.len() {
        return Err(Refusal::TooLong);
    }
    if s.len() < 80 {
        return Err(Refusal::Short);
    }
    if le32_at(s, 4) != 0x4B53444B {
        return Err(Refusal::WrongMark);
    }
    Ok(())
}

// 5, 3, and the rules of the bodies, which are looked at only where indices and lengths are sound.
fn judge_layout(s: &[u8]) -> Result<(), Refusal>
    ensures { result ≡ first_of (layout_checks s.now) }
{
    let head = head_of(s);
    if head.at.index_above_31() {
        return Err(Refusal::IndexAbove31);
    }
    let n = Lengths::of(s);
    if n.end() != s.len() {
        return Err(Refusal::LengthsDisagree);
    }
    let bodies = n.places();
    judge_texts(
        wire::part(s, bodies.kdf),
        wire::part(s, bodies.agreement),
        wire::part(s, bodies.domain),
        wire::part(s, bodies.forest),
    )?;
    judge_keys(head, n.each.l1_key, n.each.l2_key)
}

// The rule of a text, for the four texts in body order. Inlined in reader and writer: as a call it costs an envelope of 88 bytes 18
// instructions where it is read and 49 where it is written.
#[inline(always)]
#[tactic(auto, using(refusal::proofs::Chains::first_append), unfolding(crate::specs::Reading::four_texts, refusal::specs::Chain::unless_refused))]
fn judge_texts(kdf: &[u8], agreement: &[u8], domain: &[u8], forest: &[u8]) -> Result<(), Refusal>
    ensures { result ≡ first_of (four_texts kdf.now agreement.now domain.now forest.now) }
{
    text::judge(kdf)?;
    text::judge(agreement)?;
    text::judge(domain)?;
    text::judge(forest)
}

// The key rule, for keys of these lengths.
#[tactic(auto, unfolding(refusal::specs::Chain::first_of))]
fn judge_keys(head: Head, l1_length: usize, l2_length: usize) -> Result<(), Refusal>
    ensures { result ≡ first_of (key_checks (is_public head.flags) head.at head.public_length l1_length l2_length) }
{
    keys::judge(
        is_public(head.flags),
        head.at,
        head.public_length as usize,
        l1_length,
        l2_length,
    )
}

// What an accepted envelope shows.
#[tactic(auto, unfolding(crate::specs::Reading::shown))]
fn shown(s: &[u8]) -> Envelope
    ensures { result ≡ shown s.now }
{
    Envelope {
        head: head_of(s),
        bodies: Lengths::of(s).places(),
    }
}

#[tactic(auto, unfolding(crate::specs::Layout::head_of))]
fn head_of(s: &[u8]) -> Head
    ensures { result ≡ head_of s.now }
{
    Head {
        version: le32_at(s, 0),
        flags: le32_at(s, 8),
        at: Gkid {
            l0: L0(le32_at(s, 12)),
            l1: L1(le32_at(s, 16)),
            l2: L2(le32_at(s, 20)),
        },
        root: RootId::at(s, 24),
        private_length: le32_at(s, 56),
        public_length: le32_at(s, 60),
    }
}

impl Lengths {
    // Domain and forest lengths come after the keys' lengths.
    #[tactic(auto, unfolding(crate::specs::Layout::lengths_of))]
    fn of(s: &[u8]) -> Lengths
        ensures { result.each ≡ lengths_of s.now }
    {
        Lengths {
            each: Bodies {
                kdf: le32_at(s, 40) as usize,
                kdf_parameters: le32_at(s, 44) as usize,
                agreement: le32_at(s, 48) as usize,
                agreement_parameters: le32_at(s, 52) as usize,
                l1_key: le32_at(s, 64) as usize,
                l2_key: le32_at(s, 68) as usize,
                domain: le32_at(s, 72) as usize,
                forest: le32_at(s, 76) as usize,
            },
        }
    }

    // The lengths of what is given, within the limit.
    fn given(bodies: Bodies<&[u8]>) -> Lengths
        requires { envelope_length (given_in bodies) ≤ 65535 }
        ensures { result.each ≡ given_lengths (given_in bodies.entry) }
    {
        Lengths {
            each: Bodies {
                kdf: bodies.kdf.len(),
                kdf_parameters: bodies.kdf_parameters.len(),
                agreement: bodies.agreement.len(),
                agreement_parameters: bodies.agreement_parameters.len(),
                domain: bodies.domain.len(),
                forest: bodies.forest.len(),
                l1_key: bodies.l1_key.len(),
                l2_key: bodies.l2_key.len(),
            },
        }
    }

    // Where the last body ends: 80 plus the eight lengths.
    fn end(self) -> usize
        ensures { result ≡ end_at self.each }
    {
        let n = self.each;
        80 + n.kdf
            + n.kdf_parameters
            + n.agreement
            + n.agreement_parameters
            + n.domain
            + n.forest
            + n.l1_key
            + n.l2_key
    }

    // Where the bodies stand. Domain and forest come before the keys.
    #[tactic(auto, unfolding(crate::specs::Layout::bodies_of))]
    fn places(self) -> Bodies<Span>
        ensures { result ≡ bodies_of self.each }
    {
        let n = self.each;
        let kdf_parameters = 80 + n.kdf;
        let agreement = kdf_parameters + n.kdf_parameters;
        let agreement_parameters = agreement + n.agreement;
        let domain = agreement_parameters + n.agreement_parameters;
        let forest = domain + n.domain;
        let l1_key = forest + n.forest;
        let l2_key = l1_key + n.l1_key;
        Bodies {
            kdf: Span { at: 80, len: n.kdf },
            kdf_parameters: Span {
                at: kdf_parameters,
                len: n.kdf_parameters,
            },
            agreement: Span {
                at: agreement,
                len: n.agreement,
            },
            agreement_parameters: Span {
                at: agreement_parameters,
                len: n.agreement_parameters,
            },
            domain: Span {
                at: domain,
                len: n.domain,
            },
            forest: Span {
                at: forest,
                len: n.forest,
            },
            l1_key: Span {
                at: l1_key,
                len: n.l1_key,
            },
            l2_key: Span {
                at: l2_key,
                len: n.l2_key,
            },
        }
    }
}

// The bytes of a body: those very bytes of s, or the empty part on a refusal and for an absent body.
// As `span_of`, one line in each record's crate: a trait that has both would ask each for the kind of part, the reader, the places and the law
// that they lie inside, which is more than these lines.
#[tactic(auto, using(wire::proofs::Parts::start_in, crate::proofs::Reading::part_inside))]
pub fn part(s: &[u8], which: EnvelopePart) -> &[u8]
    ensures bytes { result.now ≡ envelope_part s.now which }
    ensures place { LiesAt result s.entry (envelope_span s.now which).at }
{
    wire::part(s, span_of(read(s), which))
}

// Writes an envelope: what is given is judged, then 13. A refusal keeps the output's bytes; success keeps those behind the record.
// The shape is that of each record's writer, over its own judge, length and `put`: a trait for it would ask for these three, and a type of
// what is given.
#[tactic(auto, using(crate::proofs::Writing::within_limit), unfolding(records::specs::Writing::output_of, records::specs::Writing::written_of, refusal::specs::Chain::refuse_if, refusal::specs::Chain::unless_refused))]
pub fn write(out: &mut [u8], head: Head, bodies: Bodies<&[u8]>) -> Result<usize, Refusal>
    ensures answer { result ≡ envelope_written head (given_in bodies.entry) (length out.old) }
    ensures output { out.new ≡ output_of result (envelope_bytes head (given_in bodies.entry)) out.old }
{
    judge_given(head, bodies)?;
    let n = Lengths::given(bodies);
    let len = n.end();
    if out.len() < len {
        return Err(Refusal::NoRoom);
    }
    put(out, head, n, bodies);
    Ok(len)
}

// What the reader would say of the bytes: of its refusals only 1, 5, 10, 24 and 11 can occur.
fn judge_given(head: Head, bodies: Bodies<&[u8]>) -> Result<(), Refusal>
    ensures { result ≡ first_of (write_checks head (given_in bodies.entry)) }
{
    if LIMIT < capped(bodies) {
        return Err(Refusal::TooLong);
    }
    if head.at.index_above_31() {
        return Err(Refusal::IndexAbove31);
    }
    judge_texts(bodies.kdf, bodies.agreement, bodies.domain, bodies.forest)?;
    judge_keys(head, bodies.l1_key.len(), bodies.l2_key.len())
}

// The record's length, or 65,536 where it is over the limit.
fn capped(bodies: Bodies<&[u8]>) -> usize
    ensures { result ≡ min (envelope_length (given_in bodies.entry)) 65536 }
{
    let sizes = [
        bodies.kdf.len(),
        bodies.kdf_parameters.len(),
        bodies.agreement.len(),
        bodies.agreement_parameters.len(),
        bodies.domain.len(),
        bodies.forest.len(),
        bodies.l1_key.len(),
        bodies.l2_key.len(),
    ];
    sizes.iter().fold(80, |len, size| grown(len, *size))
}

// The head, and each body into its own part of the output, by the writer of its kind: of parameters nothing is judged.
#[tactic(auto, unfolding(crate::specs::Layout::bodies_of))]
fn put(out: &mut [u8], head: Head, n: Lengths, bodies: Bodies<&[u8]>)
    requires lengths { n.each ≡ given_lengths (given_in bodies) }
    requires room { end_at n.each ≤ length out.old }
    ensures { out.new ≡ onto (envelope_bytes head (given_in bodies.entry)) out.old }
{
    let places = n.places();
    put_head(&mut out[0..80], head, n);
    text::put(&mut out[80..places.kdf_parameters.at], bodies.kdf);
    copy_into(
        &mut out[places.kdf_parameters.at..places.agreement.at],
        bodies.kdf_parameters,
    );
    text::put(
        &mut out[places.agreement.at..places.agreement_parameters.at],
        bodies.agreement,
    );
    copy_into(
        &mut out[places.agreement_parameters.at..places.domain.at],
        bodies.agreement_parameters,
    );
    text::put(&mut out[places.domain.at..places.forest.at], bodies.domain);
    text::put(&mut out[places.forest.at..places.l1_key.at], bodies.forest);
    keys::put(&mut out[places.l1_key.at..places.l2_key.at], bodies.l1_key);
    keys::put(&mut out[places.l2_key.at..n.end()], bodies.l2_key);
}

fn put_head(dst: &mut [u8], head: Head, n: Lengths)
    requires { 80 ≤ length dst.old }
    ensures { dst.new ≡ onto (joined (head_pieces head n.each)) dst.old }
{
    let front = [
        head.version,
        0x4B53444B,
        head.flags,
        head.at.l0.0,
        head.at.l1.0,
        head.at.l2.0,
    ];
    let lengths = [
        n.each.kdf as u32,
        n.each.kdf_parameters as u32,
        n.each.agreement as u32,
        n.each.agreement_parameters as u32,
        head.private_length,
        head.public_length,
        n.each.l1_key as u32,
        n.each.l2_key as u32,
        n.each.domain as u32,
        n.each.forest as u32,
    ];
    put_le32s(&mut dst[0..24], &front);
    head.root.put(&mut dst[24..40]);
    put_le32s(&mut dst[40..80], &lengths);
}
