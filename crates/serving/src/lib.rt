// Document 01, "Reach, and the two envelopes": the reach of an envelope, and which of two envelopes serves an identifier.
#![tactic(auto)]

ghost use Rattle.std.specs.Prelude.{◌≡◌, ◌+◌};
ghost use Rattle.envelope.specs.Reading.{envelope_of};
ghost use Rattle.serving.specs.Reach.{envelope_reach};
ghost use Rattle.serving.specs.Choice.{key_for, served_by, choice_of, chosen_part, chosen_block, chosen_start};

use envelope::{Envelope, seed_keys_of};
use gkid::Gkid;
use reach::Reach;
use refusal::Refusal;
use rootid::RootId;
use wire::Span;

// A seed envelope's two keys.
#[derive(Clone, Copy, Debug, PartialEq, Eq)]
pub enum SeedKey {
    L1,
    L2,
}

// The key by which an envelope serves an identifier, and where it stands in it.
#[derive(Clone, Copy, Debug, PartialEq, Eq)]
pub struct Serving {
    pub key: SeedKey,
    pub place: Span,
}

// Which of two envelopes serves, and by which key.
#[derive(Clone, Copy, Debug, PartialEq, Eq)]
pub enum Choice {
    Cached(Serving),
    Fetched(Serving),
}

// The reach of an envelope: what its keys reach, or its refusal.
#[tactic(auto, unfolding(crate::specs::Reach::reach_of))]
pub fn envelope_reach(s: &[u8]) -> Result<Reach, Refusal>
    ensures { result ≡ envelope_reach s.now }
{
    let envelope = envelope::read(s)?;
    Reach::of(seed_keys_of(envelope), envelope.head.at)
}

// The key of an accepted envelope that reaches the identifier.
#[tactic(auto, unfolding(crate::specs::Choice::key_for))]
fn key_for(envelope: Envelope, wanted: Gkid) -> Option<Serving>
    ensures { result ≡ key_for envelope wanted }
{
    let keys = seed_keys_of(envelope);
    let at = envelope.head.at;
    let bodies = envelope.bodies;
    if keys.l2 & reach::l2_reaches(at, wanted) {
        return Some(Serving {
            key: SeedKey::L2,
            place: bodies.l2_key,
        });
    }
    if keys.l1 & reach::l1_reaches(at, wanted) {
        return Some(Serving {
            key: SeedKey::L1,
            place: bodies.l1_key,
        });
    }
    None
}

// An envelope serves if it is accepted, has that root and L0, and reaches the identifier.
#[tactic(auto, unfolding(crate::specs::Choice::served_by))]
fn served_by(s: &[u8], root: RootId, wanted: Gkid) -> Option<Serving>
    ensures { result ≡ served_by (envelope_of s.now) root wanted }
{
    let Ok(envelope) = envelope::read(s) else {
        return None;
    };
    if !envelope.head.root.is(root) {
        return None;
    }
    key_for(envelope, wanted)
}

// From the cached one if that serves, else the fetched one, else 23. Root and identifier stay apart: as one value they would be put together by each
// caller, and taken apart in `served_by`.
#[tactic(auto, unfolding(crate::specs::Choice::prefer))]
pub fn choose(root: RootId, wanted: Gkid, cached: &[u8], fetched: &[u8]) -> Result<Choice, Refusal>
    ensures { result ≡ choice_of root wanted cached.now fetched.now }
{
    if let Some(serving) = served_by(cached, root, wanted) {
        return Ok(Choice::Cached(serving));
    }
    if let Some(serving) = served_by(fetched, root, wanted) {
        return Ok(Choice::Fetched(serving));
    }
    Err(Refusal::NeitherServes)
}

// The key that reaches the identifier, the very part of the lent bytes, or the empty part where neither serves.
#[tactic(auto, unfolding(crate::specs::Choice::chosen_part, crate::specs::Choice::chosen_block, crate::specs::Choice::chosen_start))]
pub fn serving_key<'a>(root: RootId, wanted: Gkid, cached: &'a [u8], fetched: &'a [u8]) -> &'a [u8]
    ensures bytes { result.now ≡ chosen_part (choice_of root wanted cached.now fetched.now) cached.now fetched.now }
    ensures place { (result.ref_ptr.0 ≡ chosen_block (choice_of root wanted cached.now fetched.now) cached.entry.ref_ptr.0 fetched.entry.ref_ptr.0) × (result.ref_ptr.1 ≡ chosen_block (choice_of root wanted cached.now fetched.now) cached.entry.ref_ptr.1 fetched.entry.ref_ptr.1 + chosen_start (choice_of root wanted cached.now fetched.now) cached.now fetched.now) }
{
    let Ok(choice) = choose(root, wanted, cached, fetched) else {
        return &cached[0..0];
    };
    match choice {
        Choice::Cached(serving) => wire::part(cached, serving.place),
        Choice::Fetched(serving) => wire::part(fetched, serving.place),
    }
}
