// What the readers and writers of records share: the limit of 65,535 bytes, and lengths that are added without wrapping.
#![tactic(auto)]

ghost use Rattle.std.specs.Prelude.{◌≡◌, ◌+◌, min};

// Document 01, refusal 1: a record or a list is at most this long.
pub const LIMIT: usize = 65535;

// The sum of two lengths, or 65,536 where it is over the limit.
pub fn grown(len: usize, more: usize) -> usize
    ensures { result ≡ min (len + more) 65536 }
{
    len.saturating_add(more).min(65536)
}
