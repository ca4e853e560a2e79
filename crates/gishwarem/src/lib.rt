// The C face: one exported function for each operation, which takes numbers and slices, calls the library and answers by value, in
// the layout that `face` or a crate beside it has for it. The refusal's number comes first; on a refusal every other field is zero,
// but for a list entry's index.
#![tactic(auto)]

pub mod choices;
pub mod decisions;
pub mod efskeys;
pub mod entries;
pub mod envelopes;
pub mod segments;
pub mod times;
pub mod traces;
pub mod version;
