#![tactic(auto)]

// Facts on bools, lists and numbers that belong to no record: proofs/ has them, and there is no code.
