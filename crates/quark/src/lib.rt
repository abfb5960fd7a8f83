// The definition of QUARK: the crate's text is its `specs/`, and its laws are in `proofs/`. It has no code.
#![tactic(auto)]
