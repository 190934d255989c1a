#![tactic(auto)]

// The rules of document 01 as definitions (specs/), and what follows from them (proofs/). There is no code here: the crates
// above are proved to do what these definitions say. Assumes nothing.
