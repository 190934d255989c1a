#![tactic(auto)]

// The three demands as three theorems about the definitions that the outer calls' contracts cite. There is no code here.
// Assumes nothing.
