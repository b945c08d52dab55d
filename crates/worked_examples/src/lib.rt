// The worked examples: one table (specs/), and the proof that every line of it holds (proofs/). There is no code here.
#![tactic(auto)]
