// What counted loops leave: definitions (specs/) and laws (proofs/) for every crate. There is no code here.
#![tactic(auto)]
