// Tests over lists and lists as tables: definitions (specs/) and laws (proofs/) that every crate above cites. There is no code here.
#![tactic(auto)]
