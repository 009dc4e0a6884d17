// The three demands of the brief, about the public calls of `calls`: what each says (specs/) and that it holds (proofs/). There is no code here.
#![tactic(auto)]
