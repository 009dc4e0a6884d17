// The made formula and its theory (document 01, "Made formula" and "Assignments, filling in and descent"; source documents 003, sections 2
// and 3, and 000, section 2). Most of the crate is definitions and theorems, without code: what a row does to an assignment, what the made
// formula is, which models are kept, where descent ends. The code says what rows add: how much, the clauses one after another, and one of
// them by its number.
#![tactic(auto)]

pub mod counting;
pub mod numbered;
pub mod places;
pub mod table;
