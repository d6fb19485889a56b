//! Double dummy: what North and South take when all four play their best with all cards seen, and the laws by which two
//! cards, or two positions, are worth the same. There is no code here: the laws are clauses over the definitions alone.
#![tactic(auto)]

pub mod laws;
