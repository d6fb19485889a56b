//! The laws by which the runs of a server, one after another, are one history of the session. There is no code here:
//! the laws are clauses over the definitions alone.
#![tactic(auto)]

pub mod laws;
