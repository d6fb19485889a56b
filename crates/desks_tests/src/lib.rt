//! What no clause says of desks and displays: that threads which share a session see what others were told, that what is
//! told by several desks is one journal, what is left to solve at a cell, and how many displays there can be.
#![tactic(auto)]

#[cfg(test)]
mod tests;
