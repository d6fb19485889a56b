//! What no clause says of movements: lists that can't be played, and the movements that words name, as they are printed and as they
//! are walked through.
#![tactic(auto)]

#[cfg(test)]
mod tests;
