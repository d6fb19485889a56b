//! What no clause says of how a session comes to be: which objects are read, what is said of the others, and what is made of a list of
//! people.
#![tactic(auto)]

#[cfg(test)]
mod tests;
