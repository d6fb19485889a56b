//! What no clause says of the program: which words are taken and what is said of others, which fault comes first, and how clients are
//! served over sockets.
#![tactic(auto)]

#[cfg(test)]
mod tests;
