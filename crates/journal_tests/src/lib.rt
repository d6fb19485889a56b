//! What no clause says of journals: the texts of each command, that memory is found, and each fault by its name over databases that have it.
#![tactic(auto)]

#[cfg(test)]
mod tests;
