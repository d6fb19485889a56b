//! What no clause says of the Laws, the movement, lines, workers and users: definitions at values from outside, faults
//! that aren't tried again, workers beside one another. And rows of roles, in place of wrong bodies of `rbac`.
#![tactic(auto)]

#[cfg(test)]
mod tests;
