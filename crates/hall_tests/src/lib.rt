//! What no clause says of a hall: answers as they are sent, who is let in, how clients take turns, and what a log of it says.
#![tactic(auto)]

#[cfg(test)]
mod tests;
