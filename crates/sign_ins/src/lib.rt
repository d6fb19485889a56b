//! What somebody signs in by: a name made of the name to show, and a token of random letters.
#![tactic(auto)]

pub mod laws;
mod sign_in_name;
mod sign_in_token;
#[cfg(test)]
mod tests;
mod token;

pub use sign_in_name::{free_name, sign_in_base};
pub use sign_in_token::SignInToken;
