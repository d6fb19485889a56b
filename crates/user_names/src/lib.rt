//! The names of users, the names by which they are shown and the numbers that they have as members, and the digests of
//! the tokens by which they sign in.
#![tactic(auto)]

mod digest;
mod member_number;
mod name;
mod shown_name;
mod shown_text;
#[cfg(test)]
mod tests;

pub use digest::Digest;
pub use member_number::{MemberNumber, NotNumber};
pub use name::{Name, NameTooLong};
pub use shown_name::{NotShown, ShownName};
pub use shown_text::is_shown_text;
