//! Why a user is denied a fact: the first rule that forbids it, with evidence that the public facts bear out.
#![tactic(auto)]

mod denial;
mod evidence;
pub mod laws;

pub use denial::{Denial, explain};
pub use evidence::{check, deny};
