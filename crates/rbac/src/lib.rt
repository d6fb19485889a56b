//! The users of a session and the roles that are assigned to them: the core, the role hierarchy and the static
//! separation of duty of ANSI INCITS 359-2012.
#![tactic(auto)]

mod account;
mod add_inheritance_error;
mod add_user_error;
mod assign_error;
mod change;
mod deassign_error;
mod delete_inheritance_error;
mod hierarchy;
mod inheritance;
pub mod laws;
mod lookup;
mod roles;

pub use account::Account;
pub use add_inheritance_error::AddInheritanceError;
pub use add_user_error::AddUserError;
pub use assign_error::AssignError;
pub use change::Change;
pub use deassign_error::DeassignError;
pub use delete_inheritance_error::DeleteInheritanceError;
pub use inheritance::Inheritance;
pub use lookup::is_user_name;
pub use roles::Roles;
