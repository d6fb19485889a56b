//! JSON values as messages have them. The members of an object: whether it has no others, and the texts, numbers,
//! names, places, strains and doublings in them; who a user is, which roles one has, and where one sits; a filter. What
//! many messages have: the faults of reading one, the word that says what it asks for, and the members that say whose
//! it is, from which version on an answer is wanted, and of which table and board. And objects and arrays as they are
//! written, member by member and item by item: a refusal of memory is kept until the end, so that what writes a value
//! has no early return for each of its parts.
#![tactic(auto)]

mod array_writer;
mod atom;
mod doubling;
mod field;
mod filter_checking;
mod filter_fault;
mod filter_reading;
mod letter;
mod message;
mod object_writer;
mod request_fault;
mod sole_member;
mod text_value;
mod user;
mod word;

pub use array_writer::{ArrayWriter, array_value};
pub use doubling::doubling_numbered;
pub use field::{
    has_only, limited_at, name_at, small_number, small_number_at, small_number_if_there, text_at,
    whole_at,
};
pub use filter_fault::FilterFault;
pub use filter_reading::read_filter;
pub use message::{read_board, read_declarer, read_since, read_strain, read_table};
pub use object_writer::ObjectWriter;
pub use request_fault::RequestFault;
pub use text_value::string_value;
pub use user::{
    pair_said, read_absent, read_digest, read_new_shown, read_number, read_pair, read_place,
    read_role, read_shown, role_named,
};
pub use word::is_one_of;
