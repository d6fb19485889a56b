ghost use Rattle.std.specs.Prelude.{◌≡◌, IfOk, ℕ};
ghost use Rattle.serde_json.specs.Data.{Data, Members, no_members, number as a_number, object, put, unsigned};
ghost use Rattle.serde_json.specs.View.{view, members_view};
ghost use Rattle.json_fields.specs.Written.{HasMembers};

use serde_json::{Map, Value, put};
use std::alloc::{AllocError, Global};

/// The members of an object so far, unless memory for one of them was refused.
#[derive(Drop)]
pub struct ObjectWriter {
    alloc: Global,
    written: Result<Map<String, Value>, AllocError>,
}

impl ObjectWriter {
    pub fn new(alloc: Global) -> ObjectWriter
        ensures { HasMembers result no_members }
    {
        ObjectWriter {
            alloc,
            written: Ok(Map::new(alloc)),
        }
    }

    /// Adds a member.
    pub fn member(self, name: &str, value: Result<Value, AllocError>) -> ObjectWriter
        ensures { (members : Members) (written : Data) →
            HasMembers self members →
            IfOk value (λ v. view v ≡ written) →
            HasMembers result (put name.now written members) }
    {
        ObjectWriter {
            alloc: self.alloc,
            written: with_member(self.alloc, self.written, name, value),
        }
    }

    /// Adds a number.
    pub fn number(self, name: &str, number: u8) -> ObjectWriter
        ensures { (members : Members) (written : ℕ) →
            HasMembers self members →
            number ≡ written →
            HasMembers result (put name.now (a_number (unsigned written)) members) }
    {
        self.member(name, Ok(Value::from(number)))
    }

    /// The object.
    pub fn object(self) -> Result<Value, AllocError>
        ensures { (members : Members) →
            HasMembers self members →
            IfOk result (λ value. view value ≡ object members) }
    {
        match self.written {
            Ok(map) => Ok(Value::Object(map)),
            Err(refused) => Err(refused),
        }
    }
}

fn with_member(
    alloc: Global,
    before: Result<Map<String, Value>, AllocError>,
    name: &str,
    value: Result<Value, AllocError>,
) -> Result<Map<String, Value>, AllocError>
    ensures { (members : Members) (written : Data) →
        IfOk before (λ map. members_view map.entries ≡ members) →
        IfOk value (λ v. view v ≡ written) →
        IfOk result (λ map. members_view map.entries ≡ put name.now written members) }
{
    let value = value?;
    let mut map = before?;
    put(&mut map, alloc, name, value)?;
    Ok(map)
}
