//! What is written of the accounts and the role hierarchy.

ghost use Rattle.std.specs.Prelude.{◌≡◌, IfOk};
ghost use Rattle.session_roles.specs.Role.{roles_that, has};
ghost use Rattle.serde_json.specs.View.{view};
ghost use Rattle.reply_texts.specs.DataOf.{list_data};
ghost use Rattle.reply_texts.specs.ListText.{role_data, account_data, inheritance_data, accounts_data};

use crate::to_json::{ToJson, list_value};
use json_fields::{ArrayWriter, ObjectWriter};
use rbac::{Account, Inheritance};
use serde_json::Value;
use session_roles::{Role, RoleSet};
use std::alloc::{AllocError, Global};

pub(crate) fn accounts_value(
    alloc: Global,
    users: &[Account],
    pairs: &[Inheritance],
) -> Result<Value, AllocError>
    ensures { IfOk result (λ value. view value ≡ accounts_data users.now pairs.now) }
{
    ObjectWriter::new(alloc)
        .member("inherits", list_value(alloc, pairs))
        .member("users", list_value(alloc, users))
        .object()
}

impl ToJson for Inheritance {
    ghost json = { inheritance_data };

    fn to_json(&self, alloc: Global) -> Result<Value, AllocError> {
        list_value(alloc, &[self.senior, self.junior])
    }
}

impl ToJson for Account {
    ghost json = { account_data };

    fn to_json(&self, alloc: Global) -> Result<Value, AllocError> {
        ArrayWriter::new(alloc)
            .item(Value::try_from_str(alloc, self.name.as_str()))
            .item(roles_value(alloc, self.assigned))
            .array()
    }
}

impl ToJson for Role {
    ghost json = { role_data };

    fn to_json(&self, alloc: Global) -> Result<Value, AllocError> {
        Value::try_from_str(alloc, self.name())
    }
}

fn roles_value(alloc: Global, assigned: RoleSet) -> Result<Value, AllocError>
    ensures { IfOk result (λ value. view value ≡ list_data role_data (roles_that (has assigned))) }
{
    let roles = roles_in(alloc, assigned)?;
    list_value(alloc, roles.as_slice())
}

// The roles of a set, in their order.
#[tactic(auto, unfolding(session_roles::specs::Role::roles_that))]
fn roles_in(alloc: Global, assigned: RoleSet) -> Result<Vec<Role>, AllocError>
    ensures { IfOk result (λ roles. roles.items ≡ roles_that (has assigned)) }
{
    let mut roles = Vec::new(alloc);
    for role in Role::ALL {
        if assigned.has(role) {
            roles.push(role)?;
        }
    }
    Ok(roles)
}
