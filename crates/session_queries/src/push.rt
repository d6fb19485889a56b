ghost use Rattle.std.specs.Prelude.{◌≡◌, ◌≤◌, ◌+◌, [], ◌++◌, OnOk, vec_len};
ghost use Rattle.std.specs.List.{cons_option};

use std::alloc::AllocError;

/// Adds an item, where there is one.
pub fn push_found<T: Copy>(items: &mut Vec<T>, found: Option<T>) -> Result<(), AllocError>
    ensures items { OnOk result (items.new.items ≡ items.old.items ++ cons_option found []) }
    ensures few { OnOk result (vec_len items.new ≤ vec_len items.old + 1) }
{
    if let Some(item) = found {
        items.push(item)?;
    }
    Ok(())
}
