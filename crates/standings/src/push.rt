ghost use Rattle.std.specs.Prelude.{◌≡◌, ◌+◌, ◌<◌, ◌≤◌, [], ◌∷◌, ◌++◌, OnOk, vec_len, vec_capacity};
ghost use Rattle.std.specs.List.{cons_option};

use std::alloc::AllocError;

/// Adds a copy of an item.
pub(crate) fn push_copy<T: Copy>(items: &mut Vec<T>, item: &T) -> Result<(), AllocError>
    ensures { OnOk result (items.new.items ≡ items.old.items ++ item.now ∷ []) }
{
    items.push(*item)?;
    Ok(())
}

/// Adds a copy of an item for which there is room.
pub(crate) fn put_copy<T: Copy>(items: &mut Vec<T>, item: &T)
    requires { vec_len items.old < vec_capacity items.old }
    ensures items { items.new.items ≡ items.old.items ++ item.now ∷ [] }
    ensures len { vec_len items.new ≡ vec_len items.old + 1 }
    ensures capacity { vec_capacity items.old ≤ vec_capacity items.new }
{
    let Ok(()) = items.push(*item) else {
        unreachable!()
    };
}

/// Adds an item, where there is one, for which there is room.
pub(crate) fn put_found<T: Copy>(items: &mut Vec<T>, found: Option<T>)
    requires { vec_len items.old < vec_capacity items.old }
    ensures items { items.new.items ≡ items.old.items ++ cons_option found [] }
    ensures few { vec_len items.new ≤ vec_len items.old + 1 }
    ensures capacity { vec_capacity items.old ≤ vec_capacity items.new }
{
    if let Some(item) = found {
        put_copy(items, &item);
    }
}
