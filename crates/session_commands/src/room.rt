//! Lists with room: what is put needs no memory, since there is room for it.

ghost use Rattle.std.specs.Prelude.{◌≡◌, ◌+◌, ◌<◌, ◌≤◌, [], ◌∷◌, ◌++◌, vec_len, vec_capacity, IfOk, replicate};

use std::alloc::{AllocError, Global};

/// Adds an item for which there is room.
pub fn put_item<T: Drop>(items: &mut Vec<T>, item: T)
    requires { vec_len items.old < vec_capacity items.old }
    ensures items { items.new.items ≡ items.old.items ++ item ∷ [] }
    ensures len { vec_len items.new ≡ vec_len items.old + 1 }
    ensures capacity { vec_capacity items.old ≤ vec_capacity items.new }
{
    let Ok(()) = items.push(item) else {
        unreachable!()
    };
}

/// Adds a copy of an item for which there is room.
pub fn put_copy<T: Copy + Drop>(items: &mut Vec<T>, item: &T)
    requires { vec_len items.old < vec_capacity items.old }
    ensures items { items.new.items ≡ items.old.items ++ item.now ∷ [] }
    ensures len { vec_len items.new ≡ vec_len items.old + 1 }
    ensures capacity { vec_capacity items.old ≤ vec_capacity items.new }
{
    put_item(items, *item);
}

/// So many copies of an item.
pub fn filled<T: Copy>(alloc: Global, item: T, count: usize) -> Result<Vec<T>, AllocError>
    ensures items { IfOk result (λ copies. copies.items ≡ replicate count item) }
    ensures len { IfOk result (λ copies. vec_len copies ≡ count) }
{
    let mut copies = Vec::new(alloc);
    copies.resize(count, item)?;
    Ok(copies)
}

/// A copy of a list, with room for so many items.
pub fn with_room<T: Copy>(alloc: Global, items: &[T], room: usize) -> Result<Vec<T>, AllocError>
    ensures items { IfOk result (λ copy. copy.items ≡ items.now) }
    ensures room { IfOk result (λ copy. room ≤ vec_capacity copy) }
{
    let mut copy = Vec::with_capacity(alloc, room)?;
    copy.extend_from_slice(items)?;
    Ok(copy)
}
