//! Lists, of which each item is written alike.
ghost use Rattle.std.specs.Prelude.{◌≡◌, ℕ, List, IfOk, map};
ghost use Rattle.std.specs.List.{concat};

use std::alloc::{AllocError, Global};

/// How an item is written, beside what is known of all.
pub trait Written<C, T> {
    ghost text: { C → T → List ℕ };

    fn written(alloc: Global, known: &C, item: &T) -> Result<Vec<u8>, AllocError>
        ensures { IfOk result (λ written. written.items ≡ text known.now item.now) };
}

/// The items, one after another.
pub fn written_list<W: Written<C, T>, C, T>(
    alloc: Global,
    known: &C,
    items: &[T],
) -> Result<Vec<u8>, AllocError>
    ensures { IfOk result (λ written. written.items ≡ concat (map (W.text known.now) items.now)) }
{
    let mut written = Vec::new(alloc);
    for item in items {
        let bytes = W::written(alloc, known, item)?;
        written.extend_from_slice(&bytes)?;
    }
    Ok(written)
}
