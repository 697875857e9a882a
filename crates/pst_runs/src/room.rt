//! Lists with room for their items.
ghost use Rattle.std.specs.Prelude.{◌≡◌, [], IfOk};

use pst_value::Items;
use std::alloc::{AllocError, Global};

/// Returns an empty list with room for `count` items.
pub fn items_with_capacity<T>(alloc: Global, count: usize) -> Result<Items<T>, AllocError>
    ensures { IfOk result (λ items. items ≡ []) }
{
    Ok(Items::from_vec(Vec::with_capacity(alloc, count)?))
}
