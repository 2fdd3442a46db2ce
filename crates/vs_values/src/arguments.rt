//! The lists of slots that a call takes.

ghost use Rattle.std.specs.Prelude.{◌≡◌, [], ◌∷◌, IfOk};

use std::alloc::{AllocError, Global};
use vs_base::List;

/// The list of one list of slots.
pub fn single(alloc: Global, a: Vec<u32>) -> Result<List<List<u32>>, AllocError>
    ensures { IfOk result (λ args. args ≡ a.items ∷ []) }
{
    let mut args = Vec::with_capacity(alloc, 1)?;
    args.push(List::of(a))?;
    Ok(List::of(args))
}

/// And of two.
pub fn pair(alloc: Global, a: Vec<u32>, b: Vec<u32>) -> Result<List<List<u32>>, AllocError>
    ensures { IfOk result (λ args. args ≡ a.items ∷ b.items ∷ []) }
{
    let mut args = Vec::with_capacity(alloc, 2)?;
    args.push(List::of(a))?;
    args.push(List::of(b))?;
    Ok(List::of(args))
}

/// And of three.
pub fn triple(
    alloc: Global,
    a: Vec<u32>,
    b: Vec<u32>,
    c: Vec<u32>,
) -> Result<List<List<u32>>, AllocError>
    ensures { IfOk result (λ args. args ≡ a.items ∷ b.items ∷ c.items ∷ []) }
{
    let mut args = Vec::with_capacity(alloc, 3)?;
    args.push(List::of(a))?;
    args.push(List::of(b))?;
    args.push(List::of(c))?;
    Ok(List::of(args))
}
