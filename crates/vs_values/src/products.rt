//! Products by constants: sums of copies of the other operand, each moved to the place of a 1 of the constant.

ghost use Rattle.std.specs.Prelude.{◌≡◌, ◌+◌, ◌-◌, ◌*◌, ◌<◌, ◌≤◌, ◌↔◌, ◌∷◌, [], ◌⊎◌, length, All, IfOk, OnOk, IsTrue, true};
ghost use Rattle.std.specs.List.{range_with_len};
ghost use Rattle.vs_four.specs.Logic.{all_known};
ghost use Rattle.vs_four.specs.Shifts.{move_up};
ghost use Rattle.vs_kern_arith.specs.declared.costs.Kernel.TheVariants as A;
ghost use Rattle.vs_code.specs.declared.kernels.AnyKernel.TheVariants as K;
ghost use Rattle.vs_values.specs.Coded.{with_call};
ghost use Rattle.vs_values.specs.Constants.{AreConstant, constant_bits};
ghost use Rattle.vs_values.specs.Made.{IsCallable};
ghost use Rattle.vs_values.specs.Products.{AddsCopies, AddsProduct, HasRoom, IsCheap, ones, product_cost};

use crate::arguments::pair;
use crate::code::Code;
use crate::shifts::{known, raised, repeated};
use crate::slots::are_constant;
use std::alloc::{AllocError, Global};
use vs_code::AnyKernel;
use vs_kern_arith::Kernel;

/// How many bits of a constant are 1.
fn ones(c: &[u32]) -> usize
    ensures { result ≡ ones c.now }
{
    c.iter().filter(|slot| **slot == 1).count()
}

/// Whether these are a constant's slots, and a product by it makes no more stores as a sum than by a call of `*`: of w bits the sum makes w
/// for each 1 and w more, and the call w + w(w + 1)/2.
pub(crate) fn is_cheap(c: &[u32]) -> bool
    ensures { IsTrue result ↔ IsCheap c.now }
{
    are_constant(c) && 2 * ones(c) <= c.len() + 1
}

/// Calls a kernel of two operands, and answers the slots of its value, which is as long.
fn called(
    alloc: Global,
    kernel: Kernel,
    a: Vec<u32>,
    b: Vec<u32>,
    code: &mut Code,
) -> Result<Vec<u32>, AllocError>
    requires call { IsCallable code.old (K.Arith kernel) (a.items ∷ b.items ∷ []) (length a.items) }
    ensures to { IfOk result (λ to. to.items ≡ range_with_len code.old.next (length a.items)) }
    ensures ok { OnOk result (code.new ≡ with_call code.old (K.Arith kernel) (a.items ∷ b.items ∷ []) (length a.items)) }
{
    let width = a.len() as u32;
    let args = pair(alloc, a, b)?;
    code.call(alloc, AnyKernel::Arith(kernel), args, width)
}

/// Calls the sum of twice `half`, which is moved up a place for it, and `a`.
fn doubled_and(
    alloc: Global,
    half: &[u32],
    a: &[u32],
    code: &mut Code,
) -> Result<Vec<u32>, AllocError>
    requires room { HasRoom code.old a.now (length a.now) }
    requires half { All (λ slot. slot < code.old.next) half.now }
    requires alike { length half.now ≡ length a.now }
    ensures to { IfOk result (λ to. to.items ≡ range_with_len code.old.next (length a.now)) }
    ensures ok { OnOk result (code.new ≡ with_call code.old (K.Arith A.Add) (move_up 0 1 half.now ∷ a.now ∷ []) (length a.now)) }
{
    let doubled = raised(alloc, half, 1, 0)?;
    called(alloc, Kernel::Add, doubled, a.to_vec(alloc)?, code)
}

/// Calls `a - a`, which is 0 where `a` has no x and no z, and else x in each bit.
fn zero_if_known(alloc: Global, a: &[u32], code: &mut Code) -> Result<Vec<u32>, AllocError>
    requires room { HasRoom code.old a.now (length a.now) }
    ensures to { IfOk result (λ to. to.items ≡ range_with_len code.old.next (length a.now)) }
    ensures ok { OnOk result (code.new ≡ with_call code.old (K.Arith A.Sub) (a.now ∷ a.now ∷ []) (length a.now)) }
{
    called(alloc, Kernel::Sub, a.to_vec(alloc)?, a.to_vec(alloc)?, code)
}

/// The sum of a copy of `a` for each 1 of the constant: its product, where `a` has no x and no z. Else it may be anything, since a copy that is
/// moved up has lost bits.
fn copies(alloc: Global, a: &[u32], c: &[u32], code: &mut Code) -> Result<Vec<u32>, AllocError>
    requires room { HasRoom code.old a.now ((ones c.now - 1) * length a.now) }
    requires known { all_known (constant_bits c.now) ≡ true }
    ensures { IfOk result (λ to. AddsCopies code.old code.new a.now c.now to.items) }
{
    let Some((bit, higher)) = c.split_first() else {
        return repeated(alloc, 0, a.len());
    };
    let sum = copies(alloc, a, higher, code)?;
    if *bit != 1 {
        return raised(alloc, sum.as_slice(), 1, 0);
    }
    if ones(higher) == 0 {
        return a.to_vec(alloc);
    }
    doubled_and(alloc, sum.as_slice(), a, code)
}

/// The product by an odd constant above 1, of which these are the bits above the lowest one. The last sum is of the whole of `a`, so it has all
/// bits x where one of `a` is x or z.
fn odd_product(
    alloc: Global,
    a: &[u32],
    higher: &[u32],
    code: &mut Code,
) -> Result<Vec<u32>, AllocError>
    requires room { HasRoom code.old a.now (ones higher.now * length a.now) }
    requires constant { AreConstant higher.now }
    requires known { all_known (constant_bits higher.now) ≡ true }
    requires some { 1 ≤ ones higher.now }
    ensures { IfOk result (λ to. AddsProduct code.old code.new a.now (1 ∷ higher.now) ((ones (1 ∷ higher.now) + 1) * length a.now) to.items) }
{
    let sum = copies(alloc, a, higher, code)?;
    doubled_and(alloc, sum.as_slice(), a, code)
}

/// The product by any constant without x and z: `a - a`, added to the copies, makes all bits x where one of `a` is x or z.
fn any_product(alloc: Global, a: &[u32], c: &[u32], code: &mut Code) -> Result<Vec<u32>, AllocError>
    requires room { HasRoom code.old a.now ((ones c.now + 1) * length a.now) }
    requires constant { AreConstant c.now }
    requires known { all_known (constant_bits c.now) ≡ true }
    ensures { IfOk result (λ to. AddsProduct code.old code.new a.now c.now ((ones c.now + 1) * length a.now) to.items) }
{
    let sum = copies(alloc, a, c, code)?;
    let zero = zero_if_known(alloc, a, code)?;
    if ones(c) == 0 {
        return Ok(zero);
    }
    called(alloc, Kernel::Add, sum, zero, code)
}

/// The slots of the product by a constant that is as long.
fn product(alloc: Global, a: &[u32], c: &[u32], code: &mut Code) -> Result<Vec<u32>, AllocError>
    requires room { HasRoom code.old a.now ((ones c.now + 1) * length a.now) }
    requires constant { AreConstant c.now }
    requires alike { length a.now ≡ length c.now }
    ensures { IfOk result (λ to. AddsProduct code.old code.new a.now c.now ((ones c.now + 1) * length a.now) to.items) }
{
    if !known(c) {
        return repeated(alloc, 2, a.len());
    }
    match c.split_first() {
        Some((1, higher)) if ones(higher) > 0 => odd_product(alloc, a, higher, code),
        _ => any_product(alloc, a, c, code),
    }
}

/// The slots of the product of two vectors of one length, of which one is a cheap constant.
pub(crate) fn summed(
    alloc: Global,
    a: &[u32],
    b: &[u32],
    code: &mut Code,
) -> Result<Vec<u32>, AllocError>
    requires cheap { IsCheap a.now ⊎ IsCheap b.now }
    requires alike { length a.now ≡ length b.now }
    requires room_a { HasRoom code.old a.now (product_cost (length a.now)) }
    requires room_b { HasRoom code.old b.now (product_cost (length a.now)) }
    ensures { IfOk result (λ to. AddsProduct code.old code.new a.now b.now (product_cost (length a.now)) to.items) }
{
    if is_cheap(b) {
        product(alloc, a, b, code)
    } else {
        product(alloc, b, a, code)
    }
}
