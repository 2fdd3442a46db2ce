//! Operators of one operand and of three, applied to slots.

ghost use Rattle.std.specs.Prelude.{◌≡◌, ◌<◌, ◌≤◌, [], ◌∷◌, ◌↔◌, length, IfOk, OnOk, IsTrue, false};
ghost use Rattle.vs_design.specs.Values.{apply_unary};
ghost use Rattle.vs_four.specs.Logic.{choose, truth};
ghost use Rattle.vs_kern_select.specs.declared.costs.Kernel.TheVariants as S;
ghost use Rattle.vs_code.specs.declared.kernels.AnyKernel.TheVariants as K;
ghost use Rattle.std.specs.List.{range_with_len};
ghost use Rattle.vs_values.specs.Coded.{with_call};
ghost use Rattle.vs_values.specs.Constants.{AreConstant, constant_bits, constant_slots, extended_slots};
ghost use Rattle.vs_values.specs.Choices.{is_kept, unary_kernel, unary_result};
ghost use Rattle.vs_values.specs.Made.{AllConstant, IsCallable, IsChoice, IsUnary};

use crate::arguments::{single, triple};
use crate::code::Code;
use crate::slots::{are_constant, constant_bits, constant_slots, extended};
use std::alloc::{AllocError, Global};
use vs_base::{Context, UnaryOp, choose};
use vs_code::AnyKernel;
use vs_four::truth;

/// The kernel of an operator of one operand.
fn unary_kernel(op: UnaryOp) -> AnyKernel
    ensures { result ≡ unary_kernel op }
{
    match op {
        UnaryOp::Minus => AnyKernel::Arith(vs_kern_arith::Kernel::Neg),
        UnaryOp::BitNot => AnyKernel::Logic(vs_kern_logic::Kernel::Not),
        UnaryOp::LogicalNot => AnyKernel::Logic(vs_kern_logic::Kernel::LogicalNot),
        UnaryOp::ReduceAnd => AnyKernel::Logic(vs_kern_logic::Kernel::ReduceAnd),
        UnaryOp::ReduceNand => AnyKernel::Logic(vs_kern_logic::Kernel::ReduceNand),
        UnaryOp::ReduceOr => AnyKernel::Logic(vs_kern_logic::Kernel::ReduceOr),
        UnaryOp::ReduceNor => AnyKernel::Logic(vs_kern_logic::Kernel::ReduceNor),
        UnaryOp::ReduceXor => AnyKernel::Logic(vs_kern_logic::Kernel::ReduceXor),
        UnaryOp::ReduceXnor => AnyKernel::Logic(vs_kern_logic::Kernel::ReduceXnor),
        UnaryOp::Plus | UnaryOp::Signed | UnaryOp::Unsigned => {
            AnyKernel::Logic(vs_kern_logic::Kernel::Copy)
        }
    }
}

/// How many bits its value has.
fn unary_width(op: UnaryOp, width: u32) -> u32
    ensures { result ≡ unary_result op width }
{
    match op {
        UnaryOp::Minus | UnaryOp::BitNot => width,
        _ => 1,
    }
}

/// Whether its value is that of its operand.
fn is_kept(op: UnaryOp) -> bool
    ensures { result ≡ is_kept op }
{
    matches!(op, UnaryOp::Plus | UnaryOp::Signed | UnaryOp::Unsigned)
}

/// The value of an operator on the constant in these slots, extended.
fn folded_unary(
    alloc: Global,
    op: UnaryOp,
    a: &[u32],
    context: Context,
) -> Result<Vec<u32>, AllocError>
    requires some { 1 ≤ length a.now }
    requires most { length a.now ≤ 64 }
    ensures { IfOk result (λ to. to.items ≡ extended_slots context.width context.signed (constant_slots (apply_unary op (constant_bits a.now)))) }
{
    let value = op.apply(constant_bits(alloc, a)?);
    extended(constant_slots(alloc, value)?, context.width, context.signed)
}

/// Calls the kernel of an operator, and answers the slots of its value, extended.
fn called_unary(
    alloc: Global,
    op: UnaryOp,
    a: Vec<u32>,
    context: Context,
    code: &mut Code,
) -> Result<Vec<u32>, AllocError>
    requires call { IsCallable code.old (unary_kernel op) (a.items ∷ []) (unary_result op context.width) }
    ensures to { IfOk result (λ to. to.items ≡ extended_slots context.width context.signed (range_with_len code.old.next (unary_result op context.width))) }
    ensures ok { OnOk result (code.new ≡ with_call code.old (unary_kernel op) (a.items ∷ []) (unary_result op context.width)) }
{
    let args = single(alloc, a)?;
    let to = code.call(
        alloc,
        unary_kernel(op),
        args,
        unary_width(op, context.width),
    )?;
    extended(to, context.width, context.signed)
}

/// The slots of the value of an operator of one operand, by those of its operand.
pub fn applied(
    alloc: Global,
    op: UnaryOp,
    a: Vec<u32>,
    context: Context,
    code: &mut Code,
) -> Result<Vec<u32>, AllocError>
    requires some { 1 ≤ length a.items }
    requires most { length a.items ≤ 64 }
    requires call { is_kept op ≡ false → (AreConstant a.items → ⊥) → IsCallable code.old (unary_kernel op) (a.items ∷ []) (unary_result op context.width) }
    ensures { IfOk result (λ to. IsUnary op context.width context.signed a.items code.old code.new to.items) }
{
    if is_kept(op) {
        return extended(a, context.width, context.signed);
    }
    if are_constant(a.as_slice()) {
        return folded_unary(alloc, op, a.as_slice(), context);
    }
    called_unary(alloc, op, a, context, code)
}

/// The slots of `c ? p : q` on constants.
fn folded_choice(alloc: Global, c: &[u32], p: &[u32], q: &[u32]) -> Result<Vec<u32>, AllocError>
    requires some_c { 1 ≤ length c.now }
    requires most_c { length c.now ≤ 64 }
    requires some { 1 ≤ length p.now }
    requires most { length p.now ≤ 64 }
    requires alike { length p.now ≡ length q.now }
    ensures { IfOk result (λ to. to.items ≡ constant_slots (choose (truth (constant_bits c.now)) (constant_bits p.now) (constant_bits q.now))) }
{
    let c = constant_bits(alloc, c)?;
    let p = constant_bits(alloc, p)?;
    let q = constant_bits(alloc, q)?;
    constant_slots(alloc, choose(truth(c), p, q))
}

/// Calls the kernel of `c ? p : q`.
fn called_choice(
    alloc: Global,
    c: Vec<u32>,
    p: Vec<u32>,
    q: Vec<u32>,
    width: u32,
    code: &mut Code,
) -> Result<Vec<u32>, AllocError>
    requires call { IsCallable code.old (K.Select S.Choose) (c.items ∷ p.items ∷ q.items ∷ []) width }
    ensures to { IfOk result (λ to. to.items ≡ range_with_len code.old.next width) }
    ensures ok { OnOk result (code.new ≡ with_call code.old (K.Select S.Choose) (c.items ∷ p.items ∷ q.items ∷ []) width) }
{
    let args = triple(alloc, c, p, q)?;
    code.call(
        alloc,
        AnyKernel::Select(vs_kern_select::Kernel::Choose),
        args,
        width,
    )
}

/// Whether all three are constants' slots.
fn all_constant(c: &[u32], p: &[u32], q: &[u32]) -> bool
    ensures { IsTrue result ↔ AllConstant c.now p.now q.now }
{
    are_constant(c) && are_constant(p) && are_constant(q)
}

/// The slots of `c ? p : q`, by those of its parts.
pub(crate) fn chosen(
    alloc: Global,
    c: Vec<u32>,
    p: Vec<u32>,
    q: Vec<u32>,
    width: u32,
    code: &mut Code,
) -> Result<Vec<u32>, AllocError>
    requires some_c { 1 ≤ length c.items }
    requires most_c { length c.items ≤ 64 }
    requires some { 1 ≤ length p.items }
    requires most { length p.items ≤ 64 }
    requires alike { length p.items ≡ length q.items }
    requires call { (AllConstant c.items p.items q.items → ⊥) → IsCallable code.old (K.Select S.Choose) (c.items ∷ p.items ∷ q.items ∷ []) width }
    ensures { IfOk result (λ to. IsChoice width c.items p.items q.items code.old code.new to.items) }
{
    if all_constant(c.as_slice(), p.as_slice(), q.as_slice()) {
        return folded_choice(alloc, c.as_slice(), p.as_slice(), q.as_slice());
    }
    called_choice(alloc, c, p, q, width, code)
}
