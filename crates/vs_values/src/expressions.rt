//! The lowering of expressions.

ghost use Rattle.std.specs.Prelude.{◌≡◌, ◌⊎◌, ◌+◌, ◌<◌, ◌≤◌, ◌^◌, map, max, [], ◌∷◌, ◌&&◌, All, length, IfOk, OnOk, true};
ghost use Rattle.std.specs.List.{range_with_len};
ghost use Rattle.vs_design.specs.Expressions as E;
ghost use Rattle.vs_design.specs.Sizes.{is_shift};
ghost use Rattle.vs_design.specs.Values.{apply_binary, left_sign, left_width, right_sign, right_width};
ghost use Rattle.vs_code.specs.Calls.{IsCall, call_cost, length_of};
ghost use Rattle.vs_flat.specs.DesignOf.{arena_signals, arena_trees};
ghost use Rattle.vs_flat.specs.Targets.{source_of};
ghost use Rattle.vs_flat.specs.Trees.{copy_count, first_copy, joined, signal_at, tree_at};
ghost use Rattle.vs_values.specs.Added.{fresh_call};
ghost use Rattle.vs_values.specs.Coded.{with_call};
ghost use Rattle.vs_values.specs.Constants.{AreConstant, constant_bits, constant_slots, extended_slots, shifted_slots};
ghost use Rattle.vs_values.specs.Ready.{IsReady};
ghost use Rattle.vs_values.specs.Choices.{binary_kernel, result_of_way};
ghost use Rattle.vs_values.specs.Products.{IsCheap};
ghost use Rattle.vs_values.specs.Calling.{AddsArgument, AddsArguments, AreReady, IsFormedCall};
ghost use Rattle.vs_values.specs.Templates.{function_at, node_bound};
ghost use Rattle.vs_values.specs.Valued.{AddsValue};
ghost use Rattle.vs_values.specs.declared.expressions.Route.TheVariants as Routes;

use crate::applying::{applied, chosen};
use crate::arguments::pair;
use crate::code::Code;
use crate::environment::Environment;
use crate::joins::{appended, copied};
use crate::locals::{input_width, local};
use crate::names::{literal, name};
use crate::products::{is_cheap, summed};
use crate::shifts::moved;
use crate::slots::{are_constant, constant_bits, constant_slots, extended};
use crate::sources::{chosen_bits, source};
use crate::templates::Templates;
use crate::typed::own_of;
use crate::words::{chosen_word, word_width};
use std::alloc::{AllocError, Global};
use vs_base::{BinaryOp, Context, UnaryOp, Way};
use vs_code::AnyKernel;
use vs_design::value_law;
use vs_flat::{Node, trees_law};
use vs_four::Range;
use vs_shape::first_copy;

/// The kernel of an operator of two operands; division has none.
pub(crate) fn binary_kernel(op: BinaryOp, signed: bool) -> AnyKernel
    ensures { result ≡ binary_kernel op signed }
{
    match op {
        BinaryOp::Add => AnyKernel::Arith(vs_kern_arith::Kernel::Add),
        BinaryOp::Subtract => AnyKernel::Arith(vs_kern_arith::Kernel::Sub),
        BinaryOp::Multiply => AnyKernel::Arith(vs_kern_arith::Kernel::Mul),
        BinaryOp::BitOr => AnyKernel::Logic(vs_kern_logic::Kernel::Or),
        BinaryOp::BitXor => AnyKernel::Logic(vs_kern_logic::Kernel::Xor),
        BinaryOp::BitXnor => AnyKernel::Logic(vs_kern_logic::Kernel::Xnor),
        BinaryOp::Less => AnyKernel::Arith(vs_kern_arith::Kernel::Less(signed)),
        BinaryOp::LessEqual => AnyKernel::Arith(vs_kern_arith::Kernel::LessEqual(signed)),
        BinaryOp::Greater => AnyKernel::Arith(vs_kern_arith::Kernel::Greater(signed)),
        BinaryOp::GreaterEqual => AnyKernel::Arith(vs_kern_arith::Kernel::GreaterEqual(signed)),
        BinaryOp::Equal => AnyKernel::Logic(vs_kern_logic::Kernel::Equal),
        BinaryOp::NotEqual => AnyKernel::Logic(vs_kern_logic::Kernel::NotEqual),
        BinaryOp::CaseEqual => AnyKernel::Logic(vs_kern_logic::Kernel::CaseEqual),
        BinaryOp::CaseNotEqual => AnyKernel::Logic(vs_kern_logic::Kernel::CaseNotEqual),
        BinaryOp::LogicalAnd => AnyKernel::Logic(vs_kern_logic::Kernel::LogicalAnd),
        BinaryOp::LogicalOr => AnyKernel::Logic(vs_kern_logic::Kernel::LogicalOr),
        BinaryOp::ShiftLeft | BinaryOp::ShiftLeftArith => {
            AnyKernel::Select(vs_kern_select::Kernel::ShiftLeft)
        }
        BinaryOp::ShiftRight => AnyKernel::Select(vs_kern_select::Kernel::ShiftRight),
        BinaryOp::ShiftRightArith => {
            if signed {
                AnyKernel::Select(vs_kern_select::Kernel::ShiftArith)
            } else {
                AnyKernel::Select(vs_kern_select::Kernel::ShiftRight)
            }
        }
        BinaryOp::BitAnd | BinaryOp::Divide | BinaryOp::Remainder | BinaryOp::Power => {
            AnyKernel::Logic(vs_kern_logic::Kernel::And)
        }
    }
}

/// How many bits the value of an operator has in a context of this length.
fn result_width(op: BinaryOp, width: u32) -> u32
    ensures { result ≡ result_of_way (E.way op) width }
{
    match op.way() {
        Way::InContext | Way::Shifted | Way::Raised => width,
        Way::Own | Way::Compared => 1,
    }
}

/// The context of the first operand, by that of the operator and the operands' own.
fn left(op: BinaryOp, context: Context, a: Context, b: Context) -> Context
    ensures width { result.width ≡ left_width (E.way op) context.width a.width b.width }
    ensures signed { result.signed ≡ left_sign (E.way op) context.signed a.signed b.signed }
{
    op.way().left(context, a, b)
}

/// And of the second one.
fn right(op: BinaryOp, context: Context, a: Context, b: Context) -> Context
    ensures width { result.width ≡ right_width (E.way op) context.width a.width b.width }
    ensures signed { result.signed ≡ right_sign (E.way op) context.signed a.signed b.signed }
{
    op.way().right(context, a, b)
}

/// The slots of an operator's value on constants.
fn folded(
    alloc: Global,
    op: BinaryOp,
    signed: bool,
    other_signed: bool,
    a: &[u32],
    b: &[u32],
    context: Context,
) -> Result<Vec<u32>, AllocError>
    requires some { 1 ≤ length a.now }
    requires most { length a.now ≤ 64 }
    requires some_b { 1 ≤ length b.now }
    requires most_b { length b.now ≤ 64 }
    requires alike { E.way op ≡ E.InContext → length a.now ≡ length b.now }
    requires compared { E.way op ≡ E.Compared → length a.now ≡ length b.now }
    ensures { IfOk result (λ to. to.items ≡ extended_slots context.width context.signed (constant_slots (apply_binary op signed other_signed (constant_bits a.now) (constant_bits b.now)))) }
{
    let a = constant_bits(alloc, a)?;
    let b = constant_bits(alloc, b)?;
    let value = op.apply(signed, other_signed, a, b);
    extended(constant_slots(alloc, value)?, context.width, context.signed)
}

/// Calls the kernel of an operator, and answers the slots of its value, extended.
fn called(
    alloc: Global,
    op: BinaryOp,
    signed: bool,
    a: Vec<u32>,
    b: Vec<u32>,
    context: Context,
    code: &mut Code,
) -> Result<Vec<u32>, AllocError>
    requires most { context.width ≤ 64 }
    requires is { IsCall (fresh_call (binary_kernel op signed) (a.items ∷ b.items ∷ []) code.old.next (result_of_way (E.way op) context.width)) }
    requires slots { code.old.next + result_of_way (E.way op) context.width < 2 ^ 32 }
    requires few { length_of code.old.calls + call_cost (fresh_call (binary_kernel op signed) (a.items ∷ b.items ∷ []) code.old.next (result_of_way (E.way op) context.width)) ≤ 2 ^ 32 }
    ensures to { IfOk result (λ to. to.items ≡ extended_slots context.width context.signed (range_with_len code.old.next (result_of_way (E.way op) context.width))) }
    ensures ok { OnOk result (code.new ≡ with_call code.old (binary_kernel op signed) (a.items ∷ b.items ∷ []) (result_of_way (E.way op) context.width)) }
{
    let args = pair(alloc, a, b)?;
    let to = code.call(
        alloc,
        binary_kernel(op, signed),
        args,
        result_width(op, context.width),
    )?;
    extended(to, context.width, context.signed)
}

/// Whether it is a shift.
fn is_shift(op: BinaryOp) -> bool
    ensures { result ≡ is_shift (E.way op) }
{
    matches!(op.way(), Way::Shifted)
}

/// Whether it is `*`.
fn is_product(op: BinaryOp) -> bool
    ensures { result ≡ true → op ≡ E.Multiply }
{
    matches!(op, BinaryOp::Multiply)
}

/// Adds the calls of an operator of two operands, and answers the slots of its value.
#[cycle(expressions)]
fn binary(
    alloc: Global,
    templates: &Templates,
    env: &Environment,
    op: BinaryOp,
    a: u32,
    b: u32,
    context: Context,
    code: &mut Code,
) -> Result<Vec<u32>, AllocError>
    requires a { a < node_bound templates.now }
    requires b { b < node_bound templates.now }
    requires ready { IsReady env.now code.old (E.Binary op (tree_at (arena_trees templates.now.arena) a) (tree_at (arena_trees templates.now.arena) b)) context.width }
    ensures { IfOk result (λ to. AddsValue env.now code.old.calls code.old.next code.new.calls code.new.next (E.Binary op (tree_at (arena_trees templates.now.arena) a) (tree_at (arena_trees templates.now.arena) b)) context.width context.signed to.items) }
{
    let own_a = own_of(templates, a);
    let own_b = own_of(templates, b);
    let l = left(op, context, own_a, own_b);
    let r = right(op, context, own_a, own_b);
    let p = lower(alloc, templates, env, a, l, code)?;
    let q = lower(alloc, templates, env, b, r, code)?;
    value_law();
    match route_of(op, p.as_slice(), q.as_slice()) {
        Route::Folded => folded(
            alloc,
            op,
            l.signed,
            r.signed,
            p.as_slice(),
            q.as_slice(),
            context,
        ),
        Route::Moved => shifted(alloc, op, l.signed, p.as_slice(), q.as_slice(), context),
        Route::Summed => summed(alloc, p.as_slice(), q.as_slice(), code),
        Route::Called => called(alloc, op, l.signed, p, q, context, code),
    }
}

/// How the value of an operator comes about.
#[derive(Clone, Copy)]
enum Route {
    /// Both operands are constants.
    Folded,
    /// It is a shift by a constant amount.
    Moved,
    /// It is a product by a constant with few ones.
    Summed,
    /// By a call of its kernel.
    Called,
}

/// How the value of this operator does, by the slots of its operands.
fn route_of(op: BinaryOp, a: &[u32], b: &[u32]) -> Route
    ensures folded { result ≡ Routes.Folded → AreConstant a.now × AreConstant b.now }
    ensures moved { result ≡ Routes.Moved → (is_shift (E.way op) ≡ true) × AreConstant b.now }
    ensures summed { result ≡ Routes.Summed → (op ≡ E.Multiply) × (AreConstant a.now → AreConstant b.now → ⊥) × (IsCheap a.now ⊎ IsCheap b.now) }
    ensures called { result ≡ Routes.Called → (AreConstant a.now → AreConstant b.now → ⊥) × (is_shift (E.way op) ≡ true → AreConstant b.now → ⊥) }
{
    if are_constant(a) && are_constant(b) {
        return Route::Folded;
    }
    if is_shift(op) && are_constant(b) {
        return Route::Moved;
    }
    if is_product(op) && (is_cheap(a) || is_cheap(b)) {
        return Route::Summed;
    }
    Route::Called
}

/// The slots of a shift by a constant amount, extended.
fn shifted(
    alloc: Global,
    op: BinaryOp,
    signed: bool,
    a: &[u32],
    amount: &[u32],
    context: Context,
) -> Result<Vec<u32>, AllocError>
    requires shift { is_shift (E.way op) ≡ true }
    requires most { length a.now ≤ 64 }
    ensures { IfOk result (λ to. to.items ≡ extended_slots context.width context.signed (shifted_slots op signed a.now (constant_bits amount.now))) }
{
    extended(
        moved(alloc, op, signed, a, amount)?,
        context.width,
        context.signed,
    )
}

/// Adds the calls of an operator of one operand, and answers the slots of its value.
#[cycle(expressions)]
fn unary(
    alloc: Global,
    templates: &Templates,
    env: &Environment,
    op: UnaryOp,
    a: u32,
    context: Context,
    code: &mut Code,
) -> Result<Vec<u32>, AllocError>
    requires a { a < node_bound templates.now }
    requires ready { IsReady env.now code.old (E.Unary op (tree_at (arena_trees templates.now.arena) a)) context.width }
    ensures { IfOk result (λ to. AddsValue env.now code.old.calls code.old.next code.new.calls code.new.next (E.Unary op (tree_at (arena_trees templates.now.arena) a)) context.width context.signed to.items) }
{
    let own = own_of(templates, a);
    let l = op.operand(context, own);
    let p = lower(alloc, templates, env, a, l, code)?;
    value_law();
    applied(alloc, op, p, context, code)
}

/// Adds the calls of `c ? p : q`, and answers the slots of its value.
#[cycle(expressions)]
fn choice(
    alloc: Global,
    templates: &Templates,
    env: &Environment,
    c: u32,
    p: u32,
    q: u32,
    context: Context,
    code: &mut Code,
) -> Result<Vec<u32>, AllocError>
    requires c { c < node_bound templates.now }
    requires p { p < node_bound templates.now }
    requires q { q < node_bound templates.now }
    requires ready { IsReady env.now code.old (E.Choice (tree_at (arena_trees templates.now.arena) c) (tree_at (arena_trees templates.now.arena) p) (tree_at (arena_trees templates.now.arena) q)) context.width }
    ensures { IfOk result (λ to. AddsValue env.now code.old.calls code.old.next code.new.calls code.new.next (E.Choice (tree_at (arena_trees templates.now.arena) c) (tree_at (arena_trees templates.now.arena) p) (tree_at (arena_trees templates.now.arena) q)) context.width context.signed to.items) }
{
    let own = own_of(templates, c);
    let t = lower(alloc, templates, env, c, own, code)?;
    let x = lower(alloc, templates, env, p, context, code)?;
    let y = lower(alloc, templates, env, q, context, code)?;
    value_law();
    chosen(alloc, t, x, y, context.width, code)
}

/// Adds the calls of a select, and answers the slots of its value.
#[cycle(expressions)]
fn select(
    alloc: Global,
    templates: &Templates,
    env: &Environment,
    of: u32,
    index: u32,
    range: Range,
    up: bool,
    width: u32,
    context: Context,
    code: &mut Code,
) -> Result<Vec<u32>, AllocError>
    requires of { of < node_bound templates.now }
    requires index { index < node_bound templates.now }
    requires ready { IsReady env.now code.old (E.Select (source_of (tree_at (arena_trees templates.now.arena) of)) (record { range = range; up = up; width = width }) (tree_at (arena_trees templates.now.arena) index)) context.width }
    ensures { IfOk result (λ to. AddsValue env.now code.old.calls code.old.next code.new.calls code.new.next (E.Select (source_of (tree_at (arena_trees templates.now.arena) of)) (record { range = range; up = up; width = width }) (tree_at (arena_trees templates.now.arena) index)) context.width context.signed to.items) }
{
    let own = own_of(templates, index);
    let i = lower(alloc, templates, env, index, own, code)?;
    let from = source(alloc, templates, env, of)?;
    value_law();
    chosen_bits(alloc, from, i, own.signed, range, up, width, context, code)
}

/// Adds the calls of a word of a memory, and answers the slots of its value.
#[cycle(expressions)]
fn word(
    alloc: Global,
    templates: &Templates,
    env: &Environment,
    signal: u32,
    index: u32,
    context: Context,
    code: &mut Code,
) -> Result<Vec<u32>, AllocError>
    requires signal { signal < length templates.now.arena.signals }
    requires index { index < node_bound templates.now }
    requires ready { IsReady env.now code.old (E.Word (signal_at (arena_signals templates.now.arena) signal) (tree_at (arena_trees templates.now.arena) index)) context.width }
    ensures { IfOk result (λ to. AddsValue env.now code.old.calls code.old.next code.new.calls code.new.next (E.Word (signal_at (arena_signals templates.now.arena) signal) (tree_at (arena_trees templates.now.arena) index)) context.width context.signed to.items) }
{
    templates.flat();
    let own = own_of(templates, index);
    let i = lower(alloc, templates, env, index, own, code)?;
    value_law();
    chosen_word(alloc, templates, env, signal, i, own.signed, context, code)
}

/// Adds the calls of a part of a word of a memory, and answers the slots of its value: those of the word, and then of a select of it.
#[cycle(expressions)]
fn word_part(
    alloc: Global,
    templates: &Templates,
    env: &Environment,
    signal: u32,
    address: u32,
    index: u32,
    range: Range,
    up: bool,
    width: u32,
    context: Context,
    code: &mut Code,
) -> Result<Vec<u32>, AllocError>
    requires signal { signal < length templates.now.arena.signals }
    requires address { address < node_bound templates.now }
    requires index { index < node_bound templates.now }
    requires ready { IsReady env.now code.old (E.WordPart (signal_at (arena_signals templates.now.arena) signal) (tree_at (arena_trees templates.now.arena) address) (record { range = range; up = up; width = width }) (tree_at (arena_trees templates.now.arena) index)) context.width }
    ensures { IfOk result (λ to. AddsValue env.now code.old.calls code.old.next code.new.calls code.new.next (E.WordPart (signal_at (arena_signals templates.now.arena) signal) (tree_at (arena_trees templates.now.arena) address) (record { range = range; up = up; width = width }) (tree_at (arena_trees templates.now.arena) index)) context.width context.signed to.items) }
{
    trees_law();
    templates.flat();
    let whole = Context {
        width: word_width(templates, signal),
        signed: false,
    };
    let own = own_of(templates, address);
    let a = lower(alloc, templates, env, address, own, code)?;
    value_law();
    let from = chosen_word(alloc, templates, env, signal, a, own.signed, whole, code)?;
    let by = own_of(templates, index);
    let i = lower(alloc, templates, env, index, by, code)?;
    chosen_bits(alloc, from, i, by.signed, range, up, width, context, code)
}

/// Adds the calls of a concatenation of one copy, and answers the slots of its value. Its parts come before node e.
#[cycle(expressions)]
fn concatenated(
    alloc: Global,
    templates: &Templates,
    env: &Environment,
    e: u32,
    parts: &[u32],
    code: &mut Code,
) -> Result<Vec<u32>, AllocError>
    requires some { 1 ≤ length parts.now }
    requires parts { All (λ p. p < e) parts.now }
    requires e { e < node_bound templates.now }
    requires ready { IsReady env.now code.old (joined (map (tree_at (arena_trees templates.now.arena)) parts.now)) (E.width (joined (map (tree_at (arena_trees templates.now.arena)) parts.now))) }
    ensures { IfOk result (λ to. AddsValue env.now code.old.calls code.old.next code.new.calls code.new.next (joined (map (tree_at (arena_trees templates.now.arena)) parts.now)) (E.width (joined (map (tree_at (arena_trees templates.now.arena)) parts.now))) (E.sign (joined (map (tree_at (arena_trees templates.now.arena)) parts.now))) to.items) }
{
    let first = parts[0];
    let own = own_of(templates, first);
    if parts.len() == 1 {
        return lower(alloc, templates, env, first, own, code);
    }
    let low = concatenated(alloc, templates, env, e, &parts[1..], code)?;
    let high = lower(alloc, templates, env, first, own, code)?;
    appended(low, high)
}

/// Adds the calls of a replication, and answers the slots of its value. Its parts come before node e.
#[cycle(expressions)]
fn replication(
    alloc: Global,
    templates: &Templates,
    env: &Environment,
    e: u32,
    parts: &[u32],
    context: Context,
    code: &mut Code,
) -> Result<Vec<u32>, AllocError>
    requires parts { All (λ p. p < e) parts.now }
    requires e { e < node_bound templates.now }
    requires ready { IsReady env.now code.old (E.Repeat (copy_count parts.now) (joined (map (tree_at (arena_trees templates.now.arena)) (first_copy parts.now)))) context.width }
    ensures { IfOk result (λ to. AddsValue env.now code.old.calls code.old.next code.new.calls code.new.next (E.Repeat (copy_count parts.now) (joined (map (tree_at (arena_trees templates.now.arena)) (first_copy parts.now)))) context.width context.signed to.items) }
{
    let first = first_copy(parts);
    let one = concatenated(alloc, templates, env, e, first, code)?;
    copied(alloc, parts, one, context)
}

/// Adds the calls of an argument, and answers the slots of its value for an input of this length, to which it is assigned (IEEE 1364-2005, 10.4.3).
#[cycle(expressions)]
fn argument(
    alloc: Global,
    templates: &Templates,
    env: &Environment,
    e: u32,
    width: u32,
    code: &mut Code,
) -> Result<Vec<u32>, AllocError>
    requires node { e < node_bound templates.now }
    requires ready { IsReady env.now code.old (tree_at (arena_trees templates.now.arena) e) (max (E.width (tree_at (arena_trees templates.now.arena) e)) width) }
    ensures { IfOk result (λ to. AddsArgument env.now code.old code.new (tree_at (arena_trees templates.now.arena) e) width to.items) }
{
    let own = own_of(templates, e);
    let context = Context {
        width: own.width.max(width),
        signed: own.signed,
    };
    let mut to = lower(alloc, templates, env, e, context, code)?;
    to.truncate(width as usize);
    Ok(to)
}

/// Adds the calls of a call's arguments, and answers the slots of the bits of all inputs. The arguments come before node e.
#[cycle(expressions)]
fn inputs(
    alloc: Global,
    templates: &Templates,
    env: &Environment,
    e: u32,
    function: u32,
    arguments: &[u32],
    code: &mut Code,
) -> Result<Vec<u32>, AllocError>
    requires function { function < templates.now.functions }
    requires e { e < node_bound templates.now }
    requires arguments { All (λ n. n < e) arguments.now }
    requires formed { IsFormedCall (function_at templates.now.arena function).header (length arguments.now) }
    requires ready { AreReady env.now code.old (E.items_of (map (tree_at (arena_trees templates.now.arena)) arguments.now)) (function_at templates.now.arena function).header.inputs }
    ensures { IfOk result (λ to. AddsArguments env.now code.old code.new (E.items_of (map (tree_at (arena_trees templates.now.arena)) arguments.now)) (function_at templates.now.arena function).header.inputs to.items) }
{
    let mut to = Vec::new(alloc);
    for n in 0..arguments.len() {
        let width = input_width(templates, function, n);
        let one = argument(alloc, templates, env, arguments[n], width, code)?;
        to = appended(to, one)?;
    }
    Ok(to)
}

/// Adds the calls of a function's call, and answers the slots of its value. Its arguments come before node e.
#[cycle(expressions)]
fn call(
    alloc: Global,
    templates: &Templates,
    env: &Environment,
    e: u32,
    function: u32,
    arguments: &[u32],
    context: Context,
    code: &mut Code,
) -> Result<Vec<u32>, AllocError>
    requires function { function < templates.now.functions }
    requires e { e < node_bound templates.now }
    requires arguments { All (λ n. n < e) arguments.now }
    requires formed { IsFormedCall (function_at templates.now.arena function).header (length arguments.now) }
    requires ready { IsReady env.now code.old (E.Call (function_at templates.now.arena function).header (function_at templates.now.arena function).statement (E.items_of (map (tree_at (arena_trees templates.now.arena)) arguments.now))) context.width }
    ensures { IfOk result (λ to. AddsValue env.now code.old.calls code.old.next code.new.calls code.new.next (E.Call (function_at templates.now.arena function).header (function_at templates.now.arena function).statement (E.items_of (map (tree_at (arena_trees templates.now.arena)) arguments.now))) context.width context.signed to.items) }
{
    let slots = inputs(alloc, templates, env, e, function, arguments, code)?;
    value_law();
    let to = templates.inlined(alloc, function, slots.as_slice(), code)?;
    extended(to, context.width, context.signed)
}

/// Adds the calls of expression e in a context, and answers the slots of its value.
#[cycle(expressions)]
pub fn lower(
    alloc: Global,
    templates: &Templates,
    env: &Environment,
    e: u32,
    context: Context,
    code: &mut Code,
) -> Result<Vec<u32>, AllocError>
    requires node { e < node_bound templates.now }
    requires ready { IsReady env.now code.old (tree_at (arena_trees templates.now.arena) e) context.width }
    ensures { IfOk result (λ to. AddsValue env.now code.old.calls code.old.next code.new.calls code.new.next (tree_at (arena_trees templates.now.arena) e) context.width context.signed to.items) }
{
    value_law();
    match templates.expr(e) {
        Node::Literal { bits, sized, .. } => literal(alloc, *bits, *sized, context),
        Node::Name { signal } => name(alloc, templates, env, *signal, context),
        Node::Local { function, signal } => {
            local(alloc, templates, env, *function, *signal, context)
        }
        Node::Word { signal, index } => word(alloc, templates, env, *signal, *index, context, code),
        Node::WordPart {
            signal,
            address,
            range,
            base,
            up,
            width,
        } => word_part(
            alloc, templates, env, *signal, *address, *base, *range, *up, *width, context, code,
        ),
        Node::Binary { op, a, b } => binary(alloc, templates, env, *op, *a, *b, context, code),
        Node::Unary { op, a } => unary(alloc, templates, env, *op, *a, context, code),
        Node::Choice { c, p, q } => choice(alloc, templates, env, *c, *p, *q, context, code),
        Node::Join { parts } => {
            replication(alloc, templates, env, e, parts.as_slice(), context, code)
        }
        Node::Bit { of, range, index } => select(
            alloc, templates, env, *of, *index, *range, true, 1, context, code,
        ),
        Node::Call {
            function,
            arguments,
        } => call(
            alloc,
            templates,
            env,
            e,
            *function,
            arguments.as_slice(),
            context,
            code,
        ),
        Node::Part {
            of,
            range,
            base,
            up,
            width,
        } => select(
            alloc, templates, env, *of, *base, *range, *up, *width, context, code,
        ),
    }
}
