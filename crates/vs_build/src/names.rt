//! Names and numbers of the text.

ghost use Rattle.std.specs.Prelude.{◌≡◌, ◌≤◌, ◌+◌, ◌-◌, ◌||◌, ℕ, Bool, true, Some, IfOk, OnOk, length, min};
ghost use Rattle.vs_four.specs.Selects as four;
ghost use Rattle.vs_grammar.specs.Trees.{expr_place};
ghost use Rattle.vs_ast.specs.Views as view;
ghost use Rattle.vs_const.specs.Meanings.{FunctionMeaning, SignalMeaning, AFunction, AMemory};
ghost use Rattle.vs_const.specs.Typed.{begins_at, natural};
ghost use Rattle.vs_const.specs.Selects.{name_typed, base_of, is_array};
ghost use Rattle.vs_design.specs.Values.{constant_value};
ghost use Rattle.vs_const.specs.Expressions.{constant};
ghost use Rattle.vs_build.specs.Drafts.{home, AddsExpression, AddsParts};
ghost use Rattle.vs_build.specs.Growth.{draft};
ghost use Rattle.vs_build.specs.Buildable.{memory_of, IsNameable, HasBits, HasWords, IsWordAddressable, AddsSource, ArePassable, IsCallable, passed_expressions, IsWithin, AreBounds, IsRangeOf, IsConstant};

use crate::builder::Builder;
use std::alloc::{AllocError, Global};
use vs_ast::{Expr, Name};
use vs_const::{ConstError, Env, Named, constant, number};
use vs_four::{Bits, Range};

/// Builds a name alone: a signal, or the value of a parameter.
pub(crate) fn name_alone<E: Env>(
    builder: &mut Builder,
    needed: bool,
    name: &Name,
    at: u32,
    env: &E,
) -> Result<(), AllocError>
    requires { IsNameable (home (draft builder.old)) needed name.now.place (E.names env.now name.now.text) }
    ensures { OnOk result (AddsExpression (draft builder.old) (draft builder.new) (begins_at at (name_typed needed name.now.place (E.names env.now name.now.text)).expression) 1) }
{
    match env.find(name.text.as_slice()) {
        Named::Value { value, .. } => builder.literal(value.bits, value.signed, true, at),
        Named::Signal(s) => builder.name(s.number, at),
        _ => unreachable!(),
    }
}

/// Whether what a name is selected with has to be a constant: where one is needed, and as an address of an array of nets.
pub(crate) fn index_needed<E: Env>(needed: bool, name: &Name, env: &E) -> bool
    ensures { result ≡ (is_array (E.names env.now name.now.text) || needed) }
{
    match env.find(name.text.as_slice()) {
        Named::Memory(m) => m.net || needed,
        _ => needed,
    }
}

/// The number of the signal that has the word of this name at this address, if the name means a memory or an array of nets (IEEE 1364-2005, 4.9): of
/// an array that of the net.
pub(crate) fn memory<E: Env>(
    alloc: Global,
    name: &Name,
    address: &Expr,
    env: &E,
) -> Result<Option<u32>, AllocError>
    requires { IsWordAddressable (E.names env.now name.now.text) (E.names env.now) (view.expr address.now) }
    ensures { IfOk result (λ n. n ≡ memory_of (E.names env.now name.now.text) (expr_place (view.expr address.now)) (constant (view.expr address.now) (E.names env.now))) }
{
    match env.find(name.text.as_slice()) {
        Named::Memory(m) => {
            if m.net {
                match m.words {
                    Some(words) => {
                        let n = number_within(alloc, words.right, words.left, address, env)?;
                        match m.number.checked_add(n - words.right) {
                            Some(number) => Ok(Some(number)),
                            None => Err(AllocError),
                        }
                    }
                    None => unreachable!(),
                }
            } else {
                Ok(Some(m.number))
            }
        }
        _ => Ok(None),
    }
}

/// The number of the signal that has the word at this address, and the range of the words, of which there are bits to select (IEEE 1364-2005, 5.2.2).
pub(crate) fn words<E: Env>(
    alloc: Global,
    name: &Name,
    address: &Expr,
    env: &E,
) -> Result<(u32, Range), AllocError>
    requires words { HasWords (E.names env.now name.now.text) }
    requires address { IsWordAddressable (E.names env.now name.now.text) (E.names env.now) (view.expr address.now) }
    ensures number { IfOk result (λ r. memory_of (E.names env.now name.now.text) (expr_place (view.expr address.now)) (constant (view.expr address.now) (E.names env.now)) ≡ Some r.0) }
    ensures range { (m : SignalMeaning) → E.names env.now name.now.text ≡ AMemory m → IfOk result (λ r. m.signal.range ≡ Some r.1) }
{
    match memory(alloc, name, address, env)? {
        Some(number) => match env.find(name.text.as_slice()) {
            Named::Memory(m) => match m.range {
                Some(range) => Ok((number, range)),
                None => unreachable!(),
            },
            _ => unreachable!(),
        },
        None => unreachable!(),
    }
}

/// The number of the function that a name means (IEEE 1364-2005, 10.4.3).
pub(crate) fn called<E: Env>(name: &Name, env: &E) -> u32
    requires { IsCallable (E.names env.now name.now.text) }
    ensures { (f : FunctionMeaning) → E.names env.now name.now.text ≡ AFunction f → result ≡ f.number }
{
    match env.find(name.text.as_slice()) {
        Named::Function(f) => f.number,
        _ => unreachable!(),
    }
}

/// How many signals a call of this name passes: those of its module that the function reads (IEEE 1364-2005, 10.4.4).
pub(crate) fn passed_count<E: Env>(name: &Name, env: &E) -> u32
    requires { IsCallable (E.names env.now name.now.text) }
    ensures { (f : FunctionMeaning) → E.names env.now name.now.text ≡ AFunction f → result ≡ length f.passed }
{
    match env.find(name.text.as_slice()) {
        Named::Function(f) => f.passed,
        _ => unreachable!(),
    }
}

/// Builds the signals that a call of this name passes behind its arguments, one after the other.
pub(crate) fn passed<E: Env>(builder: &mut Builder, name: &Name, env: &E) -> Result<(), AllocError>
    requires callable { IsCallable (E.names env.now name.now.text) }
    requires passable { ArePassable (home (draft builder.old)) (E.names env.now name.now.text) }
    ensures { (f : FunctionMeaning) → E.names env.now name.now.text ≡ AFunction f → OnOk result (AddsParts (draft builder.old) (draft builder.new) (passed_expressions name.now.place f.passed) 1) }
{
    let count = passed_count(name, env);
    for n in 0..count {
        match env.passed(name.text.as_slice(), n) {
            Some(s) => builder.name(s.number, name.place)?,
            None => unreachable!(),
        }
    }
    Ok(())
}

/// Builds what bits are selected of, and answers its declared range.
pub(crate) fn source<E: Env>(
    builder: &mut Builder,
    needed: bool,
    name: &Name,
    env: &E,
) -> Result<Range, AllocError>
    requires { HasBits (home (draft builder.old)) needed name.now.place (E.names env.now name.now.text) }
    ensures { IfOk result (λ r. AddsSource (draft builder.old) (draft builder.new) (base_of needed name.now.place (E.names env.now name.now.text)) r) }
{
    match env.find(name.text.as_slice()) {
        Named::Value { value, range, .. } => {
            builder.literal(value.bits, value.signed, true, name.place)?;
            Ok(range)
        }
        Named::Signal(s) => match s.range {
            Some(range) => {
                builder.name(s.number, name.place)?;
                Ok(range)
            }
            None => unreachable!(),
        },
        _ => unreachable!(),
    }
}

/// A number that is needed, where it has no fault: from `low` to `high`.
pub(crate) fn number_within<E: Env>(
    alloc: Global,
    low: u32,
    high: u32,
    e: &Expr,
    env: &E,
) -> Result<u32, AllocError>
    requires { IsWithin low high (E.names env.now) (view.expr e.now) }
    ensures { IfOk result (λ n. (natural low high (expr_place (view.expr e.now)) (constant (view.expr e.now) (E.names env.now))).number ≡ Some n) }
{
    match number(alloc, e, env) {
        Ok(Some(n)) => match u32::try_from(n) {
            Ok(n) => Ok(n),
            Err(_) => unreachable!(),
        },
        Err(ConstError::Memory) => Err(AllocError),
        _ => unreachable!(),
    }
}

/// The bits of a constant without a fault.
pub(crate) fn constant_bits<E: Env>(alloc: Global, e: &Expr, env: &E) -> Result<Bits, AllocError>
    requires { IsConstant (E.names env.now) (view.expr e.now) }
    ensures { IfOk result (λ b. b ≡ constant_value (constant (view.expr e.now) (E.names env.now)).expression) }
{
    match constant(alloc, e, env, None) {
        Ok(Some(c)) => Ok(c.bits),
        Err(ConstError::Memory) => Err(AllocError),
        _ => unreachable!(),
    }
}

/// The range with these bounds.
pub(crate) fn bounds_of<E: Env>(
    alloc: Global,
    left: &Expr,
    right: &Expr,
    env: &E,
) -> Result<Range, AllocError>
    requires { AreBounds (E.names env.now) (view.expr left.now) (view.expr right.now) }
    ensures range { IfOk result (IsRangeOf (E.names env.now) (view.expr left.now) (view.expr right.now)) }
    ensures short { IfOk result (λ r. four.range_length r ≤ 64) }
{
    let left = number_within(alloc, 0, 65535, left, env)?;
    let right = number_within(alloc, 0, 65535, right, env)?;
    Ok(Range { left, right })
}

/// The lesser bound.
pub(crate) fn lesser(r: Range) -> u32
    ensures { result ≡ min r.left r.right }
{
    r.left.min(r.right)
}

/// How many bits a short range has.
pub(crate) fn range_length(r: Range) -> u32
    requires { four.range_length r ≤ 64 }
    ensures { result ≡ four.range_length r }
{
    r.length() as u32
}
