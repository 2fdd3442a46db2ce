//! Constants that are numbers, and declared ranges (IEEE 1364-2005, 3.3, 4.9, 4.10 and 5.2.1).

ghost use Rattle.std.specs.Prelude.{◌≡◌, ◌≤◌, true, IfOk, IfSome};
ghost use Rattle.vs_four.specs.Selects.{range_length};
ghost use Rattle.vs_grammar.specs.Trees.{expr_place};
ghost use Rattle.vs_grammar.specs.Shapes.{IsExpr, IsRange, IsValueType, Given};
ghost use Rattle.vs_ast.specs.Views as view;
ghost use Rattle.vs_const.specs.Checks.{ChecksBounds, ChecksNumber};
ghost use Rattle.vs_const.specs.Found.{Says};
ghost use Rattle.vs_const.specs.Selects as selects;
ghost use Rattle.vs_const.specs.Expressions as expr;
ghost use Rattle.vs_elaborated.specs.Environments.{named};
ghost use Rattle.vs_elaborated.specs.Parameters as spec;
ghost use Rattle.vs_scope.specs.Frames.{view_env};
ghost use Rattle.vs_scope.specs.Numbers.{IsSaidRange};

use crate::places::View;
use std::alloc::{AllocError, Global};
use vs_ast::{Expr, ValueType};
use vs_const::{Bounds, Fault, Found, Numbered, address_bounds, bounds, check, numbered};
use vs_four::Range;

/// A declared range, none for a scalar and for the addresses of what is no memory, and its first fault; `known` says that no fault leaves it
/// undefined.
#[derive(Clone, Copy)]
pub(crate) struct SaidRange {
    pub(crate) range: Option<Range>,
    pub(crate) known: bool,
    pub(crate) fault: Option<Fault>,
}

/// A needed constant.
pub(crate) fn constant(alloc: Global, e: &Expr, here: &View<'_, '_>) -> Result<Found, AllocError>
    requires { IsExpr (view.expr e.now) }
    ensures { IfOk result (λ c. Says true c (expr.constant (view.expr e.now) (named (view_env here.now)))) }
{
    check(alloc, e, here, true)
}

/// The number of an expression.
pub(crate) fn number(alloc: Global, e: &Expr, here: &View<'_, '_>) -> Result<Numbered, AllocError>
    requires { IsExpr (view.expr e.now) }
    ensures { IfOk result (λ n. ChecksNumber n (expr.number (view.expr e.now) (named (view_env here.now)))) }
{
    numbered(alloc, e, here)
}

/// A range whose bounds are constants.
fn ranged(alloc: Global, range: &vs_ast::Range, here: &View<'_, '_>) -> Result<Bounds, AllocError>
    requires { IsRange (view.range range.now) }
    ensures short { IfOk result (λ b. IfSome b.range (λ r. range_length r ≤ 64)) }
    ensures is { IfOk result (λ b. ChecksBounds b (selects.bounds range.now.bracket (expr_place (view.expr range.now.left)) (expr.constant (view.expr range.now.left) (named (view_env here.now)))
        (expr_place (view.expr range.now.right)) (expr.constant (view.expr range.now.right) (named (view_env here.now))))) }
{
    bounds(alloc, range.bracket, &range.left, &range.right, here)
}

/// A declared range.
pub(crate) fn said_range(
    alloc: Global,
    range: &Option<vs_ast::Range>,
    here: &View<'_, '_>,
) -> Result<SaidRange, AllocError>
    requires { Given IsRange (view.option view.range range.now) }
    ensures short { IfOk result (λ r. IfSome r.range (λ g. range_length g ≤ 64)) }
    ensures is { IfOk result (λ r. IsSaidRange r (spec.said_range (view.option view.range range.now) (view_env here.now))) }
{
    match range {
        None => Ok(SaidRange {
            range: None,
            known: true,
            fault: None,
        }),
        Some(range) => {
            let b = ranged(alloc, range, here)?;
            Ok(SaidRange {
                range: b.range,
                known: b.range.is_some(),
                fault: b.flaws.first,
            })
        }
    }
}

/// The range of a type: an integer has 32 bits (4.8).
pub(crate) fn said_type(
    alloc: Global,
    value_type: &ValueType,
    here: &View<'_, '_>,
) -> Result<SaidRange, AllocError>
    requires { IsValueType (view.value_type value_type.now) }
    ensures short { IfOk result (λ r. IfSome r.range (λ g. range_length g ≤ 64)) }
    ensures is { IfOk result (λ r. IsSaidRange r (spec.said_type (view.value_type value_type.now) (view_env here.now))) }
{
    match value_type {
        ValueType::Integer => Ok(SaidRange {
            range: Some(Range { left: 31, right: 0 }),
            known: true,
            fault: None,
        }),
        ValueType::Ranged { range, .. } => said_range(alloc, range, here),
    }
}

/// Whether a type is signed, as an integer is (4.8).
pub(crate) fn is_signed(value_type: &ValueType) -> bool
    ensures { result ≡ spec.is_signed (view.value_type value_type.now) }
{
    match value_type {
        ValueType::Integer => true,
        ValueType::Ranged { signed, .. } => *signed,
    }
}

/// Whether it is that of an integer (4.8).
pub(crate) fn is_integer(value_type: &ValueType) -> bool
    ensures { result ≡ spec.is_integer_type (view.value_type value_type.now) }
{
    matches!(value_type, ValueType::Integer)
}

/// The addresses whose bounds are constants.
fn addressed(
    alloc: Global,
    range: &vs_ast::Range,
    here: &View<'_, '_>,
) -> Result<Bounds, AllocError>
    requires { IsRange (view.range range.now) }
    ensures short { IfOk result (λ b. IfSome b.range (λ r. range_length r ≤ 1024)) }
    ensures is { IfOk result (λ b. ChecksBounds b (selects.address_bounds range.now.bracket (expr_place (view.expr range.now.left)) (expr.constant (view.expr range.now.left) (named (view_env here.now)))
        (expr_place (view.expr range.now.right)) (expr.constant (view.expr range.now.right) (named (view_env here.now))))) }
{
    address_bounds(alloc, range.bracket, &range.left, &range.right, here)
}

/// Addresses in descending order: nothing tells `[0:3]` from `[3:0]`.
fn descending(range: Range) -> Range
    ensures same { range_length result ≡ range_length range }
    ensures is { result ≡ spec.descending range }
{
    Range {
        left: range.left.max(range.right),
        right: range.left.min(range.right),
    }
}

/// Addresses by what is found of their bounds: those that a fault leaves undefined are taken as 0 alone.
fn of_addresses(b: Bounds) -> SaidRange
    requires { IfSome b.range (λ r. range_length r ≤ 1024) }
    ensures short { IfSome result.range (λ g. range_length g ≤ 1024) }
    ensures is { (s : selects.Bounds) → ChecksBounds b s → IsSaidRange result (spec.of_addresses s.range s.faults) }
{
    let range = match b.range {
        None => Range { left: 0, right: 0 },
        Some(r) => descending(r),
    };
    SaidRange {
        range: Some(range),
        known: b.range.is_some(),
        fault: b.flaws.first,
    }
}

/// The declared addresses of a memory (4.9), or none of what is no memory.
pub(crate) fn said_addresses(
    alloc: Global,
    addresses: &Option<vs_ast::Range>,
    here: &View<'_, '_>,
) -> Result<SaidRange, AllocError>
    requires { Given IsRange (view.option view.range addresses.now) }
    ensures short { IfOk result (λ r. IfSome r.range (λ g. range_length g ≤ 1024)) }
    ensures is { IfOk result (λ r. IsSaidRange r (spec.said_addresses (view.option view.range addresses.now) (view_env here.now))) }
{
    match addresses {
        None => Ok(SaidRange {
            range: None,
            known: true,
            fault: None,
        }),
        Some(range) => {
            let b = addressed(alloc, range, here)?;
            Ok(of_addresses(b))
        }
    }
}
