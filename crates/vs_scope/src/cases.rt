//! Which arm of a generate `case` is taken (IEEE 1364-2005, 12.4.2).

ghost use Rattle.std.specs.Prelude.{◌≡◌, ◌++◌, ◌∷◌, [], ◌≤◌, ◌&&◌, true, List, IfOk, is_none, length, map, flat_map, max};
ghost use Rattle.vs_grammar.specs.Shapes.{IsExpr, Each, AreGenerateArms};
ghost use Rattle.vs_ast.specs.Views as view;
ghost use Rattle.vs_const.specs.Faults.{least};
ghost use Rattle.vs_const.specs.Expressions.{constant as constant_of};
ghost use Rattle.vs_const.specs.Found.{AreValued, Says};
ghost use Rattle.vs_const.specs.Typed as typed;
ghost use Rattle.vs_four.specs.Logic.{BitList};
ghost use Rattle.vs_elaborated.specs.Environments.{named};
ghost use Rattle.vs_elaborated.specs.Constructs as spec;
ghost use Rattle.vs_scope.specs.Cases.{AreLabels, IsFit, AreFitArms, IsSaidCase, has_value, good_case};
ghost use Rattle.vs_scope.specs.Frames.{view_env};

use crate::numbers::constant;
use crate::places::View;
use std::alloc::{AllocError, Global};
use vs_ast::{Expr, GenerateArm};
use vs_const::{Fault, Found, Rule, fault_if, first_of, own, place_of, value};
use vs_four::{Bit4, Bits, is_known, same};

/// What labels have together: whether all have values, the largest length up to 65, whether all are signed, the first of their faults, and the first
/// of those that have x or z by themselves.
#[derive(Clone, Copy)]
pub(crate) struct Labels {
    pub(crate) good: bool,
    pub(crate) width: u32,
    pub(crate) signed: bool,
    pub(crate) fault: Option<Fault>,
    pub(crate) unknown: Option<Fault>,
}

/// No labels.
fn no_labels() -> Labels
    ensures { AreLabels result [] }
{
    Labels {
        good: true,
        width: 0,
        signed: true,
        fault: None,
        unknown: None,
    }
}

/// Whether both hold.
fn both(a: bool, b: bool) -> bool
    ensures { result ≡ (a && b) }
{
    a && b
}

/// The larger of two lengths.
fn larger(a: u32, b: u32) -> u32
    ensures { result ≡ max a b }
{
    if a < b { b } else { a }
}

/// Labels and those behind them.
fn together(a: Labels, b: Labels) -> Labels
    ensures { (ls ms : List spec.Label) → AreLabels a ls → AreLabels b ms → AreLabels result (ls ++ ms) }
{
    Labels {
        good: both(a.good, b.good),
        width: larger(a.width, b.width),
        signed: both(a.signed, b.signed),
        fault: first_of(a.fault, b.fault),
        unknown: first_of(a.unknown, b.unknown),
    }
}

/// The fault of a label that has x or z by itself.
fn own_unknown(place: u32, c: &Found) -> Option<Fault>
    requires { AreValued c.now.form }
    ensures { (t : typed.Typed) → Says true c.now t → result ≡ least (spec.own_unknown (record { place = place; typed = t })) }
{
    match &c.form {
        None => None,
        Some(f) => fault_if(!is_known(own(f)), Rule::UnknownConstant, place),
    }
}

/// A length, or 0 where it isn't known.
fn length_or_none(length: Option<u32>) -> u32
    ensures { result ≡ spec.length_or_none length }
{
    match length {
        None => 0,
        Some(n) => n,
    }
}

/// One label, or the case's expression.
fn label(alloc: Global, e: &Expr, here: &View<'_, '_>) -> Result<Labels, AllocError>
    requires { IsExpr (view.expr e.now) }
    ensures { IfOk result (λ r. AreLabels r (spec.label_of (view_env here.now) (view.expr e.now) ∷ [])) }
{
    let c = constant(alloc, e, here)?;
    let unknown = own_unknown(place_of(e), &c);
    Ok(Labels {
        good: c.said.good,
        width: length_or_none(c.said.length),
        signed: c.said.signed,
        fault: c.said.flaws.first,
        unknown,
    })
}

/// The labels of one arm.
fn list_labels(alloc: Global, list: &[Expr], here: &View<'_, '_>) -> Result<Labels, AllocError>
    requires { Each IsExpr (map view.expr list.now) }
    ensures { IfOk result (λ r. AreLabels r (map (spec.label_of (view_env here.now)) (map view.expr list.now))) }
{
    let mut all = no_labels();
    for e in list {
        let one = label(alloc, e, here)?;
        all = together(all, one);
    }
    Ok(all)
}

/// The labels of all arms.
fn arm_labels(
    alloc: Global,
    arms: &[GenerateArm],
    here: &View<'_, '_>,
) -> Result<Labels, AllocError>
    requires { AreGenerateArms (view.generate_arms arms.now) }
    ensures { IfOk result (λ r. AreLabels r (map (spec.label_of (view_env here.now)) (spec.labels_of (view.generate_arms arms.now)))) }
{
    let mut all = no_labels();
    for arm in arms {
        let some = list_labels(alloc, arm.labels.as_slice(), here)?;
        all = together(all, some);
    }
    Ok(all)
}

/// A label's bits in this length and sign.
fn bits_in(
    alloc: Global,
    e: &Expr,
    here: &View<'_, '_>,
    width: u32,
    signed: bool,
) -> Result<Bits, AllocError>
    requires fit { IsFit width (view_env here.now) (view.expr e.now) }
    requires most { width ≤ 64 }
    ensures value { IfOk result (λ b. b ≡ spec.in_context width signed (constant_of (view.expr e.now) (named (view_env here.now)))) }
    ensures length { IfOk result (λ b. length b ≡ width) }
{
    let c = constant(alloc, e, here)?;
    match &c.form {
        Some(f) => Ok(value(f, width, signed)),
        None => unreachable!(),
    }
}

/// The fault of a label that has x or z in this length and sign.
fn unknown_label(
    alloc: Global,
    e: &Expr,
    here: &View<'_, '_>,
    width: u32,
    signed: bool,
) -> Result<Option<Fault>, AllocError>
    requires fit { IsFit width (view_env here.now) (view.expr e.now) }
    requires most { width ≤ 64 }
    ensures { IfOk result (λ f. f ≡ least (spec.unknown_in width signed (spec.label_of (view_env here.now) (view.expr e.now)))) }
{
    let bits = bits_in(alloc, e, here, width, signed)?;
    Ok(fault_if(!is_known(bits), Rule::UnknownConstant, place_of(e)))
}

/// The first of an arm's labels that has x or z.
fn unknown_labels(
    alloc: Global,
    list: &[Expr],
    here: &View<'_, '_>,
    width: u32,
    signed: bool,
) -> Result<Option<Fault>, AllocError>
    requires fit { Each (IsFit width (view_env here.now)) (map view.expr list.now) }
    requires most { width ≤ 64 }
    ensures { IfOk result (λ f. f ≡ least (flat_map (spec.unknown_in width signed) (map (spec.label_of (view_env here.now)) (map view.expr list.now)))) }
{
    let mut fault = None;
    for e in list {
        let found = unknown_label(alloc, e, here, width, signed)?;
        fault = first_of(fault, found);
    }
    Ok(fault)
}

/// The first of all arms' labels that has x or z.
fn unknown_in_arms(
    alloc: Global,
    arms: &[GenerateArm],
    here: &View<'_, '_>,
    width: u32,
    signed: bool,
) -> Result<Option<Fault>, AllocError>
    requires fit { AreFitArms width (view_env here.now) (view.generate_arms arms.now) }
    requires most { width ≤ 64 }
    ensures { IfOk result (λ f. f ≡ least (flat_map (spec.unknown_in width signed) (map (spec.label_of (view_env here.now)) (spec.labels_of (view.generate_arms arms.now))))) }
{
    let mut fault = None;
    for arm in arms {
        let found = unknown_labels(alloc, arm.labels.as_slice(), here, width, signed)?;
        fault = first_of(fault, found);
    }
    Ok(fault)
}

/// Whether two values have the same bits.
fn are_same(a: Bits, b: Bits) -> bool
    requires { length a ≡ length b }
    ensures { result ≡ spec.same_bits a b }
{
    match same(a, b) {
        Bit4::One => true,
        _ => false,
    }
}

/// Whether one of an arm's labels has this value.
fn has_label(
    alloc: Global,
    list: &[Expr],
    here: &View<'_, '_>,
    width: u32,
    signed: bool,
    subject: Bits,
) -> Result<bool, AllocError>
    requires fit { Each (IsFit width (view_env here.now)) (map view.expr list.now) }
    requires most { width ≤ 64 }
    requires subject { length subject ≡ width }
    ensures { IfOk result (λ b. b ≡ has_value (spec.same_bits subject) width signed (view_env here.now) (map view.expr list.now)) }
{
    for e in list {
        let bits = bits_in(alloc, e, here, width, signed)?;
        if are_same(subject, bits) {
            return Ok(true);
        }
    }
    Ok(false)
}

/// The number of the first arm with a label of this value.
fn arm_of(
    alloc: Global,
    arms: &[GenerateArm],
    here: &View<'_, '_>,
    width: u32,
    signed: bool,
    subject: Bits,
) -> Result<Option<usize>, AllocError>
    requires fit { AreFitArms width (view_env here.now) (view.generate_arms arms.now) }
    requires most { width ≤ 64 }
    requires subject { length subject ≡ width }
    ensures { IfOk result (λ k. k ≡ spec.arm_of (spec.same_bits subject) width signed (view_env here.now) (view.generate_arms arms.now)) }
{
    for k in 0..arms.len() {
        let list = arms[k].labels.as_slice();
        let found = has_label(alloc, list, here, width, signed, subject)?;
        if found {
            return Ok(Some(k));
        }
    }
    Ok(None)
}

/// Which arm of a case is taken, or none, and its first fault; not defined where a fault leaves it open.
#[derive(Clone, Copy)]
pub(crate) struct SaidCase {
    pub(crate) defined: bool,
    pub(crate) arm: Option<usize>,
    pub(crate) fault: Option<Fault>,
}

/// A fault leaves it open which arm is taken.
fn no_case(fault: Option<Fault>) -> SaidCase
    ensures { (fs : List Fault) → fault ≡ least fs → IsSaidCase result (spec.no_case fs) }
{
    SaidCase {
        defined: false,
        arm: None,
        fault,
    }
}

/// Whether neither has a fault.
fn are_clean(a: Option<Fault>, b: Option<Fault>) -> bool
    ensures { result ≡ (is_none a && is_none b) }
{
    both(a.is_none(), b.is_none())
}

/// The case whose expression and labels all have values.
fn compared(
    alloc: Global,
    subject: &Expr,
    arms: &[GenerateArm],
    here: &View<'_, '_>,
    all: Labels,
) -> Result<SaidCase, AllocError>
    requires subject { IsFit all.width (view_env here.now) (view.expr subject.now) }
    requires arms { AreFitArms all.width (view_env here.now) (view.generate_arms arms.now) }
    requires most { all.width ≤ 64 }
    ensures { (ls : List spec.Label) → AreLabels all ls → ls ≡ spec.label_of (view_env here.now) (view.expr subject.now) ∷ map (spec.label_of (view_env here.now)) (spec.labels_of (view.generate_arms arms.now))
        → spec.widest ls ≡ all.width → IfOk result (λ c. IsSaidCase c (good_case (view_env here.now) (view.expr subject.now) (view.generate_arms arms.now) ls)) }
{
    let first = unknown_label(alloc, subject, here, all.width, all.signed)?;
    let rest = unknown_in_arms(alloc, arms, here, all.width, all.signed)?;
    let unknown = first_of(first, rest);
    let fault = first_of(all.fault, all.unknown);
    if are_clean(all.unknown, unknown) {
        let bits = bits_in(alloc, subject, here, all.width, all.signed)?;
        let arm = arm_of(alloc, arms, here, all.width, all.signed, bits)?;
        Ok(SaidCase {
            defined: true,
            arm,
            fault,
        })
    } else {
        Ok(no_case(first_of(fault, unknown)))
    }
}

/// Which arm of a case is taken: all are compared in the largest length, and as signed only if all are.
pub(crate) fn said_case(
    alloc: Global,
    subject: &Expr,
    arms: &[GenerateArm],
    here: &View<'_, '_>,
) -> Result<SaidCase, AllocError>
    requires subject { IsExpr (view.expr subject.now) }
    requires arms { AreGenerateArms (view.generate_arms arms.now) }
    ensures { IfOk result (λ c. IsSaidCase c (spec.said_case (view.expr subject.now) (view.generate_arms arms.now) (view_env here.now))) }
{
    let first = label(alloc, subject, here)?;
    let rest = arm_labels(alloc, arms, here)?;
    let all = together(first, rest);
    if all.good {
        compared(alloc, subject, arms, here, all)
    } else {
        Ok(no_case(first_of(all.fault, all.unknown)))
    }
}
