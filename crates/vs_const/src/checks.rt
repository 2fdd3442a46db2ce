//! Whether an expression breaks a rule, and the value of a constant (IEEE 1364-2005, 4.10 and clause 5).

ghost use Rattle.std.specs.Prelude.{◌≡◌, ◌≤◌, ◌||◌, true, IfOk, IfSome, ℤ, Option};
ghost use Rattle.vs_four.specs.Selects.{range_length};
ghost use Rattle.vs_grammar.specs.Trees.{expr_place};
ghost use Rattle.vs_grammar.specs.Shapes.{IsExpr, IsSelect, AreParts};
ghost use Rattle.vs_ast.specs.Views as view;
ghost use Rattle.vs_const.specs.Meanings.{IsFair, Find, Meaning, Means, SignalMeaning, steady};
ghost use Rattle.vs_const.specs.Needs.{is_needed, names_for};
ghost use Rattle.vs_const.specs.Expressions as expr;
ghost use Rattle.vs_const.specs.Selects.{bounds_of, bounds, address_bounds, slice_taken, first_names, first_needed, is_array, addressed};
ghost use Rattle.vs_const.specs.Typed.{natural};
ghost use Rattle.vs_const.specs.Checks.{ChecksArguments, ChecksBounds, ChecksNatural, ChecksNumber, ChecksTaken, ChecksAddress, IsUnsizedAt};
ghost use Rattle.vs_const.specs.Found.{Finds, Says};

use crate::calls::{Arguments, and_argument, call_rule, find_called, find_misnamed, no_argument};
use crate::found::{
    Found, find_address, find_between, find_binary, find_bit, find_brackets, find_choice,
    find_clog2, find_concatenation, find_last, find_literal, find_more, find_moving, find_name,
    find_number, find_replication, find_unary, find_word_part,
};
use crate::names::{Env, Named, SignalShape};
use crate::needs::{Need, meant};
use crate::ranges::{Bounds, Natural, Numbered, natural_of, range_of_bounds};
use crate::rules::Rule;
use crate::selects::{Addressed, Taken, between, bits_from, moving, no_bits, wrong_rule};
use std::alloc::{AllocError, Global};
use vs_ast::{Expr, Name, Select, SliceKind, SystemFunction};
use vs_base::UnaryOp;
use vs_four::Range;

/// Where an expression begins.
pub fn place_of(e: &Expr) -> u32
    ensures { result ≡ expr_place (view.expr e.now) }
{
    match e {
        Expr::Number(n) => n.place,
        Expr::Named(name, _) | Expr::Apply { name, .. } => name.place,
        Expr::Binary { left, .. } => place_of(left),
        Expr::Choice { condition, .. } => place_of(condition),
        Expr::Unary { place, .. }
        | Expr::Concatenation { place, .. }
        | Expr::Replication { place, .. }
        | Expr::Call { place, .. }
        | Expr::Brackets { place, .. } => *place,
    }
}

/// Where a literal without a size stands, if the part of a concatenation is one, in brackets or not.
fn unsized_at(e: &Expr) -> Option<u32>
    ensures { IsUnsizedAt result (expr.unsized_faults (view.expr e.now)) }
{
    match e {
        Expr::Number(n) if !n.sized => Some(n.place),
        Expr::Brackets { inner, .. } => unsized_at(inner),
        _ => None,
    }
}

/// What an expression says, and itself where a constant is needed whose value no fault leaves undefined.
pub fn check<E: Env>(alloc: Global, e: &Expr, env: &E, needed: bool) -> Result<Found, AllocError>
    requires shaped { IsExpr (view.expr e.now) }
    requires fair { IsFair (E.names env.now) }
    ensures { IfOk result (λ c. Says needed c (expr.typed (view.expr e.now) (E.names env.now) needed)) }
{
    if needed {
        look(alloc, e, env, Need::Constant)
    } else {
        look(alloc, e, env, Need::Anything)
    }
}

/// What an expression says that has to be this, and itself where that is a constant whose value no fault leaves undefined.
#[cycle(evaluation)]
#[tactic(auto, using(crate::proofs::Short::says, crate::proofs::Steady::fair_for))]
fn look<E: Env>(alloc: Global, e: &Expr, env: &E, need: Need) -> Result<Found, AllocError>
    requires shaped { IsExpr (view.expr e.now) }
    requires fair { IsFair (E.names env.now) }
    ensures { IfOk result (λ c. Says (is_needed need) c (expr.typed (view.expr e.now) (names_for need (E.names env.now)) (is_needed need))) }
{
    let c = find(alloc, e, env, need)?;
    if need.is_needed() {
        Ok(c)
    } else {
        Ok(Found {
            said: c.said,
            form: None,
        })
    }
}

/// The same, with what is kept of it whether or not a constant is needed.
#[cycle(evaluation)]
fn find<E: Env>(alloc: Global, e: &Expr, env: &E, need: Need) -> Result<Found, AllocError>
    requires shaped { IsExpr (view.expr e.now) }
    requires fair { IsFair (E.names env.now) }
    ensures { IfOk result (λ c. Finds (is_needed need) c (expr.typed (view.expr e.now) (names_for need (E.names env.now)) (is_needed need))) }
{
    let needed = need.is_needed();
    match e {
        Expr::Number(n) => find_literal(alloc, needed, n),
        Expr::Named(name, select) => {
            let c = find_selected(alloc, select, name, env, need)?;
            find_brackets(alloc, needed, name.place, c)
        }
        Expr::Apply { name, arguments } => {
            let c = find_applied(alloc, name, arguments, env, need)?;
            find_brackets(alloc, needed, name.place, c)
        }
        Expr::Unary { place, op, operand } => {
            let a = look(alloc, operand, env, need)?;
            let c = find_unary(alloc, *op, a)?;
            find_brackets(alloc, needed, *place, c)
        }
        Expr::Binary { op, left, right } => {
            let a = look(alloc, left, env, need)?;
            let b = look(alloc, right, env, need)?;
            find_binary(alloc, needed, place_of(left), *op, a, b)
        }
        Expr::Choice { condition, yes, no } => {
            let c = look(alloc, condition, env, need)?;
            let p = look(alloc, yes, env, need)?;
            let q = look(alloc, no, env, need)?;
            find_choice(alloc, needed, place_of(condition), c, p, q)
        }
        Expr::Concatenation { place, parts } => {
            let c = find_parts(alloc, parts, env, need)?;
            find_concatenation(alloc, needed, *place, c)
        }
        Expr::Replication {
            place,
            count,
            parts,
        } => {
            let c = find_parts(alloc, parts, env, need)?;
            let n = steady_number(alloc, count, env)?;
            find_replication(alloc, needed, *place, place_of(count), n, c)
        }
        Expr::Call {
            place,
            function,
            operand,
        } => {
            let c = find_call(alloc, *function, operand, env, need)?;
            find_brackets(alloc, needed, *place, c)
        }
        Expr::Brackets { place, inner } => {
            let c = find(alloc, inner, env, need)?;
            find_brackets(alloc, needed, *place, c)
        }
    }
}

/// A call of a system function.
#[cycle(evaluation)]
fn find_call<E: Env>(
    alloc: Global,
    function: SystemFunction,
    operand: &Expr,
    env: &E,
    need: Need,
) -> Result<Found, AllocError>
    requires shaped { IsExpr (view.expr operand.now) }
    requires fair { IsFair (E.names env.now) }
    ensures { IfOk result (λ c. Finds (is_needed need) c (expr.call_typed (view.system_function function) (expr_place (view.expr operand.now))
        (expr.typed (view.expr operand.now) (names_for need (E.names env.now)) (expr.argument_needed (view.system_function function) (is_needed need))))) }
{
    match function {
        SystemFunction::AsSigned => {
            let a = look(alloc, operand, env, need)?;
            find_unary(alloc, UnaryOp::Signed, a)
        }
        SystemFunction::AsUnsigned => {
            let a = look(alloc, operand, env, need)?;
            find_unary(alloc, UnaryOp::Unsigned, a)
        }
        SystemFunction::Clog2 => {
            let a = look(alloc, operand, env, argument_need(need))?;
            Ok(find_clog2(place_of(operand), a))
        }
    }
}

/// A call of a function (IEEE 1364-2005, 10.4.3).
#[cycle(evaluation)]
fn find_applied<E: Env>(
    alloc: Global,
    name: &Name,
    arguments: &[Expr],
    env: &E,
    need: Need,
) -> Result<Found, AllocError>
    requires shaped { AreParts (view.exprs arguments.now) }
    requires fair { IsFair (E.names env.now) }
    ensures { IfOk result (λ c. Finds (is_needed need) c (expr.applied (is_needed need) name.now.place (names_for need (E.names env.now) (view.name name.now).bytes)
        (expr.typed_arguments (view.exprs arguments.now) (names_for need (E.names env.now)) (is_needed need)))) }
{
    let needed = need.is_needed();
    let named = meant(env, need, name.text.as_slice());
    match named {
        Named::Function(f) => {
            if needed {
                Ok(find_misnamed(Rule::NotConstant, name.place))
            } else {
                let said = find_arguments(alloc, arguments, env, need)?;
                Ok(find_called(f, name.place, said))
            }
        }
        _ => Ok(find_misnamed(call_rule(needed, &named), name.place)),
    }
}

/// The arguments of a call.
#[cycle(evaluation)]
fn find_arguments<E: Env>(
    alloc: Global,
    arguments: &[Expr],
    env: &E,
    need: Need,
) -> Result<Arguments, AllocError>
    requires shaped { AreParts (view.exprs arguments.now) }
    requires fair { IsFair (E.names env.now) }
    ensures { IfOk result (λ a. ChecksArguments a (expr.typed_arguments (view.exprs arguments.now) (names_for need (E.names env.now)) (is_needed need))) }
{
    let mut i = arguments.len();
    let mut said = no_argument();
    while i > 0 {
        i -= 1;
        let c = look(alloc, &arguments[i], env, need)?;
        said = and_argument(c.said, said);
    }
    Ok(said)
}

/// The number of a constant that names no integer of a loop.
#[cycle(evaluation)]
fn steady_number<E: Env>(alloc: Global, e: &Expr, env: &E) -> Result<Numbered, AllocError>
    requires shaped { IsExpr (view.expr e.now) }
    requires fair { IsFair (E.names env.now) }
    ensures { IfOk result (λ n. ChecksNumber n (expr.number (view.expr e.now) (steady (E.names env.now)))) }
{
    let c = look(alloc, e, env, Need::Steady)?;
    Ok(find_number(place_of(e), c))
}

/// What the argument of `$clog2` has to be.
fn argument_need(need: Need) -> Need
    ensures needed { is_needed result ≡ true }
    ensures names { (find : Find) → names_for result find ≡ names_for need find }
{
    match need {
        Need::Anything | Need::Constant => Need::Constant,
        Need::Steady => Need::Steady,
    }
}

/// What an address of this name has to be: that of an array of nets is a constant.
fn address_need(named: &Named, need: Need) -> Need
    ensures needed { (m : Meaning) → Means named.now m → is_needed result ≡ (is_array m || is_needed need) }
    ensures names { (find : Find) → names_for result find ≡ names_for need find }
{
    match named {
        Named::Memory(s) => { if s.net { argument_need(need) } else { need } }
        _ => need,
    }
}

/// A name, with what is selected of it.
#[cycle(evaluation)]
fn find_selected<E: Env>(
    alloc: Global,
    select: &Select,
    name: &Name,
    env: &E,
    need: Need,
) -> Result<Found, AllocError>
    requires shaped { IsSelect (view.select select.now) }
    requires fair { IsFair (E.names env.now) }
    ensures { IfOk result (λ c. Finds (is_needed need) c (expr.selected (view.select select.now) (view.name name.now) (names_for need (E.names env.now)) (is_needed need))) }
{
    let needed = need.is_needed();
    let named = meant(env, need, name.text.as_slice());
    match select {
        Select::Whole => Ok(find_name(needed, name.place, &named)),
        Select::Bit { index, .. } => {
            let i = look(alloc, index, env, address_need(&named, need))?;
            find_bit(alloc, needed, name.place, &named, place_of(index), i)
        }
        Select::Slice {
            bracket,
            kind,
            left,
            right,
        } => {
            let n = steady_number(alloc, right, env)?;
            match kind {
                SliceKind::Between => {
                    let m = steady_number(alloc, left, env)?;
                    find_between(
                        alloc,
                        needed,
                        name.place,
                        &named,
                        *bracket,
                        place_of(left),
                        m,
                        place_of(right),
                        n,
                    )
                }
                SliceKind::Upward => {
                    let a = look(alloc, left, env, need)?;
                    find_moving(
                        alloc,
                        needed,
                        name.place,
                        &named,
                        true,
                        a,
                        place_of(right),
                        n,
                    )
                }
                SliceKind::Downward => {
                    let a = look(alloc, left, env, need)?;
                    find_moving(
                        alloc,
                        needed,
                        name.place,
                        &named,
                        false,
                        a,
                        place_of(right),
                        n,
                    )
                }
            }
        }
        Select::Word { address, part, .. } => match named {
            Named::Memory(s) => {
                if needed {
                    Ok(find_misnamed(Rule::NotConstant, name.place))
                } else {
                    let at = look(alloc, address, env, address_need(&named, need))?;
                    let bits = look_part(alloc, s.range, part, env, need)?;
                    Ok(find_word_part(name.place, s, place_of(address), at, bits))
                }
            }
            _ => Ok(find_misnamed(wrong_rule(needed, &named), name.place)),
        },
    }
}

/// Which bits of a word with this range a further select takes.
#[cycle(evaluation)]
fn look_part<E: Env>(
    alloc: Global,
    declared: Option<Range>,
    part: &Select,
    env: &E,
    need: Need,
) -> Result<Taken, AllocError>
    requires shaped { IsSelect (view.select part.now) }
    requires fair { IsFair (E.names env.now) }
    ensures { IfOk result (λ t. ChecksTaken t (expr.taken_by declared (view.select part.now) (names_for need (E.names env.now)) (is_needed need))) }
{
    match part {
        Select::Bit { index, .. } => {
            let i = look(alloc, index, env, need)?;
            Ok(bits_from(declared, 1, i.said.good, i.said.depth, i.said.flaws))
        }
        Select::Slice {
            bracket,
            kind,
            left,
            right,
        } => {
            let n = steady_number(alloc, right, env)?;
            match kind {
                SliceKind::Between => {
                    let m = steady_number(alloc, left, env)?;
                    let bounds = range_of_bounds(
                        64,
                        *bracket,
                        place_of(left),
                        m,
                        place_of(right),
                        n,
                    );
                    Ok(between(declared, *bracket, bounds))
                }
                SliceKind::Upward | SliceKind::Downward => {
                    let a = look(alloc, left, env, need)?;
                    Ok(moving(declared, a.said, place_of(right), n))
                }
            }
        }
        Select::Whole | Select::Word { .. } => Ok(no_bits()),
    }
}

/// The parts of a concatenation, from the last one back.
#[cycle(evaluation)]
fn find_parts<E: Env>(
    alloc: Global,
    parts: &[Expr],
    env: &E,
    need: Need,
) -> Result<Found, AllocError>
    requires shaped { AreParts (view.exprs parts.now) }
    requires fair { IsFair (E.names env.now) }
    ensures { IfOk result (λ c. Finds (is_needed need) c (expr.typed_parts (view.exprs parts.now) (names_for need (E.names env.now)) (is_needed need))) }
{
    let mut i = parts.len() - 1;
    let last = find(alloc, &parts[i], env, need)?;
    let mut whole = find_last(unsized_at(&parts[i]), last);
    while i > 0 {
        i -= 1;
        let c = find(alloc, &parts[i], env, need)?;
        whole = find_more(alloc, unsized_at(&parts[i]), c, whole)?;
    }
    Ok(whole)
}

/// The number of a needed constant.
pub fn numbered<E: Env>(alloc: Global, e: &Expr, env: &E) -> Result<Numbered, AllocError>
    requires shaped { IsExpr (view.expr e.now) }
    requires fair { IsFair (E.names env.now) }
    ensures { IfOk result (λ n. ChecksNumber n (expr.number (view.expr e.now) (E.names env.now))) }
{
    let c = check(alloc, e, env, true)?;
    Ok(find_number(place_of(e), c))
}

/// The number of a needed constant, if it is from `low` to `high`.
pub fn natural<E: Env>(
    alloc: Global,
    low: u32,
    high: u32,
    e: &Expr,
    env: &E,
) -> Result<Natural, AllocError>
    requires shaped { IsExpr (view.expr e.now) }
    requires fair { IsFair (E.names env.now) }
    ensures is { IfOk result (λ n. ChecksNatural n (natural low high (expr_place (view.expr e.now)) (expr.constant (view.expr e.now) (E.names env.now)))) }
    ensures within { IfOk result (λ n. IfSome n.number (λ k. (low ≤ k) × (k ≤ high))) }
{
    let n = numbered(alloc, e, env)?;
    Ok(natural_of(low, high, place_of(e), n))
}

/// The range of so many numbers at most with these bounds, which are needed constants.
fn range_up_to<E: Env>(
    alloc: Global,
    most: u64,
    bracket: u32,
    left: &Expr,
    right: &Expr,
    env: &E,
) -> Result<Bounds, AllocError>
    requires left { IsExpr (view.expr left.now) }
    requires right { IsExpr (view.expr right.now) }
    requires fair { IsFair (E.names env.now) }
    ensures is { IfOk result (λ b. ChecksBounds b (bounds_of most bracket (expr_place (view.expr left.now)) (expr.constant (view.expr left.now) (E.names env.now))
        (expr_place (view.expr right.now)) (expr.constant (view.expr right.now) (E.names env.now)))) }
    ensures short { IfOk result (λ b. IfSome b.range (λ r. range_length r ≤ most)) }
{
    let m = numbered(alloc, left, env)?;
    let n = numbered(alloc, right, env)?;
    Ok(range_of_bounds(most, bracket, place_of(left), m, place_of(right), n))
}

/// The range of a vector with these bounds, which are needed constants.
pub fn bounds<E: Env>(
    alloc: Global,
    bracket: u32,
    left: &Expr,
    right: &Expr,
    env: &E,
) -> Result<Bounds, AllocError>
    requires left { IsExpr (view.expr left.now) }
    requires right { IsExpr (view.expr right.now) }
    requires fair { IsFair (E.names env.now) }
    ensures is { IfOk result (λ b. ChecksBounds b (bounds bracket (expr_place (view.expr left.now)) (expr.constant (view.expr left.now) (E.names env.now))
        (expr_place (view.expr right.now)) (expr.constant (view.expr right.now) (E.names env.now)))) }
    ensures short { IfOk result (λ b. IfSome b.range (λ r. range_length r ≤ 64)) }
{
    range_up_to(alloc, 64, bracket, left, right, env)
}

/// Which bits of something with this range a select takes. The width and the bounds are constants that name no integer of a loop; the index is a
/// constant where one is needed (5.2.1).
pub fn check_slice<E: Env>(
    alloc: Global,
    declared: Option<Range>,
    bracket: u32,
    kind: SliceKind,
    left: &Expr,
    right: &Expr,
    env: &E,
    needed: bool,
) -> Result<Taken, AllocError>
    requires left { IsExpr (view.expr left.now) }
    requires right { IsExpr (view.expr right.now) }
    requires fair { IsFair (E.names env.now) }
    ensures { IfOk result (λ t. ChecksTaken t (slice_taken declared bracket (view.slice_kind kind)
        (expr_place (view.expr left.now)) (expr.typed (view.expr left.now) (first_names (view.slice_kind kind) (E.names env.now)) (first_needed (view.slice_kind kind) needed))
        (expr_place (view.expr right.now)) (expr.typed (view.expr right.now) (steady (E.names env.now)) true))) }
{
    let n = steady_number(alloc, right, env)?;
    match kind {
        SliceKind::Between => {
            let m = steady_number(alloc, left, env)?;
            let bounds = range_of_bounds(64, bracket, place_of(left), m, place_of(right), n);
            Ok(between(declared, bracket, bounds))
        }
        SliceKind::Upward | SliceKind::Downward => {
            let a = check(alloc, left, env, needed)?;
            Ok(moving(declared, a.said, place_of(right), n))
        }
    }
}

/// Which bits of a word with this range a further select takes (IEEE 1364-2005, 5.2.2). The index is a constant where one is needed.
pub fn check_part<E: Env>(
    alloc: Global,
    declared: Option<Range>,
    part: &Select,
    env: &E,
    needed: bool,
) -> Result<Taken, AllocError>
    requires shaped { IsSelect (view.select part.now) }
    requires fair { IsFair (E.names env.now) }
    ensures { IfOk result (λ t. ChecksTaken t (expr.taken_by declared (view.select part.now) (E.names env.now) needed)) }
{
    if needed {
        look_part(alloc, declared, part, env, Need::Constant)
    } else {
        look_part(alloc, declared, part, env, Need::Anything)
    }
}

/// The address of a word of a memory (IEEE 1364-2005, 4.9.3), a constant where one is needed. That of an array of nets is always one, and one that the array has.
pub fn check_address<E: Env>(
    alloc: Global,
    memory: SignalShape,
    address: &Expr,
    env: &E,
    needed: bool,
) -> Result<Addressed, AllocError>
    requires shaped { IsExpr (view.expr address.now) }
    requires fair { IsFair (E.names env.now) }
    ensures { IfOk result (λ a. (m : SignalMeaning) → memory.net ≡ m.signal.net → memory.words ≡ m.signal.words
        → ChecksAddress a (addressed m (expr_place (view.expr address.now)) (expr.typed (view.expr address.now) (E.names env.now) (m.signal.net || needed)))) }
{
    let found = check(alloc, address, env, memory.net || needed)?;
    Ok(find_address(memory, place_of(address), found))
}

/// The addresses of a memory with these bounds, which are needed constants (IEEE 1364-2005, 4.9).
pub fn address_bounds<E: Env>(
    alloc: Global,
    bracket: u32,
    left: &Expr,
    right: &Expr,
    env: &E,
) -> Result<Bounds, AllocError>
    requires left { IsExpr (view.expr left.now) }
    requires right { IsExpr (view.expr right.now) }
    requires fair { IsFair (E.names env.now) }
    ensures is { IfOk result (λ b. ChecksBounds b (address_bounds bracket (expr_place (view.expr left.now)) (expr.constant (view.expr left.now) (E.names env.now))
        (expr_place (view.expr right.now)) (expr.constant (view.expr right.now) (E.names env.now)))) }
    ensures short { IfOk result (λ b. IfSome b.range (λ r. range_length r ≤ 1024)) }
{
    range_up_to(alloc, 1024, bracket, left, right, env)
}
