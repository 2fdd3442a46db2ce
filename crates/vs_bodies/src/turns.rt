//! The heads of loops (IEEE 1364-2005, 9.6).

ghost use Rattle.std.specs.Prelude.{◌≡◌, ◌++◌, true, IfOk, IfSome, length};
ghost use Rattle.vs_four.specs.Tables.{is_one};
ghost use Rattle.vs_design.specs.Clocks.{same_name};
ghost use Rattle.vs_grammar.specs.Shapes.{IsExpr};
ghost use Rattle.vs_ast.specs.Views as view;
ghost use Rattle.vs_const.specs.Faults.{least};
ghost use Rattle.vs_const.specs.Expressions.{constant};
ghost use Rattle.vs_const.specs.Found.{AreValued, Keeps};
ghost use Rattle.vs_const.specs.Meanings.{IsFair, Meaning, Means};
ghost use Rattle.vs_const.specs.Typed.{Typed};
ghost use Rattle.vs_elaborated.specs.Statements as spec;
ghost use Rattle.vs_bodies.specs.Turns.{IsGiven, IsTested};

use crate::layers::is_same_name;
use crate::values::assigned;
use std::alloc::{AllocError, Global};
use vs_ast::{Expr, LoopHead};
use vs_const::{
    Env, Fault, Form, Found, Named, Rule, check, fault_at, fault_if, first_of, own, wrong_rule,
};
use vs_four::{Bit4, Bits, truth};

/// What an integer is given, and the first rule that the expression breaks; nothing where a fault leaves it undefined.
#[derive(Clone, Copy)]
pub struct Given {
    pub fault: Option<Fault>,
    pub bits: Option<Bits>,
}

/// Whether a loop goes on, and the first rule that its test breaks.
#[derive(Clone, Copy)]
pub struct Tested {
    pub fault: Option<Fault>,
    pub goes_on: bool,
}

/// The rule that a name breaks as what heads a loop: it is no integer, or one of a loop around.
fn variable_fault(named: &Named, place: u32) -> Option<Fault>
    ensures { (m : Meaning) → Means named.now m → result ≡ least (spec.variable_faults place m) }
{
    match named {
        Named::Barred(Rule::LoopVariable) => None,
        Named::Value { turns: true, .. } => fault_at(Rule::LoopVariable, place),
        _ => fault_at(wrong_rule(false, named), place),
    }
}

/// The rule that a name breaks which isn't that of the first assignment.
fn second_rule(named: &Named) -> Rule
    ensures { (m : Meaning) → Means named.now m → result ≡ spec.second_rule m }
{
    match named {
        Named::Unknown => Rule::UnknownName,
        _ => Rule::WrongKind,
    }
}

/// The first rule that the integer of a loop breaks.
pub(crate) fn head_fault<E: Env>(head: &LoopHead, env: &E) -> Option<Fault>
    ensures { result ≡ least (spec.variable_faults head.now.variable.place (E.names env.now head.now.variable.text) ++ spec.second_faults (view.loop_head head.now) (E.names env.now)) }
{
    let first = env.find(head.variable.text.as_slice());
    let second = env.find(head.again.text.as_slice());
    let is_same = is_same_name(head.variable.text.as_slice(), head.again.text.as_slice());
    first_of(
        variable_fault(&first, head.variable.place),
        fault_if(!is_same, second_rule(&second), head.again.place),
    )
}

/// A constant that is kept, converted as by an assignment to an integer (4.8).
fn kept_bits(form: Option<Form>) -> Option<Bits>
    requires { AreValued form }
    ensures given { (t : Typed) → Keeps true form t → result ≡ spec.given t }
    ensures length { IfSome result (λ b. length b ≡ 32) }
{
    match form {
        None => None,
        Some(f) => Some(assigned(&f, 32)),
    }
}

/// Whether a bit is 1.
fn is_one(bit: Bit4) -> bool
    ensures { result ≡ is_one bit }
{
    bit == Bit4::One
}

/// Whether the truth of a constant that is kept is 1.
fn is_true(form: Option<Form>) -> bool
    requires { AreValued form }
    ensures { (t : Typed) → Keeps true form t → result ≡ spec.goes_on t }
{
    match form {
        None => false,
        Some(f) => is_one(truth(own(&f))),
    }
}

/// What an integer is given, which is a constant.
pub fn given_by<E: Env>(alloc: Global, e: &Expr, env: &E) -> Result<Given, AllocError>
    requires shaped { IsExpr (view.expr e.now) }
    requires fair { IsFair (E.names env.now) }
    ensures { IfOk result (λ g. IsGiven g (constant (view.expr e.now) (E.names env.now))) }
{
    let Found { said, form } = check(alloc, e, env, true)?;
    Ok(Given {
        fault: said.flaws.first,
        bits: kept_bits(form),
    })
}

/// Whether the truth of a loop's test is 1.
pub fn tested_by<E: Env>(alloc: Global, e: &Expr, env: &E) -> Result<Tested, AllocError>
    requires shaped { IsExpr (view.expr e.now) }
    requires fair { IsFair (E.names env.now) }
    ensures { IfOk result (λ g. IsTested g (constant (view.expr e.now) (E.names env.now))) }
{
    let Found { said, form } = check(alloc, e, env, true)?;
    Ok(Tested {
        fault: said.flaws.first,
        goes_on: is_true(form),
    })
}
