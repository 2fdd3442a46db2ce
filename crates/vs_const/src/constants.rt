//! Constants: their values and numbers (IEEE 1364-2005, 4.10, 5.4.1 and 5.5.2).

ghost use Rattle.std.specs.Prelude.{◌≡◌, ◌≤◌, IfOk, IfErr, IfSome, Ok, length};
ghost use Rattle.vs_grammar.specs.Shapes.{IsExpr};
ghost use Rattle.vs_ast.specs.Views as view;
ghost use Rattle.vs_const.specs.Meanings.{IsFair};
ghost use Rattle.vs_design.specs.Expressions as E;
ghost use Rattle.vs_const.specs.Expressions as expr;
ghost use Rattle.vs_const.specs.Constants.{HasRoom, width_in, value_in, value_of, constant_answer, number_answer, IsErrorOf};
ghost use Rattle.vs_const.specs.Forms.{expression, IsValued};

use crate::checks::{check, numbered};
use crate::error::ConstError;
use crate::forms::{Form, own, shape, value};
use crate::found::Found;
use crate::names::{Constant, Env};
use std::alloc::Global;
use vs_ast::Expr;
use vs_base::Context;

/// The value of an expression, by itself or in a context.
fn valued(f: &Form, context: Option<Context>) -> Constant
    requires valued { IsValued f.now }
    requires most { IfSome context (λ s. s.width ≤ 64) }
    requires fits { IfSome context (λ s. E.width (expression f.now) ≤ s.width) }
    ensures bits { result.bits ≡ (value_in (expression f.now) context).bits }
    ensures signed { result.signed ≡ (value_in (expression f.now) context).signed }
    ensures length { length result.bits ≡ width_in (expression f.now) context }
{
    match context {
        None => Constant {
            bits: own(f),
            signed: shape(f).signed,
        },
        Some(s) => Constant {
            bits: value(f, s.width, s.signed),
            signed: s.signed,
        },
    }
}

/// The value of a constant expression. By itself it has its own length and sign (5.4.1, 5.5.1); in a context it has those of the context,
/// whose width is from the expression's own to 64 bits (5.5.2). Bits may be x or z. There is no value where no rule is broken and a fault
/// elsewhere leaves the value of a name undefined.
///
/// An error is the first rule that is broken, at a token of the text. Where several are, it is the one at the least token, and there the one
/// with the least number:
/// - `NotConstant`: a signal is named (4.10).
/// - `UnknownConstant`: a count, a bound, a width or the argument of `$clog2` has unknown bits.
/// - `UnknownName`: a name has no declaration.
/// - `BadRange`: a bound isn't from 0 to 65,535, a width or a count isn't from 1 to 64, `[a:b]` has over 64 bits or goes against the declared direction
///   (5.2.1), or an expression that names no signal has over 64 bits.
/// - `WrongKind`: a name of another kind, or a literal without a size in a concatenation (5.1.14).
///
/// `Memory` may be answered in place of anything.
pub fn constant<E: Env>(
    alloc: Global,
    e: &Expr,
    env: &E,
    context: Option<Context>,
) -> Result<Option<Constant>, ConstError>
    requires shaped { IsExpr (view.expr e.now) }
    requires fair { IsFair (E.names env.now) }
    requires room { IfSome context (HasRoom (expr.constant (view.expr e.now) (E.names env.now))) }
    ensures value { IfOk result (λ v. constant_answer (view.expr e.now) (E.names env.now) context ≡ Ok (value_of v)) }
    // by which a caller can choose a context
    ensures length { IfOk result (λ v. IfSome v (λ c.
        length c.bits ≡ width_in (expr.constant (view.expr e.now) (E.names env.now)).expression context)) }
    ensures fault { IfErr result (λ error. IsErrorOf error (constant_answer (view.expr e.now) (E.names env.now) context)) }
{
    let Found { said, form } = check(alloc, e, env, true)?;
    match said.flaws.first {
        Some(fault) => Err(ConstError::Broken(fault)),
        None => match form {
            None => Ok(None),
            Some(f) => Ok(Some(valued(&f, context))),
        },
    }
}

/// The number of a constant expression, in two's complement where it is signed. There is none where no rule is broken and a fault elsewhere
/// leaves the value of a name undefined.
///
/// The errors are those of `constant`, and `UnknownConstant` at the expression's first token where its value has unknown bits.
pub fn number<E: Env>(alloc: Global, e: &Expr, env: &E) -> Result<Option<i128>, ConstError>
    requires shaped { IsExpr (view.expr e.now) }
    requires fair { IsFair (E.names env.now) }
    ensures value { IfOk result (λ n. number_answer (view.expr e.now) (E.names env.now) ≡ Ok n) }
    ensures fault { IfErr result (λ error. IsErrorOf error (number_answer (view.expr e.now) (E.names env.now))) }
{
    let n = numbered(alloc, e, env)?;
    match n.flaws.first {
        Some(fault) => Err(ConstError::Broken(fault)),
        None => Ok(n.number),
    }
}
