//! What expressions say that stand in a body (IEEE 1364-2005, clause 5).

ghost use Rattle.std.specs.Prelude.{◌≡◌, ◌≤◌, false, IfOk, length, map};
ghost use Rattle.vs_four.specs.declared.Bit4.TheVariants.{X};
ghost use Rattle.vs_design.specs.Values as V;
ghost use Rattle.vs_grammar.specs.Shapes.{IsExpr, Each};
ghost use Rattle.vs_ast.specs.Views as view;
ghost use Rattle.vs_const.specs.Meanings.{IsFair};
ghost use Rattle.vs_const.specs.Expressions.{typed};
ghost use Rattle.vs_const.specs.Forms.{expression, IsValued};
ghost use Rattle.vs_elaborated.specs.Statements.{typed_list};
ghost use Rattle.vs_bodies.specs.Told as spec;

use crate::told::{Told, broken, with};
use std::alloc::{AllocError, Global};
use vs_ast::Expr;
use vs_const::{Env, Form, check, shape, value};
use vs_four::{Bits, cut};

/// What an expression says that needs no constant.
pub(crate) fn value_told<E: Env>(alloc: Global, e: &Expr, env: &E) -> Result<Told, AllocError>
    requires shaped { IsExpr (view.expr e.now) }
    requires fair { IsFair (E.names env.now) }
    ensures { IfOk result (λ w. w ≡ spec.told_value (typed (view.expr e.now) (E.names env.now) false)) }
{
    let found = check(alloc, e, env, false)?;
    Ok(broken(found.said.flaws.first, found.said.depth))
}

/// What the labels of an arm say (9.5).
pub(crate) fn labels_told<E: Env>(
    alloc: Global,
    labels: &[Expr],
    env: &E,
) -> Result<Told, AllocError>
    requires shaped { Each IsExpr (map view.expr labels.now) }
    requires fair { IsFair (E.names env.now) }
    ensures { IfOk result (λ w. w ≡ spec.told_labels (typed_list (map view.expr labels.now) (E.names env.now))) }
{
    let mut told = broken(None, 0);
    for label in labels {
        let one = value_told(alloc, label, env)?;
        told = with(told, one);
    }
    Ok(told)
}

/// The value in a length: in the larger of both lengths and its own sign, and then cut (5.5.3, 5.6).
pub fn assigned(f: &Form, width: u32) -> Bits
    requires valued { IsValued f.now }
    requires some { 1 ≤ width }
    requires most { width ≤ 64 }
    ensures value { result ≡ V.assigned_value (expression f.now) width (λ b. X) }
    ensures length { length result ≡ width }
{
    let s = shape(f);
    cut(value(f, s.width.max(width), s.signed), width)
}
