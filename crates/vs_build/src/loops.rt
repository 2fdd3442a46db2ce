//! The turns of loops (IEEE 1364-2005, 9.6).

ghost use Rattle.std.specs.Prelude.{◌≡◌, IfOk, IfSome, length};
ghost use Rattle.vs_grammar.specs.Shapes.{IsExpr};
ghost use Rattle.vs_ast.specs.Views as view;
ghost use Rattle.vs_const.specs.Meanings.{IsFair, turning};
ghost use Rattle.vs_const.specs.Expressions.{constant};
ghost use Rattle.vs_elaborated.specs.Statements as spec;
ghost use Rattle.vs_bodies.specs.Layers.{within};

use std::alloc::{AllocError, Global};
use vs_ast::{Expr, LoopHead};
use vs_bodies::{Inner, Surroundings, given_by, in_turn, tested_by};
use vs_const::Env;
use vs_four::Bits;

/// The value that an integer is given, which is a constant without a fault.
pub(crate) fn value_given<E: Env>(
    alloc: Global,
    e: &Expr,
    env: &E,
) -> Result<Option<Bits>, AllocError>
    requires shaped { IsExpr (view.expr e.now) }
    requires fair { IsFair (E.names env.now) }
    ensures given { IfOk result (λ b. b ≡ spec.given (constant (view.expr e.now) (E.names env.now))) }
    ensures length { IfOk result (λ b. IfSome b (λ v. length v ≡ 32)) }
{
    let given = given_by(alloc, e, env)?;
    Ok(given.bits)
}

/// Whether a loop goes on with this value of its integer.
pub(crate) fn goes_on<'b, S: Surroundings>(
    alloc: Global,
    head: &'b LoopHead,
    bits: Bits,
    here: &Inner<'_, 'b, S>,
) -> Result<bool, AllocError>
    requires shaped { IsExpr (view.loop_head head.now).test }
    requires fair { IsFair (turning (within (S.declared here.now.around.now) here.now.layers.now (S.names here.now.around.now)) (view.loop_head head.now).variable.bytes bits) }
    ensures { IfOk result (λ b. b ≡ spec.goes_on (constant (view.loop_head head.now).test (turning (within (S.declared here.now.around.now) here.now.layers.now (S.names here.now.around.now)) (view.loop_head head.now).variable.bytes bits))) }
{
    let layers = in_turn(&*here.layers, &head.variable, bits);
    let inner = Inner {
        around: &*here.around,
        layers: &layers,
    };
    let test = tested_by(alloc, &head.test, &inner)?;
    Ok(test.goes_on)
}
