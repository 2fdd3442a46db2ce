//! Expressions, assignments and statements of a design, on the values of its bits.

ghost use Rattle.std.specs.Prelude.{◌≡◌, ◌≤◌, ◌<◌, length, true, IfOk, OnOk};
ghost use Rattle.vs_net.specs.Network.{write_all};
ghost use Rattle.vs_design.specs.Bodies as B;
ghost use Rattle.vs_design.specs.Expressions as E;
ghost use Rattle.vs_design.specs.Fits.{fits, fits_statement};
ghost use Rattle.vs_design.specs.Values as V;
ghost use Rattle.vs_design.specs.Within.{names_within, statement_within, target_within};
ghost use Rattle.vs_writes.specs.Held.{state_of};
ghost use Rattle.vs_sets.specs.Nodes.{tree_of};
ghost use Rattle.vs_sets.specs.StatementParts.{statement_of};
ghost use Rattle.vs_sets.specs.TargetsOf.{IsTarget, target_tree};

use crate::evaluator::Evaluator;
use crate::statements::Runner;
use std::alloc::{AllocError, Global};
use vs_base::Context;
use vs_flat::names_law;
use vs_four::{Bit4, Bits};
use vs_shape::Shapes;
use vs_writes::{Effect, Update};

/// The value of expression e in a context of at most 64 bits, where the bits that it names have these values (IEEE 1364-2005, 5.4 and 5.5). Want of memory is the only error, here as in all that follows; it takes memory for the functions that are called.
pub fn value(
    alloc: Global,
    shapes: &Shapes,
    values: &[Bit4],
    e: u32,
    context: Context,
) -> Result<Bits, AllocError>
    requires there { e < length shapes.now.nodes }
    requires fit { fits (tree_of shapes.now e) ≡ true }
    requires within { names_within (length values.now) (tree_of shapes.now e) ≡ true }
    requires wide { E.width (tree_of shapes.now e) ≤ context.width }
    requires few { context.width ≤ 64 }
    ensures value { IfOk result (λ v. v ≡ V.value (tree_of shapes.now e) context.width context.signed (state_of values.now)) }
    ensures length { IfOk result (λ v. length v ≡ context.width) }
{
    let evaluator = Evaluator {
        alloc,
        shapes,
        values,
    };
    evaluator.value(e, context)
}

/// The value of expression e by itself.
pub fn own_value(
    alloc: Global,
    shapes: &Shapes,
    values: &[Bit4],
    e: u32,
) -> Result<Bits, AllocError>
    requires there { e < length shapes.now.nodes }
    requires fit { fits (tree_of shapes.now e) ≡ true }
    requires within { names_within (length values.now) (tree_of shapes.now e) ≡ true }
    ensures value { IfOk result (λ v. v ≡ V.own_value (tree_of shapes.now e) (state_of values.now)) }
    ensures length { IfOk result (λ v. length v ≡ E.width (tree_of shapes.now e)) }
{
    let evaluator = Evaluator {
        alloc,
        shapes,
        values,
    };
    evaluator.own_value(e)
}

/// The value of expression e for a target of 1 to 64 bits (IEEE 1364-2005, 5.5.3).
pub fn assigned_value(
    alloc: Global,
    shapes: &Shapes,
    values: &[Bit4],
    e: u32,
    len: u32,
) -> Result<Bits, AllocError>
    requires there { e < length shapes.now.nodes }
    requires fit { fits (tree_of shapes.now e) ≡ true }
    requires within { names_within (length values.now) (tree_of shapes.now e) ≡ true }
    requires some { 1 ≤ len }
    requires few { len ≤ 64 }
    ensures value { IfOk result (λ v. v ≡ V.assigned_value (tree_of shapes.now e) len (state_of values.now)) }
    ensures length { IfOk result (λ v. length v ≡ len) }
{
    let evaluator = Evaluator {
        alloc,
        shapes,
        values,
    };
    evaluator.assigned_value(e, len)
}

/// The writes of an assignment of expression e to a target, where the bits that they name have these values: each bit is written once (IEEE 1364-2005, 6.1 and 9.2).
pub fn assignment_writes(
    alloc: Global,
    shapes: &Shapes,
    values: &[Bit4],
    target: u32,
    e: u32,
) -> Result<Update, AllocError>
    requires target_there { target < length shapes.now.nodes }
    requires there { e < length shapes.now.nodes }
    requires target { IsTarget (tree_of shapes.now target) }
    requires fit { fits (tree_of shapes.now e) ≡ true }
    requires target_within { target_within (length values.now) (target_tree (tree_of shapes.now target)) ≡ true }
    requires within { names_within (length values.now) (tree_of shapes.now e) ≡ true }
    ensures { IfOk result (λ u. u ≡ B.assignment_writes (target_tree (tree_of shapes.now target)) (tree_of shapes.now e) (state_of values.now)) }
{
    let nodes = shapes.flat().expr_count();
    let runner = Runner {
        alloc,
        shapes,
        nodes,
    };
    runner.assignment_writes(target, e, values)
}

/// Executes statement s whole, where the bits that it names have these values (IEEE 1364-2005, 9.2 to 9.5): they get its blocking writes, and what it did is added to the effect. Where memory is wanting values and effect are left between.
pub fn run(
    alloc: Global,
    shapes: &Shapes,
    values: &mut [Bit4],
    s: u32,
    done: &mut Effect,
) -> Result<(), AllocError>
    requires there { s < length shapes.now.statements }
    requires fit { fits_statement (statement_of shapes.now s) ≡ true }
    requires within { statement_within (length values.old) (statement_of shapes.now s) ≡ true }
    ensures effect { OnOk result (done.new ≡ B.both_effects done.old (B.body (statement_of shapes.now s) (state_of values.old))) }
    ensures state { OnOk result (state_of values.new ≡ write_all (state_of values.old) (B.body (statement_of shapes.now s) (state_of values.old)).writes) }
{
    names_law();
    let nodes = shapes.flat().expr_count();
    let runner = Runner {
        alloc,
        shapes,
        nodes,
    };
    runner.run(s, values, done)
}
