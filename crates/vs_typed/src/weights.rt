//! What expressions cost.

ghost use Rattle.std.specs.Prelude.{◌≡◌, ◌≤◌, ◌<◌, ◌+◌, ◌^◌, ◌&&◌, ℕ, None, Some, length, map, max, if◌then◌else◌, slice_get, slice_index_or, sum_by, true, unwrap_or};
ghost use Rattle.vs_design.specs.Expressions as E;
ghost use Rattle.vs_design.specs.Fits.{is_fit};
ghost use Rattle.vs_design.specs.Sizes as S;
ghost use Rattle.vs_flat.specs.Arena.{declared_at, node_at, signal_length};
ghost use Rattle.vs_flat.specs.DesignOf.{arena_signals, header_in};
ghost use Rattle.vs_flat.specs.Trees.{signal_at, signal_of, signals_from};
ghost use Rattle.vs_flat.specs.declared.expressions.Node.TheVariants.{Call};
ghost use Rattle.vs_shape.specs.Nodes.{HasCalls, HasNames, tree_of, place_of, tree_of_node};
ghost use Rattle.vs_sets.specs.FitParts.{FitParts};
ghost use Rattle.vs_typed.specs.Reach.{CallsFirst, node_reach};
ghost use Rattle.vs_typed.specs.Weights.{AreWeights, EachFits, binary_own, call_inputs, capped, input_weight, own_weight, own_weights, select_weight, word_weight};

use crate::nodes::node_in;
use crate::operators::{binary_weight, is_shift, operand_width, operand_widths, unary_weight};
use crate::sums::{plus, times};
use crate::words::address_weight;
use vs_base::BinaryOp;
use vs_flat::{Node, Signal, bits_of, lawful_law, trees_law};
use vs_four::Range;
use vs_shape::{Shapes, first_copy};

/// How many bits an operand has, and whether it names no signal.
#[derive(Clone, Copy, Debug)]
pub(crate) struct Operand {
    pub(crate) width: u64,
    pub(crate) constant: bool,
}

/// Expression e, which calls the first functions alone, as an operand.
pub(crate) fn as_operand(shapes: &Shapes, functions: usize, e: u32) -> Operand
    requires few { functions ≤ length shapes.now.bodies }
    requires there { e < node_reach shapes.now functions }
    requires fit { is_fit (tree_of shapes.now e) ≡ true }
    ensures width { result.width ≡ E.width (tree_of shapes.now e) }
    ensures constant { result.constant ≡ E.is_constant (tree_of shapes.now e) }
{
    let _ = node_in(shapes, functions, e);
    let shape = shapes.shape(e);
    Operand {
        width: u64::from(shape.width),
        constant: shape.constant,
    }
}

/// Expression e, which calls the first functions alone, with what holds of its parts.
fn fit_node(shapes: &Shapes, functions: usize, e: u32) -> &Node
    requires few { functions ≤ length shapes.now.bodies }
    requires there { e < node_reach shapes.now functions }
    requires fit { is_fit (tree_of shapes.now e) ≡ true }
    ensures is { node_at shapes.now e ≡ Some result.now }
    ensures there { e < length shapes.now.nodes }
    ensures names { HasNames (length shapes.now.signals) e result.now }
    ensures calls { HasCalls shapes.now result.now }
    ensures first { CallsFirst functions result.now }
    ensures tree { tree_of shapes.now e ≡ E.At (place_of shapes.now e) (tree_of_node shapes.now result.now) }
    ensures parts { FitParts (tree_of_node shapes.now result.now) }
{
    node_in(shapes, functions, e)
}

/// What an operator of two operands costs by itself. On constants it costs nothing, nor does a shift by a constant.
fn operator_weight(op: BinaryOp, w: u64, a: Operand, b: Operand) -> u64
    ensures { result ≡ capped (binary_own op w a.width a.constant b.width b.constant) }
{
    if (a.constant && b.constant) || (is_shift(op) && b.constant) {
        return 0;
    }
    binary_weight(op, w, a.width, b.width)
}

/// What a `?:` costs by itself.
fn choice_weight(w: u64, c: Operand, p: Operand, q: Operand) -> u64
    ensures { result ≡ capped (if c.constant && p.constant && q.constant then 0 else (w + c.width)) }
{
    if c.constant && p.constant && q.constant {
        return 0;
    }
    plus(w, c.width)
}

/// The inputs of the function that expression e calls. It has as many arguments (IEEE 1364-2005, 10.4.3).
fn inputs_of<'a>(shapes: &'a Shapes, e: u32, function: u32, arguments: &[u32]) -> &'a [Signal]
    requires there { e < length shapes.now.nodes }
    requires is { node_at shapes.now e ≡ Some (Call function arguments.now) }
    requires function { function < length shapes.now.functions }
    ensures inputs { (header_in (declared_at shapes.now function)).inputs ≡ signals_from 0 result.now }
    ensures as_many { length arguments.now ≡ length result.now }
    ensures short { (k : ℕ) (s : Signal) → slice_get result.now k ≡ Some s → signal_length s < 2 ^ 32 }
{
    trees_law();
    lawful_law();
    let _ = shapes.node(e);
    let declared = &shapes.flat().function(function).function;
    &declared.signals.as_slice()[..declared.inputs as usize]
}

/// What the statement of function f weighs.
fn callee_weight(table: &[Option<u64>], f: u32) -> u64
    requires { f < length table.now }
    ensures { result ≡ unwrap_or (slice_index_or table.now f None) 0 }
{
    table[f as usize].unwrap_or(0)
}

/// The total with what expression e costs in a context of w bits, its operands included. What it calls has its weight in the table.
#[cycle(weighing)]
pub(crate) fn add_weight(shapes: &Shapes, table: &[Option<u64>], e: u32, w: u64, total: u64) -> u64
    requires table { AreWeights shapes.now table.now }
    requires there { e < node_reach shapes.now (length table.now) }
    requires fit { is_fit (tree_of shapes.now e) ≡ true }
    ensures { result ≡ capped (total + S.weight (tree_of shapes.now e) w) }
{
    match fit_node(shapes, table.len(), e) {
        Node::Literal { .. } => total,
        Node::Name { .. } => total,
        Node::Local { .. } => total,
        Node::Bit {
            of: _,
            range,
            index,
        } => add_select(shapes, table, e, *range, 1, *index, total),
        Node::Part {
            of: _,
            range,
            base,
            up: _,
            width,
        } => add_select(shapes, table, e, *range, u64::from(*width), *base, total),
        Node::Word { signal, index } => add_word(shapes, table, e, *signal, *index, total),
        Node::WordPart {
            signal,
            address,
            range,
            base,
            up: _,
            width,
        } => {
            let word = add_word(shapes, table, e, *signal, *address, total);
            add_select(shapes, table, e, *range, u64::from(*width), *base, word)
        }
        Node::Unary { op, a } => {
            let x = as_operand(shapes, table.len(), *a);
            if x.constant {
                return total;
            }
            let sum = plus(total, unary_weight(*op, w, x.width));
            add_weight(shapes, table, *a, operand_width(*op, w, x.width), sum)
        }
        Node::Binary { op, a, b } => {
            let x = as_operand(shapes, table.len(), *a);
            let y = as_operand(shapes, table.len(), *b);
            let widths = operand_widths(*op, w, x.width, y.width);
            let own = plus(total, operator_weight(*op, w, x, y));
            let sum = add_weight(shapes, table, *a, widths.0, own);
            add_weight(shapes, table, *b, widths.1, sum)
        }
        Node::Choice { c, p, q } => {
            let x = as_operand(shapes, table.len(), *c);
            let y = as_operand(shapes, table.len(), *p);
            let z = as_operand(shapes, table.len(), *q);
            let own = plus(total, choice_weight(w, x, y, z));
            let sum = add_weight(shapes, table, *c, x.width, own);
            let left = add_weight(shapes, table, *p, w, sum);
            add_weight(shapes, table, *q, w, left)
        }
        Node::Join { parts } => add_parts(shapes, table, e, first_copy(parts.as_slice()), total),
        Node::Call {
            function,
            arguments,
        } => {
            let inputs = inputs_of(shapes, e, *function, arguments.as_slice());
            let sum = add_arguments(shapes, table, e, inputs, arguments.as_slice(), total);
            plus(sum, callee_weight(table, *function))
        }
    }
}

/// The total with what the arguments of a call cost, each in the larger of its own length and its input's, and with the bits of the inputs that count.
#[cycle(weighing)]
fn add_arguments(
    shapes: &Shapes,
    table: &[Option<u64>],
    e: u32,
    inputs: &[Signal],
    arguments: &[u32],
    total: u64,
) -> u64
    requires table { AreWeights shapes.now table.now }
    requires there { e ≤ node_reach shapes.now (length table.now) }
    requires each { EachFits shapes.now e arguments.now }
    requires as_many { length arguments.now ≡ length inputs.now }
    requires short { (k : ℕ) (s : Signal) → slice_get inputs.now k ≡ Some s → signal_length s < 2 ^ 32 }
    ensures { result ≡ capped (total + call_inputs (map (tree_of shapes.now) arguments.now) (signals_from 0 inputs.now)) }
{
    let mut sum = total;
    for k in 0..arguments.len() {
        sum = add_argument(shapes, table, e, &inputs[k], arguments[k], sum);
    }
    sum
}

/// How many bits of an input count: none of one that passes a signal of the module.
fn counted_bits(input: &Signal) -> u64
    requires { signal_length input.now < 2 ^ 32 }
    ensures { result ≡ input_weight input.now }
{
    if input.net {
        0
    } else {
        u64::from(bits_of(input))
    }
}

/// The total with what this argument costs, and with the bits of its input that count.
#[cycle(weighing)]
fn add_argument(
    shapes: &Shapes,
    table: &[Option<u64>],
    e: u32,
    input: &Signal,
    argument: u32,
    total: u64,
) -> u64
    requires table { AreWeights shapes.now table.now }
    requires there { e ≤ node_reach shapes.now (length table.now) }
    requires before { argument < e }
    requires fit { is_fit (tree_of shapes.now argument) ≡ true }
    requires short { signal_length input.now < 2 ^ 32 }
    ensures { result ≡ capped (total + (input_weight input.now + S.weight (tree_of shapes.now argument) (max (E.width (tree_of shapes.now argument)) (signal_length input.now)))) }
{
    let bits = u64::from(bits_of(input));
    let width = as_operand(shapes, table.len(), argument).width.max(bits);
    add_weight(
        shapes,
        table,
        argument,
        width,
        plus(total, counted_bits(input)),
    )
}

/// The total with what a select of so many bits by this index costs. By a constant index it costs nothing.
#[cycle(weighing)]
fn add_select(
    shapes: &Shapes,
    table: &[Option<u64>],
    e: u32,
    range: Range,
    width: u64,
    index: u32,
    total: u64,
) -> u64
    requires table { AreWeights shapes.now table.now }
    requires there { e ≤ node_reach shapes.now (length table.now) }
    requires before { index < e }
    requires fit { is_fit (tree_of shapes.now index) ≡ true }
    ensures { result ≡ capped (total + select_weight width range (tree_of shapes.now index)) }
{
    let x = as_operand(shapes, table.len(), index);
    if x.constant {
        return total;
    }
    let own = times(width, times(range.length(), x.width));
    add_weight(shapes, table, index, x.width, plus(total, own))
}

/// The total with what a read of a word by this address costs (IEEE 1364-2005, 4.9.3), which a write of one adds too. By a constant address it costs nothing.
#[cycle(weighing)]
pub(crate) fn add_word(
    shapes: &Shapes,
    table: &[Option<u64>],
    e: u32,
    signal: u32,
    index: u32,
    total: u64,
) -> u64
    requires table { AreWeights shapes.now table.now }
    requires there { e ≤ node_reach shapes.now (length table.now) }
    requires memory { signal < length shapes.now.signals }
    requires before { index < e }
    requires fit { is_fit (tree_of shapes.now index) ≡ true }
    ensures { result ≡ capped (total + word_weight (signal_at (arena_signals shapes.now) signal) (tree_of shapes.now index)) }
{
    let x = as_operand(shapes, table.len(), index);
    if x.constant {
        return total;
    }
    let own = address_weight(shapes, signal, x.width);
    add_weight(shapes, table, index, x.width, plus(total, own))
}

/// The total with what expression e costs by itself.
#[cycle(weighing)]
pub(crate) fn add_own(shapes: &Shapes, table: &[Option<u64>], e: u32, total: u64) -> u64
    requires table { AreWeights shapes.now table.now }
    requires there { e < node_reach shapes.now (length table.now) }
    requires fit { is_fit (tree_of shapes.now e) ≡ true }
    ensures { result ≡ capped (total + own_weight (tree_of shapes.now e)) }
{
    let width = as_operand(shapes, table.len(), e).width;
    add_weight(shapes, table, e, width, total)
}

/// The total with what the parts of a concatenation cost, each by itself.
#[cycle(weighing)]
fn add_parts(shapes: &Shapes, table: &[Option<u64>], e: u32, parts: &[u32], total: u64) -> u64
    requires table { AreWeights shapes.now table.now }
    requires there { e ≤ node_reach shapes.now (length table.now) }
    requires each { EachFits shapes.now e parts.now }
    ensures { result ≡ capped (total + own_weights (map (tree_of shapes.now) parts.now)) }
{
    let mut sum = total;
    for part in parts {
        sum = add_own(shapes, table, *part, sum);
    }
    sum
}
