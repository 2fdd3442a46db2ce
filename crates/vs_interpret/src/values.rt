//! The value of an expression in a context (IEEE 1364-2005, 5.4 and 5.5).

ghost use Rattle.std.specs.Prelude.{◌≡◌, ◌≤◌, ◌<◌, ◌+◌, length, map, true, IfOk, OnOk};
ghost use Rattle.vs_four.specs.Lengths.{extend};
ghost use Rattle.vs_four.specs.Selects.{range_length, select};
ghost use Rattle.vs_net.specs.Network.{write_all};
ghost use Rattle.vs_design.specs.Expressions as E;
ghost use Rattle.vs_design.specs.Fits.{fits, source_length};
ghost use Rattle.vs_design.specs.Values as V;
ghost use Rattle.vs_design.specs.Within.{names_within, signal_within, source_within};
ghost use Rattle.vs_flat.specs.Arena.{bit_count, declared_at};
ghost use Rattle.vs_flat.specs.Named.{locals_in};
ghost use Rattle.vs_flat.specs.Targets.{source_of};
ghost use Rattle.vs_flat.specs.Trees.{joined};
ghost use Rattle.vs_interpret.specs.Called.{IsCallee};
ghost use Rattle.vs_writes.specs.Held.{state_of};
ghost use Rattle.vs_sets.specs.Calls.{IsCall, arguments_of, function_of};
ghost use Rattle.vs_sets.specs.FitParts.{Is64};
ghost use Rattle.vs_sets.specs.Nodes.{EachBelow, signal_of, tree_of};

use crate::calls::{Callee, called, local_span};
use crate::evaluator::Evaluator;
use crate::statements::Runner;
use crate::words::{bits_at, put_bits};
use std::alloc::AllocError;
use vs_base::{BinaryOp, Context, UnaryOp, choose, copies, extended, extended_literal, selected};
use vs_design::value_law;
use vs_flat::Node;
use vs_four::{Bit4, Bits, cut, join, truth};
use vs_shape::{Part, copy_count, first_copy};
use vs_writes::Effect;

/// A value in the length of a context, extended by its sign.
fn in_context(value: Bits, context: Context) -> Bits
    requires no_shorter { length value ≤ context.width }
    requires few { context.width ≤ 64 }
    ensures { result ≡ extend context.width context.signed value }
{
    extended(value, context.width, context.signed)
}

impl Evaluator<'_> {
    /// The value of a select (IEEE 1364-2005, 5.2.1), by that of its index.
    fn select(&self, of: u32, part: Part, index: u32, address: Bits) -> Bits
        requires of_there { of < length self.now.shapes.now.nodes }
        requires index_there { index < length self.now.shapes.now.nodes }
        requires within { source_within (length self.now.values.now) (source_of (tree_of self.now.shapes.now of)) ≡ true }
        requires few { Is64 part.width }
        requires range { range_length part.range ≡ source_length (source_of (tree_of self.now.shapes.now of)) }
        ensures value { result ≡ select part (E.sign (tree_of self.now.shapes.now index)) (V.source_value (state_of self.now.values.now) (source_of (tree_of self.now.shapes.now of))) address }
        ensures length { length result ≡ part.width }
    {
        let vector = self.source_value(of);
        let signed = self.shapes.shape(index).signed;
        selected(vector, part.range, address, signed, part.up, part.width)
    }

    /// The value of a part of a word of a memory (IEEE 1364-2005, 5.2.2), by those of its address and of its index.
    fn word_part(
        &self,
        signal: u32,
        address: u32,
        part: Part,
        index: u32,
        address_value: Bits,
        index_value: Bits,
    ) -> Bits
        requires memory { signal < length self.now.shapes.now.signals }
        requires address_there { address < length self.now.shapes.now.nodes }
        requires index_there { index < length self.now.shapes.now.nodes }
        requires within { signal_within (length self.now.values.now) (signal_of self.now.shapes.now signal) ≡ true }
        requires few { Is64 part.width }
        requires range { range_length part.range ≡ E.word_length (signal_of self.now.shapes.now signal) }
        ensures value { result ≡ select part (E.sign (tree_of self.now.shapes.now index)) (V.select_word (signal_of self.now.shapes.now signal) (E.sign (tree_of self.now.shapes.now address)) (V.read (state_of self.now.values.now) (V.bits_of_signal (signal_of self.now.shapes.now signal))) address_value) index_value }
        ensures length { length result ≡ part.width }
    {
        let signed = self.shapes.shape(address).signed;
        let word = self.word_value(signal, signed, address_value);
        let signed = self.shapes.shape(index).signed;
        selected(word, part.range, index_value, signed, part.up, part.width)
    }

    /// The value of expression e in a context of at most 64 bits.
    #[cycle(evaluating)]
    pub(crate) fn value(&self, e: u32, context: Context) -> Result<Bits, AllocError>
        requires there { e < length self.now.shapes.now.nodes }
        requires fit { fits (tree_of self.now.shapes.now e) ≡ true }
        requires within { names_within (length self.now.values.now) (tree_of self.now.shapes.now e) ≡ true }
        requires wide { E.width (tree_of self.now.shapes.now e) ≤ context.width }
        requires few { context.width ≤ 64 }
        ensures value { IfOk result (λ v. v ≡ V.value (tree_of self.now.shapes.now e) context.width context.signed (state_of self.now.values.now)) }
        ensures length { IfOk result (λ v. length v ≡ context.width) }
    {
        value_law();
        self.node_value(e, context)
    }

    /// The value of an expression that stands by itself.
    #[cycle(evaluating)]
    pub(crate) fn own_value(&self, e: u32) -> Result<Bits, AllocError>
        requires there { e < length self.now.shapes.now.nodes }
        requires fit { fits (tree_of self.now.shapes.now e) ≡ true }
        requires within { names_within (length self.now.values.now) (tree_of self.now.shapes.now e) ≡ true }
        ensures value { IfOk result (λ v. v ≡ V.own_value (tree_of self.now.shapes.now e) (state_of self.now.values.now)) }
        ensures length { IfOk result (λ v. length v ≡ E.width (tree_of self.now.shapes.now e)) }
    {
        self.value(e, self.own_context(e))
    }

    /// The value of a right side for a target of this length (IEEE 1364-2005, 5.5.3): in the larger of both lengths and its own sign, and then cut.
    #[cycle(evaluating)]
    pub(crate) fn assigned_value(&self, e: u32, len: u32) -> Result<Bits, AllocError>
        requires there { e < length self.now.shapes.now.nodes }
        requires fit { fits (tree_of self.now.shapes.now e) ≡ true }
        requires within { names_within (length self.now.values.now) (tree_of self.now.shapes.now e) ≡ true }
        requires some { 1 ≤ len }
        requires few { len ≤ 64 }
        ensures value { IfOk result (λ v. v ≡ V.assigned_value (tree_of self.now.shapes.now e) len (state_of self.now.values.now)) }
        ensures length { IfOk result (λ v. length v ≡ len) }
    {
        value_law();
        let own = self.own_context(e);
        let context = Context {
            width: own.width.max(len),
            signed: own.signed,
        };
        let value = self.value(e, context)?;
        Ok(cut(value, len))
    }

    /// The value of expression e, by what it is.
    #[cycle(evaluating)]
    fn node_value(&self, e: u32, context: Context) -> Result<Bits, AllocError>
        requires there { e < length self.now.shapes.now.nodes }
        requires fit { fits (tree_of self.now.shapes.now e) ≡ true }
        requires within { names_within (length self.now.values.now) (tree_of self.now.shapes.now e) ≡ true }
        requires wide { E.width (tree_of self.now.shapes.now e) ≤ context.width }
        requires few { context.width ≤ 64 }
        ensures { IfOk result (λ v. v ≡ V.value (tree_of self.now.shapes.now e) context.width context.signed (state_of self.now.values.now)) }
    {
        match self.node(e) {
            Node::Literal { bits, sized, .. } => Ok(extended_literal(
                *bits,
                context.width,
                context.signed,
                *sized,
            )),
            Node::Name { .. } | Node::Local { .. } => Ok(in_context(self.named_value(e), context)),
            Node::Bit { of, range, index } => {
                let part = Part {
                    range: *range,
                    up: true,
                    width: 1,
                };
                let address = self.own_value(*index)?;
                Ok(in_context(self.select(*of, part, *index, address), context))
            }
            Node::Part {
                of,
                range,
                base,
                up,
                width,
            } => {
                let part = Part {
                    range: *range,
                    up: *up,
                    width: *width,
                };
                let address = self.own_value(*base)?;
                Ok(in_context(self.select(*of, part, *base, address), context))
            }
            Node::Word { signal, index } => {
                let address = self.own_value(*index)?;
                let signed = self.shapes.shape(*index).signed;
                Ok(in_context(self.word_value(*signal, signed, address), context))
            }
            Node::WordPart {
                signal,
                address,
                range,
                base,
                up,
                width,
            } => {
                let part = Part {
                    range: *range,
                    up: *up,
                    width: *width,
                };
                let place = self.own_value(*address)?;
                let index = self.own_value(*base)?;
                let value = self.word_part(*signal, *address, part, *base, place, index);
                Ok(in_context(value, context))
            }
            Node::Unary { op, a } => self.unary(e, *op, *a, context),
            Node::Binary { op, a, b } => self.binary(e, *op, *a, *b, context),
            Node::Choice { c, p, q } => self.choice(e, *c, *p, *q, context),
            Node::Join { parts } => {
                let copy = self.joined(e, first_copy(parts.as_slice()))?;
                let count = copy_count(parts.as_slice()) as u32;
                Ok(in_context(copies(count, copy), context))
            }
            Node::Call {
                function,
                arguments,
            } => {
                let value = self.call(e, *function, arguments.as_slice())?;
                Ok(in_context(value, context))
            }
        }
    }

    /// The value of an operator of one operand, which expression e is.
    #[cycle(evaluating)]
    fn unary(&self, e: u32, op: UnaryOp, a: u32, context: Context) -> Result<Bits, AllocError>
        requires there { e < length self.now.shapes.now.nodes }
        requires before { a < e }
        requires fit { fits (tree_of self.now.shapes.now a) ≡ true }
        requires within { names_within (length self.now.values.now) (tree_of self.now.shapes.now a) ≡ true }
        requires wide { E.width (E.Unary op (tree_of self.now.shapes.now a)) ≤ context.width }
        requires few { context.width ≤ 64 }
        ensures { IfOk result (λ v. v ≡ V.value (E.Unary op (tree_of self.now.shapes.now a)) context.width context.signed (state_of self.now.values.now)) }
    {
        value_law();
        let operand = op.operand(context, self.own_context(a));
        let value = self.value(a, operand)?;
        let result = op.apply(value);
        Ok(in_context(result, context))
    }

    /// The value of an operator of two operands, which expression e is.
    #[cycle(evaluating)]
    fn binary(
        &self,
        e: u32,
        op: BinaryOp,
        a: u32,
        b: u32,
        context: Context,
    ) -> Result<Bits, AllocError>
        requires there { e < length self.now.shapes.now.nodes }
        requires a_before { a < e }
        requires b_before { b < e }
        requires a_fit { fits (tree_of self.now.shapes.now a) ≡ true }
        requires b_fit { fits (tree_of self.now.shapes.now b) ≡ true }
        requires a_within { names_within (length self.now.values.now) (tree_of self.now.shapes.now a) ≡ true }
        requires b_within { names_within (length self.now.values.now) (tree_of self.now.shapes.now b) ≡ true }
        requires wide { E.width (E.Binary op (tree_of self.now.shapes.now a) (tree_of self.now.shapes.now b)) ≤ context.width }
        requires few { context.width ≤ 64 }
        ensures { IfOk result (λ v. v ≡ V.value (E.Binary op (tree_of self.now.shapes.now a) (tree_of self.now.shapes.now b)) context.width context.signed (state_of self.now.values.now)) }
    {
        value_law();
        let left = self.own_context(a);
        let right = self.own_context(b);
        let way = op.way();
        let first_context = way.left(context, left, right);
        let first = self.value(a, first_context)?;
        let second_context = way.right(context, left, right);
        let second = self.value(b, second_context)?;
        let result = op.apply(first_context.signed, second_context.signed, first, second);
        Ok(in_context(result, context))
    }

    /// The value of `c ? p : q` (IEEE 1364-2005, 5.1.13), which expression e is.
    #[cycle(evaluating)]
    fn choice(&self, e: u32, c: u32, p: u32, q: u32, context: Context) -> Result<Bits, AllocError>
        requires there { e < length self.now.shapes.now.nodes }
        requires c_before { c < e }
        requires p_before { p < e }
        requires q_before { q < e }
        requires c_fit { fits (tree_of self.now.shapes.now c) ≡ true }
        requires p_fit { fits (tree_of self.now.shapes.now p) ≡ true }
        requires q_fit { fits (tree_of self.now.shapes.now q) ≡ true }
        requires c_within { names_within (length self.now.values.now) (tree_of self.now.shapes.now c) ≡ true }
        requires p_within { names_within (length self.now.values.now) (tree_of self.now.shapes.now p) ≡ true }
        requires q_within { names_within (length self.now.values.now) (tree_of self.now.shapes.now q) ≡ true }
        requires wide { E.width (E.Choice (tree_of self.now.shapes.now c) (tree_of self.now.shapes.now p) (tree_of self.now.shapes.now q)) ≤ context.width }
        requires few { context.width ≤ 64 }
        ensures { IfOk result (λ v. v ≡ V.value (E.Choice (tree_of self.now.shapes.now c) (tree_of self.now.shapes.now p) (tree_of self.now.shapes.now q)) context.width context.signed (state_of self.now.values.now)) }
    {
        let condition = self.own_value(c)?;
        let first = self.value(p, context)?;
        let second = self.value(q, context)?;
        Ok(choose(truth(condition), first, second))
    }

    /// The value of parts of a concatenation (IEEE 1364-2005, 5.1.14) in expression e.
    #[cycle(evaluating)]
    fn joined(&self, e: u32, parts: &[u32]) -> Result<Bits, AllocError>
        requires there { e < length self.now.shapes.now.nodes }
        requires before { EachBelow e parts.now }
        requires some { 1 ≤ length parts.now }
        requires few { E.width (joined (map (tree_of self.now.shapes.now) parts.now)) ≤ 64 }
        requires fit { fits (joined (map (tree_of self.now.shapes.now) parts.now)) ≡ true }
        requires within { names_within (length self.now.values.now) (joined (map (tree_of self.now.shapes.now) parts.now)) ≡ true }
        ensures value { IfOk result (λ v. v ≡ V.own_value (joined (map (tree_of self.now.shapes.now) parts.now)) (state_of self.now.values.now)) }
        ensures length { IfOk result (λ v. length v ≡ E.width (joined (map (tree_of self.now.shapes.now) parts.now))) }
    {
        value_law();
        let mut whole = self.own_value(parts[0])?;
        for n in 1..parts.len() {
            let part = self.own_value(parts[n])?;
            whole = join(whole, part);
        }
        Ok(whole)
    }

    /// Gives the inputs of a function among the values of its own bits those of the arguments of call e, each as assigned to its input (IEEE 1364-2005, 10.4.4).
    #[cycle(evaluating)]
    fn put_arguments(
        &self,
        e: u32,
        function: u32,
        arguments: &[u32],
        local: &mut [Bit4],
    ) -> Result<(), AllocError>
        requires there { e < length self.now.shapes.now.nodes }
        requires call { IsCall self.now.shapes.now (length self.now.values.now) e function arguments.now }
        requires many { length local.old ≡ bit_count (locals_in (declared_at self.now.shapes.now function)) }
        ensures { OnOk result (state_of local.new ≡ V.argument_state (arguments_of self.now.shapes.now arguments.now) (function_of self.now.shapes.now function).header.inputs (state_of self.now.values.now) (state_of local.old)) }
    {
        for n in 0..arguments.len() {
            let input = local_span(self.shapes, function, n);
            let value = self.assigned_value(arguments[n], input.len as u32)?;
            put_bits(local, input.first, value);
        }
        Ok(())
    }

    /// Runs the function of call e on the values of its own bits: its inputs get those of the arguments, and then its statement runs.
    #[cycle(evaluating)]
    fn run_function(
        &self,
        e: u32,
        function: u32,
        arguments: &[u32],
        callee: Callee,
        local: &mut [Bit4],
    ) -> Result<(), AllocError>
        requires there { e < length self.now.shapes.now.nodes }
        requires call { IsCall self.now.shapes.now (length self.now.values.now) e function arguments.now }
        requires callee { IsCallee self.now.shapes.now function callee }
        requires many { length local.old ≡ callee.len }
        ensures { let begin = V.argument_state (arguments_of self.now.shapes.now arguments.now) (function_of self.now.shapes.now function).header.inputs (state_of self.now.values.now) (state_of local.old) in OnOk result (state_of local.new ≡ write_all begin (V.body (function_of self.now.shapes.now function).statement begin).writes) }
    {
        self.put_arguments(e, function, arguments, local)?;
        let runner = Runner {
            alloc: self.alloc,
            shapes: self.shapes,
            nodes: callee.nodes,
        };
        let mut done = Effect::new(self.alloc);
        runner.run(callee.statement, local, &mut done)
    }

    /// The value of call e of a function (IEEE 1364-2005, 10.4.3), before it is extended: what its statement leaves in its result.
    #[cycle(evaluating)]
    fn call(&self, e: u32, function: u32, arguments: &[u32]) -> Result<Bits, AllocError>
        requires there { e < length self.now.shapes.now.nodes }
        requires call { IsCall self.now.shapes.now (length self.now.values.now) e function arguments.now }
        ensures value { let begin = V.argument_state (arguments_of self.now.shapes.now arguments.now) (function_of self.now.shapes.now function).header.inputs (state_of self.now.values.now) V.unset in IfOk result (λ v. v ≡ V.read (write_all begin (V.body (function_of self.now.shapes.now function).statement begin).writes) (V.bits_of_signal (function_of self.now.shapes.now function).header.result)) }
        ensures length { IfOk result (λ v. length v ≡ E.signal_length (function_of self.now.shapes.now function).header.result) }
    {
        let callee = called(self.shapes, function);
        let mut local = vec![in self.alloc; Bit4::X; callee.len]?;
        self.run_function(e, function, arguments, callee, local.as_mut_slice())?;
        Ok(bits_at(local.as_slice(), callee.result))
    }
}
