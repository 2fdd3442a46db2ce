//! The sets of an expression's bits in a context (IEEE 1364-2005, 5.4 and 5.5).

ghost use Rattle.std.specs.Prelude.{◌≡◌, ◌≤◌, ◌<◌, ◌+◌, ◌*◌, ◌==◌, length, map, max, not, take, take_while, true, IfOk, OnOk};
ghost use Rattle.vs_four.specs.declared.Bit4.TheVariants.{X};
ghost use Rattle.vs_four.specs.Lengths.{repeat};
ghost use Rattle.vs_four.specs.Selects.{range_length};
ghost use Rattle.vs_design.specs.Expressions as E;
ghost use Rattle.vs_design.specs.Fits.{is_fit, is_division, source_length};
ghost use Rattle.vs_design.specs.Lifted as L;
ghost use Rattle.vs_design.specs.Sets as S;
ghost use Rattle.vs_design.specs.Values.{bits_of_signal, left_sign, left_width};
ghost use Rattle.vs_design.specs.Within.{names_within, signal_within, source_within};
ghost use Rattle.vs_flat.specs.Arena.{bit_count, declared_at};
ghost use Rattle.vs_flat.specs.Named.{locals_in};
ghost use Rattle.vs_flat.specs.Targets.{source_of};
ghost use Rattle.vs_flat.specs.Trees.{joined, first_copy, copy_count};
ghost use Rattle.vs_sets.specs.Calls.{IsCall, IsCallee, arguments_of, function_of};
ghost use Rattle.vs_sets.specs.FitParts.{FitParts, Is64};
ghost use Rattle.vs_sets.specs.Nodes.{EachBelow, signal_of, tree_of};
ghost use Rattle.vs_sets.specs.Operands.{AreLeftSets, AreRightSets};
ghost use Rattle.vs_sets.specs.PartSets.{part_sets};
ghost use Rattle.vs_sets.specs.Tables.{family_of};

use crate::bitwise::set_choose;
use crate::bodies::Runner;
use crate::calls::{Callee, called, local_span};
use crate::contexts::own_context;
use crate::defaults::Defaults;
use crate::folds::{all_of, set_or, variable};
use crate::lifter::Lifter;
use crate::lifts::{Lift, set_lift};
use crate::operators::{extend_sets, lift_binary, lift_unary, list_of};
use crate::table::put_run;
use crate::values::{at_places, shift, shift_by, shift_fill, surely_inside};
use crate::words::{all_words, memory_of, variable_each, word_at};
use crate::{Set4, SetList};
use std::alloc::AllocError;
use vs_base::{BinaryOp, Context, UnaryOp};
use vs_design::value_law;
use vs_flat::Node;
use vs_four::Bit4;
use vs_shape::{Part, copy_count, first_copy, places_of, word_place};

/// The sets in the length of a context, extended by its sign.
fn extended(list: SetList, context: Context) -> SetList
    requires { context.width ≤ 64 }
    ensures { result ≡ L.extend_sets context.width context.signed list }
{
    extend_sets(list, context.width as usize, context.signed)
}

impl Lifter<'_> {
    /// The sets of a select of a vector of these sets (IEEE 1364-2005, 5.2.1), by those of its index.
    fn taken(&self, vector: &SetList, part: Part, index: u32, index_sets: &SetList) -> SetList
        requires index_there { index < length self.now.shapes.now.nodes }
        requires fit { is_fit (tree_of self.now.shapes.now index) ≡ true }
        requires few { Is64 part.width }
        requires many { length index_sets.now ≡ E.width (tree_of self.now.shapes.now index) }
        ensures { result ≡ L.set_select part (tree_of self.now.shapes.now index) index_sets.now vector.now }
    {
        let shape = self.shapes.shape(index);
        if shape.constant {
            let places = places_of(part, shape.signed, self.shapes.constant_value(index));
            return at_places(&places, vector.as_slice());
        }
        let sure = surely_inside(part, shape.signed, index_sets.as_slice());
        let set = variable(index_sets.as_slice(), sure, all_of(vector.as_slice()));
        SetList::replicated(part.width as usize, set)
    }

    /// The sets of a select (IEEE 1364-2005, 5.2.1), by those of its index.
    fn select(&self, of: u32, part: Part, index: u32, index_sets: &SetList) -> SetList
        requires of_there { of < length self.now.shapes.now.nodes }
        requires index_there { index < length self.now.shapes.now.nodes }
        requires within { source_within (length self.now.table.now) (source_of (tree_of self.now.shapes.now of)) ≡ true }
        requires fit { is_fit (tree_of self.now.shapes.now index) ≡ true }
        requires few { Is64 part.width }
        requires sets { index_sets.now ≡ L.own_sets (tree_of self.now.shapes.now index) (family_of self.now.table.now) }
        requires many { length index_sets.now ≡ E.width (tree_of self.now.shapes.now index) }
        ensures { result ≡ L.set_select part (tree_of self.now.shapes.now index) index_sets.now (L.source_sets (family_of self.now.table.now) (source_of (tree_of self.now.shapes.now of))) }
    {
        let vector = self.source_sets(of);
        self.taken(&vector, part, index, index_sets)
    }

    /// The sets of a word of a memory (IEEE 1364-2005, 4.9.3), by those of its address.
    fn word(&self, signal: u32, index: u32, index_sets: &SetList) -> SetList
        requires memory { signal < length self.now.shapes.now.signals }
        requires index_there { index < length self.now.shapes.now.nodes }
        requires within { signal_within (length self.now.table.now) (signal_of self.now.shapes.now signal) ≡ true }
        requires fit { is_fit (tree_of self.now.shapes.now index) ≡ true }
        requires sets { index_sets.now ≡ L.own_sets (tree_of self.now.shapes.now index) (family_of self.now.table.now) }
        requires many { length index_sets.now ≡ E.width (tree_of self.now.shapes.now index) }
        ensures { result ≡ L.set_word (signal_of self.now.shapes.now signal) (tree_of self.now.shapes.now index) index_sets.now (map (family_of self.now.table.now) (bits_of_signal (signal_of self.now.shapes.now signal))) }
    {
        let memory = memory_of(self.shapes, signal);
        let count = memory.addresses.length() as usize;
        let sets = self.memory_sets(signal);
        let shape = self.shapes.shape(index);
        if shape.constant {
            let address = self.shapes.constant_value(index);
            let place = word_place(memory.addresses, shape.signed, address);
            return word_at(sets, count, memory.len, place);
        }
        let part = Part {
            range: memory.addresses,
            up: true,
            width: 1,
        };
        let sure = surely_inside(part, shape.signed, index_sets.as_slice());
        let words = all_words(sets, count, memory.len);
        variable_each(index_sets.as_slice(), sure, words.as_slice())
    }

    /// The sets of a shift (IEEE 1364-2005, 5.1.12) by expression b, before they are extended.
    fn shifted(
        &self,
        op: BinaryOp,
        b: u32,
        signed: bool,
        left: &SetList,
        right: &SetList,
    ) -> SetList
        requires there { b < length self.now.shapes.now.nodes }
        requires fit { is_fit (tree_of self.now.shapes.now b) ≡ true }
        requires few { length left.now ≤ 64 }
        ensures { result ≡ L.lift_shift op signed (tree_of self.now.shapes.now b) right.now left.now }
    {
        let fill = shift_fill(op, signed, left.as_slice());
        if self.shapes.shape(b).constant {
            shift_by(op, fill, self.shapes.constant_value(b), left.as_slice())
        } else {
            shift(fill, right.as_slice(), left.as_slice())
        }
    }

    /// The sets of expression e in a context of at most 64 bits.
    #[cycle(lifting)]
    pub(crate) fn lifted(&self, e: u32, context: Context) -> Result<SetList, AllocError>
        requires there { e < length self.now.shapes.now.nodes }
        requires fit { is_fit (tree_of self.now.shapes.now e) ≡ true }
        requires within { names_within (length self.now.table.now) (tree_of self.now.shapes.now e) ≡ true }
        requires wide { E.width (tree_of self.now.shapes.now e) ≤ context.width }
        requires few { context.width ≤ 64 }
        ensures value { IfOk result (λ v. v ≡ L.lifted (tree_of self.now.shapes.now e) context.width context.signed (family_of self.now.table.now)) }
        ensures length { IfOk result (λ v. length v ≡ context.width) }
    {
        value_law();
        self.lifted_node(e, context)
    }

    /// The sets of expression e, by what it is.
    #[cycle(lifting)]
    fn lifted_node(&self, e: u32, context: Context) -> Result<SetList, AllocError>
        requires there { e < length self.now.shapes.now.nodes }
        requires fit { is_fit (tree_of self.now.shapes.now e) ≡ true }
        requires within { names_within (length self.now.table.now) (tree_of self.now.shapes.now e) ≡ true }
        requires wide { E.width (tree_of self.now.shapes.now e) ≤ context.width }
        requires few { context.width ≤ 64 }
        ensures { IfOk result (λ v. v ≡ L.lifted (tree_of self.now.shapes.now e) context.width context.signed (family_of self.now.table.now)) }
    {
        match self.node(e) {
            Node::Literal { .. } => Ok(self.constant(e, context)),
            Node::Name { .. } | Node::Local { .. } => Ok(extended(self.named_sets(e), context)),
            Node::Bit { of, range, index } => {
                let part = Part {
                    range: *range,
                    up: true,
                    width: 1,
                };
                let sets = self.lifted(*index, own_context(self.shapes, *index))?;
                Ok(extended(self.select(*of, part, *index, &sets), context))
            }
            Node::Part {
                of,
                range,
                base,
                up,
                width,
            } => {
                let part = Part {
                    range: *range,
                    up: *up,
                    width: *width,
                };
                let sets = self.lifted(*base, own_context(self.shapes, *base))?;
                Ok(extended(self.select(*of, part, *base, &sets), context))
            }
            Node::Word { signal, index } => {
                let sets = self.lifted(*index, own_context(self.shapes, *index))?;
                Ok(extended(self.word(*signal, *index, &sets), context))
            }
            Node::WordPart {
                signal,
                address,
                range,
                base,
                up,
                width,
            } => {
                let part = Part {
                    range: *range,
                    up: *up,
                    width: *width,
                };
                let sets = self.lifted(*address, own_context(self.shapes, *address))?;
                let word = self.word(*signal, *address, &sets);
                let sets = self.lifted(*base, own_context(self.shapes, *base))?;
                Ok(extended(self.taken(&word, part, *base, &sets), context))
            }
            Node::Unary { op, a } => self.unary(e, *op, *a, context),
            Node::Binary { op, a, b } => match set_lift(*op) {
                Lift::Divided => Ok(self.constant(e, context)),
                Lift::Moved => {
                    let (left, right) = self.operands(e, *op, *a, *b, context)?;
                    let sets = self.shifted(*op, *b, context.signed, &left, &right);
                    Ok(extended(sets, context))
                }
                Lift::FromSets => {
                    let (left, right) = self.operands(e, *op, *a, *b, context)?;
                    let sets = lift_binary(*op, left.as_slice(), right.as_slice());
                    Ok(extended(sets, context))
                }
            },
            Node::Choice { c, p, q } => self.choice(e, *c, *p, *q, context),
            Node::Join { parts } => {
                let copy = self.parts(e, first_copy(parts.as_slice()))?;
                let count = copy_count(parts.as_slice()) as usize;
                Ok(extended(copy.repeated(count), context))
            }
            Node::Call {
                function,
                arguments,
            } => {
                let sets = self.call(e, *function, arguments.as_slice())?;
                Ok(extended(sets, context))
            }
        }
    }

    /// The sets of an operator's one operand in expression e.
    #[cycle(lifting)]
    fn unary(&self, e: u32, op: UnaryOp, a: u32, context: Context) -> Result<SetList, AllocError>
        requires there { e < length self.now.shapes.now.nodes }
        requires before { a < e }
        requires fit { is_fit (tree_of self.now.shapes.now a) ≡ true }
        requires within { names_within (length self.now.table.now) (tree_of self.now.shapes.now a) ≡ true }
        requires wide { E.width (E.Unary op (tree_of self.now.shapes.now a)) ≤ context.width }
        requires few { context.width ≤ 64 }
        ensures { IfOk result (λ v. v ≡ L.lifted (E.Unary op (tree_of self.now.shapes.now a)) context.width context.signed (family_of self.now.table.now)) }
    {
        let sets = self.lifted(a, op.operand(context, own_context(self.shapes, a)))?;
        Ok(extended(lift_unary(op, sets.as_slice()), context))
    }

    /// The sets of an operator's two operands in expression e, in the contexts that it gives them.
    #[cycle(lifting)]
    fn operands(
        &self,
        e: u32,
        op: BinaryOp,
        a: u32,
        b: u32,
        context: Context,
    ) -> Result<(SetList, SetList), AllocError>
        requires there { e < length self.now.shapes.now.nodes }
        requires a_before { a < e }
        requires b_before { b < e }
        requires a_fit { is_fit (tree_of self.now.shapes.now a) ≡ true }
        requires b_fit { is_fit (tree_of self.now.shapes.now b) ≡ true }
        requires a_within { names_within (length self.now.table.now) (tree_of self.now.shapes.now a) ≡ true }
        requires b_within { names_within (length self.now.table.now) (tree_of self.now.shapes.now b) ≡ true }
        requires wide { E.width (E.Binary op (tree_of self.now.shapes.now a) (tree_of self.now.shapes.now b)) ≤ context.width }
        requires few { context.width ≤ 64 }
        ensures left { IfOk result (λ v. AreLeftSets op (tree_of self.now.shapes.now a) (tree_of self.now.shapes.now b) context.width context.signed (family_of self.now.table.now) v.0) }
        ensures right { IfOk result (λ v. AreRightSets op (tree_of self.now.shapes.now a) (tree_of self.now.shapes.now b) context.width context.signed (family_of self.now.table.now) v.1) }
    {
        let left = own_context(self.shapes, a);
        let right = own_context(self.shapes, b);
        let first = self.lifted(a, op.way().left(context, left, right))?;
        let second = self.lifted(b, op.way().right(context, left, right))?;
        Ok((first, second))
    }

    /// The sets of `c ? p : q` (IEEE 1364-2005, 5.1.13), which expression e is.
    #[cycle(lifting)]
    fn choice(
        &self,
        e: u32,
        c: u32,
        p: u32,
        q: u32,
        context: Context,
    ) -> Result<SetList, AllocError>
        requires there { e < length self.now.shapes.now.nodes }
        requires c_before { c < e }
        requires p_before { p < e }
        requires q_before { q < e }
        requires c_fit { is_fit (tree_of self.now.shapes.now c) ≡ true }
        requires p_fit { is_fit (tree_of self.now.shapes.now p) ≡ true }
        requires q_fit { is_fit (tree_of self.now.shapes.now q) ≡ true }
        requires c_within { names_within (length self.now.table.now) (tree_of self.now.shapes.now c) ≡ true }
        requires p_within { names_within (length self.now.table.now) (tree_of self.now.shapes.now p) ≡ true }
        requires q_within { names_within (length self.now.table.now) (tree_of self.now.shapes.now q) ≡ true }
        requires wide { E.width (E.Choice (tree_of self.now.shapes.now c) (tree_of self.now.shapes.now p) (tree_of self.now.shapes.now q)) ≤ context.width }
        requires few { context.width ≤ 64 }
        ensures { IfOk result (λ v. v ≡ L.lifted (E.Choice (tree_of self.now.shapes.now c) (tree_of self.now.shapes.now p) (tree_of self.now.shapes.now q)) context.width context.signed (family_of self.now.table.now)) }
    {
        let condition = self.lifted(c, own_context(self.shapes, c))?;
        let first = self.lifted(p, context)?;
        let second = self.lifted(q, context)?;
        Ok(set_choose(
            set_or(condition.as_slice()),
            first.as_slice(),
            second.as_slice(),
        ))
    }

    /// The sets of parts of a concatenation (IEEE 1364-2005, 5.1.14) in expression e.
    #[cycle(lifting)]
    fn parts(&self, e: u32, parts: &[u32]) -> Result<SetList, AllocError>
        requires there { e < length self.now.shapes.now.nodes }
        requires before { EachBelow e parts.now }
        requires few { E.width (joined (map (tree_of self.now.shapes.now) parts.now)) ≤ 64 }
        requires fit { is_fit (joined (map (tree_of self.now.shapes.now) parts.now)) ≡ true }
        requires within { names_within (length self.now.table.now) (joined (map (tree_of self.now.shapes.now) parts.now)) ≡ true }
        ensures value { IfOk result (λ v. v ≡ L.own_sets (joined (map (tree_of self.now.shapes.now) parts.now)) (family_of self.now.table.now)) }
        ensures length { IfOk result (λ v. length v ≡ E.width (joined (map (tree_of self.now.shapes.now) parts.now))) }
    {
        value_law();
        let mut list = SetList::new();
        let mut n = parts.len();
        while n > 0 {
            n -= 1;
            let sets = self.lifted(parts[n], own_context(self.shapes, parts[n]))?;
            list.append(sets.as_slice());
        }
        Ok(list)
    }

    /// The sets of a right side for a target of this length (IEEE 1364-2005, 5.5.3): in the larger of both lengths and its own sign, and then cut.
    #[cycle(lifting)]
    pub(crate) fn assigned(&self, e: u32, len: u32) -> Result<SetList, AllocError>
        requires there { e < length self.now.shapes.now.nodes }
        requires fit { is_fit (tree_of self.now.shapes.now e) ≡ true }
        requires within { names_within (length self.now.table.now) (tree_of self.now.shapes.now e) ≡ true }
        requires few { len ≤ 64 }
        ensures value { IfOk result (λ v. v ≡ L.assigned_sets (tree_of self.now.shapes.now e) len (family_of self.now.table.now)) }
        ensures length { IfOk result (λ v. length v ≡ len) }
    {
        let own = own_context(self.shapes, e);
        let context = Context {
            width: own.width.max(len),
            signed: own.signed,
        };
        let mut list = self.lifted(e, context)?;
        list.cut(len as usize);
        Ok(list)
    }

    /// Gives the inputs of a function in its own table the sets of the arguments of call e, each as assigned to its input (IEEE 1364-2005, 10.4.4).
    #[cycle(lifting)]
    fn put_arguments(
        &self,
        e: u32,
        function: u32,
        arguments: &[u32],
        local: &mut [Set4],
    ) -> Result<(), AllocError>
        requires there { e < length self.now.shapes.now.nodes }
        requires call { IsCall self.now.shapes.now (length self.now.table.now) e function arguments.now }
        requires many { length local.old ≡ bit_count (locals_in (declared_at self.now.shapes.now function)) }
        ensures { OnOk result (family_of local.new ≡ L.argument_sets (arguments_of self.now.shapes.now arguments.now) (function_of self.now.shapes.now function).header.inputs (family_of self.now.table.now) (family_of local.old)) }
    {
        for n in 0..arguments.len() {
            let input = local_span(self.shapes, function, n);
            let sets = self.assigned(arguments[n], input.len as u32)?;
            put_run(local, input.first, sets.as_slice());
        }
        Ok(())
    }

    /// Runs the function of call e on its own table: its inputs get the sets of the arguments, and then its statement runs.
    #[cycle(lifting)]
    fn run_function(
        &self,
        e: u32,
        function: u32,
        arguments: &[u32],
        callee: &Callee,
        local: &mut [Set4],
    ) -> Result<(), AllocError>
        requires there { e < length self.now.shapes.now.nodes }
        requires call { IsCall self.now.shapes.now (length self.now.table.now) e function arguments.now }
        requires callee { IsCallee self.now.shapes.now function callee.now }
        requires many { length local.old ≡ callee.now.len }
        ensures { OnOk result (family_of local.new ≡ L.lifted_body (function_of self.now.shapes.now function).statement (L.argument_sets (arguments_of self.now.shapes.now arguments.now) (function_of self.now.shapes.now function).header.inputs (family_of self.now.table.now) (family_of local.old))) }
    {
        self.put_arguments(e, function, arguments, local)?;
        let none: [Option<u32>; 0] = [];
        let written = Defaults {
            complete: false,
            others: &none,
        };
        let runner = Runner {
            alloc: self.alloc,
            shapes: self.shapes,
            nodes: callee.nodes,
            bits: callee.writes.as_slice(),
            defaults: &written,
        };
        runner.run(callee.statement, local)
    }

    /// The sets of call e of a function (IEEE 1364-2005, 10.4.3), before they are extended: what its statement leaves in its result.
    #[cycle(lifting)]
    fn call(&self, e: u32, function: u32, arguments: &[u32]) -> Result<SetList, AllocError>
        requires there { e < length self.now.shapes.now.nodes }
        requires call { IsCall self.now.shapes.now (length self.now.table.now) e function arguments.now }
        ensures { IfOk result (λ v. v ≡ map (L.lifted_body (function_of self.now.shapes.now function).statement (L.argument_sets (arguments_of self.now.shapes.now arguments.now) (function_of self.now.shapes.now function).header.inputs (family_of self.now.table.now) (λ b. S.only X))) (bits_of_signal (function_of self.now.shapes.now function).header.result)) }
    {
        let callee = called(self.alloc, self.shapes, function)?;
        let mut local = vec![in self.alloc; Set4::only(Bit4::X); callee.len]?;
        self.run_function(e, function, arguments, &callee, local.as_mut_slice())?;
        let result = callee.result;
        Ok(list_of(&local[result.first..result.first + result.len]))
    }
}
