//! What an assignment writes (IEEE 1364-2005, 5.5.3 and 9.2).

ghost use Rattle.std.specs.Prelude.{◌≡◌, ◌≤◌, ◌<◌, ◌+◌, ◌*◌, ◌++◌, ◌^◌, [], ◌∷◌, ℕ, length, map, take, true, Some, None, slice_index_or, OnOk};
ghost use Rattle.vs_design.specs.Bodies as B;
ghost use Rattle.vs_design.specs.Expressions as E;
ghost use Rattle.vs_design.specs.Values as V;
ghost use Rattle.vs_design.specs.Within.{target_within};
ghost use Rattle.vs_flat.specs.Targets.{source_of};
ghost use Rattle.vs_flat.specs.Trees.{joined};
ghost use Rattle.vs_writes.specs.Held.{state_of};
ghost use Rattle.vs_sets.specs.Nodes.{EachBelow, signal_of, tree_of};
ghost use Rattle.vs_sets.specs.TargetsOf.{IsTarget, target_tree};
ghost use Rattle.vs_shape.specs.Gathered.{bits_from};

use crate::evaluator::Evaluator;
use std::alloc::AllocError;
use vs_design::word_part_law;
use vs_flat::Node;
use vs_four::{Bit4, Bits};
use vs_sets::{memory_of, named_span, word_start};
use vs_shape::{Part, Places, first_copy, places_of, word_place};
use vs_writes::{Update, Write};

/// The bits of a value, the least significant one first, in as many as a value may have.
pub(crate) fn spread(value: Bits) -> [Bit4; 64]
    ensures { take (length value) result ≡ value }
{
    let mut all = [Bit4::X; 64];
    for n in 0..value.len() {
        all[n as usize] = value.get(n);
    }
    all
}

/// Adds a write to each bit from `first` on.
fn push_run(out: &mut Update, first: usize, value: &[Bit4]) -> Result<(), AllocError>
    requires { first + length value.now < 2 ^ 64 }
    ensures { OnOk result (out.new ≡ out.old ++ B.pair_up (map Some (V.count_from first (length value.now))) value.now) }
{
    for k in 0..value.len() {
        out.push(Write::new(first + k, value[k]))?;
    }
    Ok(())
}

/// Adds a write to the bit at this place of the signal that begins with bit `first`, if there is one.
fn push_place(
    out: &mut Update,
    first: usize,
    place: Option<usize>,
    value: Bit4,
) -> Result<(), AllocError>
    requires { (n : ℕ) → place ≡ Some n → first + n < 2 ^ 64 }
    ensures { OnOk result (out.new ≡ out.old ++ B.pair_up (bits_from first (place ∷ [])) (value ∷ [])) }
{
    match place {
        Some(n) => out.push(Write::new(first + n, value)),
        None => Ok(()),
    }
}

/// Adds writes to the bits at these places of the signal that begins with bit `first`. What has no place gets none.
fn push_places(
    out: &mut Update,
    first: usize,
    places: &Places,
    value: &[Bit4],
) -> Result<(), AllocError>
    requires as_many { length value.now ≡ length places.now }
    requires inside { (k n : ℕ) → slice_index_or places.now k None ≡ Some n → first + n < 2 ^ 64 }
    ensures { OnOk result (out.new ≡ out.old ++ B.pair_up (bits_from first places.now) value.now) }
{
    for k in 0..places.len() {
        push_place(out, first, places.get(k), value[k as usize])?;
    }
    Ok(())
}

/// Adds writes to the bits of the word at this place of a memory whose first bit has this number; where there is no place there are none.
fn push_word(
    out: &mut Update,
    first: usize,
    place: Option<usize>,
    value: &[Bit4],
) -> Result<(), AllocError>
    requires { (n : ℕ) → place ≡ Some n → first + (n * length value.now + length value.now) < 2 ^ 64 }
    ensures { OnOk result (out.new ≡ out.old ++ B.pair_up (bits_from first (V.spread (length value.now) place)) value.now) }
{
    match place {
        Some(n) => push_run(out, first + n * value.len(), value),
        None => Ok(()),
    }
}

impl Evaluator<'_> {
    /// Adds writes to the bits of a select in target e, by its index as it is now (IEEE 1364-2005, 5.2.1).
    #[cycle(evaluating)]
    fn push_select(
        &self,
        e: u32,
        of: u32,
        part: Part,
        index: u32,
        value: &[Bit4],
        out: &mut Update,
    ) -> Result<(), AllocError>
        requires there { e < length self.now.shapes.now.nodes }
        requires of_before { of < e }
        requires index_before { index < e }
        requires target { IsTarget (E.Select (source_of (tree_of self.now.shapes.now of)) part (tree_of self.now.shapes.now index)) }
        requires within { target_within (length self.now.values.now) (target_tree (E.Select (source_of (tree_of self.now.shapes.now of)) part (tree_of self.now.shapes.now index))) ≡ true }
        requires many { length value.now ≡ part.width }
        ensures { OnOk result (out.new ≡ out.old ++ B.target_writes (target_tree (E.Select (source_of (tree_of self.now.shapes.now of)) part (tree_of self.now.shapes.now index))) value.now (state_of self.now.values.now)) }
    {
        let span = named_span(self.shapes, of);
        let address = self.own_value(index)?;
        let places = places_of(part, self.shapes.shape(index).signed, address);
        push_places(out, span.first, &places, value)
    }

    /// Adds writes to the bits of a word of a memory in target e, by its address as it is now (IEEE 1364-2005, 4.9.3).
    #[cycle(evaluating)]
    fn push_word(
        &self,
        e: u32,
        signal: u32,
        index: u32,
        value: &[Bit4],
        out: &mut Update,
    ) -> Result<(), AllocError>
        requires there { e < length self.now.shapes.now.nodes }
        requires memory { signal < length self.now.shapes.now.signals }
        requires index_before { index < e }
        requires target { IsTarget (E.Word (signal_of self.now.shapes.now signal) (tree_of self.now.shapes.now index)) }
        requires within { target_within (length self.now.values.now) (target_tree (E.Word (signal_of self.now.shapes.now signal) (tree_of self.now.shapes.now index))) ≡ true }
        requires many { length value.now ≡ E.word_length (signal_of self.now.shapes.now signal) }
        ensures { OnOk result (out.new ≡ out.old ++ B.target_writes (target_tree (E.Word (signal_of self.now.shapes.now signal) (tree_of self.now.shapes.now index))) value.now (state_of self.now.values.now)) }
    {
        let memory = memory_of(self.shapes, signal);
        let address = self.own_value(index)?;
        let signed = self.shapes.shape(index).signed;
        let place = word_place(memory.addresses, signed, address);
        push_word(out, memory.first, place, value)
    }

    /// Adds writes to the bits of a part of a word of a memory in target e, by its address and its index as they are now (IEEE 1364-2005, 5.2.2).
    #[cycle(evaluating)]
    fn push_word_part(
        &self,
        e: u32,
        signal: u32,
        address: u32,
        part: Part,
        index: u32,
        value: &[Bit4],
        out: &mut Update,
    ) -> Result<(), AllocError>
        requires there { e < length self.now.shapes.now.nodes }
        requires memory { signal < length self.now.shapes.now.signals }
        requires address_before { address < e }
        requires index_before { index < e }
        requires target { IsTarget (E.WordPart (signal_of self.now.shapes.now signal) (tree_of self.now.shapes.now address) part (tree_of self.now.shapes.now index)) }
        requires within { target_within (length self.now.values.now) (target_tree (E.WordPart (signal_of self.now.shapes.now signal) (tree_of self.now.shapes.now address) part (tree_of self.now.shapes.now index))) ≡ true }
        requires many { length value.now ≡ part.width }
        ensures { OnOk result (out.new ≡ out.old ++ B.target_writes (target_tree (E.WordPart (signal_of self.now.shapes.now signal) (tree_of self.now.shapes.now address) part (tree_of self.now.shapes.now index))) value.now (state_of self.now.values.now)) }
    {
        word_part_law();
        let memory = memory_of(self.shapes, signal);
        let at = self.own_value(address)?;
        let by = self.own_value(index)?;
        match word_place(memory.addresses, self.shapes.shape(address).signed, at) {
            None => Ok(()),
            Some(n) => {
                let places = places_of(part, self.shapes.shape(index).signed, by);
                push_places(out, word_start(memory, n), &places, value)
            }
        }
    }

    /// Adds writes of a value to the bits of target e, by its indices as they are now.
    #[cycle(evaluating)]
    pub(crate) fn push_target(
        &self,
        e: u32,
        value: &[Bit4],
        out: &mut Update,
    ) -> Result<(), AllocError>
        requires there { e < length self.now.shapes.now.nodes }
        requires target { IsTarget (tree_of self.now.shapes.now e) }
        requires within { target_within (length self.now.values.now) (target_tree (tree_of self.now.shapes.now e)) ≡ true }
        requires many { length value.now ≡ E.width (tree_of self.now.shapes.now e) }
        ensures { OnOk result (out.new ≡ out.old ++ B.target_writes (target_tree (tree_of self.now.shapes.now e)) value.now (state_of self.now.values.now)) }
    {
        match self.shapes.node(e) {
            Node::Name { .. } | Node::Local { .. } => {
                push_run(out, named_span(self.shapes, e).first, value)
            }
            Node::Bit { of, range, index } => {
                let part = Part {
                    range: *range,
                    up: true,
                    width: 1,
                };
                self.push_select(e, *of, part, *index, value, out)
            }
            Node::Part {
                of,
                range,
                base,
                up,
                width,
            } => {
                let part = Part {
                    range: *range,
                    up: *up,
                    width: *width,
                };
                self.push_select(e, *of, part, *base, value, out)
            }
            Node::Word { signal, index } => self.push_word(e, *signal, *index, value, out),
            Node::WordPart {
                signal,
                address,
                range,
                base,
                up,
                width,
            } => {
                let part = Part {
                    range: *range,
                    up: *up,
                    width: *width,
                };
                self.push_word_part(e, *signal, *address, part, *base, value, out)
            }
            Node::Join { parts } => self.push_parts(e, first_copy(parts.as_slice()), value, out),
            _ => unreachable!(),
        }
    }

    /// Adds writes of a value to parts of a concatenation in target e, of which the first takes the most significant bits.
    #[cycle(evaluating)]
    fn push_parts(
        &self,
        e: u32,
        parts: &[u32],
        value: &[Bit4],
        out: &mut Update,
    ) -> Result<(), AllocError>
        requires there { e < length self.now.shapes.now.nodes }
        requires before { EachBelow e parts.now }
        requires target { IsTarget (joined (map (tree_of self.now.shapes.now) parts.now)) }
        requires within { target_within (length self.now.values.now) (target_tree (joined (map (tree_of self.now.shapes.now) parts.now))) ≡ true }
        requires many { length value.now ≡ E.width (joined (map (tree_of self.now.shapes.now) parts.now)) }
        ensures { OnOk result (out.new ≡ out.old ++ B.target_writes (target_tree (joined (map (tree_of self.now.shapes.now) parts.now))) value.now (state_of self.now.values.now)) }
    {
        let Some((first, rest)) = parts.split_first() else {
            unreachable!()
        };
        if parts.len() == 1 {
            return self.push_target(*first, value, out);
        }
        let low = value.len() - self.shapes.shape(*first).width as usize;
        self.push_target(*first, &value[low..], out)?;
        self.push_parts(e, rest, &value[..low], out)
    }
}
