//! Walks over expressions and targets that gather bits (IEEE 1364-2005, 9.7.5 and 11.6.1).

ghost use Rattle.std.specs.Prelude.{ℕ, ◌&&◌, ◌≡◌, ◌<◌, ◌≤◌, ◌++◌, ◌+◌, ◌^◌, true, length, map, is_some, OnOk};
ghost use Rattle.vs_four.specs.Selects.{range_length};
ghost use Rattle.vs_design.specs.Expressions.{OfSignal, is_constant, sign};
ghost use Rattle.vs_design.specs.Fits.{fits, fits_64};
ghost use Rattle.vs_design.specs.Bodies.{bits_at};
ghost use Rattle.vs_design.specs.Values.{bits_of_signal, constant_value, word_part_places};
ghost use Rattle.vs_design.specs.Footprints.{somes, target_bits};
ghost use Rattle.vs_flat.specs.Arena.{signal_length, declared_at};
ghost use Rattle.vs_flat.specs.Named.{locals_in};
ghost use Rattle.vs_flat.specs.Lawful.{IsLawful};
ghost use Rattle.vs_flat.specs.Targets.{source_of};
ghost use Rattle.vs_flat.specs.Trees.{signal_of, signal_at, target_tree};
ghost use Rattle.vs_flat.specs.DesignOf.{arena_signals, local_of};
ghost use Rattle.vs_shape.specs.Nodes.{EachBelow, tree_of};
ghost use Rattle.vs_shape.specs.Walked.{IsSourceFit, IsTarget, IsWordPartFit};
ghost use Rattle.vs_shape.specs.Gathered.{gathered, gathered_source, gathered_word, gathered_word_part, gathered_target};

use crate::bits::{push_places, push_run};
use crate::nodes::{first_copy, local_of, node_of};
use crate::places::{Part, places_of};
use crate::shapes::Shapes;
use crate::words::{addresses_of, push_word, word_place, word_start};
use std::alloc::AllocError;
use vs_design::word_part_law;
use vs_flat::{Flat, Node, Signal, bits_of, length_of, trees_law};
use vs_four::Range;

/// Adds the bits of a signal, the least significant one first.
fn push_signal(flat: &Flat, signal: u32, out: &mut Vec<u32>) -> Result<(), AllocError>
    requires lawful { IsLawful flat.now }
    requires there { signal < length flat.now.signals }
    ensures { OnOk result (out.new.items ≡ out.old.items ++ bits_of_signal (signal_at (arena_signals flat.now) signal)) }
{
    trees_law();
    let s = flat.signal(signal);
    push_run(out, s.first_bit, bits_of(s))
}

/// Adds the bits of a function's local signal, the least significant one first.
fn push_local(flat: &Flat, function: u32, signal: u32, out: &mut Vec<u32>) -> Result<(), AllocError>
    requires lawful { IsLawful flat.now }
    requires function { function < length flat.now.functions }
    requires there { signal < length (locals_in (declared_at flat.now function)) }
    ensures { OnOk result (out.new.items ≡ out.old.items ++ bits_of_signal (local_of flat.now function signal)) }
{
    let s = local_of(flat, function, signal);
    push_run(out, s.first_bit, bits_of(s))
}

impl Shapes {
    /// Adds the bits of a signal, the least significant one first.
    pub fn push_signal(&self, signal: u32, out: &mut Vec<u32>) -> Result<(), AllocError>
        requires { signal < length self.now.signals }
        ensures { OnOk result (out.new.items ≡ out.old.items ++ bits_of_signal (signal_at (arena_signals self.now) signal)) }
    {
        push_signal(self.flat(), signal, out)
    }

    /// Adds the bits of a select of this signal; `whole` adds all bits of the signal whatever the index.
    fn push_selected(
        &self,
        s: &Signal,
        index: u32,
        range: Range,
        up: bool,
        width: u32,
        whole: bool,
        out: &mut Vec<u32>,
    ) -> Result<(), AllocError>
        requires there { index < length self.now.nodes }
        requires room { s.now.first_bit + signal_length s.now ≤ 67108864 }
        requires range { range_length range ≡ signal_length s.now }
        requires width { fits_64 width ≡ true }
        requires fit { fits (tree_of self.now index) ≡ true }
        ensures { (n : ℕ) → OnOk result (out.new.items ≡ out.old.items ++ gathered_source whole (OfSignal (signal_of n s.now)) (record { range = range; up = up; width = width }) (tree_of self.now index)) }
    {
        let shape = self.shape(index);
        if whole || !shape.constant {
            return push_run(out, s.first_bit, bits_of(s));
        }
        let part = Part { range, up, width };
        let places = places_of(part, shape.signed, self.constant_value(index));
        push_places(out, s.first_bit, &places)
    }

    /// Adds the bits of a select that its source has; `whole` adds all bits of the signal whatever the index.
    fn push_source(
        &self,
        of: u32,
        index: u32,
        range: Range,
        up: bool,
        width: u32,
        whole: bool,
        out: &mut Vec<u32>,
    ) -> Result<(), AllocError>
        requires source { of < length self.now.nodes }
        requires there { index < length self.now.nodes }
        requires fit { IsSourceFit (source_of (tree_of self.now of)) (record { range = range; up = up; width = width }) (tree_of self.now index) }
        ensures { OnOk result (out.new.items ≡ out.old.items ++ gathered_source whole (source_of (tree_of self.now of)) (record { range = range; up = up; width = width }) (tree_of self.now index)) }
    {
        let flat = self.flat();
        trees_law();
        match node_of(flat, of) {
            Node::Name { signal } => {
                let s = flat.signal(*signal);
                self.push_selected(s, index, range, up, width, whole, out)
            }
            Node::Local { function, signal } => {
                let s = local_of(flat, *function, *signal);
                self.push_selected(s, index, range, up, width, whole, out)
            }
            _ => Ok(()),
        }
    }

    /// Adds the bits of a word that its memory has; `whole` adds all bits of the memory whatever the address.
    fn push_addressed(
        &self,
        signal: u32,
        index: u32,
        whole: bool,
        out: &mut Vec<u32>,
    ) -> Result<(), AllocError>
        requires memory { signal < length self.now.signals }
        requires there { index < length self.now.nodes }
        requires fit { fits (tree_of self.now index) ≡ true }
        ensures { OnOk result (out.new.items ≡ out.old.items ++ gathered_word whole (signal_at (arena_signals self.now) signal) (tree_of self.now index)) }
    {
        let flat = self.flat();
        let shape = self.shape(index);
        if whole || !shape.constant {
            return push_signal(flat, signal, out);
        }
        trees_law();
        let s = flat.signal(signal);
        let place = word_place(addresses_of(s), shape.signed, self.constant_value(index));
        push_word(out, s.first_bit, length_of(s.range), place)
    }

    /// Whether both are constants.
    fn are_constant(&self, a: u32, b: u32) -> bool
        requires first { a < length self.now.nodes }
        requires second { b < length self.now.nodes }
        ensures { result ≡ (is_constant (tree_of self.now a) && is_constant (tree_of self.now b)) }
    {
        self.shape(a).constant && self.shape(b).constant
    }

    /// Adds the bits of a part of a word that its memory has; `whole` adds all bits of the memory whatever the address and the index.
    fn push_word_part(
        &self,
        signal: u32,
        address: u32,
        part: Part,
        base: u32,
        whole: bool,
        out: &mut Vec<u32>,
    ) -> Result<(), AllocError>
        requires memory { signal < length self.now.signals }
        requires there { address < length self.now.nodes }
        requires index { base < length self.now.nodes }
        requires fit { IsWordPartFit (signal_at (arena_signals self.now) signal) (tree_of self.now address) part (tree_of self.now base) }
        ensures { OnOk result (out.new.items ≡ out.old.items ++ gathered_word_part whole (signal_at (arena_signals self.now) signal) (tree_of self.now address) part (tree_of self.now base)) }
    {
        if whole {
            return self.push_signal(signal, out);
        }
        if !self.are_constant(address, base) {
            return self.push_addressed(signal, address, false, out);
        }
        self.push_fixed_part(signal, address, part, base, out)
    }

    /// Adds the bits of a part of a word by a constant address and a constant index.
    fn push_fixed_part(
        &self,
        signal: u32,
        address: u32,
        part: Part,
        base: u32,
        out: &mut Vec<u32>,
    ) -> Result<(), AllocError>
        requires memory { signal < length self.now.signals }
        requires there { address < length self.now.nodes }
        requires index { base < length self.now.nodes }
        requires fit { IsWordPartFit (signal_at (arena_signals self.now) signal) (tree_of self.now address) part (tree_of self.now base) }
        requires constant_address { is_constant (tree_of self.now address) ≡ true }
        requires constant { is_constant (tree_of self.now base) ≡ true }
        ensures { OnOk result (out.new.items ≡ out.old.items ++ somes (bits_at (signal_at (arena_signals self.now) signal) (word_part_places (signal_at (arena_signals self.now) signal) (sign (tree_of self.now address)) (constant_value (tree_of self.now address)) part (sign (tree_of self.now base)) (constant_value (tree_of self.now base))))) }
    {
        trees_law();
        word_part_law();
        let s = self.flat().signal(signal);
        let at = self.constant_value(address);
        let place = word_place(addresses_of(s), self.shape(address).signed, at);
        match place {
            None => Ok(()),
            Some(n) => {
                let start = word_start(s.first_bit, length_of(s.range), n);
                let by = self.constant_value(base);
                let places = places_of(part, self.shape(base).signed, by);
                push_places(out, start, &places)
            }
        }
    }

    /// Adds the bits that expression e reads; `whole` adds all bits of each signal that it names.
    pub fn push_reads(&self, e: u32, whole: bool, out: &mut Vec<u32>) -> Result<(), AllocError>
        requires there { e < length self.now.nodes }
        requires fits { fits (tree_of self.now e) ≡ true }
        ensures { OnOk result (out.new.items ≡ out.old.items ++ gathered whole (tree_of self.now e)) }
    {
        let flat = self.flat();
        match node_of(flat, e) {
            Node::Literal { .. } => Ok(()),
            Node::Name { signal } => push_signal(flat, *signal, out),
            Node::Local { function, signal } => push_local(flat, *function, *signal, out),
            Node::Bit { of, range, index } => {
                self.push_source(*of, *index, *range, true, 1, whole, out)?;
                self.push_reads(*index, whole, out)
            }
            Node::Part {
                of,
                range,
                base,
                up,
                width,
            } => {
                self.push_source(*of, *base, *range, *up, *width, whole, out)?;
                self.push_reads(*base, whole, out)
            }
            Node::Word { signal, index } => {
                self.push_addressed(*signal, *index, whole, out)?;
                self.push_reads(*index, whole, out)
            }
            Node::WordPart {
                signal,
                address,
                range,
                base,
                up,
                width,
            } => {
                let part = Part {
                    range: *range,
                    up: *up,
                    width: *width,
                };
                self.push_word_part(*signal, *address, part, *base, whole, out)?;
                self.push_reads(*address, whole, out)?;
                self.push_reads(*base, whole, out)
            }
            Node::Unary { op: _, a } => self.push_reads(*a, whole, out),
            Node::Binary { op: _, a, b } => {
                self.push_reads(*a, whole, out)?;
                self.push_reads(*b, whole, out)
            }
            Node::Choice { c, p, q } => {
                self.push_reads(*c, whole, out)?;
                self.push_reads(*p, whole, out)?;
                self.push_reads(*q, whole, out)
            }
            Node::Join { parts } => {
                for part in first_copy(parts.as_slice()) {
                    self.push_reads(*part, whole, out)?;
                }
                Ok(())
            }
            Node::Call { arguments, .. } => {
                for argument in arguments.as_slice() {
                    self.push_reads(*argument, whole, out)?;
                }
                Ok(())
            }
        }
    }

    /// Adds the bits that target e writes; a bit that it has twice is added twice.
    pub fn push_target(&self, e: u32, out: &mut Vec<u32>) -> Result<(), AllocError>
        requires there { e < length self.now.nodes }
        requires target { IsTarget (tree_of self.now e) }
        ensures { OnOk result (out.new.items ≡ out.old.items ++ target_bits (target_tree (tree_of self.now e))) }
    {
        let flat = self.flat();
        match node_of(flat, e) {
            Node::Name { signal } => push_signal(flat, *signal, out),
            Node::Local { function, signal } => push_local(flat, *function, *signal, out),
            Node::Bit { of, range, index } => {
                self.push_source(*of, *index, *range, true, 1, false, out)
            }
            Node::Part {
                of,
                range,
                base,
                up,
                width,
            } => self.push_source(*of, *base, *range, *up, *width, false, out),
            Node::Word { signal, index } => self.push_addressed(*signal, *index, false, out),
            Node::WordPart {
                signal,
                address,
                range,
                base,
                up,
                width,
            } => {
                let part = Part {
                    range: *range,
                    up: *up,
                    width: *width,
                };
                self.push_word_part(*signal, *address, part, *base, false, out)
            }
            Node::Join { parts } => {
                for part in first_copy(parts.as_slice()) {
                    self.push_target(*part, out)?;
                }
                Ok(())
            }
            _ => Ok(()),
        }
    }

    /// Adds the bits that the indices of target e read; `whole` adds all bits of each signal that they name.
    pub fn push_target_reads(
        &self,
        e: u32,
        whole: bool,
        out: &mut Vec<u32>,
    ) -> Result<(), AllocError>
        requires there { e < length self.now.nodes }
        requires target { IsTarget (tree_of self.now e) }
        ensures { OnOk result (out.new.items ≡ out.old.items ++ gathered_target whole (target_tree (tree_of self.now e))) }
    {
        let flat = self.flat();
        match node_of(flat, e) {
            Node::Bit { index, .. } => self.push_reads(*index, whole, out),
            Node::Part { base, .. } => self.push_reads(*base, whole, out),
            Node::Word { index, .. } => self.push_reads(*index, whole, out),
            Node::WordPart { address, base, .. } => {
                self.push_reads(*address, whole, out)?;
                self.push_reads(*base, whole, out)
            }
            Node::Join { parts } => {
                for part in first_copy(parts.as_slice()) {
                    self.push_target_reads(*part, whole, out)?;
                }
                Ok(())
            }
            _ => Ok(()),
        }
    }
}
