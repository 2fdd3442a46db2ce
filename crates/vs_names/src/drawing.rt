//! A design and the tokens of its text.

ghost use Rattle.std.specs.Prelude.{◌≡◌, ◌++◌, Some, IfOk, OnOk, map, option_map, slice_get};
ghost use Rattle.vs_design.specs.Designs.{process_place};
ghost use Rattle.vs_flat.specs.DesignOf.{design_of};
ghost use Rattle.vs_names.specs.Names as spec;
ghost use Rattle.vs_names.specs.Drawn.{byte_of, own_byte, place_numbered, process_byte, port_bits as spec_bits};

use crate::bits::{port_bits, push_bit, push_signal};
use std::alloc::{AllocError, Global};
use std::marker::Model;
use vs_excerpt::Page;
use vs_flat::{Flat, trees_law};
use vs_lexer::Token;

/// The design that a text elaborates to, and the tokens as which the text is read: they say where a part of the design stands in it.
#[derive(Drop)]
pub struct Drawing {
    tokens: Vec<Token>,
    flat: Flat,
}

impl Model for Drawing {
    ghost use Rattle.vs_names.specs.Drawn.{Drawn};

    ghost Value = { Drawn };

    ghost view = { λ d. record { tokens = d.tokens.items; flat = d.flat } };
}

/// The token that begins process p.
fn place_of_process(flat: &Flat, process: u32) -> Option<u32>
    ensures { result ≡ option_map process_place (slice_get (design_of flat.now).processes process) }
{
    trees_law();
    if process >= flat.process_count() {
        return None;
    }
    Some(flat.process(process).at)
}

/// The token that begins the process behind so many processes and initial ones of the text.
fn place_of_number(flat: &Flat, number: u32) -> Option<u32>
    ensures { result ≡ place_numbered (design_of flat.now).processes (design_of flat.now).initials number }
{
    trees_law();
    let mut process = number;
    for k in 0..flat.initial_count() {
        let initial = flat.initial(k);
        if process == initial.behind {
            return Some(initial.at);
        }
        if process < initial.behind {
            return place_of_process(flat, process);
        }
        process -= 1;
    }
    place_of_process(flat, process)
}

impl Drawing {
    /// These tokens and this design. It takes no memory.
    pub fn of(tokens: Vec<Token>, flat: Flat) -> Drawing
        ensures { result ≡ record { tokens = tokens.items; flat = flat } }
    {
        Drawing { tokens, flat }
    }

    /// The byte of the text at which a reader finds process p.
    fn own_byte(&self, process: u32) -> Option<u32>
        ensures { result ≡ own_byte self.now process }
    {
        trees_law();
        if process >= self.flat.process_count() {
            return None;
        }
        let at = self.flat.process(process).at;
        Some(self.tokens.get(at as usize)?.at)
    }

    /// The byte of the text at which a reader finds the process that has this number in a report, behind as many processes and initial ones: where it begins, or, where a
    /// macro gave it, where the outermost use begins that it came from. None where the design has no such process.
    pub fn process_byte(&self, process: u32) -> Option<u32>
        ensures { result ≡ process_byte self.now process }
    {
        let at = place_of_number(&self.flat, process)?;
        Some(self.tokens.get(at as usize)?.at)
    }

    /// Of each process, initial ones left out, the byte of the text at which a reader finds it. The only error is that memory ran out.
    pub fn process_bytes(&self, alloc: Global) -> Result<Vec<Option<u32>>, AllocError>
        ensures { IfOk result (λ v. v.items ≡ map (byte_of self.now) (design_of self.now.flat).processes) }
    {
        trees_law();
        let mut bytes = Vec::new(alloc);
        for process in 0..self.flat.process_count() {
            let byte = self.own_byte(process);
            bytes.push(byte)?;
        }
        Ok(bytes)
    }

    /// The design.
    pub fn into_flat(self) -> Flat
        ensures { result ≡ self.flat }
    {
        self.flat
    }

    /// How many bits the signal has that the top declares by this name. None where it declares none.
    pub fn port_bits(&self, name: &[u8]) -> Option<u32>
        ensures { result ≡ spec_bits (Some self.now) name.now }
    {
        trees_law();
        port_bits(&self.flat, name)
    }

    /// Adds the name of a bit to a page, as `net top.u.q[3]`, or its number where no signal has it. The only error is that memory ran out.
    pub fn push_bit(&self, page: &mut Page, bit: u32) -> Result<(), AllocError>
        ensures { OnOk result (page.new ≡ page.old ++ spec.bit_text (design_of self.now.flat) bit) }
    {
        push_bit(page, &self.flat, bit)
    }

    /// Adds the name of a signal to a page, as `net top.u.q`, or its number where there is no such signal. The only error is that memory ran out.
    pub fn push_signal(&self, page: &mut Page, signal: u32) -> Result<(), AllocError>
        ensures { OnOk result (page.new ≡ page.old ++ spec.signal_of_number (design_of self.now.flat) signal) }
    {
        push_signal(page, &self.flat, signal)
    }
}
