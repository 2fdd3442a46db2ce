//! The identifier codes of signals.

ghost use Rattle.std.specs.Prelude.{◌≡◌, ◌<◌, ℕ, length, slice_index, IfOk};
ghost use Rattle.vs_flat.specs.DesignOf.{design_of};
ghost use Rattle.vs_flat.specs.Lawful.{IsLawful};
ghost use Rattle.vs_vcd.specs.Shared.{AreCodes, class_code, code_at};

use crate::joins::joined_by;
use crate::links::{join, own_links, shorten};
use std::alloc::{AllocError, Global};
use std::marker::Model;
use vs_flat::{Flat, names_law, trees_law};

/// The code of each signal, as a number: its own, or that of its class where the signals that ports join share one (IEEE 1364-2005,
/// 18.2).
#[derive(Drop)]
pub struct Codes {
    /// Those of the first signals. Each other one has its own number.
    codes: Vec<u32>,
}

// Clauses see the list.
impl Model for Codes {
    ghost use Rattle.std.specs.Prelude.{List, ℕ};

    ghost Value = { List ℕ };

    ghost view = { λ c. c.codes.items };
}

impl Codes {
    /// The codes of a design's signals: one for each class, if so told, and else one for each signal. The only error is that there is no
    /// memory; where each signal has its own code none is taken.
    pub fn of(alloc: Global, flat: &Flat, share: bool) -> Result<Codes, AllocError>
        requires { IsLawful flat.now }
        ensures { IfOk result (AreCodes share (design_of flat.now)) }
    {
        if share {
            let codes = class_codes(alloc, flat)?;
            return Ok(Codes { codes });
        }
        Ok(Codes {
            codes: Vec::new(alloc),
        })
    }

    /// The code of a signal.
    pub fn code(&self, number: u32) -> u32
        ensures { result ≡ code_at self.now number }
    {
        match self.codes.get(number as usize) {
            Some(code) => *code,
            None => number,
        }
    }
}

/// The code of each signal's class: that of its first signal.
fn class_codes(alloc: Global, flat: &Flat) -> Result<Vec<u32>, AllocError>
    requires { IsLawful flat.now }
    ensures count { IfOk result (λ codes. length codes.items ≡ length (design_of flat.now).signals) }
    ensures codes { IfOk result (λ codes. (n : ℕ) → n < length (design_of flat.now).signals → slice_index codes.items n ≡ class_code (design_of flat.now) n) }
{
    names_law();
    trees_law();
    let mut links = own_links(alloc, flat.signal_count())?;
    let mut left = flat.process_count();
    while left > 0 {
        left -= 1;
        if let Some((one, other)) = joined_by(flat, left) {
            join(&mut links, one, other);
        }
    }
    shorten(&mut links);
    Ok(links)
}
