//! The bits that asynchronous resets set (IEEE 1364-2005, 9.7.2 and 9.9.2).

ghost use Rattle.std.specs.Prelude.{◌≡◌, ◌++◌, ◌∷◌, ◌<◌, [], length, slice_get, slice_index_or, IfOk, OnOk};
ghost use Rattle.vs_design.specs.Designs.{bit_count};
ghost use Rattle.vs_flat.specs.DesignOf.{design_of};
ghost use Rattle.vs_zero.specs.States.{state_of, unknown};
ghost use Rattle.vs_zero.specs.Values.{IsZero};
ghost use Rattle.vs_assemble.specs.Flags.{HasBitsOf};
ghost use Rattle.vs_assemble.specs.Plans.{reset_bits_or};
ghost use Rattle.vs_compile.specs.Known.{AreFacts};
ghost use Rattle.vs_compile.specs.Resets.{AreSet};

use std::alloc::{AllocError, Global};
use std::marker::Model;
use vs_clock::Clocks;
use vs_design::write_law;
use vs_flat::{count_bits, trees_law};
use vs_four::Bit4;
use vs_reads::{Footprints, footprint_law};
use vs_typed::Typed;
use vs_zero::add_written;

/// For each process of a design the bits that its reset sets, seen as a list of lists.
#[derive(Drop)]
pub(crate) struct ResetBits {
    of: Vec<Vec<u32>>,
}

impl Model for ResetBits {
    ghost use Rattle.std.specs.Prelude.{List, ℕ};
    ghost use Rattle.vs_compile.specs.Resets.{reset_lists};

    ghost Value = { List (List ℕ) };

    ghost view = { reset_lists };
}

impl ResetBits {
    /// Those of no process.
    fn none(alloc: Global) -> ResetBits
        ensures { result ≡ [] }
    {
        ResetBits {
            of: Vec::new(alloc),
        }
    }

    /// Adds those of one process more.
    fn push(&mut self, bits: Vec<u32>) -> Result<(), AllocError>
        ensures { OnOk result (self.new ≡ self.old ++ bits.items ∷ []) }
    {
        self.of.push(bits)?;
        Ok(())
    }

    /// Those of a process.
    pub(crate) fn of(&self, process: u32) -> &[u32]
        requires { process < length self.now }
        ensures { result.now ≡ slice_index_or self.now process [] }
    {
        self.of[process as usize].as_slice()
    }

    /// Those of all processes of an accepted design. The only error is that there is no memory.
    pub(crate) fn of_design(
        alloc: Global,
        typed: &Typed,
        footprints: &Footprints,
        clocks: &Clocks,
    ) -> Result<ResetBits, AllocError>
        requires { AreFacts typed.now footprints.now clocks.now }
        ensures { IfOk result (AreSet (design_of typed.now) clocks.now.bits (length (design_of typed.now).processes)) }
    {
        trees_law();
        let count = count_bits(typed.flat()) as usize;
        let mut from_x = vec![in alloc; Bit4::X; count]?;
        let mut from_zero = vec![in alloc; Bit4::Zero; count]?;
        gathered(
            alloc,
            typed,
            footprints,
            clocks,
            from_x.as_mut_slice(),
            from_zero.as_mut_slice(),
        )
    }
}

/// The bits that the resets of all processes set. One state has x in all bits and the other 0. The only error is that there is no memory.
fn gathered(
    alloc: Global,
    typed: &Typed,
    footprints: &Footprints,
    clocks: &Clocks,
    from_x: &mut [Bit4],
    from_zero: &mut [Bit4],
) -> Result<ResetBits, AllocError>
    requires facts { AreFacts typed.now footprints.now clocks.now }
    requires x_count { length from_x.old ≡ bit_count (design_of typed.now) }
    requires zero_count { length from_zero.old ≡ bit_count (design_of typed.now) }
    requires x { state_of from_x.old ≡ unknown }
    requires zero { IsZero from_zero.old }
    ensures { IfOk result (AreSet (design_of typed.now) clocks.now.bits (length (design_of typed.now).processes)) }
{
    trees_law();
    let mut all = ResetBits::none(alloc);
    for p in 0..typed.flat().process_count() {
        let bits = bits_of(alloc, typed, footprints, clocks, p, from_x, from_zero)?;
        all.push(bits)?;
    }
    Ok(all)
}

/// The bits that the reset of a process sets. One state has x in all bits and the other 0, before and after. The only error is that there is no memory.
fn bits_of(
    alloc: Global,
    typed: &Typed,
    footprints: &Footprints,
    clocks: &Clocks,
    p: u32,
    from_x: &mut [Bit4],
    from_zero: &mut [Bit4],
) -> Result<Vec<u32>, AllocError>
    requires facts { AreFacts typed.now footprints.now clocks.now }
    requires there { p < length (design_of typed.now).processes }
    requires x_count { length from_x.old ≡ bit_count (design_of typed.now) }
    requires zero_count { length from_zero.old ≡ bit_count (design_of typed.now) }
    requires x { state_of from_x.old ≡ unknown }
    requires zero { IsZero from_zero.old }
    ensures bits { IfOk result (λ v. HasBitsOf (bit_count (design_of typed.now)) v.items (reset_bits_or (design_of typed.now) clocks.now.bits (slice_get (design_of typed.now).processes p))) }
    ensures x { OnOk result (state_of from_x.new ≡ unknown) }
    ensures zero { OnOk result (IsZero from_zero.new) }
{
    footprint_law();
    write_law();
    match clocks.reset(p) {
        Some(reset) => {
            let writes = footprints.writes(p);
            let mut bits = Vec::new(alloc);
            add_written(
                typed.shapes(),
                reset.branch,
                writes,
                from_x,
                from_zero,
                &mut bits,
            )?;
            Ok(bits)
        }
        None => Ok(Vec::new(alloc)),
    }
}
