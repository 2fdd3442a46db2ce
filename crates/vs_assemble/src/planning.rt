//! Which processes run, and which bits lead to others.

ghost use Rattle.std.specs.Prelude.{◌≡◌, ℕ, ◌<◌, ◌++◌, List, [], length, All, IfOk, true, ◌^◌};
ghost use Rattle.vs_design.specs.Designs.{bit_count};
ghost use Rattle.vs_design.specs.Footprints.{ascending};
ghost use Rattle.vs_design.specs.Levels.{is_level_order};
ghost use Rattle.vs_design.specs.Sizes.{register_bits};
ghost use Rattle.vs_cone.specs.Cones.{but_ports};
ghost use Rattle.vs_cone.specs.Counts.{clocked};
ghost use Rattle.vs_cone.specs.Given.{data_bits, fall_bits};
ghost use Rattle.vs_program.specs.Compiled.{IsAcceptedAt};
ghost use Rattle.vs_assemble.specs.Flags.{AreFlags, HasBitsOf};
ghost use Rattle.vs_assemble.specs.Plans.{IsPlanOf};

use crate::Processes;
use crate::cones::set_all;
use std::alloc::{AllocError, Global};
use vs_cone::{list_law, sources_law};
use vs_design::cycle_law;

/// Which processes run, and which bits lead to others.
#[derive(Drop)]
pub(crate) struct Plan {
    /// The processes that settle a first slot, in a level order: all assigns and combinational blocks but the ports that copy clocks.
    pub(crate) settling: Vec<u32>,
    /// The clocked blocks, ascending.
    pub(crate) blocks: Vec<u32>,
    /// The bits of the registers, ascending.
    pub(crate) registers: Vec<u32>,
    /// The bits that change where the clocks fall: the data inputs, and what resets set.
    pub(crate) falling: Vec<u32>,
}

/// The plan of a design with so many bits, whose data inputs are these.
pub(crate) fn make_plan<T: Processes>(
    alloc: Global,
    lowering: &T,
    clocks: &[u32],
    order: &[u32],
    bits: u32,
    inputs: &[u32],
) -> Result<Plan, AllocError>
    requires clocks { clocks.now ≡ T.clock_list lowering.now }
    requires accepted { IsAcceptedAt (T.design lowering.now) clocks.now }
    requires order { is_level_order (T.design lowering.now) order.now ≡ true }
    requires bits { bits ≡ bit_count (T.design lowering.now) }
    requires inputs { inputs.now ≡ data_bits (T.design lowering.now) clocks.now }
    ensures { IfOk result (λ p. IsPlanOf (T.design lowering.now) clocks.now order.now p.settling.items p.blocks.items p.registers.items p.falling.items) }
{
    cycle_law();
    sources_law();
    list_law();
    let settling = but_ports(alloc, lowering, clocks, order)?;
    let blocks = clocked(alloc, lowering)?;
    let registers = registers(alloc, lowering, bits)?;
    let falling = falling(alloc, lowering, clocks, bits, inputs)?;
    Ok(Plan {
        settling,
        blocks,
        registers,
        falling,
    })
}

/// Of an order the processes but the ports that copy clocks.
fn but_ports<T: Processes>(
    alloc: Global,
    lowering: &T,
    clocks: &[u32],
    order: &[u32],
) -> Result<Vec<u32>, AllocError>
    requires clocks { clocks.now ≡ T.clock_list lowering.now }
    requires order { All (λ p. p < length (T.design lowering.now).processes) order.now }
    ensures { IfOk result (λ v. v.items ≡ but_ports (T.design lowering.now) clocks.now order.now) }
{
    let mut settling = Vec::new(alloc);
    for process in order {
        if !lowering.copies_clock(clocks, *process) {
            settling.push(*process)?;
        }
    }
    Ok(settling)
}

/// The numbers of the clocked blocks, ascending.
fn clocked<T: Processes>(alloc: Global, lowering: &T) -> Result<Vec<u32>, AllocError>
    ensures { IfOk result (λ v. v.items ≡ clocked (T.design lowering.now)) }
{
    let mut blocks = Vec::new(alloc);
    for process in 0..lowering.process_count() {
        if lowering.is_clocked(process) {
            blocks.push(process)?;
        }
    }
    Ok(blocks)
}

/// The bits of the registers of a design with so many bits, ascending. The only error is that there is no memory.
pub fn registers<T: Processes>(
    alloc: Global,
    lowering: &T,
    bits: u32,
) -> Result<Vec<u32>, AllocError>
    requires { bits ≡ bit_count (T.design lowering.now) }
    ensures { IfOk result (λ v. v.items ≡ ascending bits (register_bits (T.design lowering.now).processes)) }
{
    let mut flags = vec![in alloc; false; bits as usize]?;
    set_registers(lowering, flags.as_mut_slice());
    flagged(alloc, flags.as_slice())
}

/// Sets the flags of the bits of the registers.
fn set_registers<T: Processes>(lowering: &T, flags: &mut [bool])
    requires { length flags.old ≡ bit_count (T.design lowering.now) }
    ensures count { length flags.new ≡ length flags.old }
    ensures set { AreFlags flags.old [] → AreFlags flags.new (register_bits (T.design lowering.now).processes) }
{
    for process in 0..lowering.process_count() {
        if lowering.is_clocked(process) {
            set_all(lowering.writes(process), flags);
        }
    }
}

/// The numbers whose flags are set, ascending.
fn flagged(alloc: Global, flags: &[bool]) -> Result<Vec<u32>, AllocError>
    requires { length flags.now < 2 ^ 32 }
    ensures { (set : List ℕ) → AreFlags flags.now set → IfOk result (λ v. v.items ≡ ascending (length flags.now) set) }
{
    let mut numbers = Vec::new(alloc);
    for (n, flag) in flags.iter().enumerate() {
        if *flag {
            numbers.push(n as u32)?;
        }
    }
    Ok(numbers)
}

/// The bits that change where the clocks fall: these data inputs, and what the resets of the clocked blocks set.
fn falling<T: Processes>(
    alloc: Global,
    lowering: &T,
    clocks: &[u32],
    bits: u32,
    inputs: &[u32],
) -> Result<Vec<u32>, AllocError>
    requires clocks { clocks.now ≡ T.clock_list lowering.now }
    requires bits { bits ≡ bit_count (T.design lowering.now) }
    requires inputs { inputs.now ≡ data_bits (T.design lowering.now) clocks.now }
    requires below { All (λ b. b < bits) inputs.now }
    ensures { IfOk result (λ v. HasBitsOf bits v.items (fall_bits (T.design lowering.now) clocks.now)) }
{
    let mut falling = inputs.to_vec(alloc)?;
    for process in 0..lowering.process_count() {
        lowering.add_reset_bits(clocks, process, &mut falling)?;
    }
    Ok(falling)
}
