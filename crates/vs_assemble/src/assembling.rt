//! The program of a design.

ghost use Rattle.std.specs.Prelude.{◌≡◌, ℕ, ◌+◌, ◌<◌, ◌≤◌, ◌^◌, [], ◌∷◌, ◌++◌, List, length, replicate, sum_by, All, IfOk, OnOk, true, ◌-◌};
ghost use Rattle.vs_design.specs.Designs.{bit_count};
ghost use Rattle.vs_design.specs.Footprints.{contains};
ghost use Rattle.vs_design.specs.Levels.{is_level_order};
ghost use Rattle.vs_design.specs.Sizes.{register_bits};
ghost use Rattle.vs_kern_logic.specs.declared.costs.Kernel.TheVariants.{Copy};
ghost use Rattle.vs_code.specs.Calls.{Call, IsCall, length_of};
ghost use Rattle.vs_program.specs.Compiled.{IsProgramOf, IsAcceptedAt};
ghost use Rattle.vs_program.specs.Layouts.{slots_of_design};
ghost use Rattle.vs_program.specs.Lowered.{home};
ghost use Rattle.vs_program.specs.Made.{AreResetsOf, copy_shadows};
ghost use Rattle.vs_program.specs.Program.{AreIn};
ghost use Rattle.vs_assemble.specs.Plans.{HasRoom, IsFrameOf, IsPlanOf, IsTightLayout, may_store};
ghost use Rattle.vs_assemble.specs.Runs.{AreRunsOf};
ghost use Rattle.vs_assemble.specs.Together.{ArePhasesOf, IsLoweredDesign};

use crate::cones::cone_of;
use crate::planning::{Plan, make_plan};
use crate::runs::joined;
use crate::{Lowering, copy_law};
use std::alloc::{AllocError, Global};
use vs_base::List as Items;
use vs_code::{AnyKernel, Op, Program};
use vs_cone::{list_law, stores_law};
use vs_design::cycle_law;
use vs_four::Bit4;
use vs_program::{Compiled, Parts, Phases, Run, Span, home, program_law};

/// What a program has besides its calls.
#[derive(Drop)]
pub struct Frame {
    /// How many bits the design has.
    pub bits: u32,
    /// The clocks' bits; where there is no clock, the number of the design's bits alone.
    pub clocks: Vec<u32>,
    /// The bits of the data inputs, in bit order.
    pub inputs: Vec<u32>,
    /// The clocks' bits, and those of the nets that copy them. There is none without a clock.
    pub nets: Vec<u32>,
    /// What the slots of the constants and of the bits begin with.
    pub initial: Vec<Bit4>,
    /// The bits of each signal that a waveform shows, in their order: of all but memories.
    pub signals: Vec<Span>,
}

/// The calls of a design's processes, each process lowered once.
#[derive(Drop)]
pub(crate) struct Lowered {
    /// All calls.
    pub(crate) program: Program,
    /// Those of the resets.
    pub(crate) resets: Run,
    /// Those of each process that settles.
    pub(crate) settling: Vec<Run>,
    /// Those of each clocked block.
    pub(crate) blocks: Vec<Run>,
    /// The copy of the registers' next values.
    pub(crate) copy: Run,
}

/// A design compiled: each process lowered once, and the calls put together for each kind of time slot. The only error is that there is no memory.
///
/// The clocks are the lowering's, the number of the design's bits alone where it has none; the order a level order of the design.
pub fn assemble<T: Lowering>(
    alloc: Global,
    lowering: &T,
    clocks: &[u32],
    order: &[u32],
    frame: Frame,
) -> Result<Compiled, AllocError>
    requires clocks { clocks.now ≡ T.clock_list lowering.now }
    requires accepted { IsAcceptedAt (T.design lowering.now) clocks.now }
    requires order { is_level_order (T.design lowering.now) order.now ≡ true }
    requires layout { IsTightLayout (T.design lowering.now) (T.layout lowering.now) }
    requires frame { IsFrameOf (T.design lowering.now) clocks.now frame.bits frame.clocks.items frame.inputs.items frame.nets.items frame.initial.items frame.signals.items }
    ensures { IfOk result (IsProgramOf (T.design lowering.now) clocks.now) }
{
    let plan = make_plan(
        alloc,
        lowering,
        clocks,
        order,
        frame.bits,
        frame.inputs.as_slice(),
    )?;
    let lowered = lower_design(alloc, lowering, clocks, order, &plan)?;
    let phases = phases(alloc, lowering, clocks, order, &plan, frame.bits, &lowered)?;
    finish(lowering, clocks, order, &plan, frame, lowered, phases)
}

/// The parts put together. The slots behind the bits begin with 0.
fn finish<T: Lowering>(
    lowering: &T,
    clocks: &[u32],
    order: &[u32],
    plan: &Plan,
    frame: Frame,
    lowered: Lowered,
    phases: Phases,
) -> Result<Compiled, AllocError>
    requires accepted { IsAcceptedAt (T.design lowering.now) clocks.now }
    requires order { is_level_order (T.design lowering.now) order.now ≡ true }
    requires layout { IsTightLayout (T.design lowering.now) (T.layout lowering.now) }
    requires plan { IsPlanOf (T.design lowering.now) clocks.now order.now plan.now.settling.items plan.now.blocks.items plan.now.registers.items plan.now.falling.items }
    requires frame { IsFrameOf (T.design lowering.now) clocks.now frame.bits frame.clocks.items frame.inputs.items frame.nets.items frame.initial.items frame.signals.items }
    requires lowered { IsLoweredDesign (T.design lowering.now) clocks.now (T.layout lowering.now) plan.now.settling.items plan.now.blocks.items plan.now.registers.items lowered }
    requires phases { ArePhasesOf (T.design lowering.now) clocks.now (T.layout lowering.now) order.now lowered phases }
    ensures { IfOk result (IsProgramOf (T.design lowering.now) clocks.now) }
{
    program_law();
    let Frame {
        bits,
        clocks,
        inputs,
        nets,
        initial,
        signals,
    } = frame;
    let Lowered { program, .. } = lowered;
    let count = program.slots().max(u64::from(lowering.first_temp()));
    let initial = padded(initial, count)?;
    Ok(Compiled::of(Parts {
        bits,
        clocks,
        inputs,
        nets,
        initial,
        signals,
        calls: program,
        phases,
    }))
}

/// The bits, and then 0 until there are so many.
fn padded(bits: Vec<Bit4>, count: u64) -> Result<Vec<Bit4>, AllocError>
    requires { length bits.items ≤ count }
    ensures { IfOk result (λ v. v.items ≡ bits.items ++ replicate (count - length bits.items) Bit4.Zero) }
{
    let mut bits = bits;
    while (bits.len() as u64) < count {
        bits.push(Bit4::Zero)?;
    }
    Ok(bits)
}

/// What each phase makes of the calls.
fn phases<T: Lowering>(
    alloc: Global,
    lowering: &T,
    clocks: &[u32],
    order: &[u32],
    plan: &Plan,
    bits: u32,
    lowered: &Lowered,
) -> Result<Phases, AllocError>
    requires accepted { IsAcceptedAt (T.design lowering.now) clocks.now }
    requires order { is_level_order (T.design lowering.now) order.now ≡ true }
    requires plan { IsPlanOf (T.design lowering.now) clocks.now order.now plan.now.settling.items plan.now.blocks.items plan.now.registers.items plan.now.falling.items }
    requires bits { bits ≡ bit_count (T.design lowering.now) }
    requires lowered { IsLoweredDesign (T.design lowering.now) clocks.now (T.layout lowering.now) plan.now.settling.items plan.now.blocks.items plan.now.registers.items lowered.now }
    ensures { IfOk result (ArePhasesOf (T.design lowering.now) clocks.now (T.layout lowering.now) order.now lowered.now) }
{
    cycle_law();
    let settling = lowered.settling.as_slice();
    let falling = cone_of(
        alloc,
        lowering,
        plan.settling.as_slice(),
        settling,
        bits,
        plan.falling.as_slice(),
    )?;
    let rising = cone_of(
        alloc,
        lowering,
        plan.settling.as_slice(),
        settling,
        bits,
        plan.registers.as_slice(),
    )?;
    let first = joined(alloc, &[lowered.resets], settling)?;
    let fall = joined(alloc, &[lowered.resets], falling.as_slice())?;
    let next = joined(alloc, lowered.blocks.as_slice(), &[lowered.copy])?;
    let rise = joined(alloc, &[], rising.as_slice())?;
    Ok(Phases {
        first,
        fall,
        next,
        rise,
    })
}

/// The calls of all processes, each lowered once: the resets, the processes that settle, the clocked blocks, and the copy of the next values.
fn lower_design<T: Lowering>(
    alloc: Global,
    lowering: &T,
    clocks: &[u32],
    order: &[u32],
    plan: &Plan,
) -> Result<Lowered, AllocError>
    requires clocks { clocks.now ≡ T.clock_list lowering.now }
    requires accepted { IsAcceptedAt (T.design lowering.now) clocks.now }
    requires order { is_level_order (T.design lowering.now) order.now ≡ true }
    requires layout { IsTightLayout (T.design lowering.now) (T.layout lowering.now) }
    requires plan { IsPlanOf (T.design lowering.now) clocks.now order.now plan.now.settling.items plan.now.blocks.items plan.now.registers.items plan.now.falling.items }
    ensures { IfOk result (IsLoweredDesign (T.design lowering.now) clocks.now (T.layout lowering.now) plan.now.settling.items plan.now.blocks.items plan.now.registers.items) }
{
    program_law();
    stores_law();
    cycle_law();
    list_law();
    copy_law();
    let blocks = plan.blocks.as_slice();
    let mut program = Program::new(alloc);
    lower_resets(alloc, lowering, clocks, blocks, &mut program)?;
    let resets = Run {
        from: 0,
        to: program.len(),
    };
    let settling = lower_each(alloc, lowering, plan.settling.as_slice(), &mut program)?;
    let stepping = lower_each(alloc, lowering, blocks, &mut program)?;
    let copy = lower_copy(alloc, lowering, plan.registers.as_slice(), &mut program)?;
    Ok(Lowered {
        program,
        resets,
        settling,
        blocks: stepping,
        copy,
    })
}

/// Adds the calls of these processes, one after the other, and answers the run of each.
fn lower_each<T: Lowering>(
    alloc: Global,
    lowering: &T,
    processes: &[u32],
    program: &mut Program,
) -> Result<Vec<Run>, AllocError>
    requires processes { All (λ p. p < length (T.design lowering.now).processes) processes.now }
    requires few { length_of program.old + sum_by (may_store (T.design lowering.now)) processes.now ≤ 2 ^ 32 }
    requires room { HasRoom (T.design lowering.now) (T.layout lowering.now) }
    ensures runs { IfOk result (λ runs. AreRunsOf (T.design lowering.now) (T.layout lowering.now) program.new processes.now runs.items) }
    ensures grown { OnOk result ((calls : List Call) × (program.new ≡ program.old ++ calls)) }
    ensures few { OnOk result (length_of program.new ≤ length_of program.old + sum_by (may_store (T.design lowering.now)) processes.now) }
    ensures slots { OnOk result (AreIn (slots_of_design (T.design lowering.now)) program.old → AreIn (slots_of_design (T.design lowering.now)) program.new) }
{
    program_law();
    let mut runs = Vec::new(alloc);
    for process in processes {
        let from = program.len();
        lowering.lower(alloc, *process, program)?;
        let to = program.len();
        runs.push(Run { from, to })?;
    }
    Ok(runs)
}

/// Adds the calls of the resets of these clocked blocks, one after the other, to a program without calls.
fn lower_resets<T: Lowering>(
    alloc: Global,
    lowering: &T,
    clocks: &[u32],
    blocks: &[u32],
    program: &mut Program,
) -> Result<(), AllocError>
    requires clocks { clocks.now ≡ T.clock_list lowering.now }
    requires none { program.old ≡ [] }
    requires blocks { All (λ p. p < length (T.design lowering.now).processes) blocks.now }
    requires few { sum_by (may_store (T.design lowering.now)) blocks.now ≤ 2 ^ 32 }
    requires room { HasRoom (T.design lowering.now) (T.layout lowering.now) }
    ensures calls { OnOk result (AreResetsOf (T.design lowering.now) clocks.now (T.layout lowering.now) blocks.now program.new) }
    ensures few { OnOk result (length_of program.new ≤ sum_by (may_store (T.design lowering.now)) blocks.now) }
    ensures slots { OnOk result (AreIn (slots_of_design (T.design lowering.now)) program.new) }
{
    program_law();
    for process in blocks {
        lowering.lower_reset(alloc, clocks, *process, program)?;
    }
    Ok(())
}

/// Adds the call that copies the next values of these registers to their bits, if there is a register, and answers its run.
fn lower_copy<T: Lowering>(
    alloc: Global,
    lowering: &T,
    registers: &[u32],
    program: &mut Program,
) -> Result<Run, AllocError>
    requires registers { (b : ℕ) → contains registers.now b ≡ true → contains (register_bits (T.design lowering.now).processes) b ≡ true }
    requires below { All (λ b. home b < 2 ^ 32) registers.now }
    requires call { All IsCall (copy_shadows (T.layout lowering.now) registers.now) }
    requires few { length_of program.old + length_of (copy_shadows (T.layout lowering.now) registers.now) ≤ 2 ^ 32 }
    ensures calls { OnOk result (program.new ≡ program.old ++ copy_shadows (T.layout lowering.now) registers.now) }
    ensures run { IfOk result (λ run. run ≡ record { from = length program.old; to = length program.new }) }
{
    let from = program.len();
    if !registers.is_empty() {
        let mut shadows = Vec::with_capacity(alloc, registers.len())?;
        let mut homes = Vec::with_capacity(alloc, registers.len())?;
        for bit in registers {
            shadows.push(lowering.shadow(*bit))?;
            homes.push(home(*bit))?;
        }
        program.push(copy(alloc, shadows, homes)?)?;
    }
    Ok(Run {
        from,
        to: program.len(),
    })
}

/// The call that copies some slots to others.
fn copy(alloc: Global, from: Vec<u32>, to: Vec<u32>) -> Result<Op, AllocError>
    ensures { IfOk result (λ op. op ≡ record { kernel = AnyKernel.Logic Copy; args = from.items ∷ []; to = to.items; scratch = [] }) }
{
    let args = vec![in alloc; Items::of(from)]?;
    Ok(Op {
        kernel: AnyKernel::Logic(vs_kern_logic::Kernel::Copy),
        args: Items::of(args),
        to: Items::of(to),
        scratch: Items::of(Vec::new(alloc)),
    })
}
