//! Which processes run where some bits have changed.

ghost use Rattle.std.specs.Prelude.{◌≡◌, ℕ, ◌<◌, ◌++◌, List, length, All, IfOk};
ghost use Rattle.std.specs.List.{list_any};
ghost use Rattle.vs_design.specs.Designs.{bit_count};
ghost use Rattle.vs_design.specs.Footprints.{contains};
ghost use Rattle.vs_cone.specs.Cones.{cone};
ghost use Rattle.vs_code.specs.Calls.{Call};
ghost use Rattle.vs_assemble.specs.Flags.{AreFlags};
ghost use Rattle.vs_assemble.specs.Runs.{AreRunsOf};

use crate::Lowering;
use std::alloc::{AllocError, Global};
use vs_program::Run;

/// The runs of the processes that these bits lead to, of those of an order, each of which has a run. The only error is that there is no memory.
pub(crate) fn cone_of<T: Lowering>(
    alloc: Global,
    lowering: &T,
    order: &[u32],
    runs: &[Run],
    bits: u32,
    changed: &[u32],
) -> Result<Vec<Run>, AllocError>
    requires runs { length runs.now ≡ length order.now }
    requires order { All (λ p. p < length (T.design lowering.now).processes) order.now }
    requires bits { bits ≡ bit_count (T.design lowering.now) }
    requires changed { All (λ b. b < bits) changed.now }
    ensures { (calls : List Call) → AreRunsOf (T.design lowering.now) (T.layout lowering.now) calls order.now runs.now
        → IfOk result (λ v. AreRunsOf (T.design lowering.now) (T.layout lowering.now) calls (cone (T.design lowering.now) changed.now order.now) v.items) }
{
    let mut flags = flags_of(alloc, bits, changed)?;
    cone(alloc, lowering, order, runs, flags.as_mut_slice())
}

/// Flags for so many bits, of which those of these are set.
fn flags_of(alloc: Global, bits: u32, set: &[u32]) -> Result<Vec<bool>, AllocError>
    requires { All (λ b. b < bits) set.now }
    ensures count { IfOk result (λ v. length v.items ≡ bits) }
    ensures flags { IfOk result (λ v. AreFlags v.items set.now) }
{
    let mut flags = vec![in alloc; false; bits as usize]?;
    set_all(set, flags.as_mut_slice());
    Ok(flags)
}

/// The runs of the processes that the bits lead to whose flags are set. Afterwards the flags of all bits are set that they write, too.
fn cone<T: Lowering>(
    alloc: Global,
    lowering: &T,
    order: &[u32],
    runs: &[Run],
    flags: &mut [bool],
) -> Result<Vec<Run>, AllocError>
    requires runs { length runs.now ≡ length order.now }
    requires order { All (λ p. p < length (T.design lowering.now).processes) order.now }
    requires flags { length flags.old ≡ bit_count (T.design lowering.now) }
    ensures { (calls : List Call) (bits : List ℕ) → AreFlags flags.old bits
        → AreRunsOf (T.design lowering.now) (T.layout lowering.now) calls order.now runs.now
        → IfOk result (λ v. AreRunsOf (T.design lowering.now) (T.layout lowering.now) calls (cone (T.design lowering.now) bits order.now) v.items) }
{
    let mut reached = Vec::new(alloc);
    for (n, process) in order.iter().enumerate() {
        if is_set(lowering.needs(*process), flags) {
            reached.push(runs[n])?;
            set_all(lowering.writes(*process), flags);
        }
    }
    Ok(reached)
}

/// Whether the flag of one of these bits is set.
fn is_set(bits: &[u32], flags: &[bool]) -> bool
    requires { All (λ b. b < length flags.now) bits.now }
    ensures { (set : List ℕ) → AreFlags flags.now set → result ≡ list_any (contains set) bits.now }
{
    for bit in bits {
        if flags[*bit as usize] {
            return true;
        }
    }
    false
}

/// Sets the flags of these bits.
pub(crate) fn set_all(bits: &[u32], flags: &mut [bool])
    requires { All (λ b. b < length flags.old) bits.now }
    ensures count { length flags.new ≡ length flags.old }
    ensures set { (set : List ℕ) → AreFlags flags.old set → AreFlags flags.new (bits.now ++ set) }
{
    for bit in bits {
        flags[*bit as usize] = true;
    }
}
