//! The order of the text, in which processes of both kinds stand.

ghost use Rattle.std.specs.Prelude.{◌≡◌, ◌+◌, [], ◌∷◌, ◌++◌, map, IfOk, OnOk};
ghost use Rattle.vs_design.specs.Designs.{standing};
ghost use Rattle.vs_flat.specs.DesignOf.{design_of};
ghost use Rattle.vs_flat.specs.Lawful.{IsLawful};
ghost use Rattle.vs_flat.specs.declared.processes.AnyProcess.TheVariants.{Process};
ghost use Rattle.vs_flat.specs.TextOrder.{IsNext, any_of, text_numbers};

use crate::{AnyProcess, Flat, lawful_law, trees_law};
use std::alloc::{AllocError, Global};

/// Adds the initial processes that stand behind so many processes, of which this one is the next, and answers the next after them.
fn push_standing(
    flat: &Flat,
    process: u32,
    next: u32,
    order: &mut Vec<AnyProcess>,
) -> Result<u32, AllocError>
    requires { IsNext (design_of flat.now) process next }
    ensures added { OnOk result (order.new.items ≡ order.old.items ++ map any_of (standing process 0 (design_of flat.now).initials)) }
    ensures next { IfOk result (λ k. IsNext (design_of flat.now) (process + 1) k) }
{
    trees_law();
    for k in next..flat.initial_count() {
        if flat.initial(k).behind != process {
            return Ok(k);
        }
        order.push(AnyProcess::Initial(k))?;
    }
    Ok(flat.initial_count())
}

/// Adds the initial processes before process p, of which this one is the next, and process p, and answers the next initial process after them.
fn push_process(
    flat: &Flat,
    process: u32,
    next: u32,
    order: &mut Vec<AnyProcess>,
) -> Result<u32, AllocError>
    requires { IsNext (design_of flat.now) process next }
    ensures added { OnOk result (order.new.items ≡ order.old.items ++ (map any_of (standing process 0 (design_of flat.now).initials) ++ Process process ∷ [])) }
    ensures next { IfOk result (λ k. IsNext (design_of flat.now) (process + 1) k) }
{
    let after = push_standing(flat, process, next, order)?;
    order.push(AnyProcess::Process(process))?;
    Ok(after)
}

/// The processes and the initial processes of a lawful design in the order of the text, each by its number.
pub fn text_order(alloc: Global, flat: &Flat) -> Result<Vec<AnyProcess>, AllocError>
    requires { IsLawful flat.now }
    ensures { IfOk result (λ v. v.items ≡ text_numbers (design_of flat.now)) }
{
    trees_law();
    lawful_law();
    let mut order = Vec::new(alloc);
    let mut next = 0;
    for process in 0..flat.process_count() {
        next = push_process(flat, process, next, &mut order)?;
    }
    push_standing(flat, flat.process_count(), next, &mut order)?;
    Ok(order)
}
