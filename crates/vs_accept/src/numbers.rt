//! The numbers that a report gives to processes: how many stand before each in the text, initial ones among them.

ghost use Rattle.std.specs.Prelude.{◌≡◌, ◌≤◌, ◌^◌, map, IfOk};
ghost use Rattle.vs_flat.specs.DesignOf.{design_of};
ghost use Rattle.vs_flat.specs.Lawful.{IsLawful};
ghost use Rattle.vs_flat.specs.declared.processes.AnyProcess.TheVariants as any;
ghost use Rattle.vs_accept.specs.Numbers as spec;

use std::alloc::{AllocError, Global};
use vs_flat::{AnyProcess, Flat, lawful_law, trees_law};
use vs_typed::Typed;

/// How many initial processes stand before process p.
fn starts_before(flat: &Flat, process: u32) -> u32
    ensures count { result ≡ spec.starts_before (design_of flat.now).initials process }
    ensures most { result ≤ 2 ^ 16 }
{
    trees_law();
    let count = flat.initial_count();
    for k in 0..count {
        if flat.initial(k).behind > process {
            return k;
        }
    }
    count
}

/// The number of process p; where there is none, p.
fn process_number(flat: &Flat, process: u32) -> u32
    ensures { result ≡ spec.process_number (design_of flat.now) process }
{
    trees_law();
    if process >= flat.process_count() {
        return process;
    }
    process + starts_before(flat, process)
}

/// The number of initial process k; where there is none, k.
fn initial_number(flat: &Flat, initial: u32) -> u32
    requires { IsLawful flat.now }
    ensures { result ≡ spec.number_of (design_of flat.now) (any.Initial initial) }
{
    trees_law();
    lawful_law();
    if initial >= flat.initial_count() {
        return initial;
    }
    flat.initial(initial).behind + initial
}

/// The number of a process; one that no process has stays as it is.
fn flat_number(flat: &Flat, process: AnyProcess) -> u32
    requires { IsLawful flat.now }
    ensures { result ≡ spec.number_of (design_of flat.now) process }
{
    match process {
        AnyProcess::Process(p) => process_number(flat, p),
        AnyProcess::Initial(k) => initial_number(flat, k),
    }
}

/// The numbers of processes, in order. The only error is that memory ran out.
fn flat_numbers(alloc: Global, flat: &Flat, processes: &[u32]) -> Result<Vec<u32>, AllocError>
    ensures { IfOk result (λ v. v.items ≡ map (spec.process_number (design_of flat.now)) processes.now) }
{
    let mut told = Vec::new(alloc);
    for process in processes {
        let number = process_number(flat, *process);
        told.push(number)?;
    }
    Ok(told)
}

/// The token at which process p begins, and 0 where there is none.
fn process_begin(flat: &Flat, process: u32) -> u32
    ensures { result ≡ spec.begin_of (design_of flat.now) (any.Process process) }
{
    trees_law();
    if process >= flat.process_count() {
        return 0;
    }
    flat.process(process).at
}

/// The token at which initial process k begins, and 0 where there is none.
fn initial_begin(flat: &Flat, initial: u32) -> u32
    ensures { result ≡ spec.begin_of (design_of flat.now) (any.Initial initial) }
{
    trees_law();
    if initial >= flat.initial_count() {
        return 0;
    }
    flat.initial(initial).at
}

/// The token at which a process begins, and 0 where there is none.
fn flat_begin(flat: &Flat, process: AnyProcess) -> u32
    ensures { result ≡ spec.begin_of (design_of flat.now) process }
{
    match process {
        AnyProcess::Process(p) => process_begin(flat, p),
        AnyProcess::Initial(k) => initial_begin(flat, k),
    }
}

/// The number of a process of a design whose lengths are known; one that no process has stays as it is.
pub(crate) fn number(typed: &Typed, process: AnyProcess) -> u32
    ensures { result ≡ spec.number_of (design_of typed.now) process }
{
    flat_number(typed.flat(), process)
}

/// The numbers of processes of such a design, in order. The only error is that memory ran out.
pub(crate) fn numbers(
    alloc: Global,
    typed: &Typed,
    processes: &[u32],
) -> Result<Vec<u32>, AllocError>
    ensures { IfOk result (λ v. v.items ≡ map (spec.process_number (design_of typed.now)) processes.now) }
{
    flat_numbers(alloc, typed.flat(), processes)
}

/// The token at which a process of such a design begins, and 0 where there is none.
pub(crate) fn begin(typed: &Typed, process: AnyProcess) -> u32
    ensures { result ≡ spec.begin_of (design_of typed.now) process }
{
    flat_begin(typed.flat(), process)
}
