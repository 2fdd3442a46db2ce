//! Which processes of a design a time slot has to run, where the slot before it has ended (IEEE 1364-2005, clause 11).
//!
//! It is definitions, in specs/, and their laws: each law is a function with an empty body whose `ensures` is the law.
#![tactic(auto)]

ghost use Rattle.vs_cone.specs.Counts.{StoresFit};
ghost use Rattle.vs_cone.specs.Example.{ConesComputed};
ghost use Rattle.vs_cone.specs.Given.{FirstFall, LaterFall, LaterRise};
ghost use Rattle.vs_cone.specs.Laws.{FirstSlots, LaterSlots};
ghost use Rattle.vs_cone.specs.Lists.{AscendingIsOnce, FewAreApart};
ghost use Rattle.vs_cone.specs.Sources.{SourcesOfDesign};
ghost use Rattle.vs_cone.specs.Writes.{WritesAre};

use vs_design::{clock_law, cycle_law, footprint_law, lawful_law, pass_law, spare_law};

/// In any slot it is enough to run the assigns and combinational blocks of a level order but the clocks' ports, once the inputs, the registers and all clock nets have their values.
pub fn first_law()
    ensures { FirstSlots }
{
    pass_law();
    lawful_law();
    clock_law();
}

/// In a slot that begins where another has ended it is enough to run the cone of the bits that changed.
pub fn later_law()
    ensures { LaterSlots }
{
    lawful_law();
    clock_law();
}

/// What a slot comes to in which the clocks fall: a first one, before which no values are settled, and a later one. Resets act here.
pub fn fall_law()
    ensures first { FirstFall }
    ensures later { LaterFall }
{
    pass_law();
    lawful_law();
    clock_law();
}

/// What a slot comes to in which the clocks rise: each register has what a run of its block gives from the values before, first its blocking writes (9.2.1) and then its updates (9.2.2).
pub fn rise_law()
    ensures { LaterRise }
{
    lawful_law();
    clock_law();
}

/// The stores of a slot are within the size of the design, where each process and each reset makes no more than it may.
pub fn stores_law()
    ensures { StoresFit }
{
    lawful_law();
    cycle_law();
}

/// Data inputs, clock nets and registers are bits of the design, each of one kind, but for a clock that isn't one; a reset sets registers of its own block, by a data input.
pub fn sources_law()
    ensures { SourcesOfDesign }
{
    lawful_law();
    clock_law();
    spare_law();
    footprint_law();
}

/// Lists that have each number once: an ascending one has, and none is longer than there are different numbers.
pub fn list_law()
    ensures few { FewAreApart }
    ensures ascending { AscendingIsOnce }
{
    footprint_law();
}

/// A bit's value after writes: which values before it depends on.
pub fn write_law()
    ensures { WritesAre }
{}

/// Worked designs: the processes that each kind of slot runs.
pub fn cone_examples()
    ensures { ConesComputed }
{}
