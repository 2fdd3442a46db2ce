//! Laws of the definitions: each is a function with an empty body whose `ensures` is the law.

ghost use Rattle.vs_vcd.specs.ExampleTexts.{DigitsComputed, NumeralsComputed, TextsComputed};
ghost use Rattle.vs_vcd.specs.ExampleShared.{SharedComputed};
ghost use Rattle.vs_vcd.specs.Shared.{ClassesHaveOneValue, CodesAreClasses, EachPlaceLeads, TextIsParts, UnjoinedIsPlain};
ghost use Rattle.vs_vcd.specs.Laws.{FirstSlot, NextSlot, UnchangedIsEqual, ValuesFit, VcdIsParts};

use vs_design::solution_law;

/// A VCD is its head, its first slot, its later slots one by one, and its last line, joined; and the values of a state have the lengths of their signals.
pub fn parts_law()
    ensures whole { VcdIsParts }
    ensures first { FirstSlot }
    ensures next { NextSlot }
    ensures lengths { ValuesFit }
{}

/// A value is left out of a slot exactly where it equals the value of the slot before.
pub fn unchanged_law()
    ensures { UnchangedIsEqual }
{}

/// Worked texts, values and identifier codes.
pub fn texts_law()
    ensures texts { TextsComputed }
    ensures digits { DigitsComputed }
    ensures numerals { NumeralsComputed }
{}

/// A class has the code of its first signal that has a line, its signals have the same bits at the end of every slot of an accepted design, and where nothing is
/// joined the text is the one with a code for each signal.
pub fn share_law()
    ensures parts { TextIsParts }
    ensures places { EachPlaceLeads }
    ensures classes { CodesAreClasses }
    ensures values { ClassesHaveOneValue }
    ensures unjoined { UnjoinedIsPlain }
{
    solution_law();
}

/// Worked texts with one code for each class.
pub fn shared_law()
    ensures { SharedComputed }
{}
