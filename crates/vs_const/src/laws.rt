//! Laws of constant expressions, and worked answers.

ghost use Rattle.vs_const.specs.ExampleConstants.{ConstantsComputed};
ghost use Rattle.vs_const.specs.Sound.{FaultlessIsFine};

/// An expression without a fault, at run time too, stands for a formed expression of the design, whose length and value are known: so where each
/// name has a value, a constant has one or breaks a rule.
pub fn sound_law()
    ensures { FaultlessIsFine }
{}

/// Worked constants, and where each rule is broken.
pub fn constant_examples()
    ensures { ConstantsComputed }
{}
