//! What holds of every design that no length refuses.

ghost use Rattle.vs_typed.specs.Laws.{EachProcessFits, EachInitialFits, SizeIsSmall, UnrefusedFits, UnrefusedInitialsFit};

/// In a design that elaboration gives and that no length refuses, every expression and every target of a process and of an initial process has 1 to 64 bits, nothing divides at run time, and the size is at most 16,777,216.
pub fn fits_law()
    ensures fits { EachProcessFits }
    ensures initials { EachInitialFits }
    ensures small { SizeIsSmall }
{}

/// In a design that elaboration gives, where no process and no initial process is refused, each of them fits.
pub(crate) fn unrefused_law()
    ensures processes { UnrefusedFits }
    ensures initials { UnrefusedInitialsFit }
{}
