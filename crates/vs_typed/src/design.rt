//! Finding what a design's lengths and size are, or what refuses them.

ghost use Rattle.std.specs.Prelude.{◌≡◌, None, true, length, map, IfOk, IfErr, OnOk};
ghost use Rattle.std.specs.List.{list_all};
ghost use Rattle.vs_design.specs.Fits.{fits_process, fits_initial};
ghost use Rattle.vs_flat.specs.DesignOf.{design_of};
ghost use Rattle.vs_flat.specs.Lawful.{IsLawful};
ghost use Rattle.vs_typed.specs.Refused.{IsFound, IsWidthError, first_refused};
ghost use Rattle.vs_typed.specs.Weights.{AreWeights, told_weight};

use crate::WidthError;
use crate::functions::{function_places, function_weights};
use crate::refused::check_processes;
use crate::sizes::{add_sleepers, awake_size, each_weight};
use crate::typed::Typed;
use std::alloc::Global;
use vs_flat::Flat;
use vs_reads::footprints;
use vs_sets::sleeping;
use vs_shape::Shapes;

/// A design of which no process is refused: the shapes of its expressions, and the weights of its functions.
struct Weighed {
    shapes: Shapes,
    weights: Vec<Option<u64>>,
}

/// A lawful design of which no process and no initial process is refused (IEEE 1364-2005, 5.4). TooWide, Division: the least place over 64 bits, or of a division at run time, of the first process or initial process in the text that has one.
fn weigh(alloc: Global, flat: Flat) -> Result<Weighed, WidthError>
    requires lawful { IsLawful flat }
    ensures same { IfOk result (λ w. w.shapes ≡ flat) }
    ensures passes { IfOk result (λ w. first_refused (design_of w.shapes) ≡ None) }
    ensures fits { IfOk result (λ w. list_all fits_process (design_of w.shapes).processes ≡ true) }
    ensures initials { IfOk result (λ w. list_all fits_initial (design_of w.shapes).initials ≡ true) }
    ensures weights { IfOk result (λ w. AreWeights w.shapes w.weights.items) }
    ensures all { IfOk result (λ w. length w.weights.items ≡ length w.shapes.bodies) }
    ensures refused { IfErr result (IsFound (first_refused (design_of flat))) }
{
    let mut shapes = Shapes::new(alloc, flat);
    let count = shapes.flat().expr_count();
    shapes.note(count)?;
    let places = function_places(alloc, &shapes)?;
    match check_processes(alloc, &shapes, &places) {
        Ok(()) => {}
        Err(error) => return Err(error),
    }
    let weights = function_weights(alloc, &shapes, &places)?;
    Ok(Weighed { shapes, weights })
}

/// The lengths and the size of a lawful design (IEEE 1364-2005, 5.4 and 5.5). TooWide, Division: the least place over 64 bits, or of a division at run time, of the first process or initial process in the text that has one. TooLarge: its size, where it is over 16,777,216, already without what sleeping blocks add if that is; one of 2^64 or more as 2^64 - 1.
pub fn type_design(alloc: Global, flat: Flat) -> Result<Typed, WidthError>
    requires lawful { IsLawful flat }
    ensures same { IfOk result (λ t. t ≡ flat) }
    ensures refused { IfErr result (IsWidthError (design_of flat)) }
{
    let Weighed { shapes, weights } = match weigh(alloc, flat) {
        Ok(weighed) => weighed,
        Err(error) => return Err(error),
    };
    let awake = awake_size(alloc, &shapes, weights.as_slice())?;
    if awake > 16_777_216 {
        return Err(WidthError::TooLarge { size: awake });
    }
    let prints = footprints(alloc, &shapes)?;
    let asleep = sleeping(alloc, &shapes, &prints)?;
    let size = add_sleepers(&shapes, &prints, asleep.as_slice(), awake);
    Typed::of(shapes, size, asleep, weights)
}

/// What each process of a lawful design weighs in the size of the design, by number: the plane operations that it may take in a half-period of the clock, but for what it adds where it sleeps; one of 2^64 or more as 2^64 - 1. TooWide, Division: the least place over 64 bits, or of a division at run time, of the first process that has one (IEEE 1364-2005, 5.4). TooLarge never comes.
pub fn process_weights(alloc: Global, flat: Flat) -> Result<Vec<u64>, WidthError>
    requires lawful { IsLawful flat }
    ensures weights { IfOk result (λ v. v.items ≡ map told_weight (design_of flat).processes) }
    ensures passes { OnOk result (first_refused (design_of flat) ≡ None) }
    ensures refused { IfErr result (IsFound (first_refused (design_of flat))) }
{
    let Weighed { shapes, weights } = match weigh(alloc, flat) {
        Ok(weighed) => weighed,
        Err(error) => return Err(error),
    };
    Ok(each_weight(alloc, &shapes, weights.as_slice())?)
}
