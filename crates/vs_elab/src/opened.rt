//! A scope with its signals and parts (IEEE 1364-2005, 12.1).

ghost use Rattle.std.specs.Prelude.{◌≡◌, ◌≤◌, ◌++◌, ◌∷◌, [], List, None, OnOk, IfOk, IfErr, IsTrue, is_none, length, option_to_list};
ghost use Rattle.vs_grammar.specs.Depths.{deepest, header_depth, item_depth};
ghost use Rattle.vs_grammar.specs.Spelled.{depth_limit};
ghost use Rattle.vs_flat.specs.Named.{all_below};
ghost use Rattle.vs_const.specs.Faults.{least};
ghost use Rattle.vs_elaborated.specs.Elaborated.{counted, limit_faults};
ghost use Rattle.vs_elaborated.specs.Limits.{the_limits};
ghost use Rattle.vs_elaborated.specs.Pieces as pieces;
ghost use Rattle.vs_elaborated.specs.Numbers.{AreNumberedFrames};
ghost use Rattle.vs_elaborated.specs.Sound.{IsSoundTask};
ghost use Rattle.vs_elaborated.specs.Surveys.{Loops};
ghost use Rattle.vs_scope.specs.declared.frames.Frame.{Frame};
ghost use Rattle.vs_scope.specs.Contents.{contents_header, contents_items};
ghost use Rattle.vs_scope.specs.Overrides.{AreOverrides};
ghost use Rattle.vs_scope.specs.Surveys.{IsShapedScope};
ghost use Rattle.vs_elab.specs.Reading.{FailsBy, IsOpened, IsRead, IsText, Tells, design_so_far, source_of, task_of, totals_of, totals_so_far};

use crate::error::ElabError;
use crate::functions::add_functions;
use crate::limits::limit_fault;
use crate::opening::{add_scope, add_signals};
use crate::parts::parts_of;
use crate::pending::Part;
use crate::reading::{Counts, NewScope, Reading, Text};
use crate::surveyed::{SurveyedScope, survey_scope};
use std::alloc::{AllocError, Global};
use vs_build::fine_law;
use vs_const::Fault;
use vs_elaborated::{number_law, scope_law};
use vs_scope::{Around, Contents, Frame, Names, survey_law};

/// The counts with an instance more, if the scope is one, and the fault of one that stands too deep or is one too many.
fn count_scope(scope: NewScope<'_, '_>, counts: Counts) -> (Counts, Option<Fault>)
    requires { counts.instances ≤ 4096 }
    ensures counted { (frames : List Frame) (loops : Loops) → totals_of result.0 loops ≡ counted (task_of frames scope.entry) (totals_of counts loops) }
    ensures limited { (frames : List Frame) (loops : Loops) → result.1 ≡ least (limit_faults the_limits (task_of frames scope.entry) (totals_of result.0 loops)) }
    ensures few { result.1 ≡ None → result.0.instances ≤ 4096 }
    ensures start { result.0.start ≡ counts.start }
    ensures functions { result.0.functions ≡ counts.functions }
    ensures processes { result.0.processes ≡ counts.processes }
{
    match scope.contents {
        Contents::Block(_) => (counts, None),
        Contents::Module(_) => {
            let instances = counts.instances + 1;
            let counts = Counts {
                start: counts.start,
                instances,
                turns: counts.turns,
                functions: counts.functions,
                processes: counts.processes,
            };
            (counts, limit_fault(scope.place, scope.depth, instances))
        }
    }
}

/// Whether a scope is an instance of a module, and not a generate block.
fn is_instance(scope: NewScope<'_, '_>) -> bool
    ensures { (frames : List Frame) → result ≡ pieces.is_instance (task_of frames scope.entry).contents }
{
    matches!(scope.contents, Contents::Module(_))
}

/// Adds the names of a scope to those of all scopes.
fn push_frame<'a>(
    frames: &mut Vec<Frame<'a>>,
    names: Names<'a>,
    scope: NewScope<'_, 'a>,
) -> Result<(), AllocError>
    ensures { OnOk result (frames.new.items ≡ frames.old.items ++ record { names = names.entry; parent = scope.entry.parent; turn = scope.entry.turn } ∷ []) }
{
    frames.push(Frame {
        names,
        parent: scope.parent,
        turn: scope.turn,
    })?;
    Ok(())
}

/// Reads a scope but for its parts, which are the answer: adds it with its signals to the design. An error is the first rule that it breaks, or want
/// of memory; what has been read is of no use then.
pub(crate) fn open_scope<'a>(
    alloc: Global,
    text: &Text<'a>,
    reading: &mut Reading<'a>,
    scope: NewScope<'_, 'a>,
) -> Result<Vec<Part<'a>>, ElabError>
    requires text { IsText text.now }
    requires read { IsRead reading.old }
    requires sound { IsSoundTask (design_so_far reading.old) (task_of reading.old.frames.items scope) }
    requires numbered { AreNumberedFrames (design_so_far reading.old) (task_of reading.old.frames.items scope).env.frames }
    requires overrides { AreOverrides reading.old.frames.items scope.overrides.now }
    requires shaped { IsShapedScope scope.contents }
    requires header { header_depth (contents_header scope.contents) ≤ depth_limit }
    requires shallow { deepest item_depth (contents_items scope.contents) ≤ depth_limit }
    requires top { reading.old.counts.start.top ≡ is_none scope.within }
    requires within { IsTrue (all_below (length reading.old.frames.items) (option_to_list scope.within)) }
    ensures opened { IfOk result (λ ps. IsOpened (source_of text.now) (task_of reading.old.frames.items scope.entry) reading.old reading.new ps.items) }
    ensures broken { IfErr result (λ e. Tells e (FailsBy (source_of text.now) (task_of reading.old.frames.items scope.entry) (totals_so_far reading.old))) }
{
    scope_law();
    survey_law();
    number_law();
    fine_law();
    let (counts, limited) = count_scope(scope, reading.counts);
    if let Some(fault) = limited {
        return Err(ElabError::Broken(fault));
    }
    let frames = reading.frames.as_slice();
    let SurveyedScope {
        names,
        signals,
        made,
        fault,
        counts,
    } = survey_scope(alloc, text, frames, scope, counts, &mut reading.loops)?;
    if let Some(fault) = fault {
        return Err(ElabError::Broken(fault));
    }
    add_scope(
        &mut reading.builder,
        alloc,
        scope.name,
        scope.within,
        is_instance(scope),
    )?;
    add_signals(&mut reading.builder, alloc, &signals)?;
    let around = Around {
        frames: reading.frames.as_slice(),
        parent: scope.parent,
        turn: scope.turn,
    };
    add_functions(&mut reading.builder, alloc, around, &names)?;
    push_frame(&mut reading.frames, names, scope)?;
    reading.counts = counts;
    Ok(parts_of(alloc, scope.contents, &made)?)
}
