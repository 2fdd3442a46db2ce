//! All that one scope says, but for its pieces (IEEE 1364-2005, clause 12).

ghost use Rattle.std.specs.Prelude.{◌≡◌, ◌≤◌, ◌^◌, List, IfOk, OnOk, is_none, length};
ghost use Rattle.vs_grammar.specs.Trees as tree;
ghost use Rattle.vs_elaborated.specs.Limits.{the_limits};
ghost use Rattle.vs_elaborated.specs.Environments.{Env, named, within};
ghost use Rattle.vs_elaborated.specs.Generate as generate;
ghost use Rattle.vs_elaborated.specs.Instances as instances;
ghost use Rattle.vs_elaborated.specs.Surveys.{loops_behind};
ghost use Rattle.vs_scope.specs.Complete.{KeepsShapes, complete};
ghost use Rattle.vs_scope.specs.Contents.{contents_header, contents_items};
ghost use Rattle.vs_scope.specs.Frames.{KeepShapes, around_env};
ghost use Rattle.vs_scope.specs.Overrides.{AreOverrides};
ghost use Rattle.vs_scope.specs.Surveys.{IsShapedScope};
ghost use Rattle.vs_items.specs.Loops.{SeeTheSame};
ghost use Rattle.vs_items.specs.Modules.{AreOf};
ghost use Rattle.vs_items.specs.Said.{IsSaid, scope_said};
ghost use Rattle.vs_items.specs.Stated.{AreStated, IsStatedHeader};
ghost use Rattle.vs_items.specs.Unheard.{scope_unheard};
ghost use Rattle.vs_elab.specs.Reading.{IsSurveyed, IsText, source_of, task_of, totals_of};

use crate::reading::{Counts, NewScope, Text};
use std::alloc::{AllocError, Global};
use vs_const::{Fault, first_of};
use vs_items::{Loops, SaidItems, said_items};
use vs_scope::{Around, Contents, Frame, Made, Names, Signal, Surveyed, View, survey, survey_law};

/// What is found of a scope: its names, its signals, what each of its items makes, its first fault, and the counts behind it.
#[derive(Drop)]
pub(crate) struct SurveyedScope<'a> {
    pub names: Names<'a>,
    pub signals: Vec<Signal<'a>>,
    pub made: Vec<Made<'a>>,
    pub fault: Option<Fault>,
    pub counts: Counts,
}

/// What is found of the header and the items of a scope that has these names.
fn said_here<'f, 'a>(
    alloc: Global,
    text: &Text<'a>,
    contents: Contents<'a>,
    around: Around<'f, 'a>,
    names: &'f Names<'a>,
    total: u32,
    loops: &mut Loops,
) -> Result<SaidItems, AllocError>
    requires kept { KeepsShapes (around_env around) names.now }
    requires header { IsStatedHeader (contents_header contents) }
    requires stated { AreStated (contents_items contents) }
    requires few { total ≤ 2 ^ 16 }
    ensures said { IfOk result (λ r. (source : tree.Source) (a : instances.Around) (made : List generate.Made) → AreOf text.now.modules source → SeeTheSame a.env (within (around_env around.entry) (complete (around_env around.entry) names.now)) → length made ≡ length (contents_items contents.entry)
        → IsSaid r 65536 total (scope_said source a loops.old contents.entry made) (scope_unheard (named a.env) contents.entry)) }
    ensures loops { OnOk result ((env : Env) → SeeTheSame env (within (around_env around.entry) (complete (around_env around.entry) names.now)) → loops.new ≡ loops_behind the_limits env loops.old (contents_items contents.entry)) }
{
    let here = View {
        around,
        names,
        inside: None,
        before: None,
        in_function: false,
    };
    said_items(alloc, &text.modules, contents, &here, 65536, total, loops)
}

/// Finds all that a scope says but its pieces, where these scopes are known; `loops` is what loops did before it, and then behind it. An error is want of memory.
pub(crate) fn survey_scope<'a>(
    alloc: Global,
    text: &Text<'a>,
    frames: &[Frame<'a>],
    scope: NewScope<'_, 'a>,
    counts: Counts,
    loops: &mut Loops,
) -> Result<SurveyedScope<'a>, AllocError>
    requires text { IsText text.now }
    requires kept { KeepShapes frames.now }
    requires overrides { AreOverrides frames.now scope.overrides.now }
    requires shaped { IsShapedScope scope.contents }
    requires top { counts.start.top ≡ is_none scope.within }
    requires few { counts.processes ≤ 2 ^ 16 }
    ensures { IfOk result (λ r. IsSurveyed (source_of text.now) (task_of frames.now scope.entry) (totals_of counts loops.old) loops.new r) }
{
    survey_law();
    let around = Around {
        frames,
        parent: scope.parent,
        turn: scope.turn,
    };
    let so_far = vs_scope::Counts {
        copies: loops.copies(),
        functions: counts.functions,
    };
    let Surveyed {
        names,
        signals: _,
        nets,
        made,
        fault: surveyed,
        turns,
        counts: called,
        next,
    } = survey(
        alloc,
        scope.contents,
        scope.overrides,
        around,
        counts.start,
        counts.turns,
        so_far,
    )?;
    loops.set_copies(called.copies);
    let SaidItems {
        fault: said,
        processes,
    } = said_here(
        alloc,
        text,
        scope.contents,
        around,
        &names,
        counts.processes,
        loops,
    )?;
    Ok(SurveyedScope {
        names,
        signals: nets,
        made,
        fault: first_of(surveyed, said),
        counts: Counts {
            start: next,
            instances: counts.instances,
            turns,
            functions: called.functions,
            processes,
        },
    })
}
