//! What a scope declares, but for its generate blocks (IEEE 1364-2005, 3.2, 3.3, 4.10, 12.2 and 12.7).

ghost use Rattle.std.specs.Prelude.{◌≡◌, ◌∷◌, ◌++◌, [], IfOk, OnOk, length, map, flat_map};
ghost use Rattle.vs_const.specs.Faults.{least};
ghost use Rattle.vs_elaborated.specs.Environments.{within};
ghost use Rattle.vs_elaborated.specs.Declarations as declarations;
ghost use Rattle.vs_elaborated.specs.Parameters as parameters;
ghost use Rattle.vs_elaborated.specs.Signals as spec;
ghost use Rattle.vs_scope.specs.Contents.{contents_declared};
ghost use Rattle.vs_scope.specs.Complete.{KeepsShapes, IsStill, complete, function_declaration};
ghost use Rattle.vs_scope.specs.Counts.{counted};
ghost use Rattle.vs_scope.specs.Declares.{named_list};
ghost use Rattle.vs_scope.specs.Functions.{functions_in};
ghost use Rattle.vs_scope.specs.Frames.{around_env, view_env};
ghost use Rattle.vs_scope.specs.Overrides.{AreOverrides, overrides_of};
ghost use Rattle.vs_scope.specs.Scopes.{said_entries, said_signals_of, said_functions_of, said_faults};
ghost use Rattle.vs_scope.specs.Shaped.{AreShaped, IsShaped};
ghost use Rattle.vs_scope.specs.Signalled.{placed, placed_of, put_all, start_after, start_of};
ghost use Rattle.vs_scope.specs.Views.{declaration, entries, signal_meaning};

use crate::collect::collect;
use crate::contents::Contents;
use crate::counts::Counts;
use crate::declare::{DeclaredNames, declared_names};
use crate::functions::{SaidFunctions, said_functions};
use crate::names::{Declaration, Names, Signal, Sort};
use crate::numbers::{said_addresses, said_range};
use crate::parameters::{Override, evaluate};
use crate::places::{Around, View};
use crate::signals::{SaidSignals, Start, said_signals};
use std::alloc::{AllocError, Global};
use vs_const::{Fault, first_of};
use vs_maps::NameMap;

/// The names of a scope with the values of its parameters, its signals and its functions, the signals in order of declaration, the first fault of the
/// declarations, where the next signal begins, and the counts behind it.
#[derive(Drop)]
pub(crate) struct SaidScope<'a> {
    pub(crate) names: Names<'a>,
    pub(crate) signals: Vec<Signal<'a>>,
    pub(crate) fault: Option<Fault>,
    pub(crate) next: Start,
    pub(crate) counts: Counts,
}

/// All signals are known now.
fn put_signals<'a>(names: &mut Names<'a>, signals: &[Signal<'a>]) -> Result<(), AllocError>
    ensures entries { OnOk result (entries names.new ≡ put_all (map signal_meaning signals.now) (entries names.old)) }
    ensures still { OnOk result (IsStill names.old names.new) }
{
    for s in signals {
        names.put_signal(*s)?;
    }
    Ok(())
}

/// The first fault of the range and the addresses of one declaration, if it declares a signal.
fn range_fault(
    alloc: Global,
    here: &View<'_, '_>,
    d: &Declaration<'_>,
) -> Result<Option<Fault>, AllocError>
    requires { IsShaped (declaration d.now) }
    ensures { IfOk result (λ f. f ≡ least (spec.range_faults (view_env here.now) (declaration d.now ∷ []))) }
{
    match d.sort {
        Sort::Signal {
            signals,
            addresses,
            ..
        } => {
            let range = said_range(alloc, &signals.range, here)?;
            let words = said_addresses(alloc, addresses, here)?;
            Ok(first_of(range.fault, words.fault))
        }
        _ => Ok(None),
    }
}

/// The first fault of the ranges and the addresses of all declarations of signals.
fn range_faults(
    alloc: Global,
    here: &View<'_, '_>,
    declarations: &[Declaration<'_>],
) -> Result<Option<Fault>, AllocError>
    requires { AreShaped (map declaration declarations.now) }
    ensures { IfOk result (λ f. f ≡ least (spec.range_faults (view_env here.now) (map declaration declarations.now))) }
{
    let mut fault = None;
    for d in declarations {
        let found = range_fault(alloc, here, d)?;
        fault = first_of(fault, found);
    }
    Ok(fault)
}

/// What a scope declares, but for its generate blocks: its names with the values of its parameters, its signals and its functions. `around` is what is
/// around the scope, `overrides` are those of an instance, `start` says where its signals begin, and `counts` are those before it.
///
/// `fault` is the first rule that the declarations break, at a token of the text. Where several are, it is the one at the least token, and there
/// the one with the least number:
/// - `DuplicateName`: a second declaration of a name (12.7).
/// - `BadRange`: a range or addresses that have no meaning, or unequal ranges of one signal.
/// - what a constant of a parameter, a range or addresses breaks: `NotConstant`, `UnknownConstant`, `UnknownName`, `BadRange` and `WrongKind`.
/// - and those of a function (`said_function`).
///
/// An error is want of memory; more signals, functions or copies than 32 bits count, and more bits than 64, are too many, too.
pub(crate) fn declare_scope<'a>(
    alloc: Global,
    contents: Contents<'a>,
    overrides: &NameMap<'a, Override<'a>>,
    around: Around<'_, 'a>,
    start: Start,
    counts: Counts,
) -> Result<SaidScope<'a>, AllocError>
    requires overrides { AreOverrides around.frames.now overrides.now }
    requires shaped { AreShaped (contents_declared contents) }
    ensures entries { IfOk result (λ r. entries r.names ≡ said_entries (around_env around.entry) (overrides_of around.entry.frames.now overrides.now) (start_of start) (contents_declared contents.entry)) }
    ensures signals { IfOk result (λ r. map placed r.signals.items ≡ map placed_of (said_signals_of (around_env around.entry) (overrides_of around.entry.frames.now overrides.now) (start_of start) (contents_declared contents.entry))) }
    ensures complete { IfOk result (λ r. complete (around_env around.entry) r.names ≡ (said_functions_of (around_env around.entry) (overrides_of around.entry.frames.now overrides.now) (start_of start) (counted counts) (contents_declared contents.entry)).entries) }
    ensures kept { IfOk result (λ r. KeepsShapes (around_env around.entry) r.names) }
    ensures plain { IfOk result (λ r. r.names.plain ≡ length (entries r.names)) }
    ensures scope { IfOk result (λ r. r.names.scope ≡ start.scope) }
    ensures before { IfOk result (λ r. r.names.counts ≡ counts) }
    ensures functions { IfOk result (λ r. map function_declaration r.names.functions.items ≡ functions_in (contents_declared contents.entry)) }
    ensures counts { IfOk result (λ r. counted r.counts ≡ (said_functions_of (around_env around.entry) (overrides_of around.entry.frames.now overrides.now) (start_of start) (counted counts) (contents_declared contents.entry)).counts) }
    ensures fault { IfOk result (λ r. r.fault ≡ least (said_faults (around_env around.entry) (overrides_of around.entry.frames.now overrides.now) (start_of start) (counted counts) (contents_declared contents.entry))) }
    ensures next { IfOk result (λ r. start_of r.next ≡ start_after (start_of start) (said_signals_of (around_env around.entry) (overrides_of around.entry.frames.now overrides.now) (start_of start) (contents_declared contents.entry))) }
{
    let list = collect(alloc, contents)?;
    let all = list.as_slice();
    let DeclaredNames {
        names,
        fault: repeated,
    } = declared_names(alloc, start.scope, counts, all)?;
    let mut names = names;
    let parameters = evaluate(alloc, around, overrides, all, &mut names)?;
    let here = View {
        around,
        names: &names,
        inside: None,
        before: None,
        in_function: false,
    };
    let ranges = range_faults(alloc, &here, all)?;
    let said = said_signals(alloc, &here, start, &names)?;
    put_signals(&mut names, said.signals.as_slice())?;
    let SaidSignals {
        signals,
        fault,
        next,
    } = said;
    let SaidFunctions {
        fault: called,
        counts,
    } = said_functions(alloc, around, all, &mut names)?;
    let plain = first_of(repeated, first_of(parameters, first_of(ranges, fault)));
    Ok(SaidScope {
        names,
        signals,
        fault: first_of(plain, called),
        next,
        counts,
    })
}
