//! The faults of the header and of all items of a scope, and how many processes they have (IEEE 1364-2005, A.1.4).

ghost use Rattle.std.specs.Prelude.{◌≡◌, ◌≤◌, [], ◌∷◌, List, IfOk, OnOk, map, length};
ghost use Rattle.vs_grammar.specs.Trees as tree;
ghost use Rattle.vs_ast.specs.Views as view;
ghost use Rattle.vs_const.specs.Faults.{least};
ghost use Rattle.vs_elaborated.specs.Limits.{the_limits};
ghost use Rattle.vs_elaborated.specs.Environments.{Env, named};
ghost use Rattle.vs_elaborated.specs.Generate.{Made};
ghost use Rattle.vs_elaborated.specs.Instances.{Around};
ghost use Rattle.vs_elaborated.specs.Surveys.{item_said, items_said, loops_after, loops_behind};
ghost use Rattle.vs_scope.specs.Contents.{contents_header, contents_items};
ghost use Rattle.vs_scope.specs.Frames.{view_env};
ghost use Rattle.vs_items.specs.Loops.{SeeTheSame};
ghost use Rattle.vs_items.specs.Modules.{AreOf};
ghost use Rattle.vs_items.specs.Said.{IsSaid, scope_said};
ghost use Rattle.vs_items.specs.Stated.{AreStated, IsStated, IsStatedHeader};
ghost use Rattle.vs_items.specs.Unheard.{scope_unheard};

use crate::blocks::{block_fault, initial_fault};
use crate::counts::{Count, count_contents, count_header};
use crate::instances::instances_fault;
use crate::items::{assigns_fault, header_fault, signals_fault};
use crate::loops::Loops;
use crate::modules::{Known, seen_by};
use crate::unheard::contents_unheard;
use std::alloc::{AllocError, Global};
use vs_ast::Item;
use vs_const::{Fault, first_of};
use vs_maps::NameMap;
use vs_scope::{BlockItems, Contents, View};

/// The first rule that an item breaks, but for those of its generate blocks and their heads.
fn item_fault<'a>(
    alloc: Global,
    modules: &NameMap<'a, Known<'a>>,
    item: &'a Item,
    here: &View<'_, '_>,
    loops: &mut Loops,
) -> Result<Option<Fault>, AllocError>
    requires { IsStated (view.item item.now) }
    ensures fault { (source : tree.Source) (around : Around) (made : Made) → AreOf modules.now source → SeeTheSame around.env (view_env here.now)
        → IfOk result (λ f. f ≡ least (item_said the_limits source around loops.old (view.item item.now) made).faults) }
    ensures loops { (env : Env) → SeeTheSame env (view_env here.now) → OnOk result (loops.new ≡ loops_after the_limits env loops.old (view.item item.now)) }
{
    match item {
        Item::Signals(s) => signals_fault(alloc, s, here),
        Item::Assigns { assigns, .. } => assigns_fault(alloc, assigns, here),
        Item::Always(b) => block_fault(alloc, b, here, loops),
        Item::Initial(b) => initial_fault(alloc, b, here, loops),
        Item::Instances(t) => instances_fault(alloc, seen_by(modules, &t.of), t, here),
        _ => Ok(None),
    }
}

/// The first rule that any of these items breaks.
fn items_fault<'a>(
    alloc: Global,
    modules: &NameMap<'a, Known<'a>>,
    items: &'a [Item],
    here: &View<'_, '_>,
    loops: &mut Loops,
) -> Result<Option<Fault>, AllocError>
    requires { AreStated (map view.item items.now) }
    ensures fault { (source : tree.Source) (around : Around) (made : List Made) → AreOf modules.now source → SeeTheSame around.env (view_env here.now) → length made ≡ length items.now
        → IfOk result (λ f. f ≡ least (items_said the_limits source around loops.old (map view.item items.now) made).faults) }
    ensures loops { (env : Env) → SeeTheSame env (view_env here.now) → OnOk result (loops.new ≡ loops_behind the_limits env loops.old (map view.item items.now)) }
{
    let mut fault = None;
    for item in items {
        let found = item_fault(alloc, modules, item, here, loops)?;
        fault = first_of(fault, found);
    }
    Ok(fault)
}

/// The first rule that the one item of a block breaks.
fn one_fault<'a>(
    alloc: Global,
    modules: &NameMap<'a, Known<'a>>,
    item: &'a Item,
    here: &View<'_, '_>,
    loops: &mut Loops,
) -> Result<Option<Fault>, AllocError>
    requires { AreStated (view.item item.now ∷ []) }
    ensures fault { (source : tree.Source) (around : Around) (made : List Made) → AreOf modules.now source → SeeTheSame around.env (view_env here.now) → length made ≡ 1
        → IfOk result (λ f. f ≡ least (items_said the_limits source around loops.old (view.item item.now ∷ []) made).faults) }
    ensures loops { (env : Env) → SeeTheSame env (view_env here.now) → OnOk result (loops.new ≡ loops_behind the_limits env loops.old (view.item item.now ∷ [])) }
{
    let fault = item_fault(alloc, modules, item, here, loops)?;
    Ok(fault)
}

/// The first rule that an item of a scope breaks: what its generate constructs make is no matter.
fn contents_fault<'a>(
    alloc: Global,
    modules: &NameMap<'a, Known<'a>>,
    contents: Contents<'a>,
    here: &View<'_, '_>,
    loops: &mut Loops,
) -> Result<Option<Fault>, AllocError>
    requires { AreStated (contents_items contents) }
    ensures fault { (source : tree.Source) (around : Around) (made : List Made) → AreOf modules.now source → SeeTheSame around.env (view_env here.now) → length made ≡ length (contents_items contents.entry)
        → IfOk result (λ f. f ≡ least (items_said the_limits source around loops.old (contents_items contents.entry) made).faults) }
    ensures loops { (env : Env) → SeeTheSame env (view_env here.now) → OnOk result (loops.new ≡ loops_behind the_limits env loops.old (contents_items contents.entry)) }
{
    match contents {
        Contents::Module(m) => items_fault(alloc, modules, &m.items, here, loops),
        Contents::Block(BlockItems::One(item)) => one_fault(alloc, modules, item, here, loops),
        Contents::Block(BlockItems::Many(items)) => items_fault(alloc, modules, items, here, loops),
    }
}

/// What is found of the header and the items of a scope.
#[derive(Clone, Copy)]
pub struct SaidItems {
    /// The first rule that they break.
    pub fault: Option<Fault>,
    /// How many processes there are in the whole design so far with theirs, where they break no rule; else it says nothing, and is within the limit.
    pub processes: u32,
}

/// What is found of the header and the items of a scope, in a text of these modules. `here` is the scope with its own names, `total` how many processes there are
/// before it and `most` how many there may be, and `loops` is what loops did before its items, and then behind them. What generate constructs make is no
/// matter: neither their faults nor those of their blocks are looked for.
///
/// The fault is the first of these, where an expression, a target or a statement may break any rule on them (clauses 4, 5, 6 and 9):
/// - `UnknownModule`: an instance of a module that the text doesn't have (12.1.2).
/// - `DuplicateName`, `PortCount`, `UnknownPort`: a name that is connected or overridden twice, a wrong number of connections or too many overrides, and
///   a name that the module doesn't have (12.2.2, 12.3.5, 12.3.6).
/// - `WrongKind`: what is assigned to, or connected to an output, is no net where it has to be one, or no variable (6.1, 6.2.1, 9.2, 12.3.9.2), or an always
///   block without an edge among its events writes a word of a memory (4.9).
/// - `LoopTurns`: a loop takes more than 4,096 turns, or with its block all loops so far copy more than 1,048,576 statements, at the `for` (9.6).
/// - `LoopVariable`: an integer heads a loop within another one of it, or loops of two blocks, at its name (9.6).
/// - `TooManyProcesses`: where the first piece begins with which there are more than `most`.
/// - `FunctionRule`: an assign, also a port's or a declared net's, or a block with `@*` calls a function that reads a signal which the process doesn't name
///   outside of calls, where the process begins (10.4.4).
///
/// An error is want of memory; more copies than 32 bits count are too many, too.
pub fn said_items<'a>(
    alloc: Global,
    modules: &NameMap<'a, Known<'a>>,
    contents: Contents<'a>,
    here: &View<'_, '_>,
    most: u32,
    total: u32,
    loops: &mut Loops,
) -> Result<SaidItems, AllocError>
    requires header { IsStatedHeader (contents_header contents) }
    requires stated { AreStated (contents_items contents) }
    requires few { total ≤ most }
    ensures said { (source : tree.Source) (around : Around) (made : List Made) → AreOf modules.now source → SeeTheSame around.env (view_env here.now) → length made ≡ length (contents_items contents.entry)
        → IfOk result (λ r. IsSaid r most total (scope_said source around loops.old contents.entry made) (scope_unheard (named around.env) contents.entry)) }
    ensures loops { (env : Env) → SeeTheSame env (view_env here.now) → OnOk result (loops.new ≡ loops_behind the_limits env loops.old (contents_items contents.entry)) }
{
    let first = header_fault(alloc, contents, here)?;
    let found = contents_fault(alloc, modules, contents, here, loops)?;
    let fault = first_of(first, found);
    let mut count = Count {
        most,
        total,
        over: None,
    };
    count_header(contents, &mut count);
    count_contents(alloc, modules, contents, &mut count)?;
    let unheard = contents_unheard(alloc, contents, here)?;
    Ok(SaidItems {
        fault: first_of(fault, first_of(count.over, unheard)),
        processes: count.total,
    })
}
