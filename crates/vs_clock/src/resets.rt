//! The asynchronous resets of clocked blocks (IEEE 1364-2005, 9.7.2).

ghost use Rattle.std.specs.Prelude.{◌≡◌, ℕ, ◌<◌, true, length, slice_get, IfOk, List};
ghost use Rattle.vs_design.specs.Designs as D;
ghost use Rattle.vs_design.specs.Fits.{fits_statement};
ghost use Rattle.vs_flat.specs.DesignOf.{arena_signals, arena_statements, design_of, event_of};
ghost use Rattle.vs_flat.specs.Trees.{signal_at, statement_at};
ghost use Rattle.vs_clock.specs.Nets.{AreNets};
ghost use Rattle.vs_clock.specs.Found.{AreForms, IsBlockReset, IsEventReset};

use crate::events::{BlockEvents, events_of};
use crate::form::reset_branch;
use crate::nets::Nets;
use std::alloc::{AllocError, Global};
use vs_base::Edge;
use vs_flat::{Event, Kind, names_law, trees_law};
use vs_typed::{Typed, fits_law};

/// The asynchronous reset of a clocked block: the edge of a net, at which a branch runs that reads no signal.
#[derive(Clone, Copy, PartialEq, Eq, Debug)]
pub struct Reset {
    /// The bit of the net.
    pub net: u32,
    /// Its edge, posedge or negedge.
    pub edge: Edge,
    /// The bit of the data input of the top that the net copies.
    pub input: u32,
    /// The number of the statement that runs in the flat design.
    pub branch: u32,
}

/// What a process has of a reset.
#[derive(Clone, Copy, PartialEq, Eq, Debug)]
pub(crate) enum BlockReset {
    /// None.
    Absent,
    /// A reset among its events, and not the form of a block with a reset.
    Formless,
    /// This one.
    Present(Reset),
}

/// What the processes of a design have of resets.
#[derive(Drop)]
pub(crate) enum Forms {
    /// This is the first process with a reset that hasn't the form of one.
    Formless(u32),
    /// There is no such process; these are the resets of all by number.
    All(Vec<Option<Reset>>),
}

/// The reset of a block with this statement by this edge of a reset net among its events.
fn event_reset(typed: &Typed, nets: &Nets, event: Event, statement: u32) -> BlockReset
    requires event { event.signal < length typed.now.signals }
    requires there { statement < length typed.now.statements }
    requires fits { fits_statement (statement_at (arena_statements typed.now) statement) ≡ true }
    ensures { (c : List ℕ) → AreNets (design_of typed.now) c nets.now → IsEventReset typed.now c (event_of (signal_at (arena_signals typed.now)) event) (statement_at (arena_statements typed.now) statement) result }
{
    trees_law();
    let net = typed.flat().signal(event.signal).first_bit;
    match reset_branch(typed, event.edge, net, statement) {
        None => BlockReset::Formless,
        Some(branch) => match nets.root(net) {
            None => BlockReset::Absent,
            Some(input) => BlockReset::Present(Reset {
                net,
                edge: event.edge,
                input,
                branch,
            }),
        },
    }
}

/// What process p has of a reset.
fn block_reset(typed: &Typed, nets: &Nets, p: u32) -> BlockReset
    requires { p < length typed.now.processes }
    ensures { (c : List ℕ) → AreNets (design_of typed.now) c nets.now → (x : D.Process) → slice_get (design_of typed.now).processes p ≡ Some x → IsBlockReset typed.now c x result }
{
    trees_law();
    names_law();
    fits_law();
    let flat = typed.flat();
    match &flat.process(p).kind {
        Kind::Assign { .. } => BlockReset::Absent,
        Kind::Block {
            events,
            statement,
            ..
        } => match events_of(flat, nets, events.as_slice()) {
            BlockEvents::Reset(reset) => event_reset(typed, nets, reset, *statement),
            BlockEvents::Clock => BlockReset::Absent,
            BlockEvents::Other => BlockReset::Absent,
        },
    }
}

/// The resets of all processes, or the first block with a reset that hasn't the form of one.
pub(crate) fn resets_of(alloc: Global, typed: &Typed, nets: &Nets) -> Result<Forms, AllocError>
    ensures { IfOk result (λ f. (c : List ℕ) → AreNets (design_of typed.now) c nets.now → AreForms typed.now c f) }
{
    trees_law();
    let mut resets = Vec::new(alloc);
    for p in 0..typed.flat().process_count() {
        match block_reset(typed, nets, p) {
            BlockReset::Formless => return Ok(Forms::Formless(p)),
            BlockReset::Absent => resets.push(None)?,
            BlockReset::Present(reset) => resets.push(Some(reset))?,
        }
    }
    Ok(Forms::All(resets))
}
