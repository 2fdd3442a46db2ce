//! What is told of a part of a body.

ghost use Rattle.std.specs.Prelude.{◌≡◌, ◌+◌, ◌<◌, ◌≤◌, ◌^◌, Bool, IfOk, IfErr, if◌then◌else◌};
ghost use Rattle.vs_bodies.specs.Told as spec;

use std::alloc::AllocError;
use vs_const::{Fault, first_of};

/// The first rule that is broken, how many statements are counted, and how deep calls of functions nest.
#[derive(Clone, Copy, Debug)]
pub(crate) struct Told {
    pub(crate) fault: Option<Fault>,
    pub(crate) count: u32,
    pub(crate) depth: u32,
}

/// Why a part of a body isn't told.
#[derive(Clone, Copy, PartialEq, Eq, Debug)]
pub(crate) enum Stop {
    /// More statements are counted than are left.
    Over,
    /// There was not enough memory.
    Memory,
}

impl From<AllocError> for Stop {
    ghost use Rattle.std.specs.Prelude.{◌≡◌};
    ghost use Rattle.vs_bodies.specs.declared.told.Stop.TheVariants as stop;

    ghost from_gives = { λ _ e. e ≡ stop.Memory };

    fn from(_error: AllocError) -> Stop {
        Stop::Memory
    }
}

/// Of what breaks this rule, and counts no statement.
pub(crate) fn broken(fault: Option<Fault>, depth: u32) -> Told
    ensures { result ≡ spec.broken fault depth }
{
    Told {
        fault,
        count: 0,
        depth,
    }
}

/// Of two parts together.
pub(crate) fn joined(a: Told, b: Told) -> Told
    requires { a.count + b.count < 2 ^ 32 }
    ensures { result ≡ spec.joined a b }
{
    Told {
        fault: first_of(a.fault, b.fault),
        count: a.count + b.count,
        depth: a.depth.max(b.depth),
    }
}

/// Of a part with another of which no statement is counted.
pub(crate) fn with(a: Told, b: Told) -> Told
    requires { b.count ≡ 0 }
    ensures { result ≡ spec.joined a b }
{
    Told {
        fault: first_of(a.fault, b.fault),
        count: a.count,
        depth: a.depth.max(b.depth),
    }
}

/// Of a part with a rule that is broken before it.
pub(crate) fn behind(fault: Option<Fault>, a: Told) -> Told
    ensures { result ≡ spec.joined (spec.broken fault 0) a }
{
    Told {
        fault: first_of(fault, a.fault),
        count: a.count,
        depth: a.depth,
    }
}

/// Of a statement by itself, which is counted in a loop.
pub(crate) fn counted(in_loop: bool, left: u32, said: Told) -> Result<Told, Stop>
    requires { said.count ≡ 0 }
    ensures told { IfOk result (λ w. w ≡ spec.joined said (spec.one in_loop)) }
    ensures within { IfOk result (λ w. w.count ≤ left) }
    ensures over { IfErr result (λ e. e ≡ spec.Over → left < (spec.one in_loop).count) }
{
    if !in_loop {
        return Ok(said);
    }
    if left == 0 {
        return Err(Stop::Over);
    }
    Ok(Told { count: 1, ..said })
}
