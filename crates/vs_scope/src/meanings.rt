//! What signals, functions and genvars mean, by themselves (IEEE 1364-2005, 4.9, 10.4 and 12.4.1).

ghost use Rattle.vs_const.specs.Meanings.{Means};
ghost use Rattle.vs_elaborated.specs.Environments as spec;
ghost use Rattle.std.specs.Prelude.{ℕ};
ghost use Rattle.vs_scope.specs.declared.names.Declared.TheVariants as states;
ghost use Rattle.vs_scope.specs.Seen.{StandsFor};
ghost use Rattle.vs_scope.specs.Views.{signal_meaning, unknown_signal};

use crate::names::Signal;
use vs_const::{Constant, FunctionShape, Named, Role, SignalShape};
use vs_four::{Range, of_number};

/// A signal, or a memory if it has words (4.9).
pub(crate) fn signal_means(s: &Signal<'_>) -> Named
    ensures { Means result (spec.signal_means (signal_meaning s.now)) }
{
    let shape = SignalShape {
        number: s.number,
        range: s.range,
        signed: s.signed,
        role: Role::InModule,
        known: s.known,
        net: s.net,
        input: s.is_input,
        words: s.words,
    };
    match s.words {
        None => Named::Signal(shape),
        Some(_) => Named::Memory(shape),
    }
}

/// A signal of which nothing is known yet.
pub(crate) fn no_signal() -> Named
    ensures { Means result (spec.signal_means unknown_signal) }
{
    Named::Signal(SignalShape {
        number: 0,
        range: None,
        signed: false,
        role: Role::InModule,
        known: false,
        net: true,
        input: false,
        words: None,
    })
}

/// A function, which may not be complete yet.
pub(crate) fn function_means(f: Option<FunctionShape>) -> Named
    ensures { (env : spec.Env) (place : ℕ) (d : spec.Declared) → StandsFor (states.Function f) d → Means result (spec.declared_meaning env place d) }
{
    match f {
        None => Named::Incomplete,
        Some(f) => Named::Function(f),
    }
}

/// A genvar, by the value that it has.
pub(crate) fn genvar_meaning(value: Option<u32>) -> Named
    ensures { Means result (spec.turn_meaning value) }
{
    match value {
        None => Named::Other,
        Some(v) => Named::Value {
            value: Constant {
                bits: of_number(32, v as u64),
                signed: true,
            },
            range: Range { left: 31, right: 0 },
            turns: false,
        },
    }
}
