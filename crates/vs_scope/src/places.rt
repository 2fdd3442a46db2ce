//! Where an expression stands, and what names mean there (IEEE 1364-2005, 10.4, 12.4.1, 12.7 and 12.8).

ghost use Rattle.std.proofs.Props.{props};
ghost use Rattle.vs_scope.specs.Complete.{KeepsShapes};
ghost use Rattle.vs_scope.specs.Stacks.{KeepShapes, env_above, envs};

use crate::frames::{Frame, Turn, below, entry_at, passed_at, turn_at, value_or};
use crate::meanings::{function_means, genvar_meaning, no_signal, signal_means};
use crate::names::{Declared, Entry, Evaluated, Names};
use vs_const::{Env, Named, Rule, SignalShape};

/// What is around a scope: the scope that a generate block stands in, and the value of its loop. What the scopes keep of their functions is what those
/// mean.
#[derive(Clone, Copy)]
pub struct Around<'f, 'a> {
    pub frames: &'f [Frame<'a>],
    pub parent: Option<usize>,
    pub turn: Option<Turn>,
    ghost kept: { KeepShapes frames.now } by { Prim.hlevel props },
}

/// A scope with what is around it, where an expression stands. `inside` is the value of a loop whose head is looked at, and `before` the place of
/// the parameter that is evaluated: those declared from there on aren't used (12.2). `in_function` says that a function of the scope is around, which
/// names no integer of its module (10.4.4).
#[derive(Clone, Copy)]
pub struct View<'f, 'a> {
    pub around: Around<'f, 'a>,
    pub names: &'f Names<'a>,
    pub inside: Option<Turn>,
    pub before: Option<u32>,
    pub in_function: bool,
    ghost kept: { KeepsShapes (env_above (envs around.frames.now) around.parent around.turn) names.now } by { Prim.hlevel props },
}

impl<'f, 'a> Around<'f, 'a> {
    ghost use Rattle.std.specs.Prelude.{◌≡◌, None, Some, MatchOption, slice_get};
    ghost use Rattle.vs_const.specs.Meanings.{FunctionMeaning, IsShapeIn};
    ghost use Rattle.vs_elaborated.specs.Environments as spec;
    ghost use Rattle.vs_scope.specs.Frames.{around_env};
    ghost use Rattle.vs_scope.specs.Seen.{Finds};

    /// The declaration of a name in the innermost scope around.
    fn entry(&self, name: &[u8]) -> Option<&'f Entry<'a>>
        ensures { MatchOption result (spec.find_name (around_env self.now).frames name.now ≡ None)
            (λ e. Finds (spec.find_name (around_env self.now).frames name.now) name.now e.now) }
    {
        entry_at(self.frames, self.parent, name)
    }

    /// The signal of this number among those that a call of the function of this name passes, in the innermost scope around that has the name.
    fn passed(&self, name: &[u8], number: u32) -> Option<SignalShape>
        ensures { (e : spec.Entry) (f : FunctionMeaning) → spec.find_name (around_env self.now).frames name.now ≡ Some e → e.declared ≡ spec.OfFunction (Some f)
            → IsShapeIn result (slice_get f.passed number) }
    {
        passed_at(self.frames, self.parent, name, number)
    }

    /// The value of the innermost loop of this genvar.
    fn turn(&self, genvar: u32) -> Option<u32>
        ensures { result ≡ spec.turn_of (around_env self.now).turns genvar }
    {
        let other = turn_at(self.frames, self.parent, genvar);
        value_or(self.turn, genvar, other)
    }
}

impl<'f, 'a> View<'f, 'a> {
    ghost use Rattle.std.specs.Prelude.{◌≡◌, ◌<◌, false, None, Some, MatchOption, length};
    ghost use Rattle.vs_const.specs.Meanings.{AFunction, FunctionMeaning, IsShapeIn, Means};
    ghost use Rattle.vs_elaborated.specs.Environments as spec;
    ghost use Rattle.vs_scope.specs.Frames as view;
    ghost use Rattle.std.specs.Prelude.{ℕ, slice_get};
    ghost use Rattle.vs_scope.specs.Seen.{Finds, StandsFor};
    ghost use Rattle.vs_scope.specs.Views.{evaluated};

    /// The scope of this number, as the expressions of its items see it.
    pub fn of(frames: &'f [Frame<'a>], number: usize) -> View<'f, 'a>
        requires number { number < length frames.now }
        requires kept { view.KeepShapes frames.now }
        ensures is { view.view_env result ≡ view.env_at (view.envs frames.now) (Some number) }
        ensures inside { result.inside ≡ None }
        ensures outside { result.in_function ≡ false }
    {
        let frame = &frames[number];
        View {
            around: Around {
                frames,
                parent: below(frame.parent, number),
                turn: frame.turn,
            },
            names: &frame.names,
            inside: None,
            before: None,
            in_function: false,
        }
    }

    /// The declaration of a name in the innermost scope that has it.
    pub fn entry(&self, name: &[u8]) -> Option<&'f Entry<'a>>
        ensures { MatchOption result (spec.find_name (view.view_env self.now).frames name.now ≡ None)
            (λ e. Finds (spec.find_name (view.view_env self.now).frames name.now) name.now e.now) }
    {
        match self.names.find(name) {
            Some(e) => Some(e),
            None => self.around.entry(name),
        }
    }

    /// The value of the innermost loop of this genvar.
    fn turn(&self, genvar: u32) -> Option<u32>
        ensures { result ≡ spec.turn_of (view.view_env self.now).turns genvar }
    {
        value_or(self.inside, genvar, self.around.turn(genvar))
    }

    /// Whether the declaration at this place comes too late.
    fn is_late(&self, place: u32) -> bool
        ensures { result ≡ spec.is_late (view.view_env self.now).before place }
    {
        match self.before {
            None => false,
            Some(limit) => limit <= place,
        }
    }

    /// The rule that an integer of the scope breaks where it is named outside of its loops.
    fn integer_rule(&self) -> Rule
        ensures { (scope : ℕ) → result ≡ spec.integer_rule (view.view_env self.now).in_function (Some scope) }
    {
        if self.in_function {
            Rule::FunctionRule
        } else {
            Rule::LoopVariable
        }
    }

    /// What a parameter means here, unless it is declared too late.
    fn parameter(&self, place: u32, value: Evaluated) -> Named
        ensures { Means result (spec.declared_meaning (view.view_env self.now) place (evaluated value)) }
    {
        if self.is_late(place) {
            return Named::Unknown;
        }
        match value {
            Evaluated::Value(p) => Named::Value {
                value: p.value,
                range: p.range,
                turns: false,
            },
            Evaluated::Undefined(range) => Named::Undefined { range },
        }
    }

    /// The signal of this number among those that a call of the function of this name passes, in the innermost scope that has the name.
    fn signal_passed(&self, name: &[u8], number: u32) -> Option<SignalShape>
        ensures { (f : FunctionMeaning) → spec.named (view.view_env self.now) name.now ≡ AFunction f → IsShapeIn result (slice_get f.passed number) }
    {
        match self.names.find(name) {
            Some(_) => self.names.passed(name, number),
            None => self.around.passed(name, number),
        }
    }

    /// What a declaration means here.
    fn meaning(&self, e: &Entry<'_>) -> Named
        ensures { (d : spec.Declared) → StandsFor e.now.declared d → Means result (spec.declared_meaning (view.view_env self.now) e.now.first.name.now.place d) }
    {
        let place = e.first.name.place;
        match e.declared {
            Declared::Later => Named::Unknown,
            Declared::Announced => no_signal(),
            Declared::Signal(s) => signal_means(&s),
            Declared::Parameter(value) => self.parameter(place, value),
            Declared::Function(f) => function_means(f),
            Declared::Genvar => genvar_meaning(self.turn(place)),
            Declared::Integer { .. } => Named::Barred(self.integer_rule()),
            Declared::Scope => Named::Other,
        }
    }
}

impl Env for View<'_, '_> {
    ghost use Rattle.vs_elaborated.specs.Environments.{named};
    ghost use Rattle.vs_scope.specs.Frames.{view_env};

    ghost names = { λ v. named (view_env v) };

    fn find(&self, name: &[u8]) -> Named {
        match self.entry(name) {
            None => Named::Unknown,
            Some(e) => self.meaning(e),
        }
    }

    fn passed(&self, name: &[u8], number: u32) -> Option<SignalShape> {
        self.signal_passed(name, number)
    }
}
