//! What becomes known of declared names.

ghost use Rattle.std.specs.Prelude.{◌≡◌, OnOk};
ghost use Rattle.vs_elaborated.specs.Parameters.{put_value};
ghost use Rattle.vs_elaborated.specs.Signals.{put_signal};
ghost use Rattle.vs_scope.specs.Views.{declared, evaluated, is_later, entries, signal_meaning};
ghost use Rattle.vs_scope.specs.Complete.{IsStill};
ghost use Rattle.vs_scope.specs.Declares.{named_list};

use crate::names::{Declared, Entry, Evaluated, Names, Signal};
use std::alloc::AllocError;

/// Whether it is a parameter that wasn't evaluated yet.
fn is_later(d: &Declared<'_>) -> bool
    ensures { result ≡ is_later (declared d.now) }
{
    match d {
        Declared::Later => true,
        _ => false,
    }
}

impl<'a> Names<'a> {
    /// The parameter of this name is evaluated now. The first declaration of a name gives it its value.
    pub(crate) fn put_value(&mut self, name: &'a [u8], value: Evaluated) -> Result<(), AllocError>
        ensures entries { OnOk result (entries self.new ≡ put_value name.now (evaluated value) (entries self.old)) }
        ensures named { OnOk result (named_list self.new ≡ named_list self.old) }
        ensures still { OnOk result (IsStill self.old self.new) }
    {
        match self.map.get(name).copied() {
            None => Ok(()),
            Some(
                Entry {
                    first,
                    second,
                    declared,
                },
            ) => {
                if is_later(&declared) {
                    self.map.put(
                        name,
                        Entry {
                            first,
                            second,
                            declared: Declared::Parameter(value),
                        },
                    )?;
                }
                Ok(())
            }
        }
    }

    /// The signal of this name is known now.
    pub(crate) fn put_signal(&mut self, signal: Signal<'a>) -> Result<(), AllocError>
        ensures entries { OnOk result (entries self.new ≡ put_signal (signal_meaning signal.entry) (entries self.old)) }
        ensures named { OnOk result (named_list self.new ≡ named_list self.old) }
        ensures still { OnOk result (IsStill self.old self.new) }
    {
        match self.map.get(signal.name).copied() {
            None => Ok(()),
            Some(Entry { first, second, .. }) => {
                self.map.put(
                    signal.name,
                    Entry {
                        first,
                        second,
                        declared: Declared::Signal(signal),
                    },
                )?;
                Ok(())
            }
        }
    }
}
