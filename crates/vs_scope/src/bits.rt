//! The count of bits of all signals.

ghost use Rattle.std.specs.Prelude.{◌≡◌, ◌+◌, None, Some, if◌then◌else◌, map, nat_lt};
ghost use Rattle.vs_const.specs.Faults.{least};
ghost use Rattle.vs_elaborated.specs.Limits.{the_limits};
ghost use Rattle.vs_scope.specs.Bits.{counted_bits, over};
ghost use Rattle.vs_scope.specs.Signalled.{placed};

use crate::names::Signal;
use crate::signals::signal_length;
use vs_const::{Fault, Rule, fault_at};

/// How many bits all signals have at most.
const MOST_BITS: u64 = 1_048_576;

/// How many bits a signal counts.
fn counted(s: &Signal<'_>) -> u64
    ensures { result ≡ counted_bits (placed s.now) }
{
    if s.known { signal_length(s) } else { 0 }
}

/// The count with one more signal, if it isn't over the most.
fn with_signal(total: u64, s: &Signal<'_>) -> Option<u64>
    ensures { result ≡ (if nat_lt the_limits.bits (total + counted_bits (placed s.now)) then None else Some (total + counted_bits (placed s.now))) }
{
    let sum = total.checked_add(counted(s))?;
    if sum > MOST_BITS { None } else { Some(sum) }
}

/// The first signal with whose bits there are more than the most; `total` are those before.
pub(crate) fn bits_fault(total: u64, signals: &[Signal<'_>]) -> Option<Fault>
    ensures { result ≡ least (over the_limits.bits total (map placed signals.now)) }
{
    let mut sum = total;
    for s in signals {
        match with_signal(sum, s) {
            None => return fault_at(Rule::TooManyBits, s.place),
            Some(next) => sum = next,
        }
    }
    None
}
