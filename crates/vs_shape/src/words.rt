//! The words of a memory (IEEE 1364-2005, 4.9).

ghost use Rattle.std.specs.Prelude.{◌≡◌, ◌<◌, ◌+◌, ◌++◌, ◌*◌, ◌^◌, ℕ, OnOk, Some, None, if◌then◌else◌};
ghost use Rattle.vs_four.specs.Logic.{all_known};
ghost use Rattle.vs_four.specs.Numbers.{integer};
ghost use Rattle.vs_four.specs.Selects.{place_of, range_length};
ghost use Rattle.vs_design.specs.Expressions.{range_or_zero};
ghost use Rattle.vs_design.specs.Values.{spread};
ghost use Rattle.vs_design.specs.Footprints.{somes};
ghost use Rattle.vs_shape.specs.Gathered.{bits_from};

use crate::bits::push_run;
use crate::places::{Part, places_of};
use std::alloc::AllocError;
use vs_flat::Signal;
use vs_four::{Bits, Range};

/// A memory's addresses; those of no memory are taken as 0 alone.
pub fn addresses_of(signal: &Signal) -> Range
    ensures { result ≡ range_or_zero signal.now.words }
{
    match signal.words {
        Some(range) => range,
        None => Range { left: 0, right: 0 },
    }
}

/// The place of the word with this address among the words of a memory, counted from that of the least address (IEEE 1364-2005, 4.9.3). An address that has an x or z bit, or is out of range, has none.
pub fn word_place(addresses: Range, signed: bool, address: Bits) -> Option<usize>
    ensures value { result ≡ (if all_known address then place_of addresses (integer signed address) else None) }
    ensures inside { (n : ℕ) → result ≡ Some n → n < range_length addresses }
{
    let part = Part {
        range: addresses,
        up: true,
        width: 1,
    };
    places_of(part, signed, address).get(0)
}

/// The first bit of the word at this place, of `len` bits, of the memory that begins with bit `first`.
pub fn word_start(first: u32, len: u32, n: usize) -> u32
    requires { first + n * len < 2 ^ 32 }
    ensures { result ≡ first + n * len }
{
    let start = first as usize + n * len as usize;
    start as u32
}

/// Adds the bits of the word at this place, of `len` bits, of the memory that begins with bit `first`; where there is no place there are none.
pub(crate) fn push_word(
    out: &mut Vec<u32>,
    first: u32,
    len: u32,
    place: Option<usize>,
) -> Result<(), AllocError>
    requires { (n : ℕ) → place ≡ Some n → first + (n * len + len) < 2 ^ 32 }
    ensures { OnOk result (out.new.items ≡ out.old.items ++ somes (bits_from first (spread len place))) }
{
    match place {
        Some(n) => {
            let start = first as usize + n * len as usize;
            push_run(out, start as u32, len)
        }
        None => Ok(()),
    }
}
