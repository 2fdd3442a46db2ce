//! Words of a memory, read and written by a variable address (IEEE 1364-2005, 4.9.3). They are gone over by ascending address, and the
//! address is decoded once for each.
ghost use Rattle.std.specs.Prelude.{◌≡◌, ℕ, ◌+◌, ◌*◌, ◌<◌, ◌≤◌, length, All, take, drop, replicate, if◌then◌else◌, [], ◌∷◌};
ghost use Rattle.vs_four.specs.declared.Bit4.TheVariants.{X};
ghost use Rattle.vs_four.specs.Selects.{range_length};
ghost use Rattle.vs_plane.specs.Kernels.{AreApart, AreDifferent, AreTargets, Computes, Fills, IsArgument, binary, lane_bits, ternary};
ghost use Rattle.vs_kern_select.specs.Matches.{is_place};
ghost use Rattle.vs_kern_select.specs.Words.{address_place, select_word, write_word};

use crate::costs::Selection;
use crate::selects::lanes_of_place;
use std::sync::ledger::Ledger;
use vs_four::{Bit4, Range};
use vs_plane::{Pair, PlaneFile, Steps, Word, filling_law};

/// The word at an address, of the memory `a` whose words are as long as `to` (IEEE 1364-2005, 4.9.3): all x where a bit of the address is
/// unknown, or no word has it. `to` is stored once for each word of the memory, and once before.
pub fn read_word<W: Word, L: Ledger>(
    file: &mut PlaneFile<W>,
    a: &[u32],
    address: &[u32],
    range: Range,
    signed: bool,
    to: &[u32],
    scratch: &[u32],
    steps: &mut Steps<L>,
)
    requires targets { AreTargets (length file.old) to.now scratch.now }
    requires a { IsArgument (length file.old) a.now to.now scratch.now }
    requires address { IsArgument (length file.old) address.now to.now scratch.now }
    requires a_length { length a.now ≡ range_length range * length to.now }
    ensures computes { Computes W.lane W.LANES (binary (select_word range (length to.now) signed)) (a.now ∷ address.now ∷ []) to.now scratch.now file.old file.new }
    ensures ticked { steps.new ≡ steps.old + (length to.now + range_length range * length to.now) }
{
    filling_law::<W>();
    unknown_word(file, to, steps);
    for n in 0..words_of(range) {
        let lanes = lanes_of_word(range, signed, file, address, n);
        copy_word(lanes, n * to.len(), file, a, to, steps);
    }
}

/// The memory `a` with the word `value` written at an address (IEEE 1364-2005, 4.9.3): as it was where a bit of the address is unknown, or
/// no word has it.
pub fn write_word<W: Word, L: Ledger>(
    file: &mut PlaneFile<W>,
    a: &[u32],
    address: &[u32],
    value: &[u32],
    range: Range,
    signed: bool,
    to: &[u32],
    scratch: &[u32],
    steps: &mut Steps<L>,
)
    requires targets { AreTargets (length file.old) to.now scratch.now }
    requires a { IsArgument (length file.old) a.now to.now scratch.now }
    requires address { IsArgument (length file.old) address.now to.now scratch.now }
    requires value { IsArgument (length file.old) value.now to.now scratch.now }
    requires a_range { length a.now ≡ range_length range * length value.now }
    requires a_length { length a.now ≡ length to.now }
    ensures computes { Computes W.lane W.LANES (ternary (write_word range signed)) (a.now ∷ address.now ∷ value.now ∷ []) to.now scratch.now file.old file.new }
    ensures ticked { steps.new ≡ steps.old + length to.now }
{
    filling_law::<W>();
    for n in 0..words_of(range) {
        let lanes = lanes_of_word(range, signed, file, address, n);
        let from = n * value.len();
        for (bit, slot) in value.iter().enumerate() {
            let pair = file.load(*slot).in_lanes(lanes, file.load(a[from + bit]));
            file.store(to[from + bit], pair, steps);
        }
    }
}

/// How many words a memory of these addresses has.
fn words_of(range: Range) -> usize
    ensures { result ≡ range_length range }
{
    if range.right <= range.left {
        (range.left - range.right) as usize + 1
    } else {
        (range.right - range.left) as usize + 1
    }
}

/// The lanes by whose address the place of the word is `n`.
fn lanes_of_word<W: Word>(
    range: Range,
    signed: bool,
    file: &PlaneFile<W>,
    address: &[u32],
    n: usize,
) -> W
    requires address { All (λ slot. slot < length file.now) address.now }
    requires n { n < range_length range }
    ensures { (i : ℕ) → i < W.LANES → W.lane result i ≡ is_place n (address_place range signed (lane_bits W.lane file.now address.now i)) }
{
    let selection = Selection {
        range,
        signed,
        up: true,
    };
    lanes_of_place(selection, file, address, 1, 0, n)
}

/// Gives each slot x.
fn unknown_word<W: Word, L: Ledger>(file: &mut PlaneFile<W>, to: &[u32], steps: &mut Steps<L>)
    requires to { All (λ slot. slot < length file.old) to.now }
    requires different { AreDifferent to.now }
    ensures fills { Fills W.lane W.LANES (λ i. replicate (length to.now) X) to.now (length to.now) file.old file.new }
    ensures ticked { steps.new ≡ steps.old + length to.now }
{
    filling_law::<W>();
    let pair = Pair::of_bit(Bit4::X);
    for slot in to {
        file.store(*slot, pair, steps);
    }
}

/// Copies the bits of `a` from `from` on to `to`, in these lanes.
fn copy_word<W: Word, L: Ledger>(
    lanes: W,
    from: usize,
    file: &mut PlaneFile<W>,
    a: &[u32],
    to: &[u32],
    steps: &mut Steps<L>,
)
    requires to { All (λ slot. slot < length file.old) to.now }
    requires different { AreDifferent to.now }
    requires a { All (λ slot. slot < length file.old) a.now }
    requires apart { AreApart a.now to.now }
    requires from { from + length to.now ≤ length a.now }
    ensures fills { Fills W.lane W.LANES (λ i. if W.lane lanes i then take (length to.now) (drop from (lane_bits W.lane file.old a.now i)) else lane_bits W.lane file.old to.now i) to.now (length to.now) file.old file.new }
    ensures ticked { steps.new ≡ steps.old + length to.now }
{
    filling_law::<W>();
    for (bit, slot) in to.iter().enumerate() {
        let pair = file.load(a[from + bit]).in_lanes(lanes, file.load(*slot));
        file.store(*slot, pair, steps);
    }
}
