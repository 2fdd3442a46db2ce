//! Words of memories (IEEE 1364-2005, 4.9): the sets that they may have, and writing sets to them.

ghost use Rattle.std.specs.Prelude.{◌≡◌, ◌≤◌, ◌<◌, ◌+◌, ◌*◌, ◌^◌, ℕ, length, map, Some};
ghost use Rattle.vs_four.specs.declared.Bit4.TheVariants.{X};
ghost use Rattle.vs_four.specs.Logic.{map2};
ghost use Rattle.vs_four.specs.Selects.{at_place, range_length};
ghost use Rattle.vs_design.specs.Designs.{bit_count};
ghost use Rattle.vs_design.specs.Expressions as E;
ghost use Rattle.vs_design.specs.LiftedBodies.{put_each};
ghost use Rattle.vs_design.specs.Sets.{all_words, only, union, variable};
ghost use Rattle.vs_design.specs.Values.{spread};
ghost use Rattle.vs_flat.specs.DesignOf.{design_of};
ghost use Rattle.vs_sets.specs.FitParts.{Is64};
ghost use Rattle.vs_sets.specs.Nodes.{signal_of};
ghost use Rattle.vs_sets.specs.Tables.{bits_from, family_of};

use crate::folds::variable;
use crate::operators::list_of;
use crate::table::put_run;
use crate::{Set4, SetList};
use vs_flat::{length_of, trees_law};
use vs_four::{Bit4, Range};
use vs_shape::{Shapes, addresses_of};

/// A memory: the number of its first bit, its addresses, and how many bits each word has.
#[derive(Clone, Copy, Debug)]
pub struct Memory {
    pub first: usize,
    pub addresses: Range,
    pub len: usize,
}

/// Signal n as a memory.
pub fn memory_of(shapes: &Shapes, n: u32) -> Memory
    requires { n < length shapes.now.signals }
    ensures first { result.first ≡ (signal_of shapes.now n).first }
    ensures addresses { result.addresses ≡ E.addresses (signal_of shapes.now n) }
    ensures len { result.len ≡ E.word_length (signal_of shapes.now n) }
    ensures within { result.first + range_length result.addresses * result.len ≤ bit_count (design_of shapes.now) }
    ensures small { result.first + range_length result.addresses * result.len ≤ 1048576 }
    ensures few { Is64 result.len }
{
    trees_law();
    let signal = shapes.flat().signal(n);
    Memory {
        first: signal.first_bit as usize,
        addresses: addresses_of(signal),
        len: length_of(signal.range) as usize,
    }
}

/// The number of the first bit of the word at this place.
pub fn word_start(memory: Memory, n: usize) -> usize
    requires { memory.first + n * memory.len < 2 ^ 64 }
    ensures { result ≡ memory.first + n * memory.len }
{
    memory.first + n * memory.len
}

/// The sets of the word at this place of a memory of these sets: x alone where there is none.
pub(crate) fn word_at(memory: &[Set4], count: usize, len: usize, place: Option<usize>) -> SetList
    requires long { length memory.now ≡ count * len }
    requires below { (n : ℕ) → place ≡ Some n → n < count }
    requires few { len ≤ 64 }
    ensures { result ≡ map (at_place (only X) memory.now) (spread len place) }
{
    match place {
        Some(n) => list_of(&memory[n * len..n * len + len]),
        None => SetList::replicated(len, Set4::only(Bit4::X)),
    }
}

/// The union of two lists of sets, one by one.
fn united(a: &[Set4], b: &[Set4]) -> SetList
    requires same_length { length a.now ≡ length b.now }
    requires most { length a.now ≤ 64 }
    ensures { result ≡ map2 union a.now b.now }
{
    let mut list = SetList::new();
    for i in 0..a.len() {
        list.push(a[i].union(b[i]));
    }
    list
}

/// The union of all words of a memory of these sets, bit by bit.
pub(crate) fn all_words(memory: &[Set4], count: usize, len: usize) -> SetList
    requires long { length memory.now ≡ count * len }
    requires few { len ≤ 64 }
    ensures value { result ≡ all_words len count memory.now }
    ensures length { length result ≡ len }
{
    let mut list = SetList::replicated(len, Set4::none());
    let mut n = count;
    while n > 0 {
        n -= 1;
        list = united(&memory[n * len..n * len + len], list.as_slice());
    }
    list
}

/// Each of these sets as a select by an index of these sets may have it.
pub(crate) fn variable_each(index: &[Set4], sure: bool, sets: &[Set4]) -> SetList
    requires { length sets.now ≤ 64 }
    ensures { result ≡ map (variable index.now sure) sets.now }
{
    let mut list = SetList::new();
    for set in sets {
        list.push(variable(index, sure, *set));
    }
    list
}

/// Writes sets to the word at this place of a memory whose first bit has this number; where there is no place nothing is written.
pub(crate) fn put_word(table: &mut [Set4], first: usize, place: Option<usize>, sets: &[Set4])
    requires inside { (n : ℕ) → place ≡ Some n → first + (n * length sets.now + length sets.now) ≤ length table.old }
    ensures { family_of table.new ≡ put_each (bits_from first (spread (length sets.now) place)) sets.now (family_of table.old) }
{
    if let Some(n) = place {
        put_run(table, first + n * sets.len(), sets);
    }
}
