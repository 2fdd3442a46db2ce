//! The values of bits that follow one another (IEEE 1364-2005, 4.2 and 4.9).

ghost use Rattle.std.specs.Prelude.{◌≡◌, ◌≤◌, ◌<◌, ◌+◌, ◌*◌, ℕ, length, map, Some};
ghost use Rattle.vs_four.specs.declared.Bit4.TheVariants.{X};
ghost use Rattle.vs_four.specs.Selects.{at_place};
ghost use Rattle.vs_net.specs.Network as N;
ghost use Rattle.vs_design.specs.Effects.{pair_up};
ghost use Rattle.vs_design.specs.Values as V;
ghost use Rattle.vs_writes.specs.Held.{state_of};

use vs_four::{Bit4, Bits, repeated};
use vs_sets::Span;

/// The values of the bits of a span of 1 to 64.
pub(crate) fn bits_at(values: &[Bit4], span: Span) -> Bits
    requires some { 1 ≤ span.len }
    requires most { span.len ≤ 64 }
    requires there { span.first + span.len ≤ length values.now }
    ensures { result ≡ map (state_of values.now) (V.count_from span.first span.len) }
{
    Bits::of(&values[span.first..span.first + span.len])
}

/// The value of the word at this place of a memory whose first word has these bits: all x where there is no place.
pub(crate) fn word_at(values: &[Bit4], word: Span, count: usize, place: Option<usize>) -> Bits
    requires some { 1 ≤ word.len }
    requires most { word.len ≤ 64 }
    requires there { word.first + count * word.len ≤ length values.now }
    requires below { (n : ℕ) → place ≡ Some n → n < count }
    ensures { result ≡ map (at_place X (map (state_of values.now) (V.count_from word.first (count * word.len)))) (V.spread word.len place) }
{
    match place {
        Some(n) => {
            let first = word.first + n * word.len;
            bits_at(
                values,
                Span {
                    first,
                    len: word.len,
                },
            )
        }
        None => repeated(Bit4::X, word.len as u32),
    }
}

/// Gives the bits from this one on the bits of a value, the least significant one first.
pub(crate) fn put_bits(values: &mut [Bit4], first: usize, value: Bits)
    requires { first + length value ≤ length values.old }
    ensures { state_of values.new ≡ N.write_all (state_of values.old) (pair_up (map Some (V.count_from first (length value))) value) }
{
    for k in 0..value.len() {
        values[first + k as usize] = value.get(k);
    }
}
