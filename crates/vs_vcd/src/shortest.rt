//! How many digits of a value are shown (IEEE 1364-2005, 18.2.2).

ghost use Rattle.std.specs.Prelude.{◌≡◌, ◌+◌, ◌<◌, ◌≤◌, ◌^◌, ℕ, if◌then◌else◌, length, reverse, take};
ghost use Rattle.std.specs.Int.{bit_at};
ghost use Rattle.vs_four.specs.Planes.{bits_of_planes, decode};
ghost use Rattle.vs_vcd.specs.Values.{is_redundant, shortest};

use vs_four::Bits;

/// How many digits are left of a value in its shortest form: the first of them stays before the next one, or is the last.
pub(crate) fn shown_count(value: Bits) -> u32
    ensures some { 1 ≤ result }
    ensures within { result ≤ length value }
    ensures shortest { reverse (take result value) ≡ shortest (reverse value) }
{
    let (number, unknown) = value.planes();
    // Each digit but the last has a next one.
    let pairs = (1u64 << (value.len() - 1)) - 1;
    65 - (staying(number, unknown) & pairs).leading_zeros()
}

/// Which digits of the value with these planes stay before the next one: bit n is 1 if digit n + 1 stays before digit n. The others are
/// 0 before 0 and 1, x before x, and z before z.
#[inline]
fn staying(value: u64, unknown: u64) -> u64
    ensures { (n : ℕ) → n < 64 → bit_at result n
        ≡ (if is_redundant (decode (bit_at value (n + 1)) (bit_at unknown (n + 1))) (decode (bit_at value n) (bit_at unknown n)) then 0 else 1) }
{
    let (first, first_unknown) = (value >> 1, unknown >> 1);
    let not_zero = first | first_unknown | unknown;
    let not_alike = (first ^ value) | !(first_unknown & unknown);
    not_zero & not_alike
}

/// How many digits are left of a known value in its shortest form: as many as its number has.
#[inline]
pub(crate) fn known_count(number: u64) -> u32
    ensures some { 1 ≤ result }
    ensures most { result ≤ 64 }
    ensures shortest { (len : ℕ) → 1 ≤ len → number < 2 ^ len → reverse (bits_of_planes result number 0) ≡ shortest (reverse (bits_of_planes len number 0)) }
{
    let some = if number == 0 { 1 } else { number };
    64 - some.leading_zeros()
}
