//! The kernels by name, and what each call takes.
ghost use Rattle.std.specs.Prelude.{◌≡◌, ◌+◌, ◌*◌, ◌^◌, ◌≤◌, true};
ghost use Rattle.vs_four.specs.Lengths.{last_or};
ghost use Rattle.vs_kern_select.specs.Costs.{cost_of, moving_bits, room_of, shape_of, takes, weight_of};

use vs_four::Range;

/// Which bits of a vector a variable select or write takes, by its base: `[base +: n]` or `[base -: n]`, n being as many as are read or
/// written. A bit select takes one bit, upwards.
#[derive(Clone, Copy, PartialEq, Eq, Debug)]
pub struct Selection {
    /// The vector's declared bounds.
    pub range: Range,
    /// Whether the base is signed.
    pub signed: bool,
    /// Whether it is `+:`. If not, it is `-:`.
    pub up: bool,
}

/// How a memory's words are addressed.
#[derive(Clone, Copy, PartialEq, Eq, Debug)]
pub struct Addresses {
    /// The memory's addresses. The words stand by ascending address where they are from `right` up to `left`.
    pub range: Range,
    /// Whether an address is signed.
    pub signed: bool,
}

/// A kernel of this crate.
#[derive(Clone, Copy, PartialEq, Eq, Debug)]
pub enum Kernel {
    /// `<<`, and `<<<`
    ShiftLeft,
    /// `>>`, and `>>>` of an unsigned vector
    ShiftRight,
    /// `>>>` of a signed vector
    ShiftArith,
    /// A select by a variable base
    Select(Selection),
    /// A write to a select by a variable base
    Write(Selection),
    /// A word of a memory, read by a variable address
    ReadWord(Addresses),
    /// A word of a memory, written by a variable address
    WriteWord(Addresses),
    /// `?:`
    Choose,
    /// The join of `if`
    Branch,
}

/// How many stores a call makes, by the lengths of its arguments in their order and then that of its value: one a bit of the value, and
/// for a shift one more for each bit of the amount that stands for less than the vector's length, and for a word that is read one more for each
/// bit of its memory.
pub fn cost(kernel: Kernel, lengths: &[u32]) -> u64
    requires { takes (shape_of kernel) lengths.now ≡ true }
    ensures exact { result ≡ cost_of kernel lengths.now }
    ensures weight { result ≤ weight_of kernel lengths.now }
{
    match kernel {
        Kernel::ShiftLeft | Kernel::ShiftRight | Kernel::ShiftArith => {
            shift_cost(lengths[2], lengths[1])
        }
        Kernel::Select(_) => u64::from(lengths[2]),
        Kernel::ReadWord(_) => u64::from(lengths[2]) + u64::from(lengths[0]),
        Kernel::Write(_) | Kernel::WriteWord(_) | Kernel::Choose | Kernel::Branch => u64::from(
            lengths[3],
        ),
    }
}

// The stores of a shift of a vector of this length, by an amount of so many bits.
fn shift_cost(width: u32, amount: u32) -> u64
    ensures exact { result ≡ width + width * moving_bits width amount }
    ensures weight { result ≤ width * (amount + 1) }
{
    let moving = moving_bits(width as usize, amount as usize);
    u64::from(width) * (moving as u64 + 1)
}

/// How many bits of an amount of `amount` bits move a vector of `width` bits by less than its length: those that stand for 1, 2, 4 and so on
/// below it.
pub(crate) fn moving_bits(width: usize, amount: usize) -> usize
    requires { width ≤ 2 ^ 63 }
    ensures { result ≡ moving_bits width amount }
{
    let mut distance = 1;
    for bits in 0..amount {
        if width <= distance {
            return bits;
        }
        distance *= 2;
    }
    amount
}

/// How many slots a call needs for what it keeps on the way: none. The lengths are as for `cost`.
pub fn room(kernel: Kernel, lengths: &[u32]) -> u64
    requires { takes (shape_of kernel) lengths.now ≡ true }
    ensures exact { result ≡ room_of lengths.now }
    ensures with_value { result + last_or 0 lengths.now ≤ cost_of kernel lengths.now }
{
    0
}
