//! The kernels by name, and what each call takes.
ghost use Rattle.std.specs.Prelude.{◌≡◌, ◌+◌, ◌*◌, ◌/◌, ◌<◌, ◌≤◌, ◌^◌, true};
ghost use Rattle.vs_four.specs.Lengths.{last_or};
ghost use Rattle.vs_kern_arith.specs.Costs.{cost_of, gives_vector, room_of, shape_of, takes, weight_of};

/// A kernel of this crate. A comparison is signed where its field says so.
#[derive(Clone, Copy, PartialEq, Eq, Debug)]
pub enum Kernel {
    /// `+`
    Add,
    /// binary `-`
    Sub,
    /// `*`
    Mul,
    /// unary `-`
    Neg,
    /// `<`
    Less(bool),
    /// `<=`
    LessEqual(bool),
    /// `>`
    Greater(bool),
    /// `>=`
    GreaterEqual(bool),
}

impl Kernel {
    /// Whether the value has as many bits as the arguments. If not, it has one.
    pub fn gives_vector(self) -> bool
        ensures { result ≡ gives_vector self }
    {
        matches!(self, Kernel::Add | Kernel::Sub | Kernel::Mul | Kernel::Neg)
    }
}

/// How many stores a call makes, by the lengths of its arguments in their order and then that of its value: one a bit of the value, and
/// for `*` w(w + 1)/2 more.
pub fn cost(kernel: Kernel, lengths: &[u32]) -> u64
    requires lengths { takes (shape_of kernel) lengths.now ≡ true }
    requires fits { weight_of kernel lengths.now < 2 ^ 64 }
    ensures exact { result ≡ cost_of kernel lengths.now }
    ensures weight { result ≤ weight_of kernel lengths.now }
{
    let width = u64::from(lengths[0]);
    match kernel {
        Kernel::Mul => product_cost(width),
        Kernel::Add | Kernel::Sub | Kernel::Neg => width,
        Kernel::Less(_) | Kernel::LessEqual(_) | Kernel::Greater(_) | Kernel::GreaterEqual(_) => 1,
    }
}

// The stores of a product of this length.
fn product_cost(width: u64) -> u64
    requires some { 1 ≤ width }
    requires fits { 4 * (width * width) < 2 ^ 64 }
    ensures exact { result ≡ width + width * (width + 1) / 2 }
    ensures weight { result ≤ 4 * (width * width) }
{
    let square = width * width;
    prove!(width <= square);
    width + (square + width) / 2
}

/// How many slots a call needs for what it keeps on the way: none. The lengths are as for `cost`.
pub fn room(kernel: Kernel, lengths: &[u32]) -> u64
    requires { takes (shape_of kernel) lengths.now ≡ true }
    ensures exact { result ≡ room_of lengths.now }
    ensures with_value { result + last_or 0 lengths.now ≤ cost_of kernel lengths.now }
{
    0
}
