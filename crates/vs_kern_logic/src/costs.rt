//! The kernels by name, and what each call takes.
ghost use Rattle.std.specs.Prelude.{◌≡◌, ◌+◌, ◌≤◌, true};
ghost use Rattle.vs_four.specs.Lengths.{last_or};
ghost use Rattle.vs_kern_logic.specs.Costs.{cost_of, gives_vector, room_of, shape_of, takes, weight_of};

/// A kernel of this crate.
#[derive(Clone, Copy, PartialEq, Eq, Debug)]
pub enum Kernel {
    /// The argument as it is.
    Copy,
    /// `~`
    Not,
    /// `&`
    And,
    /// `|`
    Or,
    /// `^`
    Xor,
    /// `~^`
    Xnor,
    /// `&` of all bits
    ReduceAnd,
    /// `~&` of all bits
    ReduceNand,
    /// `|` of all bits
    ReduceOr,
    /// `~|` of all bits
    ReduceNor,
    /// `^` of all bits
    ReduceXor,
    /// `~^` of all bits
    ReduceXnor,
    /// `!`
    LogicalNot,
    /// `&&`
    LogicalAnd,
    /// `||`
    LogicalOr,
    /// `==`
    Equal,
    /// `!=`
    NotEqual,
    /// `===`, and the match of `case`
    CaseEqual,
    /// `!==`
    CaseNotEqual,
    /// The match of `casez`
    MatchesZ,
    /// The match of `casex`
    MatchesX,
}

impl Kernel {
    /// Whether the value has as many bits as the arguments. If not, it has one.
    pub fn gives_vector(self) -> bool
        ensures { result ≡ gives_vector self }
    {
        matches!(
            self,
            Kernel::Copy | Kernel::Not | Kernel::And | Kernel::Or | Kernel::Xor | Kernel::Xnor
        )
    }
}

/// How many stores a call makes, by the lengths of its arguments in their order and then that of its value: one a bit of the value.
pub fn cost(kernel: Kernel, lengths: &[u32]) -> u64
    requires { takes (shape_of kernel) lengths.now ≡ true }
    ensures exact { result ≡ cost_of lengths.now }
    ensures weight { result ≤ weight_of kernel lengths.now }
{
    if kernel.gives_vector() {
        u64::from(lengths[0])
    } else {
        1
    }
}

/// How many slots a call needs for what it keeps on the way: none. The lengths are as for `cost`.
pub fn room(kernel: Kernel, lengths: &[u32]) -> u64
    requires { takes (shape_of kernel) lengths.now ≡ true }
    ensures exact { result ≡ room_of lengths.now }
    ensures with_value { result + last_or 0 lengths.now ≤ cost_of lengths.now }
{
    0
}
