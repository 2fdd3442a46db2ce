//! One call of a kernel.

use crate::kernels::AnyKernel;
use std::marker::Model;
use vs_base::List;

/// One call of a kernel. A vector is the list of its slots, least significant bit first.
#[derive(Drop)]
pub struct Op {
    /// What is called. The sign, the range and the direction of a kernel that has them stand in its name.
    pub kernel: AnyKernel,
    /// The slots of each argument, in the kernel's order.
    pub args: List<List<u32>>,
    /// The slots that get the value.
    pub to: List<u32>,
    /// Slots for what the kernel keeps on the way. They hold nothing of use afterwards.
    pub scratch: List<u32>,
}

// Clauses see the call.
impl Model for Op {
    ghost use Rattle.vs_code.specs.Calls.{Call};

    ghost Value = { Call };

    ghost view = { λ o. record { kernel = o.kernel; args = o.args; to = o.to; scratch = o.scratch } };
}
