//! What is known of the processes of a design, besides their calls.

ghost use Rattle.std.specs.Prelude.{◌≡◌, ℕ, ◌<◌, ◌++◌, List, length, OnOk, slice_get};
ghost use Rattle.vs_design.specs.Designs.{Design, bit_count};
ghost use Rattle.vs_design.specs.Clocks.{clock_nets};
ghost use Rattle.vs_cone.specs.Cones.{is_port_or, needs_at, writes_at};
ghost use Rattle.vs_assemble.specs.Flags.{HasBitsOf};
ghost use Rattle.vs_assemble.specs.Plans.{is_clocked_or, reset_bits_or};

use std::alloc::AllocError;

/// The processes of a design with clocks: which of them are clocked or copy a clock, and which bits each of them needs, writes and resets.
pub trait Processes {
    // The design.
    ghost design: { Self → Design };

    // The bits of its clocks.
    ghost clock_list: { Self → List ℕ };

    /// How many processes there are.
    fn process_count(&self) -> u32
        ensures { result ≡ length (design self.now).processes };

    /// Whether a process is a clocked block.
    fn is_clocked(&self, process: u32) -> bool
        requires { process < length (design self.now).processes }
        ensures { result ≡ is_clocked_or (slice_get (design self.now).processes process) };

    /// Whether a process is a port that copies a clock, which are these bits.
    fn copies_clock(&self, clocks: &[u32], process: u32) -> bool
        requires clocks { clocks.now ≡ clock_list self.now }
        requires process { process < length (design self.now).processes }
        ensures { result ≡ is_port_or (clock_nets (design self.now) clocks.now) (slice_get (design self.now).processes process) };

    /// Adds the bits that a clocked block's reset sets, where the design's clocks are these bits. The only error is that there is no memory.
    fn add_reset_bits(
        &self,
        clocks: &[u32],
        process: u32,
        bits: &mut Vec<u32>,
    ) -> Result<(), AllocError>
        requires clocks { clocks.now ≡ clock_list self.now }
        requires process { process < length (design self.now).processes }
        ensures { OnOk result ((more : List ℕ) × (bits.new.items ≡ bits.old.items ++ more)
            × HasBitsOf (bit_count (design self.now)) more (reset_bits_or (design self.now) clocks.now (slice_get (design self.now).processes process))) };

    /// The bits that a process reads or waits on.
    fn needs(&self, process: u32) -> &[u32]
        requires { process < length (design self.now).processes }
        ensures { HasBitsOf (bit_count (design self.now)) result.now (needs_at (design self.now) process) };

    /// The bits that a process writes.
    fn writes(&self, process: u32) -> &[u32]
        requires { process < length (design self.now).processes }
        ensures { HasBitsOf (bit_count (design self.now)) result.now (writes_at (design self.now) process) };
}
