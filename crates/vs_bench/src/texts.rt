//! The texts of a bench.

ghost use Rattle.std.specs.Prelude.{◌≡◌, ◌+◌, ◌*◌, ◌^◌, ◌%◌, ◌++◌, codes, IfOk, OnOk};
ghost use Rattle.vs_bench.specs.Texts.{after, binary, design, stimulus, vector_line};

use std::alloc::{AllocError, Global};

/// The design.
const DESIGN: &[u8] = b"\
module stage(input clk, input rst, input [31:0] d, output reg [31:0] q);\n\
always @(posedge clk) if (rst) q <= 32'd0; else q <= d * 32'd5 + 32'd1;\n\
endmodule\n\
module chain #(parameter N = 0) (input clk, input rst, input [31:0] d, output [31:0] y);\n\
wire [31:0] m;\n\
stage s(clk, rst, d, m);\n\
generate if (N == 0) assign y = m; else chain #(N - 1) c(clk, rst, m, y); endgenerate\n\
endmodule\n\
module top(input clk, input rst, input [31:0] a, output [31:0] y);\n\
chain #(15) c(clk, rst, a, y);\n\
endmodule\n";

/// The first line of a stimulus.
const HEADER: &[u8] = b"inputs rst a\n";

/// What the generator's state is multiplied by at each step.
const MULTIPLIER: u64 = 6364136223846793005;

/// What is added to the generator's state at each step.
const INCREMENT: u64 = 1442695040888963407;

/// The text of the design, of 488 bytes. The only error is that memory ran out.
pub(crate) fn design_text(alloc: Global) -> Result<Vec<u8>, AllocError>
    ensures { IfOk result (λ t. t.items ≡ design) }
{
    Vec::from_slice(alloc, DESIGN)
}

/// The text of a lane's stimulus: a header of 13 bytes, and a line of 35 bytes for each of so many vectors. The only error is that
/// memory ran out.
pub(crate) fn stimulus_text(alloc: Global, lane: u32, vectors: u32) -> Result<Vec<u8>, AllocError>
    ensures { IfOk result (λ t. t.items ≡ stimulus lane vectors) }
{
    let mut text = Vec::from_slice(alloc, HEADER)?;
    let mut state = u64::from(lane) + 1;
    for vector in 0..vectors {
        state = next_state(state);
        push_line(&mut text, vector == 0, (state >> 32) as u32)?;
    }
    Ok(text)
}

/// The generator's state after this one.
fn next_state(state: u64) -> u64
    ensures { result ≡ after state }
{
    state.wrapping_mul(MULTIPLIER).wrapping_add(INCREMENT)
}

/// Adds the line of a vector with these inputs.
fn push_line(text: &mut Vec<u8>, rst: bool, a: u32) -> Result<(), AllocError>
    ensures { OnOk result (text.new.items ≡ text.old.items ++ vector_line rst a) }
{
    text.push(if rst { b'1' } else { b'0' })?;
    text.push(b' ')?;
    push_binary(text, a)?;
    text.push(b'\n')?;
    Ok(())
}

/// Adds a number in 32 binary digits, the most significant first.
fn push_binary(text: &mut Vec<u8>, number: u32) -> Result<(), AllocError>
    ensures { OnOk result (text.new.items ≡ text.old.items ++ binary 32 number) }
{
    for place in (0..u32::BITS).rev() {
        text.push(b'0' + ((number >> place) % 2) as u8)?;
    }
    Ok(())
}
