//! The columns of a square of 64 rows of 64 bits.
ghost use Rattle.std.specs.Prelude.{◌≡◌, ℕ, ◌<◌, ◌^◌, true, slice_index};
ghost use Rattle.vs_plane.specs.Squares.{AreColumns, IsMask, IsTurned};

/// The columns of these rows: bit `c` of word `r` is bit `r` of row `c`.
pub(crate) fn columns(rows: &[u64; 64]) -> [u64; 64]
    ensures columns { AreColumns rows.now result }
    ensures fits { (r : ℕ) → slice_index result r < 2 ^ 64 }
{
    // Most unknown planes are 0.
    if are_zero(rows) {
        [0; 64]
    } else {
        turned(rows)
    }
}

/// Whether all bits are 0.
fn are_zero(rows: &[u64; 64]) -> bool
    ensures { result ≡ true → (r : ℕ) → r < 64 → slice_index rows.now r ≡ 0 }
{
    let mut bits = 0;
    for i in 0..64 {
        bits |= rows[i];
    }
    bits == 0
}

/// The columns, by six turns.
fn turned(rows: &[u64; 64]) -> [u64; 64]
    ensures columns { AreColumns rows.now result }
    ensures fits { (r : ℕ) → slice_index result r < 2 ^ 64 }
{
    let first = turn(rows, 32, 0x0000_0000_FFFF_FFFF);
    let second = turn(&first, 16, 0x0000_FFFF_0000_FFFF);
    let third = turn(&second, 8, 0x00FF_00FF_00FF_00FF);
    let fourth = turn(&third, 4, 0x0F0F_0F0F_0F0F_0F0F);
    let fifth = turn(&fourth, 2, 0x3333_3333_3333_3333);
    turn(&fifth, 1, 0x5555_5555_5555_5555)
}

/// One turn, by this distance of columns.
#[inline]
fn turn(rows: &[u64; 64], shift: u32, mask: u64) -> [u64; 64]
    requires some { 0 < shift }
    requires short { shift < 64 }
    requires mask { IsMask shift mask }
    ensures turned { IsTurned shift rows.now result }
    ensures fits { (r : ℕ) → slice_index result r < 2 ^ 64 }
{
    let mut turned = [0; 64];
    for i in 0..32 {
        let a = rows[i];
        let b = rows[i + 32];
        turned[2 * i] = (a & mask) | ((b & mask) << shift);
        turned[2 * i + 1] = ((a >> shift) & mask) | (b & !mask);
    }
    turned
}
