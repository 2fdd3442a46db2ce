//! Rings of processes.

ghost use Rattle.std.specs.Prelude.{ℕ, ◌<◌, ◌≤◌, length, slice_index, vec_len};
ghost use Rattle.vs_level.specs.Graph.{Feeding, IsRing, IsCircle};

/// The place of the least of some numbers.
fn place_of_least(numbers: &[u32]) -> usize
    requires { 0 < length numbers.now }
    ensures within { result < length numbers.now }
    ensures least { (k : ℕ) → k < length numbers.now → slice_index numbers.now result ≤ slice_index numbers.now k }
{
    let mut best = 0;
    for i in 1..numbers.len() {
        if numbers[i] < numbers[best] {
            best = i;
        }
    }
    best
}

/// A ring of processes with its least one first.
pub(crate) fn least_first(mut ring: Vec<u32>) -> Vec<u32>
    requires { 0 < vec_len ring }
    ensures { (g : Feeding) → IsRing g ring.items → IsCircle g result.items }
{
    let place = place_of_least(ring.as_slice());
    ring.rotate_left(place);
    ring
}
