//! Classes of signals as links: each signal links to itself or to an earlier one of its class.

ghost use Rattle.std.specs.Prelude.{◌≡◌, ◌<◌, ◌≤◌, ℕ, length, slice_index, Some, IfOk};
ghost use Rattle.vs_vcd.specs.Links.{AreLinks, KeepsLinks, LinkBack};
ghost use Rattle.vs_vcd.specs.Shared.{with_join};

use std::alloc::{AllocError, Global};

/// So many signals, each alone in its class.
pub(crate) fn own_links(alloc: Global, signals: u32) -> Result<Vec<u32>, AllocError>
    ensures count { IfOk result (λ links. length links.items ≡ signals) }
    ensures back { IfOk result (λ links. LinkBack links.items) }
    ensures own { IfOk result (λ links. AreLinks (λ n. n) links.items) }
{
    let mut links = Vec::with_capacity(alloc, signals as usize)?;
    for n in 0..signals {
        links.push_reserved(n);
    }
    Ok(links)
}

/// Joins the classes of two signals: the first signal of the one links to that of the other, the later one to the earlier one.
pub(crate) fn join(links: &mut [u32], one: u32, other: u32)
    requires one { one < length links.old }
    requires other { other < length links.old }
    requires back { LinkBack links.old }
    ensures count { length links.new ≡ length links.old }
    ensures back { LinkBack links.new }
    ensures joined { (code : ℕ → ℕ) → AreLinks code links.old → AreLinks (with_join (Some (one, other)) code) links.new }
{
    let a = first_of(links, one);
    let b = first_of(links, other);
    if a < b {
        links[b as usize] = a;
    } else {
        links[a as usize] = b;
    }
}

/// The first signal of a class. Each signal on the way links farther from then on.
fn first_of(links: &mut [u32], number: u32) -> u32
    requires there { number < length links.old }
    requires back { LinkBack links.old }
    ensures there { result < length links.old }
    ensures count { length links.new ≡ length links.old }
    ensures back { LinkBack links.new }
    ensures kept { KeepsLinks links.old links.new }
    ensures first { slice_index links.new result ≡ result }
    ensures code { (code : ℕ → ℕ) → AreLinks code links.old → result ≡ code number }
{
    let mut n = number;
    while links[n as usize] != n {
        let link = links[n as usize];
        let next = links[link as usize];
        links[n as usize] = next;
        n = next;
    }
    n
}

/// Links each signal to the first one of its class.
pub(crate) fn shorten(links: &mut [u32])
    requires { LinkBack links.old }
    ensures count { length links.new ≡ length links.old }
    ensures first { (code : ℕ → ℕ) → AreLinks code links.old → (n : ℕ) → n < length links.old → slice_index links.new n ≡ code n }
{
    for n in 0..links.len() {
        let link = links[n];
        links[n] = links[link as usize];
    }
}
