//! The whole text.

ghost use Rattle.std.specs.Prelude.{◌≡◌, ◌≤◌, ◌<◌, ◌^◌, ◌++◌, ℕ, List, All, length, map, suc, take, OnOk, IfOk};
ghost use Rattle.vs_design.specs.Designs.{bit_count};
ghost use Rattle.vs_flat.specs.DesignOf.{design_of};
ghost use Rattle.vs_flat.specs.Lawful.{IsLawful};
ghost use Rattle.vs_vcd.specs.Shared.{code_at, led_by, text_of};
ghost use Rattle.vs_vcd.specs.Texts.{slot_texts};
ghost use Rattle.vs_writes.specs.Held.{state_of};

use crate::lines::push_time;
use crate::slots::{push_first, push_next};
use std::alloc::{AllocError, Global};
use vs_flat::Flat;
use vs_vcd::{Codes, head, parts_law, share_law};
use vs_writes::Ends;

/// Adds slot k, which begins at k half-periods.
fn push_slot(
    text: &mut Vec<u8>,
    flat: &Flat,
    codes: &Codes,
    half: u64,
    ends: &Ends,
    k: usize,
) -> Result<(), AllocError>
    requires lawful { IsLawful flat.now }
    requires half { half ≤ 1000000 }
    requires few { length ends.now ≤ 2 ^ 26 }
    requires long { All (λ values. bit_count (design_of flat.now) ≤ length values) ends.now }
    requires there { k < length ends.now }
    ensures { let d = led_by (code_at codes.now) (design_of flat.now) in (before : List ℕ) → text.old.items ≡ before ++ slot_texts d half (map state_of (take k ends.now))
        → OnOk result (text.new.items ≡ before ++ slot_texts d half (map state_of (take (suc k) ends.now))) }
{
    parts_law();
    let now = ends.slot(k);
    if k == 0 {
        return push_first(text, flat, codes, now);
    }
    let before = ends.slot(k - 1);
    let time = k as u64 * half;
    push_next(text, flat, codes, time, before, now)
}

/// Adds all slots.
fn push_slots(
    text: &mut Vec<u8>,
    flat: &Flat,
    codes: &Codes,
    half: u64,
    ends: &Ends,
) -> Result<(), AllocError>
    requires lawful { IsLawful flat.now }
    requires half { half ≤ 1000000 }
    requires few { length ends.now ≤ 2 ^ 26 }
    requires long { All (λ values. bit_count (design_of flat.now) ≤ length values) ends.now }
    ensures { OnOk result (text.new.items ≡ text.old.items ++ slot_texts (led_by (code_at codes.now) (design_of flat.now)) half (map state_of ends.now)) }
{
    for k in 0..ends.len() {
        push_slot(text, flat, codes, half, ends, k)?;
    }
    Ok(())
}

/// The whole text of a value change dump (IEEE 1364-2005, clause 18) of a lawful design, from the values of all bits at the end of each slot, each bit by its number; what stands behind the values of the design's bits is no matter. Slot k begins at k half-periods, each of this many nanoseconds. There is one identifier code for all signals that ports join, if so told, or else one for each signal. The only error is that there is no memory.
pub fn dump(
    alloc: Global,
    flat: &Flat,
    half: u64,
    share: bool,
    ends: &Ends,
) -> Result<Vec<u8>, AllocError>
    requires lawful { IsLawful flat.now }
    requires half { half ≤ 1000000 }
    requires few { length ends.now ≤ 2 ^ 26 }
    requires long { All (λ values. bit_count (design_of flat.now) ≤ length values) ends.now }
    ensures { IfOk result (λ text. text.items ≡ text_of share (design_of flat.now) half (map state_of ends.now)) }
{
    share_law();
    let codes = Codes::of(alloc, flat, share)?;
    let mut text = head(alloc, flat, &codes)?;
    push_slots(&mut text, flat, &codes, half, ends)?;
    let time = ends.len() as u64 * half;
    push_time(&mut text, time)?;
    Ok(text)
}
