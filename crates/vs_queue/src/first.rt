//! What a run of a design begins with (IEEE 1364-2005, 4.2 and 11.4).

ghost use Rattle.std.specs.Prelude.{◌≡◌, ◌<◌, ◌+◌, ◌≤◌, ◌^◌, ◌||◌, ◌&&◌, not, ◌∷◌, ℕ, Bool, List, length, map, filter, replicate, slice_set, false, true, if◌then◌else◌, IfOk, OnOk};
ghost use Rattle.std.specs.List.{list_any};
ghost use Rattle.vs_design.specs.Designs as D;
ghost use Rattle.vs_design.specs.Footprints.{contains, net_bits};
ghost use Rattle.vs_design.specs.Networks.{idle_value, spare_clocks};
ghost use Rattle.vs_design.specs.Values.{count_from};
ghost use Rattle.vs_flat.specs.DesignOf.{design_of};
ghost use Rattle.vs_flat.specs.Lawful.{IsLawful};
ghost use Rattle.vs_reads.specs.Footprint.{footprints_of};
ghost use Rattle.vs_writes.specs.Held.{state_of};
ghost use Rattle.vs_queue.specs.Beginnings.{all_roles, driven_roles, role_of_kind, roles_of};
ghost use Rattle.vs_queue.specs.Spare.{alone, has_keeper, keeper_at, spare_count, value_count};
ghost use Rattle.vs_queue.specs.First.{first_seed, first_value, flag_at, flagged, idle_by, is_assign_kind, plain_value};
ghost use Rattle.vs_queue.specs.Ordered.{driven_bits, drawn_values, drives, seed_after, x_or_z, x_values};

use crate::seeds::{drawn, next_seed};
use std::alloc::{AllocError, Global};
use vs_events::Role;
use vs_flat::{Flat, Kind, Signal, bits_of, count_bits, lawful_law, trees_law};
use vs_four::Bit4;
use vs_reads::{Footprints, footprint_law};
use vs_typed::Typed;

/// Whether a process of this kind is an assign.
fn is_assign(kind: &Kind) -> bool
    ensures { result ≡ is_assign_kind kind.now }
{
    matches!(kind, Kind::Assign { .. })
}

/// Whether a signal is a net, and no input.
fn is_net(signal: &Signal) -> bool
    ensures { result ≡ (signal.now.net && not signal.now.input) }
{
    signal.net && !signal.input
}

/// The role of a process of this kind.
fn role_of(kind: &Kind) -> Role
    ensures { result ≡ role_of_kind kind.now }
{
    match kind {
        Kind::Assign { .. } => Role::Assign,
        Kind::Block { .. } => Role::Block,
    }
}

/// The roles of the processes, and then of the inputs of the top. The only error is that there is no memory.
fn roles_of(alloc: Global, flat: &Flat) -> Result<Vec<Role>, AllocError>
    ensures { IfOk result (λ v. v.items ≡ roles_of (design_of flat.now)) }
{
    trees_law();
    let mut roles = Vec::new(alloc);
    for p in 0..flat.process_count() {
        roles.push(role_of(&flat.process(p).kind))?;
    }
    for i in 0..flat.top_inputs().len() {
        roles.push(Role::Input)?;
    }
    Ok(roles)
}

/// The clock that is none of the design's bits, where there is one.
pub(crate) fn spare_clock(flat: &Flat, clocks: &[u32]) -> Option<u32>
    requires { spare_count (design_of flat.now) clocks.now ≤ 1 }
    ensures { spare_clocks (design_of flat.now) clocks.now ≡ alone result }
{
    trees_law();
    for clock in clocks {
        if *clock >= count_bits(flat) {
            return Some(*clock);
        }
    }
    None
}

/// How many clocks are none of the design's bits.
pub(crate) fn spare_count(flat: &Flat, clocks: &[u32]) -> u32
    requires { spare_count (design_of flat.now) clocks.now ≤ 1 }
    ensures { result ≡ spare_count (design_of flat.now) clocks.now }
{
    match spare_clock(flat, clocks) {
        Some(_) => 1,
        None => 0,
    }
}

/// How many processes there are besides the block that keeps what initial processes alone write: those of the design, its inputs, and a clock that is none of its bits. It is the number of that block.
pub(crate) fn keeper_at(flat: &Flat, clocks: &[u32]) -> u32
    requires lawful { IsLawful flat.now }
    requires one { spare_count (design_of flat.now) clocks.now ≤ 1 }
    ensures is { result ≡ keeper_at (design_of flat.now) clocks.now }
    ensures most { result < 2 ^ 31 }
{
    trees_law();
    lawful_law();
    let inputs = flat.top_inputs().len() as u32;
    flat.process_count() + inputs + spare_count(flat, clocks)
}

/// The roles of the processes, of the inputs of the top, and of a clock that is none of the design's bits. The only error is that there is no memory.
fn driven_roles(alloc: Global, flat: &Flat, clocks: &[u32]) -> Result<Vec<Role>, AllocError>
    requires { spare_count (design_of flat.now) clocks.now ≤ 1 }
    ensures { IfOk result (λ v. v.items ≡ driven_roles (design_of flat.now) clocks.now) }
{
    let mut roles = roles_of(alloc, flat)?;
    for n in 0..spare_count(flat, clocks) {
        roles.push(Role::Input)?;
    }
    Ok(roles)
}

/// These, and that of the block that keeps what initial processes alone write, where there is one. The only error is that there is no memory.
pub(crate) fn all_roles(
    alloc: Global,
    flat: &Flat,
    clocks: &[u32],
    keeper: bool,
) -> Result<Vec<Role>, AllocError>
    requires keeper { keeper ≡ has_keeper (design_of flat.now) }
    requires one { spare_count (design_of flat.now) clocks.now ≤ 1 }
    ensures { IfOk result (λ v. v.items ≡ all_roles (design_of flat.now) clocks.now) }
{
    let mut roles = driven_roles(alloc, flat, clocks)?;
    if keeper {
        roles.push(Role::Block)?;
        return Ok(roles);
    }
    Ok(roles)
}

/// Sets the flag of this bit.
fn set_flag(flags: &mut Vec<bool>, bit: usize)
    requires { bit < length flags.old.items }
    ensures { flags.new.items ≡ slice_set flags.old.items bit true }
{
    flags[bit] = true;
}

/// Sets the flags of these bits.
pub(crate) fn flag_bits(flags: &mut Vec<bool>, bits: &[u32])
    requires { (b : ℕ) → contains bits.now b ≡ true → b < length flags.old.items }
    ensures count { length flags.new.items ≡ length flags.old.items }
    ensures flags { (b : ℕ) → flag_at flags.new.items b ≡ (flag_at flags.old.items b || contains bits.now b) }
{
    for bit in bits {
        set_flag(flags, *bit as usize);
    }
}

/// Sets the flags of so many bits from the first on.
fn flag_run(flags: &mut Vec<bool>, first: u32, count: u32)
    requires { first + count ≤ length flags.old.items }
    ensures count { length flags.new.items ≡ length flags.old.items }
    ensures flags { (b : ℕ) → flag_at flags.new.items b ≡ (flag_at flags.old.items b || contains (count_from first count) b) }
{
    for k in 0..count {
        set_flag(flags, first as usize + k as usize);
    }
}

/// By bit whether it is a net's.
fn net_flags(alloc: Global, typed: &Typed) -> Result<Vec<bool>, AllocError>
    ensures count { IfOk result (λ v. length v.items ≡ D.bit_count (design_of typed.now)) }
    ensures flags { IfOk result (λ v. (b : ℕ) → flag_at v.items b ≡ contains (net_bits (design_of typed.now)) b) }
{
    trees_law();
    lawful_law();
    let flat = typed.flat();
    let mut flags = vec![in alloc; false; count_bits(flat) as usize]?;
    for n in 0..flat.signal_count() {
        let signal = flat.signal(n);
        if is_net(signal) {
            flag_run(&mut flags, signal.first_bit, bits_of(signal));
        }
    }
    Ok(flags)
}

/// By bit whether an assign writes it.
fn driven_flags(
    alloc: Global,
    typed: &Typed,
    footprints: &Footprints,
) -> Result<Vec<bool>, AllocError>
    requires { footprints.now ≡ footprints_of (design_of typed.now) }
    ensures count { IfOk result (λ v. length v.items ≡ D.bit_count (design_of typed.now)) }
    ensures flags { IfOk result (λ v. (b : ℕ) → flag_at v.items b ≡ list_any (drives b) (design_of typed.now).processes) }
{
    trees_law();
    lawful_law();
    footprint_law();
    let flat = typed.flat();
    let mut flags = vec![in alloc; false; count_bits(flat) as usize]?;
    for p in 0..flat.process_count() {
        if is_assign(&flat.process(p).kind) {
            flag_bits(&mut flags, footprints.writes(p));
        }
    }
    Ok(flags)
}

/// What is drawn for a bit: even is x, odd is z.
fn x_or_z(draw: u32) -> Bit4
    ensures { result ≡ x_or_z draw }
{
    if draw % 2 == 0 { Bit4::X } else { Bit4::Z }
}

/// The value that a bit begins with: of a driven net it is drawn.
fn first_value(net: bool, driven: bool, seed: u64) -> Bit4
    ensures { result ≡ first_value net driven seed }
{
    if !net {
        Bit4::X
    } else if driven {
        x_or_z(drawn(seed))
    } else {
        Bit4::Z
    }
}

/// The generator after that.
fn seed_behind(net: bool, driven: bool, seed: u64) -> u64
    ensures { result ≡ first_seed net driven seed }
{
    if net && driven { next_seed(seed) } else { seed }
}

/// The values that bits begin with, where these are nets' and these are driven, and the generator after what was drawn for them.
fn values_by(
    alloc: Global,
    nets: &[bool],
    driven: &[bool],
    order: u64,
) -> Result<(Vec<Bit4>, u64), AllocError>
    requires { length driven.now ≡ length nets.now }
    ensures count { IfOk result (λ r. length r.0.items ≡ length nets.now) }
    ensures values { IfOk result (λ r. state_of r.0.items ≡ drawn_values (flagged nets.now driven.now) order (idle_by nets.now)) }
    ensures seed { IfOk result (λ r. r.1 ≡ seed_after (flagged nets.now driven.now) order) }
{
    let mut values = Vec::new(alloc);
    let mut seed = order;
    for b in 0..nets.len() {
        values.push(first_value(nets[b], driven[b], seed))?;
        seed = seed_behind(nets[b], driven[b], seed);
    }
    Ok((values, seed))
}

/// The values that the bits of a design begin with, drawn for nets that assigns drive, and the generator after that. The only error is that there is no memory.
fn first_values(
    alloc: Global,
    typed: &Typed,
    footprints: &Footprints,
    order: u64,
) -> Result<(Vec<Bit4>, u64), AllocError>
    requires { footprints.now ≡ footprints_of (design_of typed.now) }
    ensures count { IfOk result (λ r. length r.0.items ≡ D.bit_count (design_of typed.now)) }
    ensures values { IfOk result (λ r. state_of r.0.items ≡ drawn_values (driven_bits (design_of typed.now)) order (idle_value (design_of typed.now))) }
    ensures seed { IfOk result (λ r. r.1 ≡ seed_after (driven_bits (design_of typed.now)) order) }
{
    let nets = net_flags(alloc, typed)?;
    let driven = driven_flags(alloc, typed, footprints)?;
    values_by(alloc, nets.as_slice(), driven.as_slice(), order)
}

/// So many x behind these values.
fn add_spares(values: &mut Vec<Bit4>, count: u32) -> Result<(), AllocError>
    ensures count { OnOk result (length values.new.items ≡ length values.old.items + count) }
    ensures same { OnOk result (state_of values.new.items ≡ state_of values.old.items) }
{
    for n in 0..count {
        values.push(Bit4::X)?;
    }
    Ok(())
}

/// The values that a run begins with: those of the bits of the design, and x for a clock that is none of them; and the generator after that. The only error is that there is no memory.
pub(crate) fn all_values(
    alloc: Global,
    typed: &Typed,
    footprints: &Footprints,
    clocks: &[u32],
    order: u64,
) -> Result<(Vec<Bit4>, u64), AllocError>
    requires one { spare_count (design_of typed.now) clocks.now ≤ 1 }
    requires footprints { footprints.now ≡ footprints_of (design_of typed.now) }
    ensures count { IfOk result (λ r. length r.0.items ≡ value_count (design_of typed.now) clocks.now) }
    ensures values { IfOk result (λ r. state_of r.0.items ≡ drawn_values (driven_bits (design_of typed.now)) order (idle_value (design_of typed.now))) }
    ensures seed { IfOk result (λ r. r.1 ≡ seed_after (driven_bits (design_of typed.now)) order) }
{
    let (mut values, seed) = first_values(alloc, typed, footprints, order)?;
    add_spares(&mut values, spare_count(typed.flat(), clocks))?;
    Ok((values, seed))
}

/// The value that a bit begins with in a run in level order: z in a net that no assign drives, else x.
fn plain_value(net: bool, driven: bool) -> Bit4
    ensures { result ≡ plain_value net driven }
{
    if net && !driven { Bit4::Z } else { Bit4::X }
}

/// The values that bits begin with in a run in level order, where these are nets' and these are driven.
fn plain_by(alloc: Global, nets: &[bool], driven: &[bool]) -> Result<Vec<Bit4>, AllocError>
    requires { length driven.now ≡ length nets.now }
    ensures count { IfOk result (λ r. length r.items ≡ length nets.now) }
    ensures values { IfOk result (λ r. state_of r.items ≡ x_values (flagged nets.now driven.now) (idle_by nets.now)) }
{
    let mut values = Vec::new(alloc);
    for b in 0..nets.len() {
        values.push(plain_value(nets[b], driven[b]))?;
    }
    Ok(values)
}

/// The values that a run in level order begins with: x for nets that assigns drive. The only error is that there is no memory.
pub(crate) fn plain_values(
    alloc: Global,
    typed: &Typed,
    footprints: &Footprints,
    clocks: &[u32],
) -> Result<Vec<Bit4>, AllocError>
    requires one { spare_count (design_of typed.now) clocks.now ≤ 1 }
    requires footprints { footprints.now ≡ footprints_of (design_of typed.now) }
    ensures count { IfOk result (λ r. length r.items ≡ value_count (design_of typed.now) clocks.now) }
    ensures values { IfOk result (λ r. state_of r.items ≡ x_values (driven_bits (design_of typed.now)) (idle_value (design_of typed.now))) }
{
    let nets = net_flags(alloc, typed)?;
    let driven = driven_flags(alloc, typed, footprints)?;
    let mut values = plain_by(alloc, nets.as_slice(), driven.as_slice())?;
    add_spares(&mut values, spare_count(typed.flat(), clocks))?;
    Ok(values)
}
