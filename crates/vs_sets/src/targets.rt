//! Writing the sets of a value to a target (IEEE 1364-2005, clause 6 and 9.2).

ghost use Rattle.std.specs.Prelude.{◌≡◌, ◌≤◌, ◌<◌, ◌+◌, ◌*◌, ◌-◌, ℕ, if◌then◌else◌, length, map, max, true, Some, OnOk};
ghost use Rattle.vs_four.specs.Selects.{range_length, places};
ghost use Rattle.vs_design.specs.Expressions as E;
ghost use Rattle.vs_design.specs.Statements as T;
ghost use Rattle.vs_design.specs.Fits.{is_fit, fits_target};
ghost use Rattle.vs_design.specs.Lifted as L;
ghost use Rattle.vs_design.specs.LiftedBodies.{put_each, widen, write_sets, assign_sets};
ghost use Rattle.vs_design.specs.Sets.{all_of};
ghost use Rattle.vs_design.specs.Values.{constant_value, count_from};
ghost use Rattle.vs_design.specs.Within.{names_within, signal_within, target_within};
ghost use Rattle.vs_flat.specs.Targets.{source_of, target_of};
ghost use Rattle.vs_flat.specs.Trees.{joined};
ghost use Rattle.vs_sets.specs.FitParts.{Is64};
ghost use Rattle.vs_sets.specs.Nodes.{EachBelow, tree_of, signal_of};
ghost use Rattle.vs_sets.specs.TargetsOf.{IsTarget, target_tree};
ghost use Rattle.vs_sets.specs.Tables.{bits_from, family_of};

use crate::Set4;
use crate::folds::all_of;
use crate::lifter::{Lifter, named_span, span_of};
use crate::table::{put_places, put_run, widen_run};
use crate::words::{Memory, memory_of, put_word};
use std::alloc::{AllocError, Global};
use vs_design::word_part_law;
use vs_flat::Node;
use vs_shape::{Part, Shapes, first_copy, places_of, word_place};

/// Writes sets to the target that expression e is, least significant first.
#[cycle(writing)]
fn write(shapes: &Shapes, e: u32, sets: &[Set4], table: &mut [Set4])
    requires within { target_within (length table.old) (target_tree (tree_of shapes.now e)) ≡ true }
    requires there { e < length shapes.now.nodes }
    requires target { IsTarget (tree_of shapes.now e) }
    requires many { length sets.now ≡ E.width (tree_of shapes.now e) }
    ensures { family_of table.new ≡ write_sets (target_tree (tree_of shapes.now e)) sets.now (family_of table.old) }
{
    match shapes.node(e) {
        Node::Name { .. } | Node::Local { .. } => {
            put_run(table, named_span(shapes, e).first, sets);
        }
        Node::Bit { of, range, index } => {
            let part = Part {
                range: *range,
                up: true,
                width: 1,
            };
            write_part(shapes, *of, part, *index, sets, table);
        }
        Node::Part {
            of,
            range,
            base,
            up,
            width,
        } => {
            let part = Part {
                range: *range,
                up: *up,
                width: *width,
            };
            write_part(shapes, *of, part, *base, sets, table);
        }
        Node::Word { signal, index } => write_word(shapes, *signal, *index, sets, table),
        Node::WordPart {
            signal,
            address,
            range,
            base,
            up,
            width,
        } => {
            let part = Part {
                range: *range,
                up: *up,
                width: *width,
            };
            write_word_part(shapes, *signal, *address, part, *base, sets, table);
        }
        Node::Join { parts } => write_parts(shapes, e, first_copy(parts.as_slice()), sets, table),
        _ => unreachable!(),
    }
}

/// Writes sets to a select (IEEE 1364-2005, 5.2.1): by a constant index to its bits, by any other each bit of the signal may have any of them.
fn write_part(shapes: &Shapes, of: u32, part: Part, index: u32, sets: &[Set4], table: &mut [Set4])
    requires within { target_within (length table.old) (target_tree (E.Select (source_of (tree_of shapes.now of)) part (tree_of shapes.now index))) ≡ true }
    requires of_there { of < length shapes.now.nodes }
    requires index_there { index < length shapes.now.nodes }
    requires target { IsTarget (E.Select (source_of (tree_of shapes.now of)) part (tree_of shapes.now index)) }
    requires many { length sets.now ≡ part.width }
    ensures { family_of table.new ≡ write_sets (target_tree (E.Select (source_of (tree_of shapes.now of)) part (tree_of shapes.now index))) sets.now (family_of table.old) }
{
    let span = named_span(shapes, of);
    let shape = shapes.shape(index);
    if shape.constant {
        let places = places_of(part, shape.signed, shapes.constant_value(index));
        put_places(table, span.first, &places, sets);
    } else {
        widen_run(table, span.first, span.len, all_of(sets));
    }
}

/// Writes sets to a word of a memory (IEEE 1364-2005, 4.9.3): by a constant address to its bits, by any other each bit of the memory may have any of them.
fn write_word(shapes: &Shapes, signal: u32, index: u32, sets: &[Set4], table: &mut [Set4])
    requires within { target_within (length table.old) (target_tree (E.Word (signal_of shapes.now signal) (tree_of shapes.now index))) ≡ true }
    requires memory { signal < length shapes.now.signals }
    requires index_there { index < length shapes.now.nodes }
    requires target { IsTarget (E.Word (signal_of shapes.now signal) (tree_of shapes.now index)) }
    requires many { length sets.now ≡ E.word_length (signal_of shapes.now signal) }
    ensures { family_of table.new ≡ write_sets (target_tree (E.Word (signal_of shapes.now signal) (tree_of shapes.now index))) sets.now (family_of table.old) }
{
    let shape = shapes.shape(index);
    if shape.constant {
        let memory = memory_of(shapes, signal);
        let address = shapes.constant_value(index);
        let place = word_place(memory.addresses, shape.signed, address);
        put_word(table, memory.first, place, sets);
    } else {
        let span = span_of(shapes, signal);
        widen_run(table, span.first, span.len, all_of(sets));
    }
}

/// Writes sets to a part of a word of a memory (IEEE 1364-2005, 5.2.2): by a constant address and a constant index to its bits, by any other each bit of the
/// words that the address may name may have any of them.
fn write_word_part(
    shapes: &Shapes,
    signal: u32,
    address: u32,
    part: Part,
    index: u32,
    sets: &[Set4],
    table: &mut [Set4],
)
    requires within { target_within (length table.old) (target_tree (E.WordPart (signal_of shapes.now signal) (tree_of shapes.now address) part (tree_of shapes.now index))) ≡ true }
    requires memory { signal < length shapes.now.signals }
    requires address_there { address < length shapes.now.nodes }
    requires index_there { index < length shapes.now.nodes }
    requires target { IsTarget (E.WordPart (signal_of shapes.now signal) (tree_of shapes.now address) part (tree_of shapes.now index)) }
    requires many { length sets.now ≡ part.width }
    ensures { family_of table.new ≡ write_sets (target_tree (E.WordPart (signal_of shapes.now signal) (tree_of shapes.now address) part (tree_of shapes.now index))) sets.now (family_of table.old) }
{
    let at = shapes.shape(address);
    if at.constant {
        write_part_at(shapes, signal, address, part, index, sets, table);
    } else {
        let span = span_of(shapes, signal);
        widen_run(table, span.first, span.len, all_of(sets));
    }
}

/// Writes sets to a part of the word at a constant address, where there is one.
fn write_part_at(
    shapes: &Shapes,
    signal: u32,
    address: u32,
    part: Part,
    index: u32,
    sets: &[Set4],
    table: &mut [Set4],
)
    requires within { target_within (length table.old) (target_tree (E.WordPart (signal_of shapes.now signal) (tree_of shapes.now address) part (tree_of shapes.now index))) ≡ true }
    requires memory { signal < length shapes.now.signals }
    requires address_there { address < length shapes.now.nodes }
    requires index_there { index < length shapes.now.nodes }
    requires target { IsTarget (E.WordPart (signal_of shapes.now signal) (tree_of shapes.now address) part (tree_of shapes.now index)) }
    requires many { length sets.now ≡ part.width }
    requires constant { E.is_constant (tree_of shapes.now address) ≡ true }
    ensures { family_of table.new ≡ write_sets (target_tree (E.WordPart (signal_of shapes.now signal) (tree_of shapes.now address) part (tree_of shapes.now index))) sets.now (family_of table.old) }
{
    word_part_law();
    let memory = memory_of(shapes, signal);
    let at = shapes.shape(address);
    match word_place(memory.addresses, at.signed, shapes.constant_value(address)) {
        None => {}
        Some(n) => write_in_word(shapes, memory, n, part, index, sets, table),
    }
}

/// Writes sets to a part of the word at this place.
fn write_in_word(
    shapes: &Shapes,
    memory: Memory,
    n: usize,
    part: Part,
    index: u32,
    sets: &[Set4],
    table: &mut [Set4],
)
    requires inside { memory.first + (n * memory.len + memory.len) ≤ length table.old }
    requires index_there { index < length shapes.now.nodes }
    requires fit { is_fit (tree_of shapes.now index) ≡ true }
    requires few { Is64 part.width }
    requires long { range_length part.range ≡ memory.len }
    requires many { length sets.now ≡ part.width }
    ensures { family_of table.new ≡ (if E.is_constant (tree_of shapes.now index) then put_each (bits_from (memory.first + n * memory.len) (places part (E.sign (tree_of shapes.now index)) (constant_value (tree_of shapes.now index)))) sets.now (family_of table.old)
        else widen (count_from (memory.first + n * memory.len) memory.len) (all_of sets.now) (family_of table.old)) }
{
    let first = memory.first + n * memory.len;
    let by = shapes.shape(index);
    if by.constant {
        let places = places_of(part, by.signed, shapes.constant_value(index));
        put_places(table, first, &places, sets);
    } else {
        widen_run(table, first, memory.len, all_of(sets));
    }
}

/// Writes sets to the parts of a concatenation, of which the first takes the most significant ones.
#[cycle(writing)]
fn write_parts(shapes: &Shapes, e: u32, parts: &[u32], sets: &[Set4], table: &mut [Set4])
    requires within { target_within (length table.old) (target_tree (joined (map (tree_of shapes.now) parts.now))) ≡ true }
    requires there { e < length shapes.now.nodes }
    requires before { EachBelow e parts.now }
    requires target { IsTarget (joined (map (tree_of shapes.now) parts.now)) }
    requires many { length sets.now ≡ E.width (joined (map (tree_of shapes.now) parts.now)) }
    ensures { family_of table.new ≡ write_sets (target_tree (joined (map (tree_of shapes.now) parts.now))) sets.now (family_of table.old) }
{
    let Some((first, rest)) = parts.split_first() else {
        unreachable!()
    };
    if rest.is_empty() {
        write(shapes, *first, sets, table);
        return;
    }
    let low = sets.len() - shapes.shape(*first).width as usize;
    write(shapes, *first, &sets[low..], table);
    write_parts(shapes, e, rest, &sets[..low], table);
}

/// The sets after an assignment of expression e to a target, whose bits alone change, in a table that has a set for each bit that either names. Want of memory is the only error.
#[cycle(lifting)]
pub fn assign(
    alloc: Global,
    shapes: &Shapes,
    target: u32,
    e: u32,
    table: &mut [Set4],
) -> Result<(), AllocError>
    requires target_there { target < length shapes.now.nodes }
    requires there { e < length shapes.now.nodes }
    requires target { IsTarget (tree_of shapes.now target) }
    requires fit { is_fit (tree_of shapes.now e) ≡ true }
    requires target_within { target_within (length table.old) (target_tree (tree_of shapes.now target)) ≡ true }
    requires within { names_within (length table.old) (tree_of shapes.now e) ≡ true }
    ensures { OnOk result (family_of table.new ≡ assign_sets (target_tree (tree_of shapes.now target)) (tree_of shapes.now e) (family_of table.old)) }
{
    let lifter = Lifter {
        alloc,
        shapes,
        table,
    };
    let sets = lifter.assigned(e, u32::from(shapes.shape(target).width))?;
    write(shapes, target, sets.as_slice(), table);
    Ok(())
}
