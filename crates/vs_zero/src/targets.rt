//! Writing a value to a target with constant selects (IEEE 1364-2005, clause 6 and 9.2).

ghost use Rattle.std.specs.Prelude.{◌≡◌, ◌≤◌, ◌<◌, ◌+◌, ◌*◌, ℕ, length, map, true, Some, None, slice_index_or};
ghost use Rattle.vs_net.specs.Network.{write_all};
ghost use Rattle.vs_design.specs.Bodies.{target_writes};
ghost use Rattle.vs_design.specs.Elaborated.{has_constant_selects};
ghost use Rattle.vs_design.specs.Expressions as E;
ghost use Rattle.vs_design.specs.Values.{count_from, spread};
ghost use Rattle.vs_flat.specs.Targets.{source_of};
ghost use Rattle.vs_flat.specs.Trees.{joined};
ghost use Rattle.vs_sets.specs.Nodes.{EachBelow, signal_of, tree_of};
ghost use Rattle.vs_sets.specs.Tables.{bits_from};
ghost use Rattle.vs_sets.specs.TargetsOf.{IsTarget, target_tree};
ghost use Rattle.vs_zero.specs.Constants.{TargetBelow};
ghost use Rattle.vs_zero.specs.States.{state_of, unknown, written};

use vs_design::word_part_law;
use vs_flat::Node;
use vs_four::Bit4;
use vs_sets::{memory_of, named_span, word_start};
use vs_shape::{Part, Places, Shapes, first_copy, places_of, word_place};

/// Writes the bits of a value one after the other, from this bit on.
fn put_run(state: &mut [Bit4], first: usize, value: &[Bit4])
    requires { first + length value.now ≤ length state.old }
    ensures { state_of state.new ≡ written (map Some (count_from first (length value.now))) value.now (state_of state.old) }
{
    for k in 0..value.len() {
        state[first + k] = value[k];
    }
}

/// Writes the bits of a value to these places of the signal that begins with this bit. What has no place isn't written.
fn put_places(state: &mut [Bit4], first: usize, places: &Places, value: &[Bit4])
    requires inside { (k n : ℕ) → slice_index_or places.now k None ≡ Some n → first + n < length state.old }
    requires same_length { length value.now ≡ length places.now }
    ensures { state_of state.new ≡ written (bits_from first places.now) value.now (state_of state.old) }
{
    for k in 0..places.len() {
        if let Some(n) = places.get(k) {
            state[first + n] = value[k as usize];
        }
    }
}

/// Writes a value to a select by a constant index (IEEE 1364-2005, 5.2.1).
fn put_select(shapes: &Shapes, of: u32, part: Part, index: u32, value: &[Bit4], state: &mut [Bit4])
    requires within { TargetBelow (length state.old) (target_tree (E.Select (source_of (tree_of shapes.now of)) part (tree_of shapes.now index))) }
    requires of_there { of < length shapes.now.nodes }
    requires index_there { index < length shapes.now.nodes }
    requires target { IsTarget (E.Select (source_of (tree_of shapes.now of)) part (tree_of shapes.now index)) }
    requires constant { E.is_constant (tree_of shapes.now index) ≡ true }
    requires many { length value.now ≡ part.width }
    ensures { state_of state.new ≡ write_all (state_of state.old) (target_writes (target_tree (E.Select (source_of (tree_of shapes.now of)) part (tree_of shapes.now index))) value.now unknown) }
{
    let span = named_span(shapes, of);
    let signed = shapes.shape(index).signed;
    let places = places_of(part, signed, shapes.constant_value(index));
    put_places(state, span.first, &places, value);
}

/// Writes a value to the word at this place of the memory that begins with this bit; where there is no place nothing is written.
fn put_word_at(state: &mut [Bit4], first: usize, place: Option<usize>, value: &[Bit4])
    requires inside { (n : ℕ) → place ≡ Some n → first + (n * length value.now + length value.now) ≤ length state.old }
    ensures { state_of state.new ≡ written (bits_from first (spread (length value.now) place)) value.now (state_of state.old) }
{
    if let Some(n) = place {
        put_run(state, first + n * value.len(), value);
    }
}

/// Writes a value to a word of a memory by a constant address (IEEE 1364-2005, 4.9.3). By an address that is out of range, or has an x or z bit, nothing is written.
fn put_word(shapes: &Shapes, signal: u32, index: u32, value: &[Bit4], state: &mut [Bit4])
    requires within { TargetBelow (length state.old) (target_tree (E.Word (signal_of shapes.now signal) (tree_of shapes.now index))) }
    requires memory { signal < length shapes.now.signals }
    requires index_there { index < length shapes.now.nodes }
    requires target { IsTarget (E.Word (signal_of shapes.now signal) (tree_of shapes.now index)) }
    requires constant { E.is_constant (tree_of shapes.now index) ≡ true }
    requires many { length value.now ≡ E.word_length (signal_of shapes.now signal) }
    ensures { state_of state.new ≡ write_all (state_of state.old) (target_writes (target_tree (E.Word (signal_of shapes.now signal) (tree_of shapes.now index))) value.now unknown) }
{
    let memory = memory_of(shapes, signal);
    let signed = shapes.shape(index).signed;
    let place = word_place(memory.addresses, signed, shapes.constant_value(index));
    put_word_at(state, memory.first, place, value);
}

/// Writes a value to a part of a word of a memory by a constant address and a constant index (IEEE 1364-2005, 5.2.2). By an address that is out of range, or
/// has an x or z bit, nothing is written.
fn put_word_part(
    shapes: &Shapes,
    signal: u32,
    address: u32,
    part: Part,
    index: u32,
    value: &[Bit4],
    state: &mut [Bit4],
)
    requires within { TargetBelow (length state.old) (target_tree (E.WordPart (signal_of shapes.now signal) (tree_of shapes.now address) part (tree_of shapes.now index))) }
    requires memory { signal < length shapes.now.signals }
    requires address_there { address < length shapes.now.nodes }
    requires index_there { index < length shapes.now.nodes }
    requires target { IsTarget (E.WordPart (signal_of shapes.now signal) (tree_of shapes.now address) part (tree_of shapes.now index)) }
    requires constant_address { E.is_constant (tree_of shapes.now address) ≡ true }
    requires constant { E.is_constant (tree_of shapes.now index) ≡ true }
    requires many { length value.now ≡ part.width }
    ensures { state_of state.new ≡ write_all (state_of state.old) (target_writes (target_tree (E.WordPart (signal_of shapes.now signal) (tree_of shapes.now address) part (tree_of shapes.now index))) value.now unknown) }
{
    word_part_law();
    let memory = memory_of(shapes, signal);
    let signed = shapes.shape(address).signed;
    match word_place(memory.addresses, signed, shapes.constant_value(address)) {
        None => {}
        Some(n) => {
            let by = shapes.shape(index).signed;
            let places = places_of(part, by, shapes.constant_value(index));
            put_places(state, word_start(memory, n), &places, value);
        }
    }
}

/// Writes a value to the target that expression e is.
#[cycle(writing)]
pub(crate) fn put(shapes: &Shapes, e: u32, value: &[Bit4], state: &mut [Bit4])
    requires within { TargetBelow (length state.old) (target_tree (tree_of shapes.now e)) }
    requires there { e < length shapes.now.nodes }
    requires target { IsTarget (tree_of shapes.now e) }
    requires constant { has_constant_selects (target_tree (tree_of shapes.now e)) ≡ true }
    requires many { length value.now ≡ E.width (tree_of shapes.now e) }
    ensures { state_of state.new ≡ write_all (state_of state.old) (target_writes (target_tree (tree_of shapes.now e)) value.now unknown) }
{
    match shapes.node(e) {
        Node::Name { .. } | Node::Local { .. } => {
            put_run(state, named_span(shapes, e).first, value);
        }
        Node::Bit { of, range, index } => {
            let part = Part {
                range: *range,
                up: true,
                width: 1,
            };
            put_select(shapes, *of, part, *index, value, state);
        }
        Node::Part {
            of,
            range,
            base,
            up,
            width,
        } => {
            let part = Part {
                range: *range,
                up: *up,
                width: *width,
            };
            put_select(shapes, *of, part, *base, value, state);
        }
        Node::Word { signal, index } => put_word(shapes, *signal, *index, value, state),
        Node::WordPart {
            signal,
            address,
            range,
            base,
            up,
            width,
        } => {
            let part = Part {
                range: *range,
                up: *up,
                width: *width,
            };
            put_word_part(shapes, *signal, *address, part, *base, value, state);
        }
        Node::Join { parts } => put_parts(shapes, e, first_copy(parts.as_slice()), value, state),
        _ => unreachable!(),
    }
}

/// Writes a value to the parts of a concatenation, of which the first takes the most significant bits.
#[cycle(writing)]
fn put_parts(shapes: &Shapes, e: u32, parts: &[u32], value: &[Bit4], state: &mut [Bit4])
    requires within { TargetBelow (length state.old) (target_tree (joined (map (tree_of shapes.now) parts.now))) }
    requires there { e < length shapes.now.nodes }
    requires before { EachBelow e parts.now }
    requires target { IsTarget (joined (map (tree_of shapes.now) parts.now)) }
    requires constant { has_constant_selects (target_tree (joined (map (tree_of shapes.now) parts.now))) ≡ true }
    requires many { length value.now ≡ E.width (joined (map (tree_of shapes.now) parts.now)) }
    ensures { state_of state.new ≡ write_all (state_of state.old) (target_writes (target_tree (joined (map (tree_of shapes.now) parts.now))) value.now unknown) }
{
    let Some((first, rest)) = parts.split_first() else {
        unreachable!()
    };
    if rest.is_empty() {
        put(shapes, *first, value, state);
        return;
    }
    let low = value.len() - shapes.shape(*first).width as usize;
    put(shapes, *first, &value[low..], state);
    put_parts(shapes, e, rest, &value[..low], state);
}
