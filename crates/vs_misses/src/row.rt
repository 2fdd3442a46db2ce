//! An output, and the place of its column in the header of each lane.

ghost use Rattle.std.specs.Prelude.{◌≡◌, ◌≢◌, ℕ, ◌<◌, ◌^◌, length, map, slice_set, Some, None, true, IfOk, All};
ghost use Rattle.vs_stim.specs.Wants.{is_each_once, IsExpectedOf};
ghost use Rattle.vs_misses.specs.Watch.{place_of, span_lengths, ArePlaces};
ghost use Rattle.vs_misses.specs.Rows.{spans_of, places_of, HasLane, IsRow, IsEmptyRow};

use std::alloc::{AllocError, Global};
use vs_program::Span;
use vs_stim::Expected;

/// An output: its bits, the place of its column in the header of each lane that names it, and whether one does.
#[derive(Drop)]
pub(crate) struct Row {
    pub(crate) span: Span,
    pub(crate) places: Vec<Option<u32>>,
    pub(crate) is_named: bool,
}

impl Row {
    /// An output that none of so many lanes names.
    fn new(alloc: Global, span: Span, lanes: u32) -> Result<Row, AllocError>
        ensures span { IfOk result (λ r. r.span ≡ span) }
        ensures none { IfOk result (IsEmptyRow lanes) }
    {
        Ok(Row {
            span,
            places: vec![in alloc; None; lanes as usize]?,
            is_named: false,
        })
    }

    /// Gives the output's column this place in the header of a lane.
    fn set(&mut self, lane: u32, place: u32)
        requires { lane < length self.old.places.items }
        ensures span { self.new.span ≡ self.old.span }
        ensures places { self.new.places.items ≡ slice_set self.old.places.items lane (Some place) }
        ensures named { self.new.is_named ≡ true }
    {
        self.places[lane as usize] = Some(place);
        self.is_named = true;
    }
}

/// The rows of outputs that none of so many lanes names.
pub(crate) fn empty_rows(
    alloc: Global,
    outputs: Vec<Span>,
    lanes: u32,
) -> Result<Vec<Row>, AllocError>
    ensures spans { IfOk result (λ rows. spans_of rows.items ≡ outputs.items) }
    ensures none { IfOk result (λ rows. All (IsEmptyRow lanes) rows.items) }
{
    let mut rows = Vec::new(alloc);
    for span in &outputs {
        rows.push(Row::new(alloc, *span, lanes)?)?;
    }
    Ok(rows)
}

/// Gives each of the columns of a lane's header its place.
pub(crate) fn name_columns(rows: &mut [Row], lane: u32, columns: &[Expected])
    requires few { length rows.old < 2 ^ 32 }
    requires lane { All (HasLane lane) rows.old }
    requires columns { All (IsExpectedOf (span_lengths (spans_of rows.old))) columns.now }
    requires once { is_each_once columns.now ≡ true }
    requires none { (output : ℕ) → place_of (places_of rows.old) output lane ≡ None }
    ensures spans { spans_of rows.new ≡ spans_of rows.old }
    ensures rows { (lanes : ℕ) → All (IsRow lanes) rows.old → All (IsRow lanes) rows.new }
    ensures places { ArePlaces (places_of rows.new) lane columns.now }
    ensures others { (output i : ℕ) → i ≢ lane → place_of (places_of rows.new) output i ≡ place_of (places_of rows.old) output i }
{
    for (place, column) in columns.iter().enumerate() {
        rows[column.output].set(lane, place as u32);
    }
}
