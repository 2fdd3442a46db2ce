//! The lines behind the header.

ghost use Rattle.std.specs.Prelude.{All, Some, None, Ok, Err, ◌≡◌, ◌≢◌, ◌≤◌, ◌<◌, ◌+◌, [], length, true, false, IsTrue, IsSome, IfSome, IfOk, IfErr, OnOk};
ghost use Rattle.vs_desk.specs.Desk.{IsAttached};
ghost use Rattle.vs_desk.specs.declared.desk.Way.TheVariants.{Read};
ghost use Rattle.vs_desk.specs.Taking.{TakesAt};
ghost use Rattle.vs_stim.specs.Vectors as spec;
ghost use Rattle.vs_stim.specs.Vectors.{all_known, vector_known, breaks, broken};
ghost use Rattle.vs_stim.specs.Reading.{vector_line, limits, not_taken, at_end, refused, whole, with_vector};
ghost use Rattle.vs_stim.specs.Row.{row_with, as_said, entry_in, columns_in, sizes, each_input, IsColumn, IsRow, SameForm};
ghost use Rattle.vs_stim.specs.Source.{open_at, in_block, is_told, text_tells, line_refusal, says, IsSource, IsReadError, IsVectorError, GoesOn, PassesLf, Passes, PassesVector, rest_of, vectors_from};
ghost use Rattle.vs_stim.specs.Known.{IsUntold};

use crate::row::{LineKind, Row};
use crate::source::{Piece, Source};
use crate::{Column, StimError};
use vs_desk::Desk;
use vs_four::Bits;

/// The greatest number of vectors in a text.
const VECTORS: u32 = 16_777_216;

/// Reads a line into the row, and answers whether the text ends with it.
fn feed_row<D: Desk>(source: &mut Source, row: &mut Row, desk: &mut D) -> Result<bool, StimError>
    requires source { IsSource source.old }
    requires row { IsRow row.old }
    requires attached { IsAttached (D.told desk.old).register source.old.place Read }
    ensures source { IsSource source.new }
    ensures row { IsRow row.new }
    ensures form { SameForm row.old row.new }
    ensures place { source.new.place ≡ source.old.place }
    ensures moves { result ≡ Ok false → source.old.start < source.new.start }
    ensures begins { OnOk result (source.new.length ≡ 0) }
    ensures says { IsTrue D.tells → OnOk result (row_with row.new [] ≡ row_with row.old (says (open_at source.old (D.told desk.old)))) }
    ensures passes { IsTrue D.tells → IfOk result (λ last. Passes last (open_at source.old (D.told desk.old)) (open_at source.new (D.told desk.new))) }

    ensures refused { IsTrue D.tells → IfErr result (λ e. e ≢ StimError.ReadFault → line_refusal (open_at source.old (D.told desk.old)) ≡ Some e) }
    ensures errors { IfErr result (IsReadError source.old.number) }
    ensures desk { TakesAt source.old.place (D.told desk.old) (D.told desk.new) StimError.ReadFault result }
    ensures frugal { IsTrue (is_told (in_block source.old)) → desk.new ≡ desk.old }
    ensures told { IsTrue (is_told (in_block source.old)) → IfOk result (λ last. Passes last (in_block source.old) (in_block source.new)) }
    ensures told_last { IsTrue (is_told (in_block source.old)) → IfOk result (λ last. last ≡ false) }
    ensures told_says { IsTrue (is_told (in_block source.old)) → OnOk result (row_with row.new [] ≡ row_with row.old (says (in_block source.old))) }

    ensures went { IsTrue D.tells → result ≡ Err StimError.ReadFault → GoesOn (open_at source.old (D.told desk.old)) (open_at source.new (D.told desk.new)) }
    ensures empty { result ≡ Err StimError.ReadFault → source.new.block ≡ [] }
    ensures ends { IsTrue D.tells → result ≡ Ok false → PassesLf (open_at source.old (D.told desk.old)) (open_at source.new (D.told desk.new)) }
{
    'line: loop {
        match source.next_piece(desk)? {
            Piece::Byte(byte) => {
                row.feed(byte);
                row.feed_ahead(source);
            }
            Piece::LineEnd => return Ok(false),
            Piece::TextEnd => return Ok(true),
        }
    }
}

/// Reads a line byte by byte, and answers what it is and whether the text ends with it.
fn feed_line<D: Desk>(
    source: &mut Source,
    row: &mut Row,
    desk: &mut D,
) -> Result<(LineKind, bool), StimError>
    requires source { IsSource source.old }
    requires row { IsRow row.old }
    requires each { IsTrue (each_input row.old) }
    requires attached { IsAttached (D.told desk.old).register source.old.place Read }
    ensures source { IsSource source.new }
    ensures row { IsRow row.new }
    ensures form { SameForm row.old row.new }
    ensures place { source.new.place ≡ source.old.place }
    ensures moves { IfOk result (λ line. line.1 ≡ false → source.old.start < source.new.start) }
    ensures begins { OnOk result (source.new.length ≡ 0) }
    ensures says { IsTrue D.tells → IfOk result (λ line. as_said line.0 (entry_in row.new) ≡ vector_line (columns_in row.old) (says (open_at source.old (D.told desk.old)))) }
    ensures passes { IsTrue D.tells → IfOk result (λ line. Passes line.1 (open_at source.old (D.told desk.old)) (open_at source.new (D.told desk.new))) }

    ensures refused { IsTrue D.tells → IfErr result (λ e. e ≢ StimError.ReadFault → line_refusal (open_at source.old (D.told desk.old)) ≡ Some e) }
    ensures errors { IfErr result (IsReadError source.old.number) }
    ensures desk { TakesAt source.old.place (D.told desk.old) (D.told desk.new) StimError.ReadFault result }
    ensures frugal { IsTrue (is_told (in_block source.old)) → desk.new ≡ desk.old }
    ensures told { IsTrue (is_told (in_block source.old)) → IfOk result (λ line. Passes line.1 (in_block source.old) (in_block source.new)) }
    ensures told_last { IsTrue (is_told (in_block source.old)) → IfOk result (λ line. line.1 ≡ false) }
    ensures told_says { IsTrue (is_told (in_block source.old)) → IfOk result (λ line. as_said line.0 (entry_in row.new) ≡ vector_line (columns_in row.old) (says (in_block source.old))) }

    ensures went { IsTrue D.tells → result ≡ Err StimError.ReadFault → GoesOn (open_at source.old (D.told desk.old)) (open_at source.new (D.told desk.new)) }
    ensures empty { result ≡ Err StimError.ReadFault → source.new.block ≡ [] }
    ensures ends { IsTrue D.tells → IfOk result (λ line. line.1 ≡ false → PassesLf (open_at source.old (D.told desk.old)) (open_at source.new (D.told desk.new))) }
{
    row.begin();
    let last = feed_row(source, row, desk)?;
    Ok((row.finish(), last))
}

/// Reads a line, and answers what it is and whether the text ends with it: whole, where it can be, else byte by byte.
fn read_row<D: Desk>(
    source: &mut Source,
    row: &mut Row,
    desk: &mut D,
) -> Result<(LineKind, bool), StimError>
    requires source { IsSource source.old }
    requires row { IsRow row.old }
    requires each { IsTrue (each_input row.old) }
    requires attached { IsAttached (D.told desk.old).register source.old.place Read }
    ensures source { IsSource source.new }
    ensures row { IsRow row.new }
    ensures form { SameForm row.old row.new }
    ensures place { source.new.place ≡ source.old.place }
    ensures moves { IfOk result (λ line. line.1 ≡ false → source.old.start < source.new.start) }
    ensures begins { OnOk result (source.new.length ≡ 0) }
    ensures says { IsTrue D.tells → IfOk result (λ line. as_said line.0 (entry_in row.new) ≡ vector_line (columns_in row.old) (says (open_at source.old (D.told desk.old)))) }
    ensures passes { IsTrue D.tells → IfOk result (λ line. Passes line.1 (open_at source.old (D.told desk.old)) (open_at source.new (D.told desk.new))) }

    ensures refused { IsTrue D.tells → IfErr result (λ e. e ≢ StimError.ReadFault → line_refusal (open_at source.old (D.told desk.old)) ≡ Some e) }
    ensures errors { IfErr result (IsReadError source.old.number) }
    ensures desk { TakesAt source.old.place (D.told desk.old) (D.told desk.new) StimError.ReadFault result }
    ensures frugal { IsTrue (is_told (in_block source.old)) → desk.new ≡ desk.old }
    ensures told { IsTrue (is_told (in_block source.old)) → IfOk result (λ line. Passes line.1 (in_block source.old) (in_block source.new)) }
    ensures told_last { IsTrue (is_told (in_block source.old)) → IfOk result (λ line. line.1 ≡ false) }
    ensures told_says { IsTrue (is_told (in_block source.old)) → IfOk result (λ line. as_said line.0 (entry_in row.new) ≡ vector_line (columns_in row.old) (says (in_block source.old))) }

    ensures went { IsTrue D.tells → result ≡ Err StimError.ReadFault → GoesOn (open_at source.old (D.told desk.old)) (open_at source.new (D.told desk.new)) }
    ensures empty { result ≡ Err StimError.ReadFault → source.new.block ≡ [] }
    ensures ends { IsTrue D.tells → IfOk result (λ line. line.1 ≡ false → PassesLf (open_at source.old (D.told desk.old)) (open_at source.new (D.told desk.new))) }
{
    row.begin();
    if let Some(count) = row.read_line(source) {
        source.pass_line(count);
        return Ok((LineKind::Given, false));
    }
    feed_line(source, row, desk)
}

/// Whether no bit is x or z.
fn are_bits_known(bits: Bits) -> bool
    ensures { result ≡ all_known bits }
{
    let (_, unknown) = bits.planes();
    unknown == 0
}

/// Whether no value has an x or z bit.
fn are_known(values: &[Bits]) -> bool
    ensures { result ≡ vector_known values.now }
{
    for value in values {
        if !are_bits_known(*value) {
            return false;
        }
    }
    true
}

/// Whether the column's input has to be known in each vector, and isn't in these values.
fn is_broken(column: &Column, values: &[Bits]) -> bool
    requires { IsColumn (sizes values.now) column.now }
    ensures { result ≡ breaks column.now values.now }
{
    (column.reset || column.select) && !are_bits_known(values[column.input])
}

/// The column whose input comes first in the design's order, of this one and the one before.
fn sooner(column: Column, first: Option<Column>) -> Column
    ensures { result ≡ spec.sooner column first }
{
    match first {
        Some(before) if before.input < column.input => before,
        _ => column,
    }
}

/// The first input in the design's order that has to be known and isn't.
fn first_broken(columns: &[Column], values: &[Bits]) -> Option<Column>
    requires { All (IsColumn (sizes values.now)) columns.now }
    ensures { result ≡ broken columns.now values.now }
{
    let mut first = None;
    for column in columns {
        if is_broken(column, values) {
            first = Some(sooner(*column, first));
        }
    }
    first
}

/// Whether the row's values may be the vector on the line of this number, behind this many others.
fn check_vector(row: &Row, number: u64, count: u32) -> Result<(), StimError>
    requires { IsRow row.now }
    ensures ok { OnOk result (not_taken limits (columns_in row.now) number count (entry_in row.now) ≡ None) }
    ensures err { IfErr result (λ e. not_taken limits (columns_in row.now) number count (entry_in row.now) ≡ Some e) }
    ensures errors { IfErr result IsVectorError }
    ensures no_fault { result ≢ Err StimError.ReadFault }
{
    if count == 0 && !are_known(&row.values) {
        return Err(StimError::FirstUnknown);
    }
    match first_broken(&row.columns, &row.values) {
        Some(column) if column.reset => return Err(StimError::UnknownReset { line: number }),
        Some(_) => return Err(StimError::UnknownSelect { line: number }),
        None => {}
    }
    if count == VECTORS {
        return Err(StimError::TooManyVectors);
    }
    Ok(())
}

/// The end of a text that has this many vectors.
fn end_vectors(count: u32) -> Result<(), StimError>
    ensures whole { OnOk result (at_end count ≡ whole) }
    ensures err { IfErr result (λ e. at_end count ≡ refused e) }
    ensures errors { IfErr result (λ e. e ≡ StimError.NoVector) }
{
    if count == 0 {
        Err(StimError::NoVector)
    } else {
        Ok(())
    }
}

/// Reads lines up to the next vector, which then stands in the row, and answers the number of its line; none at the end of
/// the text. This many vectors stand before it.
pub(crate) fn find_vector<D: Desk>(
    source: &mut Source,
    row: &mut Row,
    count: u32,
    desk: &mut D,
) -> Result<Option<u64>, StimError>
    requires source { IsSource source.old }
    requires begins { source.old.length ≡ 0 }
    requires row { IsRow row.old }
    requires each { IsTrue (each_input row.old) }
    requires count { count ≤ limits.vectors }
    requires attached { IsAttached (D.told desk.old).register source.old.place Read }
    ensures source { IsSource source.new }
    ensures row { IsRow row.new }
    ensures form { SameForm row.old row.new }
    ensures place { source.new.place ≡ source.old.place }
    ensures begins { OnOk result (source.new.length ≡ 0) }
    ensures room { IfOk result (λ found. IsSome found → count < limits.vectors) }

    ensures found { IsTrue D.tells → IfOk result (λ found. IsSome found → vectors_from (columns_in row.old) count (open_at source.old (D.told desk.old))
        ≡ with_vector (entry_in row.new) (vectors_from (columns_in row.old) (count + 1) (open_at source.new (D.told desk.new)))) }
    ensures passes { IsTrue D.tells → IfOk result (λ found. IfSome found (λ line.
        PassesVector (columns_in row.old) count line (entry_in row.new) (open_at source.old (D.told desk.old)) (open_at source.new (D.told desk.new)))) }
    ensures whole { IsTrue D.tells → result ≡ Ok None → vectors_from (columns_in row.old) count (open_at source.old (D.told desk.old)) ≡ whole }
    ensures end { IsTrue D.tells → result ≡ Ok None → rest_of source.new (D.told desk.new) ≡ [] }
    ensures refused { IsTrue D.tells → IfErr result (λ e. e ≢ StimError.ReadFault → vectors_from (columns_in row.old) count (open_at source.old (D.told desk.old)) ≡ refused e) }

    ensures errors { IfErr result IsVectorError }
    ensures desk { TakesAt source.old.place (D.told desk.old) (D.told desk.new) StimError.ReadFault result }
    ensures frugal { IsTrue (text_tells (in_block source.old)) → desk.new ≡ desk.old }
    ensures needed { IsTrue D.tells → result ≡ Err StimError.ReadFault →
        let o = open_at source.old (D.told desk.old) in IsUntold o.at o.rest ((D.told desk.new).contents.left source.old.place) }
{
    'lines: loop {
        let number = source.number;
        let (kind, last) = read_row(source, row, desk)?;
        match kind {
            LineKind::Malformed => return Err(StimError::BadVector { line: number }),
            LineKind::Given => {
                check_vector(row, number, count)?;
                return Ok(Some(number));
            }
            LineKind::Skipped => {
                if last {
                    end_vectors(count)?;
                    return Ok(None);
                }
            }
        }
    }
}
