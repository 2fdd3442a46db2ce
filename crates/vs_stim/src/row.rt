//! A line behind the header, read byte by byte, but for the digits `0` and `1` of a field, which are read in one go.

ghost use Rattle.std.specs.Prelude.{◌≡◌};
ghost use Rattle.vs_stim.specs.Vectors.{Entry};
ghost use Rattle.vs_stim.specs.Wants.{if_whole};
ghost use Rattle.vs_stim.specs.Row.{as_said, with_values};

use crate::Column;
use crate::digits::{Digits, bit_of, is_blank};
use crate::plain::read_line;
use crate::source::Source;
use crate::wants::Wants;
use vs_four::Bits;

/// Where in a line the next byte stands.
#[derive(Clone, Copy)]
pub(crate) enum Spot {
    /// Before the first byte that isn't a blank.
    Start,
    /// In a line that is skipped.
    Comment,
    /// Between two fields.
    Gap,
    /// In a field of this column.
    Field(Column),
    /// Behind a `-` that is the whole line so far.
    Dash,
    /// Behind the fields of the inputs, at the byte behind the blanks or further on.
    Behind,
    /// In a line that is no vector.
    Bad,
}

/// What a whole line is.
#[derive(Clone, Copy)]
pub(crate) enum LineKind {
    Skipped,
    Malformed,
    Given,
}

/// A line behind the header, as far as it was read.
#[derive(Drop)]
pub(crate) struct Row {
    /// The columns, in the header's order.
    pub(crate) columns: Vec<Column>,
    /// A value for each input, in the design's order.
    pub(crate) values: Vec<Bits>,
    pub(crate) spot: Spot,
    /// How many columns have begun.
    pub(crate) column: usize,
    /// The digits of the field so far.
    pub(crate) digits: Digits,
    /// What the line says behind the fields of the inputs.
    pub(crate) wants: Wants,
}

impl Row {
    ghost use Rattle.std.specs.Prelude.{All, ◌<◌, ◌≤◌, ℕ, List, [], ◌∷◌, length, drop, true, false, IfSome};
    ghost use Rattle.vs_stim.specs.Fields.{is_blank, words, fields};
    ghost use Rattle.vs_stim.specs.Row.{row_with, in_field, to_come, entry_in, sizes, IsRow, IsOutside, IsColumn, SameForm};
    ghost use Rattle.vs_stim.specs.Wants.{wants_said, AreWants, AreUnbegun};
    ghost use Rattle.vs_stim.specs.Source.{IsSource, ReadsAhead};
    ghost use Rattle.vs_stim.specs.Plain.{HasLine};
    ghost use Rattle.vs_stim.specs.declared.row.Spot.TheVariants.{Start};

    /// Before the first line. The values are written over.
    pub(crate) fn new(columns: Vec<Column>, values: Vec<Bits>, wants: Wants) -> Row
        requires columns { All (IsColumn (sizes values.items)) columns.items }
        requires wants { AreWants wants }
        requires unbegun { AreUnbegun wants }
        ensures row { IsRow result }
        ensures columns { result.columns ≡ columns }
        ensures values { result.values ≡ values }
        ensures wants { result.wants ≡ wants }
    {
        Row {
            columns,
            values,
            spot: Spot::Start,
            column: 0,
            digits: Digits::new(),
            wants,
        }
    }

    /// Begins a line.
    pub(crate) fn begin(&mut self)
        requires { IsRow self.old }
        ensures row { IsRow self.new }
        ensures spot { self.new.spot ≡ Start }
        ensures column { self.new.column ≡ 0 }
        ensures values { self.new.values ≡ self.old.values }
        ensures columns { self.new.columns ≡ self.old.columns }
        ensures wanted { self.new.wants.values ≡ self.old.wants.values }
        ensures expected { self.new.wants.expected ≡ self.old.wants.expected }
    {
        self.spot = Spot::Start;
        self.column = 0;
        self.wants.begin();
    }

    /// Reads a whole line, which is a vector of plain digits, where it stands in the source's block, and answers how many bytes it has with its LF.
    /// Where there is none, the values are written over in part.
    #[tactic(auto, using(crate::proofs::LineRead::has_line))]
    pub(crate) fn read_line(&mut self, source: &Source) -> Option<usize>
        requires row { IsRow self.old }
        requires spot { self.old.spot ≡ Start }
        requires source { IsSource source.now }
        ensures row { IsRow self.new }
        ensures form { SameForm self.old self.new }
        ensures line { IfSome result (λ count. HasLine self.old self.new source.now count) }
        ensures some { IfSome result (λ count. 0 < count) }
        ensures within { IfSome result (λ count. count ≤ length source.now.block) }
    {
        if self.columns.is_empty() {
            return None;
        }
        let wants = &mut self.wants;
        let count = read_line(
            &self.columns,
            &mut self.values,
            &wants.expected,
            &mut wants.values,
            source.block.as_slice(),
        )?;
        if source.has_room(count) {
            Some(count)
        } else {
            None
        }
    }

    /// Reads the next byte of the line.
    pub(crate) fn feed(&mut self, byte: u8)
        requires { IsRow self.old }
        ensures row { IsRow self.new }
        ensures says { (rest : List ℕ) → row_with self.new rest ≡ row_with self.old (byte ∷ rest) }
        ensures form { SameForm self.old self.new }
    {
        match self.spot {
            Spot::Start => self.feed_start(byte),
            Spot::Gap => {
                if !is_blank(byte) {
                    self.begin_field(byte);
                }
            }
            Spot::Field(column) => {
                if is_blank(byte) {
                    self.end_field(column);
                } else {
                    self.feed_digit(column, byte);
                }
            }
            Spot::Dash => {
                self.spot = if is_blank(byte) { Spot::Gap } else { Spot::Bad };
            }
            Spot::Behind => self.wants.feed(byte),
            Spot::Comment | Spot::Bad => {}
        }
    }

    /// Reads on in the line: the bytes in the source's block before an LF or a CR, and before one past
    /// a limit.
    pub(crate) fn feed_ahead(&mut self, source: &mut Source)
        requires row { IsRow self.old }
        requires source { IsSource source.old }
        ensures row { IsRow self.new }
        ensures form { SameForm self.old self.new }
        ensures source { IsSource source.new }
        ensures reads { ReadsAhead self.old self.new source.old source.new }
    {
        'bytes: loop {
            self.feed_digits(source);
            match source.next_inner() {
                Some(byte) => self.feed(byte),
                None => return,
            }
        }
    }

    /// Reads on in a field: the digits `0` and `1` that stand first in the source's block, up to the
    /// field's length.
    fn feed_digits(&mut self, source: &mut Source)
        requires row { IsRow self.old }
        requires source { IsSource source.old }
        ensures row { IsRow self.new }
        ensures form { SameForm self.old self.new }
        ensures source { IsSource source.new }
        ensures reads { ReadsAhead self.old self.new source.old source.new }
    {
        match self.spot {
            Spot::Field(column) => {
                let room = column.length as usize - self.digits.len();
                source.read_digits(&mut self.digits, room);
            }
            Spot::Behind => self.wants.feed_digits(source),
            Spot::Start | Spot::Comment | Spot::Gap | Spot::Dash | Spot::Bad => {}
        }
    }

    /// Reads a byte before which no byte of the line but blanks stands.
    fn feed_start(&mut self, byte: u8)
        requires row { IsRow self.old }
        requires spot { self.old.spot ≡ Start }
        ensures row { IsRow self.new }
        ensures says { (rest : List ℕ) → row_with self.new rest ≡ row_with self.old (byte ∷ rest) }
        ensures form { SameForm self.old self.new }
    {
        if is_blank(byte) {
            return;
        }
        if byte == b'#' {
            self.spot = Spot::Comment;
        } else if self.columns.is_empty() {
            self.spot = if byte == b'-' { Spot::Dash } else { Spot::Bad };
        } else {
            self.begin_field(byte);
        }
    }

    /// Reads the first byte of a field.
    fn begin_field(&mut self, byte: u8)
        requires row { IsRow self.old }
        requires unbegun { AreUnbegun self.old.wants }
        requires no_blank { is_blank byte ≡ false }
        ensures row { IsRow self.new }
        ensures says { (rest : List ℕ) → row_with self.new rest
            ≡ to_come (wants_said self.old.wants) (drop self.old.column self.old.columns.items) self.old.values.items (fields (byte ∷ rest)) }
        ensures form { SameForm self.old self.new }
    {
        if self.column == self.columns.len() {
            self.spot = Spot::Behind;
            self.wants.feed(byte);
            return;
        }
        let column = self.columns[self.column];
        self.column += 1;
        self.digits.clear();
        self.feed_digit(column, byte);
    }

    /// Reads one more byte of a field of this column.
    fn feed_digit(&mut self, column: Column, byte: u8)
        requires each { All (IsColumn (sizes self.old.values.items)) self.old.columns.items }
        requires within { self.old.column ≤ length self.old.columns.items }
        requires column { IsColumn (sizes self.old.values.items) column }
        requires room { length self.old.digits ≤ column.length }
        requires wants { AreWants self.old.wants }
        requires unbegun { AreUnbegun self.old.wants }
        ensures row { IsRow self.new }
        ensures says { (rest : List ℕ) → row_with self.new rest
            ≡ in_field (wants_said self.old.wants) column self.old.digits (drop self.old.column self.old.columns.items) self.old.values.items
            (record { word = byte ∷ (words rest).word; later = (words rest).later }) }
        ensures form { SameForm self.old self.new }
    {
        match bit_of(byte) {
            Some(bit) if self.digits.len() < column.length as usize => {
                self.digits.push(bit);
                self.spot = Spot::Field(column);
            }
            _ => self.spot = Spot::Bad,
        }
    }

    /// Ends a field of this column.
    fn end_field(&mut self, column: Column)
        requires row { IsRow self.old }
        requires column { IsColumn (sizes self.old.values.items) column }
        requires unbegun { AreUnbegun self.old.wants }
        ensures row { IsRow self.new }
        ensures says { (rest : List ℕ) → row_with self.new rest
            ≡ in_field (wants_said self.old.wants) column self.old.digits (drop self.old.column self.old.columns.items) self.old.values.items
            (record { word = []; later = fields rest }) }
        ensures outside { IsOutside self.new.spot self.new.wants.part }
        ensures form { SameForm self.old self.new }
    {
        if self.digits.len() == column.length as usize {
            self.values[column.input] = self.digits.bits();
            self.spot = Spot::Gap;
        } else {
            self.spot = Spot::Bad;
        }
    }

    /// Ends the line.
    pub(crate) fn finish(&mut self) -> LineKind
        requires { IsRow self.old }
        ensures row { IsRow self.new }
        ensures says { as_said result (entry_in self.new) ≡ row_with self.old [] }
        ensures form { SameForm self.old self.new }
    {
        self.end_word();
        self.kind()
    }

    /// Ends the field, if the line ends in one.
    fn end_word(&mut self)
        requires { IsRow self.old }
        ensures row { IsRow self.new }
        ensures says { row_with self.new [] ≡ row_with self.old [] }
        ensures outside { IsOutside self.new.spot self.new.wants.part }
        ensures form { SameForm self.old self.new }
    {
        match self.spot {
            Spot::Field(column) => self.end_field(column),
            Spot::Behind => self.wants.end_word(),
            Spot::Start | Spot::Comment | Spot::Gap | Spot::Dash | Spot::Bad => {}
        }
    }

    /// What a line is that ends here.
    fn kind(&self) -> LineKind
        requires row { IsRow self.now }
        requires outside { IsOutside self.now.spot self.now.wants.part }
        ensures { as_said result (entry_in self.now) ≡ row_with self.now [] }
    {
        match self.spot {
            Spot::Start | Spot::Comment => LineKind::Skipped,
            Spot::Dash => kind_of(self.wants.is_whole()),
            Spot::Behind => kind_of(self.wants.is_whole()),
            Spot::Gap => {
                if self.column == self.columns.len() {
                    kind_of(self.wants.is_whole())
                } else {
                    LineKind::Malformed
                }
            }
            Spot::Field(_) | Spot::Bad => LineKind::Malformed,
        }
    }
}

/// What a line is that isn't skipped, by whether it has all its fields.
fn kind_of(is_whole: bool) -> LineKind
    ensures { (entry : Entry) → as_said result entry ≡ with_values entry.values (if_whole is_whole entry.wanted) }
{
    if is_whole {
        LineKind::Given
    } else {
        LineKind::Malformed
    }
}
