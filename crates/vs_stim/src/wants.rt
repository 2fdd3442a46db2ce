//! What a line says behind the fields of its inputs, read as `Row` reads these.

use crate::Expected;
use crate::digits::is_blank;
use crate::source::Source;
use crate::wanted::{Wanted, WantedDigits, wanted_of};

/// Where behind the fields of the inputs the next byte stands.
#[derive(Clone, Copy)]
pub(crate) enum Part {
    /// Before the field `->`.
    Start,
    /// Behind the `-` of that field.
    Minus,
    /// Behind its `>`.
    Arrow,
    /// Between two fields.
    Gap,
    /// In a field of an expected output.
    Field,
    /// In a line that is no vector.
    Bad,
}

/// What a line says behind the fields of its inputs, as far as it was read.
#[derive(Drop)]
pub(crate) struct Wants {
    /// The columns of the expected outputs, in the header's order.
    pub(crate) expected: Vec<Expected>,
    /// What each is wanted to be.
    pub(crate) values: Vec<Wanted>,
    pub(crate) part: Part,
    /// How many fields have ended.
    pub(crate) column: usize,
    /// The digits of the field so far.
    pub(crate) digits: WantedDigits,
}

impl Wants {
    ghost use Rattle.std.specs.Prelude.{All, ◌≡◌, ◌<◌, ◌≤◌, ℕ, List, [], ◌∷◌, length, drop, slice_index, true, false};
    ghost use Rattle.vs_stim.specs.Fields.{is_blank, words, fields};
    ghost use Rattle.vs_stim.specs.Wanted.{wanted_sizes};
    ghost use Rattle.vs_stim.specs.Wants.{wants_with, wants_said, in_wanted, wanted_to_come, expected_lengths, IsExpected, AreWants, AreUnbegun, IsClosed, SameWants, if_whole};
    ghost use Rattle.vs_stim.specs.Source.{IsSource, ReadsBehind};
    ghost use Rattle.vs_stim.specs.declared.wants.Part.TheVariants.{Start, Gap, Field};

    /// Before the first line. The values are written over.
    pub(crate) fn new(expected: Vec<Expected>, values: Vec<Wanted>) -> Wants
        requires each { All IsExpected expected.items }
        requires sizes { wanted_sizes values.items ≡ expected_lengths expected.items }
        ensures wants { AreWants result }
        ensures unbegun { AreUnbegun result }
        ensures expected { result.expected ≡ expected }
        ensures values { result.values ≡ values }
    {
        Wants {
            expected,
            values,
            part: Part::Start,
            column: 0,
            digits: WantedDigits::new(),
        }
    }

    /// Begins a line.
    pub(crate) fn begin(&mut self)
        requires { AreWants self.old }
        ensures wants { AreWants self.new }
        ensures unbegun { AreUnbegun self.new }
        ensures values { self.new.values ≡ self.old.values }
        ensures expected { self.new.expected ≡ self.old.expected }
    {
        self.part = Part::Start;
        self.column = 0;
    }

    /// Reads the next byte of the line.
    pub(crate) fn feed(&mut self, byte: u8)
        requires { AreWants self.old }
        ensures wants { AreWants self.new }
        ensures says { (rest : List ℕ) → wants_with self.new rest ≡ wants_with self.old (byte ∷ rest) }
        ensures form { SameWants self.old self.new }
    {
        match self.part {
            Part::Start => self.feed_start(byte),
            Part::Minus => {
                self.part = if byte == b'>' { Part::Arrow } else { Part::Bad };
            }
            Part::Arrow => {
                self.part = if is_blank(byte) && !self.expected.is_empty() {
                    Part::Gap
                } else {
                    Part::Bad
                };
            }
            Part::Gap => {
                if !is_blank(byte) {
                    self.begin_field(byte);
                }
            }
            Part::Field => {
                if is_blank(byte) {
                    self.end_field();
                } else {
                    self.feed_digit(byte);
                }
            }
            Part::Bad => {}
        }
    }

    /// Reads on in a field: the digits `0` and `1` that stand first in the source's block, up to the field's length.
    pub(crate) fn feed_digits(&mut self, source: &mut Source)
        requires wants { AreWants self.old }
        requires source { IsSource source.old }
        ensures wants { AreWants self.new }
        ensures form { SameWants self.old self.new }
        ensures source { IsSource source.new }
        ensures reads { ReadsBehind self.old self.new source.old source.new }
    {
        if let Part::Field = self.part {
            let room = self.expected[self.column].length as usize - self.digits.len();
            source.read_wanted(&mut self.digits, room);
        }
    }

    /// Reads a byte before which no byte but blanks stands.
    fn feed_start(&mut self, byte: u8)
        requires wants { AreWants self.old }
        requires part { self.old.part ≡ Start }
        ensures wants { AreWants self.new }
        ensures says { (rest : List ℕ) → wants_with self.new rest ≡ wants_with self.old (byte ∷ rest) }
        ensures form { SameWants self.old self.new }
    {
        if !is_blank(byte) {
            self.part = if byte == b'-' { Part::Minus } else { Part::Bad };
        }
    }

    /// Reads the first byte of a field.
    fn begin_field(&mut self, byte: u8)
        requires wants { AreWants self.old }
        requires part { self.old.part ≡ Gap }
        requires no_blank { is_blank byte ≡ false }
        ensures wants { AreWants self.new }
        ensures says { (rest : List ℕ) → wants_with self.new rest
            ≡ wanted_to_come (drop self.old.column self.old.expected.items) self.old.column self.old.values.items (fields (byte ∷ rest)) }
        ensures form { SameWants self.old self.new }
    {
        if self.column == self.expected.len() {
            self.part = Part::Bad;
            return;
        }
        self.digits.clear();
        self.feed_digit(byte);
    }

    /// Reads one more byte of a field.
    fn feed_digit(&mut self, byte: u8)
        requires each { All IsExpected self.old.expected.items }
        requires sizes { wanted_sizes self.old.values.items ≡ expected_lengths self.old.expected.items }
        requires within { self.old.column < length self.old.expected.items }
        requires room { length self.old.digits ≤ slice_index (expected_lengths self.old.expected.items) self.old.column }
        ensures wants { AreWants self.new }
        ensures says { (rest : List ℕ) → wants_with self.new rest
            ≡ in_wanted (drop self.old.column self.old.expected.items) self.old.digits self.old.column self.old.values.items
            (record { word = byte ∷ (words rest).word; later = (words rest).later }) }
        ensures form { SameWants self.old self.new }
    {
        let length = self.expected[self.column].length as usize;
        match wanted_of(byte) {
            Some(digit) if self.digits.len() < length => {
                self.digits.push(digit);
                self.part = Part::Field;
            }
            _ => self.part = Part::Bad,
        }
    }

    /// Ends a field.
    fn end_field(&mut self)
        requires wants { AreWants self.old }
        requires part { self.old.part ≡ Field }
        ensures wants { AreWants self.new }
        ensures says { (rest : List ℕ) → wants_with self.new rest
            ≡ in_wanted (drop self.old.column self.old.expected.items) self.old.digits self.old.column self.old.values.items
            (record { word = []; later = fields rest }) }
        ensures closed { IsClosed self.new.part }
        ensures form { SameWants self.old self.new }
    {
        let length = self.expected[self.column].length as usize;
        if self.digits.len() == length {
            self.values[self.column] = self.digits.wanted();
            self.column += 1;
            self.part = Part::Gap;
        } else {
            self.part = Part::Bad;
        }
    }

    /// Ends the field, if the line ends in one.
    pub(crate) fn end_word(&mut self)
        requires { AreWants self.old }
        ensures wants { AreWants self.new }
        ensures says { wants_with self.new [] ≡ wants_with self.old [] }
        ensures closed { IsClosed self.new.part }
        ensures form { SameWants self.old self.new }
    {
        if let Part::Field = self.part {
            self.end_field();
        }
    }

    /// Whether a line is a vector that ends here.
    pub(crate) fn is_whole(&self) -> bool
        requires { AreWants self.now }
        ensures { IsClosed self.now.part → if_whole result self.now.values.items ≡ wants_with self.now [] }
    {
        match self.part {
            Part::Start => self.expected.is_empty(),
            Part::Gap => self.column == self.expected.len(),
            Part::Minus | Part::Arrow | Part::Field | Part::Bad => false,
        }
    }
}
