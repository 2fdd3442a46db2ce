//! A line before the vectors, read byte by byte.

ghost use Rattle.std.specs.Prelude.{◌≡◌, ◌+◌, ◌<◌, ◌≤◌, length, codes, bytes_eq, All, IfSome};
ghost use Rattle.vs_stim.specs.Header.{column_of, expected_of, is_expected, is_arrow, lengths, output_lengths, IsInput, IsOutput, ArePorts};
ghost use Rattle.vs_stim.specs.Row.{IsColumn};
ghost use Rattle.vs_stim.specs.Wants.{IsExpected, IsExpectedOf};

use crate::digits::is_blank;
use crate::input::Columns;
use crate::row::LineKind;
use crate::{Column, Expected, Input, Output, Ports};
use std::alloc::{AllocError, Global};

/// Where in a line the next byte stands.
#[derive(Clone, Copy)]
pub(crate) enum Stage {
    /// Before the first byte that isn't a blank.
    Start,
    /// In a line that is skipped.
    Comment,
    /// Between two fields.
    Gap,
    /// In a field.
    Word,
    /// In a line that is no header.
    Bad,
}

/// What the fields of a header are from here on.
#[derive(Clone, Copy)]
pub(crate) enum Section {
    /// The field `inputs`, and then the others.
    Title,
    /// Names of inputs, and perhaps `->` and names of outputs.
    Inputs,
    /// Names of outputs.
    Outputs,
}

/// A line before the vectors, as far as it was read.
#[derive(Drop)]
pub(crate) struct Heading {
    pub(crate) stage: Stage,
    pub(crate) section: Section,
    /// The field so far.
    pub(crate) word: Vec<u8>,
    /// The columns that the names of inputs so far call for.
    pub(crate) columns: Vec<Column>,
    /// How many columns each input has.
    pub(crate) counts: Vec<usize>,
    /// The columns that the names of outputs so far call for.
    pub(crate) expected: Vec<Expected>,
}

/// The column of the input of this name.
fn find(inputs: &[Input], name: &[u8]) -> Option<Column>
    requires { All IsInput inputs.now }
    ensures column { result ≡ column_of 0 name.now inputs.now }
    ensures known { IfSome result (IsColumn (lengths inputs.now)) }
{
    for (number, input) in inputs.iter().enumerate() {
        if input.name.is(name) {
            return Some(Column {
                input: number,
                length: input.length,
                reset: input.reset,
                select: input.select,
            });
        }
    }
    None
}

/// The column of the output of this name.
fn find_output(outputs: &[Output], name: &[u8]) -> Option<Expected>
    requires { All IsOutput outputs.now }
    ensures column { result ≡ expected_of 0 name.now outputs.now }
    ensures known { IfSome result IsExpected }
    ensures of { IfSome result (IsExpectedOf (output_lengths outputs.now)) }
{
    for (number, output) in outputs.iter().enumerate() {
        if output.name.is(name) {
            return Some(Expected {
                output: number,
                length: output.length,
            });
        }
    }
    None
}

/// Whether one of the columns is of this output.
fn is_among(columns: &[Expected], output: usize) -> bool
    ensures { result ≡ is_expected output columns.now }
{
    columns.iter().any(|column| column.output == output)
}

/// Whether a field is `->`.
fn is_arrow(field: &[u8]) -> bool
    ensures { result ≡ is_arrow field.now }
{
    field == b"->".as_slice()
}

impl Heading {
    ghost use Rattle.std.specs.Prelude.{◌≡◌, ◌≢◌, ◌<◌, ℕ, List, [], ◌∷◌, ◌++◌, length, true, false, All, Ok, OnOk, IfOk, IfErr};
    ghost use Rattle.vs_stim.specs.Fields.{words, fields};
    ghost use Rattle.vs_stim.specs.Header.{PortLists, each_once, lacks_output};
    ghost use Rattle.vs_stim.specs.Row.{as_said};
    ghost use Rattle.vs_stim.specs.Heading.{heading_with, fields_to_come, columns_of_heading, is_whole, AreCounts, AreNamed, IsUnread, IsHeading, IsBetween, IsEnded};
    ghost use Rattle.vs_stim.specs.declared.row.LineKind.TheVariants.{Skipped, Given};
    ghost use Rattle.vs_stim.specs.declared.heading.Stage.TheVariants.{Start, Word};
    ghost use Rattle.vs_stim.specs.declared.heading.Section.TheVariants.{Title, Inputs, Outputs};

    /// Before the first line, for these ports.
    pub(crate) fn new(alloc: Global, ports: &Ports) -> Result<Heading, AllocError>
        ensures stage { IfOk result (λ h. h.stage ≡ Start) }
        ensures unread { IfOk result IsUnread }
        ensures heading { IfOk result (IsHeading ports.now) }
    {
        Ok(Heading {
            stage: Stage::Start,
            section: Section::Title,
            word: Vec::new(alloc),
            columns: Vec::new(alloc),
            counts: vec![in alloc; 0; ports.inputs().len()]?,
            expected: Vec::new(alloc),
        })
    }

    /// The columns of a header.
    pub(crate) fn into_columns(self) -> Columns
        ensures inputs { result.inputs ≡ self.columns }
        ensures expected { result.expected ≡ self.expected }
    {
        let Heading {
            stage: _,
            section: _,
            word: _,
            columns,
            counts: _,
            expected,
        } = self;
        Columns {
            inputs: columns,
            expected,
        }
    }

    /// Begins the line behind one that was skipped.
    pub(crate) fn begin(&mut self)
        requires { IsUnread self.old }
        ensures { self.new ≡ record self.old { stage = Start } }
    {
        self.stage = Stage::Start;
    }

    /// Reads the next byte of the line.
    pub(crate) fn feed(&mut self, ports: &Ports, byte: u8) -> Result<(), AllocError>
        requires ports { ArePorts ports.now }
        requires heading { IsHeading ports.now self.old }
        ensures heading { OnOk result (IsHeading ports.now self.new) }
        ensures says { OnOk result ((rest : List ℕ) → heading_with ports.now self.new rest ≡ heading_with ports.now self.old (byte ∷ rest)) }
    {
        match self.stage {
            Stage::Start => {
                if byte == b'#' {
                    self.stage = Stage::Comment;
                } else if !is_blank(byte) {
                    self.begin_word(byte)?;
                }
                Ok(())
            }
            Stage::Gap => {
                if !is_blank(byte) {
                    self.begin_word(byte)?;
                }
                Ok(())
            }
            Stage::Word => {
                if is_blank(byte) {
                    self.end_word(ports)
                } else {
                    self.word.push(byte)?;
                    Ok(())
                }
            }
            Stage::Comment | Stage::Bad => Ok(()),
        }
    }

    /// Reads the first byte of a field.
    fn begin_word(&mut self, byte: u8) -> Result<(), AllocError>
        ensures ok { OnOk result (self.new ≡ record self.old { stage = Word; word = self.new.word }) }
        ensures word { OnOk result (self.new.word.items ≡ byte ∷ []) }
    {
        self.word.clear();
        self.word.push(byte)?;
        self.stage = Stage::Word;
        Ok(())
    }

    /// Ends a field.
    fn end_word(&mut self, ports: &Ports) -> Result<(), AllocError>
        requires ports { ArePorts ports.now }
        requires word { self.old.stage ≡ Word }
        requires heading { IsHeading ports.now self.old }
        ensures heading { OnOk result (IsHeading ports.now self.new) }
        ensures says { OnOk result ((rest : List ℕ) → heading_with ports.now self.new rest
            ≡ fields_to_come ports.now self.old.section self.old.columns.items self.old.expected.items (self.old.word.items ∷ fields rest)) }
        ensures ended { OnOk result (IsEnded self.new.stage) }
    {
        match self.section {
            Section::Title => {
                self.end_title();
                Ok(())
            }
            Section::Inputs => {
                if is_arrow(&self.word) {
                    self.end_arrow();
                    Ok(())
                } else {
                    self.end_input(ports)
                }
            }
            Section::Outputs => self.end_output(ports),
        }
    }

    /// Ends a field that should be `inputs`.
    fn end_title(&mut self)
        requires section { self.old.section ≡ Title }
        ensures same { self.new ≡ record self.old { stage = self.new.stage; section = self.new.section } }
        ensures named { self.new.section ≢ Outputs }
        ensures says { (ports : PortLists) (rest : List ℕ) → heading_with ports self.new rest
            ≡ fields_to_come ports Title self.old.columns.items self.old.expected.items (self.old.word.items ∷ fields rest) }
        ensures ended { IsEnded self.new.stage }
    {
        if self.word.as_slice() == b"inputs".as_slice() {
            self.section = Section::Inputs;
            self.stage = Stage::Gap;
        } else {
            self.stage = Stage::Bad;
        }
    }

    /// Ends a field that is `->`, behind names of inputs.
    fn end_arrow(&mut self)
        requires section { self.old.section ≡ Inputs }
        requires arrow { is_arrow self.old.word.items ≡ true }
        requires counts { AreCounts (length self.old.counts.items) self.old.counts.items self.old.columns.items }
        ensures same { self.new ≡ record self.old { stage = self.new.stage; section = self.new.section } }
        ensures named { AreNamed self.new.section (length self.old.counts.items) self.old.columns.items }
        ensures says { (ports : PortLists) (rest : List ℕ) → length ports.inputs ≡ length self.old.counts.items → heading_with ports self.new rest
            ≡ fields_to_come ports Inputs self.old.columns.items self.old.expected.items (self.old.word.items ∷ fields rest) }
        ensures ended { IsEnded self.new.stage }
    {
        if self.is_each_once() {
            self.section = Section::Outputs;
            self.stage = Stage::Gap;
        } else {
            self.stage = Stage::Bad;
        }
    }

    /// Ends a field that should be the name of an input.
    fn end_input(&mut self, ports: &Ports) -> Result<(), AllocError>
        requires section { self.old.section ≡ Inputs }
        requires arrow { is_arrow self.old.word.items ≡ false }
        requires ports { ArePorts ports.now }
        requires heading { IsHeading ports.now self.old }
        ensures heading { OnOk result (IsHeading ports.now self.new) }
        ensures says { OnOk result ((rest : List ℕ) → heading_with ports.now self.new rest
            ≡ fields_to_come ports.now Inputs self.old.columns.items self.old.expected.items (self.old.word.items ∷ fields rest)) }
        ensures ended { OnOk result (IsEnded self.new.stage) }
    {
        match find(ports.inputs(), &self.word) {
            Some(column) => {
                self.add_column(column)?;
                self.stage = Stage::Gap;
            }
            None => self.stage = Stage::Bad,
        }
        Ok(())
    }

    /// Ends a field that should be the name of an output that has no column.
    #[tactic(auto, using(crate::proofs::Once::once_push))]
    fn end_output(&mut self, ports: &Ports) -> Result<(), AllocError>
        requires section { self.old.section ≡ Outputs }
        requires ports { ArePorts ports.now }
        requires heading { IsHeading ports.now self.old }
        ensures heading { OnOk result (IsHeading ports.now self.new) }
        ensures says { OnOk result ((rest : List ℕ) → heading_with ports.now self.new rest
            ≡ fields_to_come ports.now Outputs self.old.columns.items self.old.expected.items (self.old.word.items ∷ fields rest)) }
        ensures ended { OnOk result (IsEnded self.new.stage) }
    {
        match find_output(ports.outputs(), &self.word) {
            Some(column) if !is_among(&self.expected, column.output) => {
                self.expected.push(column)?;
                self.stage = Stage::Gap;
            }
            _ => self.stage = Stage::Bad,
        }
        Ok(())
    }

    /// Adds a column.
    fn add_column(&mut self, column: Column) -> Result<(), AllocError>
        requires known { column.input < length self.old.counts.items }
        requires counts { AreCounts (length self.old.counts.items) self.old.counts.items self.old.columns.items }
        ensures counts { AreCounts (length self.old.counts.items) self.new.counts.items self.new.columns.items }
        ensures ok { OnOk result (self.new.columns.items ≡ self.old.columns.items ++ column ∷ []) }
        ensures stage { self.new.stage ≡ self.old.stage }
        ensures section { self.new.section ≡ self.old.section }
        ensures word { self.new.word ≡ self.old.word }
        ensures expected { self.new.expected ≡ self.old.expected }
    {
        self.columns.push(column)?;
        self.counts[column.input] += 1;
        Ok(())
    }

    /// Whether each input has one column.
    fn is_each_once(&self) -> bool
        requires { AreCounts (length self.now.counts.items) self.now.counts.items self.now.columns.items }
        ensures { result ≡ each_once (length self.now.counts.items) self.now.columns.items }
    {
        for count in &self.counts {
            if *count != 1 {
                return false;
            }
        }
        true
    }

    /// Whether no output was named, though one has to be.
    pub(crate) fn lacks_output(&self, ports: &Ports) -> bool
        ensures { result ≡ lacks_output ports.now (columns_of_heading self.now) }
    {
        ports.demanded() && self.expected.is_empty()
    }

    /// Ends the line.
    pub(crate) fn finish(&mut self, ports: &Ports) -> Result<LineKind, AllocError>
        requires ports { ArePorts ports.now }
        requires heading { IsHeading ports.now self.old }
        ensures heading { OnOk result (IsHeading ports.now self.new) }
        ensures skipped { result ≡ Ok Skipped → IsUnread self.new }
        ensures given { result ≡ Ok Given → each_once (length ports.now.inputs) self.new.columns.items ≡ true }
        ensures says { IfOk result (λ kind. as_said kind (columns_of_heading self.new) ≡ heading_with ports.now self.old []) }
    {
        if let Stage::Word = self.stage {
            self.end_word(ports)?;
        }
        Ok(self.kind(ports))
    }

    /// What a line is that ends here.
    fn kind(&self, ports: &Ports) -> LineKind
        requires heading { IsHeading ports.now self.now }
        requires between { IsBetween self.now.stage }
        ensures skipped { result ≡ Skipped → IsUnread self.now }
        ensures given { result ≡ Given → each_once (length ports.now.inputs) self.now.columns.items ≡ true }
        ensures says { as_said result (columns_of_heading self.now) ≡ heading_with ports.now self.now [] }
    {
        match self.stage {
            Stage::Start | Stage::Comment => LineKind::Skipped,
            Stage::Gap if self.is_whole() => LineKind::Given,
            Stage::Gap | Stage::Word | Stage::Bad => LineKind::Malformed,
        }
    }

    /// Whether no more names are called for.
    fn is_whole(&self) -> bool
        requires { AreCounts (length self.now.counts.items) self.now.counts.items self.now.columns.items }
        ensures { result ≡ is_whole self.now.section (length self.now.counts.items) self.now.columns.items self.now.expected.items }
    {
        match self.section {
            Section::Title => false,
            Section::Inputs => self.is_each_once(),
            Section::Outputs => !self.expected.is_empty(),
        }
    }
}
