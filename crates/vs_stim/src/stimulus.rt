//! The vectors of one lane's text.

ghost use Rattle.std.specs.Prelude.{◌≡◌, ◌≢◌, ◌⊎◌, ℕ, ◌+◌, ◌<◌, ◌≤◌, ◌↔◌, List, [], All, length, map, true, false, Some, None, Ok, Err, string_bytes, IsNone, IsTrue, IfOk, IfErr, OnOk};
ghost use Rattle.vs_desk.specs.Desk.{IsAttached, Fails, with_place};
ghost use Rattle.vs_desk.specs.declared.desk.Way.TheVariants.{Read};
ghost use Rattle.vs_desk.specs.Taking.{OnlyTaken, TakesAt};
ghost use Rattle.vs_desk.specs.Places.{stimulus_place, waveform_place};
ghost use Rattle.vs_stim.specs.Header.{PortLists, IsInput, ArePorts, lengths, output_lengths};
ghost use Rattle.vs_stim.specs.Row.{sizes};
ghost use Rattle.vs_stim.specs.Wanted.{wanted_sizes};
ghost use Rattle.vs_stim.specs.Wants.{expected_lengths, is_each_once, IsExpected, IsExpectedOf, AreWants, AreUnbegun};
ghost use Rattle.vs_stim.specs.Reading.{first_place, reading, header_refusal, refused, whole, with_vector};
ghost use Rattle.vs_stim.specs.Known.{last_entry, remaining, pending_tells, text_left, IsReadBy, IsUntold};
ghost use Rattle.vs_stim.specs.Source.{IsSource, IsVectorError, IsHeaderError};

use crate::header::find_header;
use crate::row::Row;
use crate::source::Source;
use crate::vectors::find_vector;
use crate::wants::Wants;
use crate::{Expected, Input, Ports, StimError, Wanted};
use std::alloc::{AllocError, Global};
use std::marker::Model;
use vs_desk::{Desk, FIRST_STIMULUS, Way};
use vs_four::{Bit4, Bits};

/// The stimulus of one lane: the vectors of a text at place 1000 + lane of a desk, one after the
/// other. Contracts see what is known of it (`Known`).
#[derive(Drop)]
pub struct Stimulus {
    lane: u32,
    live: bool,
    count: u32,
    line: u64,
    source: Source,
    row: Row,
}

impl Model for Stimulus {
    ghost use Rattle.vs_stim.specs.Known.{Known};

    ghost Value = { Known };

    ghost use Rattle.vs_stim.specs.Stimulus.{known, IsStimulus};

    ghost view = { known };

    ghost invariant = { IsStimulus };
}

impl Stimulus {
    /// Attaches place 1000 + lane to the path, and reads the text's header there.
    ///
    /// The refusals are `BadHeader`, `StimulusTooLong` and `LineTooLong`, each at a line up to the header
    /// (70, 75, 76), and `NoExpectation` (79), where the header has to name outputs and names none. All the memory that the stimulus needs is taken here.
    pub fn begin<D: Desk>(
        alloc: Global,
        desk: &mut D,
        lane: u32,
        path: String,
        ports: &Ports,
    ) -> Result<Stimulus, StimError>
        requires lane { stimulus_place lane < waveform_place 0 }
        requires free { IsNone ((D.told desk.old).register.attached (stimulus_place lane)) }
        requires ports { ArePorts ports.now }

        // Where the desk tells its bytes, the answer is what the definition reads first of the path's bytes.
        ensures header { IsTrue D.tells → IfOk result (λ s. reading ports.now ((D.told desk.old).contents.files (string_bytes path)) ≡ remaining s (D.told desk.new).contents) }
        ensures read { IsTrue D.tells → IfOk result (λ s. IsReadBy ports.now ((D.told desk.old).contents.files (string_bytes path)) s (D.told desk.new).contents) }
        ensures refused { IsTrue D.tells → IfErr result (λ e. e ≢ StimError.ReadFault → e ≢ StimError.Memory →
            reading ports.now ((D.told desk.old).contents.files (string_bytes path)) ≡ refused e) }
        ensures headed { IsTrue D.tells → OnOk result (header_refusal ports.now ((D.told desk.old).contents.files (string_bytes path)) ≡ None) }
        ensures faulty { IsTrue D.tells → IfErr result (λ e. e ≢ StimError.ReadFault → e ≢ StimError.Memory →
            header_refusal ports.now ((D.told desk.old).contents.files (string_bytes path)) ≡ Some e) }

        // Whatever the desk tells.
        ensures errors { IfErr result IsHeaderError }
        ensures demanded { result ≡ Err StimError.NoExpectation → IsTrue ports.now.demanded }
        ensures live { IfOk result (λ s. IsTrue s.live) }
        ensures lane { IfOk result (λ s. s.lane ≡ lane) }
        ensures count { IfOk result (λ s. s.count ≡ 0) }
        ensures sizes { IfOk result (λ s. sizes s.vector ≡ lengths ports.now.inputs) }
        ensures wanted_sizes { IfOk result (λ s. wanted_sizes s.wanted ≡ expected_lengths s.columns.expected) }
        ensures named { IfOk result (λ s. All (IsExpectedOf (output_lengths ports.now.outputs)) s.columns.expected) }
        ensures once { IfOk result (λ s. is_each_once s.columns.expected ≡ true) }

        // On the desk the place is attached and bytes are taken there, and a fault is a failed call.
        ensures attached { OnOk result ((D.told desk.new).register ≡ with_place (D.told desk.old).register (stimulus_place lane) Read (string_bytes path)) }
        ensures register { IfErr result (λ e. e ≢ StimError.ReadFault → e ≢ StimError.Memory →
            (D.told desk.new).register ≡ with_place (D.told desk.old).register (stimulus_place lane) Read (string_bytes path)) }
        ensures memory { result ≡ Err StimError.Memory → ((D.told desk.new).register ≡ (D.told desk.old).register)
            ⊎ ((D.told desk.new).register ≡ with_place (D.told desk.old).register (stimulus_place lane) Read (string_bytes path)) }
        ensures fault { result ≡ Err StimError.ReadFault → Fails (D.told desk.old).register (D.told desk.new).register (stimulus_place lane) (string_bytes path)
            ⊎ Fails (with_place (D.told desk.old).register (stimulus_place lane) Read (string_bytes path)) (D.told desk.new).register (stimulus_place lane) (D.told desk.old).register.asked }
        ensures others { IsTrue D.tells → OnlyTaken (stimulus_place lane) (D.told desk.old).contents (D.told desk.new).contents }

        // Nothing is taken where the bytes that were taken tell the answer: a take fails only behind bytes that don't have the LF
        // of a line that isn't skipped, nor a byte past a limit.
        ensures needed { IsTrue D.tells → result ≡ Err StimError.ReadFault → Fails (D.told desk.old).register (D.told desk.new).register (stimulus_place lane) (string_bytes path)
            ⊎ IsUntold first_place ((D.told desk.old).contents.files (string_bytes path)) ((D.told desk.new).contents.left (stimulus_place lane)) }
    {
        let place = FIRST_STIMULUS + lane;
        let (mut source, values) = room(alloc, place, ports.inputs())?;
        desk.attach(place, path, Way::Read)?;
        let columns = find_header(alloc, &mut source, ports, desk)?;
        let wants = wants_room(alloc, columns.expected)?;
        Ok(Stimulus {
            lane,
            live: true,
            count: 0,
            line: 0,
            source,
            row: Row::new(columns.inputs, values, wants),
        })
    }

    /// Whether the next vector may be asked for: until an end, a refusal or a fault.
    pub fn live(&self) -> bool
        ensures { result ≡ self.now.live }
    {
        self.live
    }

    /// The vector that was read last, with a value for each input in the design's order.
    pub fn vector(&self) -> &[Bits]
        ensures { result.now ≡ self.now.vector }
    {
        self.row.values.as_slice()
    }

    /// The columns of the outputs that the header names behind `->`, in its order.
    pub fn expected(&self) -> &[Expected]
        ensures { result.now ≡ self.now.columns.expected }
    {
        self.row.wants.expected.as_slice()
    }

    /// The digits that each of these outputs is wanted to have with the vector that was read last.
    pub fn wanted(&self) -> &[Wanted]
        ensures { result.now ≡ self.now.wanted }
    {
        self.row.wants.values.as_slice()
    }

    /// The number of the line of the vector that was read last, from 1; skipped lines count too.
    ///
    /// It is that of `line_of_vector`, by `line_law`. Before the first vector it is 0.
    pub fn line(&self) -> u64
        ensures { result ≡ self.now.line }
    {
        self.line
    }

    /// Reads the next vector, which then stands in `vector`. Answers false at the end of the text.
    ///
    /// It takes no memory. The refusals are 71 to 77 (`StimError`). On an end, a refusal or a fault the
    /// stimulus is no longer live.
    pub fn next<D: Desk>(&mut self, desk: &mut D) -> Result<bool, StimError>
        requires live { IsTrue self.old.live }
        requires attached { IsAttached (D.told desk.old).register (stimulus_place self.old.lane) Read }

        // Where the desk tells its bytes, the answer is what the definition reads next.
        ensures vector { IsTrue D.tells → result ≡ Ok true →
            remaining self.old (D.told desk.old).contents ≡ with_vector (last_entry self.new) (remaining self.new (D.told desk.new).contents) }
        ensures read { IsTrue D.tells → result ≡ Ok true → (ports : PortLists) (text : List ℕ)
            → IsReadBy ports text self.old (D.told desk.old).contents → IsReadBy ports text self.new (D.told desk.new).contents }
        ensures end { IsTrue D.tells → result ≡ Ok false → remaining self.old (D.told desk.old).contents ≡ whole }
        ensures taken { IsTrue D.tells → result ≡ Ok false → text_left self.new (D.told desk.new).contents ≡ [] }
        ensures refused { IsTrue D.tells → IfErr result (λ e. e ≢ StimError.ReadFault → remaining self.old (D.told desk.old).contents ≡ refused e) }

        // Whatever the desk tells.
        ensures errors { IfErr result IsVectorError }
        ensures live { IsTrue self.new.live ↔ (result ≡ Ok true) }
        ensures lane { self.new.lane ≡ self.old.lane }
        ensures count { result ≡ Ok true → self.new.count ≡ self.old.count + 1 }
        ensures sizes { sizes self.new.vector ≡ sizes self.old.vector }
        ensures wanted_sizes { wanted_sizes self.new.wanted ≡ wanted_sizes self.old.wanted }
        ensures columns { self.new.columns ≡ self.old.columns }

        // On the desk only bytes at the place are taken, and a fault is a failed call there.
        ensures desk { TakesAt (stimulus_place self.old.lane) (D.told desk.old) (D.told desk.new) StimError.ReadFault result }

        // Nothing is taken where the bytes that were taken tell the answer: they have the LF of a line that isn't skipped, or a
        // byte past a limit. So none is taken where the pending bytes do, and a take fails only behind bytes that don't.
        ensures frugal { IsTrue (pending_tells self.old) → desk.new ≡ desk.old }
        ensures needed { IsTrue D.tells → result ≡ Err StimError.ReadFault →
            IsUntold self.old.at (text_left self.old (D.told desk.old).contents) ((D.told desk.new).contents.left (stimulus_place self.old.lane)) }
    {
        self.live = false;
        match find_vector(&mut self.source, &mut self.row, self.count, desk)? {
            Some(line) => {
                self.live = true;
                self.count += 1;
                self.line = line;
                Ok(true)
            }
            None => Ok(false),
        }
    }
}

/// The start of the text at a place, and a value for each input.
fn room(alloc: Global, place: u32, inputs: &[Input]) -> Result<(Source, Vec<Bits>), AllocError>
    requires { All IsInput inputs.now }
    ensures source { IfOk result (λ made. IsSource made.0) }
    ensures place { IfOk result (λ made. made.0.place ≡ place) }
    ensures block { IfOk result (λ made. made.0.block ≡ []) }
    ensures at { IfOk result (λ made. (made.0.number ≡ 1) × (made.0.start ≡ 0) × (made.0.length ≡ 0)) }
    ensures sizes { IfOk result (λ made. sizes made.1.items ≡ lengths inputs.now) }
{
    let source = Source::new(alloc, place)?;
    let mut values = Vec::new(alloc);
    for input in inputs {
        values.push(unknown(input.length))?;
    }
    Ok((source, values))
}

/// What the columns of outputs want before the first line, any bits.
fn wants_room(alloc: Global, expected: Vec<Expected>) -> Result<Wants, AllocError>
    requires { All IsExpected expected.items }
    ensures wants { IfOk result AreWants }
    ensures unbegun { IfOk result AreUnbegun }
    ensures expected { IfOk result (λ w. w.expected ≡ expected) }
{
    let mut values = Vec::new(alloc);
    for column in &expected {
        values.push(Wanted::any(column.length))?;
    }
    Ok(Wants::new(expected, values))
}

/// This many x bits.
fn unknown(count: u32) -> Bits
    requires some { 1 ≤ count }
    requires at_most_64 { count ≤ 64 }
    ensures { length result ≡ count }
{
    let bits = [Bit4::X; 64];
    Bits::of(&bits[..count as usize])
}
