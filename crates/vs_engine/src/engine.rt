//! The engine.

ghost use Rattle.std.specs.Prelude.{List, ◌≡◌, ℕ, ◌+◌, ◌*◌, ◌/◌, ◌≢◌, ◌<◌, ◌≤◌, ◌^◌, length, slice_get, IfOk, Some, true, false, not, if◌then◌else◌};
ghost use Rattle.vs_four.specs.declared.Bit4.{Bit4};
ghost use Rattle.vs_net.specs.Network.{write_all};
ghost use Rattle.vs_net.specs.Queue.{Fall, Rise};
ghost use Rattle.vs_net.specs.Solution.{IsSlotEnd, beginning};
ghost use Rattle.vs_design.specs.Designs.{Design};
ghost use Rattle.vs_design.specs.Expressions.{Signal, word_length};
ghost use Rattle.vs_design.specs.Memories.{word_bits};
ghost use Rattle.vs_design.specs.Networks.{network_of};
ghost use Rattle.vs_design.specs.Values.{read};
ghost use Rattle.vs_design.specs.Footprints.{contains};
ghost use Rattle.vs_plane.specs.Lanes.{pair_lane, slot_lane};
ghost use Rattle.vs_program.specs.declared.compiled.Span.{Span};
ghost use Rattle.vs_program.specs.Lowered.{home};
ghost use Rattle.vs_program.specs.Program.{values, first_stores, fall_stores, rise_stores};
ghost use Rattle.vs_program.specs.Compiled.{IsProgramOf, span_bits};
ghost use Rattle.vs_four.specs.Tables.{same};
ghost use Rattle.vs_engine.specs.Lanes.{differ_below, home_writes, lane_slots, state, vector};

use std::alloc::{AllocError, Global};
use std::marker::Model;
use std::sync::ledger::Ledger;
use vs_cone::write_law;
use vs_four::{Bit4, Bits, join};
use vs_plane::{Lanes, Pair, PlaneFile, Steps, Word};
use vs_program::{Compiled, Phase, Span, home};

/// A compiled design at work: its slots, in every lane. Each lane is a run of the design of its own.
#[derive(Drop)]
pub struct Engine<W: Word> {
    compiled: Compiled,
    file: PlaneFile<W>,
    begun: bool,
    // What the clocks have. They have planes only where they are some of the design's bits.
    level: Bit4,
}

// Clauses see the program, the pairs by slot number, whether a slot was run, and what the clocks have.
impl<W: Word> Model for Engine<W> {
    ghost use Rattle.vs_engine.specs.Lanes.{Running, IsWhole};

    ghost Value = { Running W };

    ghost view = { λ e. record { program = e.compiled; file = e.file; begun = e.begun; level = e.level } };

    ghost invariant = { λ e. IsWhole W.lane W.LANES (record { program = e.compiled; file = e.file; begun = e.begun; level = e.level }) };
}

impl<W: Word> Engine<W> {
    /// An engine whose bits have in every lane what they have before slot 0: what initial processes leave in them (IEEE 1364-2005, 9.9.1), and else what they have before anything writes them (IEEE 1364-2005, 4.2). No other call takes
    /// memory, and the only error is that there is none.
    pub fn new(alloc: Global, compiled: Compiled) -> Result<Engine<W>, AllocError>
        ensures program { IfOk result (λ e. e.program ≡ compiled) }
        ensures begun { IfOk result (λ e. e.begun ≡ false) }
        ensures begins { IfOk result (λ e. (d : Design) (clocks : List ℕ) (i : ℕ) → IsProgramOf d clocks compiled → i < W.LANES
            → state W.lane e i ≡ beginning (network_of d clocks)) }
    {
        let file = PlaneFile::new(alloc, compiled.initial())?;
        Ok(Engine {
            compiled,
            file,
            begun: false,
            level: Bit4::X,
        })
    }

    /// What it runs.
    pub fn compiled(&self) -> &Compiled
        ensures { result.now ≡ self.now.program }
    {
        &self.compiled
    }

    /// The planes of a bit, all lanes at once, as they are at the end of the last slot.
    #[inline]
    pub fn pair(&self, bit: u32) -> Pair<W>
        requires { bit < self.now.program.bits }
        ensures { (i : ℕ) → pair_lane W.lane result i ≡ state W.lane self.now i bit }
    {
        self.file.load(home(bit))
    }

    /// The lanes in which a signal has another value than these planes of its bits.
    pub fn changed(&self, signal: u32, old: &[Pair<W>]) -> W
        requires signal { signal < length self.now.program.signals }
        requires old { (s : Span) → slice_get self.now.program.signals signal ≡ Some s → length old.now ≡ s.length }
        ensures { (s : Span) (i : ℕ) → slice_get self.now.program.signals signal ≡ Some s → i < W.LANES
            → W.lane result i ≡ differ_below (λ k. slot_lane W.lane old.now k i) (λ k. state W.lane self.now i (s.first + k)) s.length }
    {
        let span = self.compiled.signals()[signal as usize];
        differing(&self.file, home(span.first), span.length, old)
    }

    /// Copies the planes of a signal's bits, as they are at the end of the last slot.
    pub fn copy(&self, signal: u32, out: &mut [Pair<W>])
        requires signal { signal < length self.now.program.signals }
        requires room { (s : Span) → slice_get self.now.program.signals signal ≡ Some s → length out.old ≡ s.length }
        ensures count { length out.new ≡ length out.old }
        ensures planes { (s : Span) (k i : ℕ) → slice_get self.now.program.signals signal ≡ Some s → k < s.length
            → slot_lane W.lane out.new k i ≡ state W.lane self.now i (s.first + k) }
    {
        let span = self.compiled.signals()[signal as usize];
        copy_planes(&self.file, home(span.first), out);
    }

    /// How many steps the next fall takes, and how many each rise.
    pub fn stores(&self) -> (u64, u64)
        ensures fall { result.0 ≡ (if self.now.begun then fall_stores self.now.program else first_stores self.now.program) }
        ensures rise { result.1 ≡ rise_stores self.now.program }
        ensures few { (result.0 < 2 ^ 32) × (result.1 < 2 ^ 32) }
    {
        let nets = self.compiled.nets().len() as u64;
        let next = self.compiled.length(Phase::Next);
        let rise = self.compiled.length(Phase::Rise);
        (self.fall_stores(self.begun), nets + next + rise)
    }

    /// How many steps each fall takes but the first.
    pub fn later_stores(&self) -> u64
        ensures fall { result ≡ fall_stores self.now.program }
        ensures few { result < 2 ^ 32 }
    {
        self.fall_stores(true)
    }

    /// How many steps a fall takes: the first, or one behind another.
    fn fall_stores(&self, begun: bool) -> u64
        ensures exact { result ≡ (if begun then fall_stores self.now.program else first_stores self.now.program) }
        ensures few { result < 2 ^ 32 }
    {
        let inputs = self.compiled.inputs().len() as u64;
        let nets = self.compiled.nets().len() as u64;
        inputs + nets + self.compiled.length(settling(begun))
    }
}

impl<W: Word> Engine<W> {
    /// A slot in which the clocks fall: each lane gets its vector, one pair for each bit of the data inputs in bit order, and has then the
    /// values at the end of that slot.
    pub fn fall<L: Ledger>(&mut self, inputs: &[Pair<W>], steps: &mut Steps<L>)
        requires { length inputs.now ≡ length self.old.program.inputs }
        ensures program { self.new.program ≡ self.old.program }
        ensures begun { self.new.begun ≡ true }
        ensures ends { (d : Design) (clocks : List ℕ) (i : ℕ) → IsProgramOf d clocks self.old.program → i < W.LANES
            → IsSlotEnd (network_of d clocks) (state W.lane self.old i) (Fall (vector W.lane self.old.program.inputs inputs.now i)) (state W.lane self.new i) }
        ensures ticked { steps.new ≡ steps.old + (if self.old.begun then fall_stores self.old.program else first_stores self.old.program) }
    {
        write_law();
        feed(self.compiled.inputs(), inputs, &mut self.file, steps);
        store_all(self.compiled.nets(), Bit4::Zero, &mut self.file, steps);
        self.compiled
            .execute(settling(self.begun), &mut self.file, steps);
        self.begun = true;
        self.level = Bit4::Zero;
    }

    /// A slot in which the clocks rise, after one in which they fell. Each lane has then the values at the end of that slot.
    pub fn rise<L: Ledger>(&mut self, steps: &mut Steps<L>)
        requires { self.old.begun ≡ true }
        ensures program { self.new.program ≡ self.old.program }
        ensures begun { self.new.begun ≡ true }
        ensures ends { (d : Design) (clocks : List ℕ) (i : ℕ) → IsProgramOf d clocks self.old.program → i < W.LANES
            → IsSlotEnd (network_of d clocks) (state W.lane self.old i) Rise (state W.lane self.new i) }
        ensures ticked { steps.new ≡ steps.old + rise_stores self.old.program }
    {
        self.compiled.execute(Phase::Next, &mut self.file, steps);
        store_all(self.compiled.nets(), Bit4::One, &mut self.file, steps);
        self.compiled.execute(Phase::Rise, &mut self.file, steps);
        self.level = Bit4::One;
    }
}

impl<W: Lanes> Engine<W> {
    /// The value of a signal in a lane, as it is at the end of the last slot.
    pub fn value(&self, lane: u32, signal: u32) -> Bits
        requires lane { lane < W.LANES }
        requires signal { signal < length self.now.program.signals }
        ensures { (s : Span) → slice_get self.now.program.signals signal ≡ Some s → result ≡ read (state W.lane self.now lane) (span_bits s) }
    {
        let span = self.compiled.signals()[signal as usize];
        read(&self.file, lane, span)
    }

    /// The value of some of the design's bits in a lane, as they are at the end of the last slot: of at most 64 that follow one another.
    /// So a word of a memory is read (IEEE 1364-2005, 4.9), of which `memory_law` of `vs_design` says what it holds.
    pub fn word(&self, lane: u32, bits: Span) -> Bits
        requires lane { lane < W.LANES }
        requires some { 1 ≤ bits.length }
        requires short { bits.length ≤ 64 }
        requires inside { bits.first + bits.length ≤ self.now.program.bits }
        ensures bits { result ≡ read (state W.lane self.now lane) (span_bits bits) }
        ensures word { (memory : Signal) (n : ℕ) → bits.first ≡ memory.first + n * word_length memory → bits.length ≡ word_length memory
            → result ≡ read (state W.lane self.now lane) (word_bits memory n) }
    {
        read(&self.file, lane, bits)
    }

    /// The values of a signal in all lanes, by lane, as they are at the end of the last slot.
    pub fn values(&self, signal: u32, out: &mut [Bits])
        requires signal { signal < length self.now.program.signals }
        requires lanes { length out.old ≡ W.LANES }
        ensures lanes { length out.new ≡ length out.old }
        ensures values { (s : Span) (i : ℕ) → slice_get self.now.program.signals signal ≡ Some s → i < length out.new
            → slice_get out.new i ≡ Some (read (state W.lane self.now i) (span_bits s)) }
    {
        let span = self.compiled.signals()[signal as usize];
        read_all(&self.file, span, out);
    }
}

/// Copies the planes of the slots from this one on.
fn copy_planes<W: Word>(file: &PlaneFile<W>, first: u32, out: &mut [Pair<W>])
    requires inside { first + length out.old ≤ length file.now }
    requires few { length file.now < 2 ^ 32 }
    ensures count { length out.new ≡ length out.old }
    ensures planes { (k i : ℕ) → k < length out.old → slot_lane W.lane out.new k i ≡ slot_lane W.lane file.now (first + k) i }
{
    for k in 0..out.len() {
        out[k] = file.load(first + k as u32);
    }
}

/// The lanes in which these slots have other planes.
fn differing<W: Word>(file: &PlaneFile<W>, first: u32, count: u32, old: &[Pair<W>]) -> W
    requires inside { first + count ≤ length file.now }
    requires few { length file.now < 2 ^ 32 }
    requires old { length old.now ≡ count }
    ensures { (i : ℕ) → i < W.LANES
        → W.lane result i ≡ differ_below (λ k. slot_lane W.lane old.now k i) (λ k. slot_lane W.lane file.now (first + k) i) count }
{
    let mut lanes = W::none();
    for k in 0..count {
        let new = file.load(first + k);
        let other = differ(old[k as usize], new);
        lanes = lanes.or(other);
    }
    lanes
}

/// The lanes in which two pairs aren't one.
fn differ<W: Word>(a: Pair<W>, b: Pair<W>) -> W
    ensures { (i : ℕ) → i < W.LANES → W.lane result i ≡ not (same (pair_lane W.lane a i) (pair_lane W.lane b i)) }
{
    a.value.xor(b.value).or(a.unknown.xor(b.unknown))
}

/// What settles a slot in which the clocks fall: a first one, or a later one.
fn settling(begun: bool) -> Phase
    ensures { result ≡ (if begun then Phase.Fall else Phase.First) }
{
    if begun { Phase::Fall } else { Phase::First }
}

/// The bits of a span in a lane.
fn read<W: Lanes>(file: &PlaneFile<W>, lane: u32, span: Span) -> Bits
    requires lane { lane < W.LANES }
    requires some { 1 ≤ span.length }
    requires short { span.length ≤ 64 }
    requires inside { home (span.first + span.length) ≤ length file.now }
    requires few { length file.now < 2 ^ 32 }
    ensures { result ≡ read (λ b. slot_lane W.lane file.now (home b) lane) (span_bits span) }
{
    let first = home(span.first);
    let mut bits = Bits::of(&[file.lane(first, lane)]);
    for k in 1..span.length {
        let next = file.lane(first + k, lane);
        bits = join(Bits::of(&[next]), bits);
    }
    bits
}

/// The bits of a signal in all lanes, by lane.
fn read_all<W: Lanes>(file: &PlaneFile<W>, span: Span, out: &mut [Bits])
    requires lanes { length out.old ≡ W.LANES }
    requires some { 1 ≤ span.length }
    requires short { span.length ≤ 64 }
    requires inside { home (span.first + span.length) ≤ length file.now }
    requires few { length file.now < 2 ^ 32 }
    ensures count { length out.new ≡ length out.old }
    ensures values { (i : ℕ) → i < length out.new
        → slice_get out.new i ≡ Some (read (λ b. slot_lane W.lane file.now (home b) i) (span_bits span)) }
{
    for k in 0..W::LANES / 64 {
        read_group(file, span, k, out);
    }
}

/// The bits of a signal in the 64 lanes from `64 * k` on, by lane.
fn read_group<W: Lanes>(file: &PlaneFile<W>, span: Span, k: u32, out: &mut [Bits])
    requires lanes { 64 * k + 64 ≤ W.LANES }
    requires room { length out.old ≡ W.LANES }
    requires some { 1 ≤ span.length }
    requires short { span.length ≤ 64 }
    requires inside { home (span.first + span.length) ≤ length file.now }
    requires few { length file.now < 2 ^ 32 }
    ensures count { length out.new ≡ length out.old }
    ensures values { (i : ℕ) → i < 64
        → slice_get out.new (64 * k + i) ≡ Some (read (λ b. slot_lane W.lane file.now (home b) (64 * k + i)) (span_bits span)) }
    ensures others { (n : ℕ) → n / 64 ≢ k → slice_get out.new n ≡ slice_get out.old n }
{
    let from = 64 * k as usize;
    if span.length == 1 {
        let pair = file.load(home(span.first));
        let value = pair.value.sixty_four(k);
        let unknown = pair.unknown.sixty_four(k);
        for i in 0..64 {
            out[from + i] = Bits::of_planes(1, value >> i, unknown >> i);
        }
    } else {
        let mut slots = [0; 64];
        for n in 0..span.length {
            slots[n as usize] = home(span.first + n);
        }
        let columns = file.columns(&slots[..span.length as usize], k);
        for i in 0..64 {
            out[from + i] = Bits::of_planes(span.length, columns.value[i], columns.unknown[i]);
        }
    }
}

/// Gives each of these bits its pair.
fn feed<W: Word, L: Ledger>(
    bits: &[u32],
    pairs: &[Pair<W>],
    file: &mut PlaneFile<W>,
    steps: &mut Steps<L>,
)
    requires pairs { length bits.now ≡ length pairs.now }
    requires room { (b : ℕ) → contains bits.now b ≡ true → home b < length file.old }
    requires few { length file.old < 2 ^ 32 }
    ensures lanes { (i slot : ℕ) → lane_slots W.lane file.new i slot ≡ write_all (lane_slots W.lane file.old i) (home_writes W.lane bits.now pairs.now i) slot }
    ensures slots { length file.new ≡ length file.old }
    ensures ticked { steps.new ≡ steps.old + length bits.now }
{
    for (n, bit) in bits.iter().enumerate() {
        file.store(home(*bit), pairs[n], steps);
    }
}

/// Gives each of these bits one value, in every lane.
fn store_all<W: Word, L: Ledger>(
    bits: &[u32],
    value: Bit4,
    file: &mut PlaneFile<W>,
    steps: &mut Steps<L>,
)
    requires room { (b : ℕ) → contains bits.now b ≡ true → home b < length file.old }
    requires few { length file.old < 2 ^ 32 }
    ensures stored { (i b : ℕ) → i < W.LANES → contains bits.now b ≡ true → slot_lane W.lane file.new (home b) i ≡ value }
    ensures kept { (i slot : ℕ) → ((b : ℕ) → contains bits.now b ≡ true → ¬ (slot ≡ home b)) → slot_lane W.lane file.new slot i ≡ slot_lane W.lane file.old slot i }
    ensures slots { length file.new ≡ length file.old }
    ensures ticked { steps.new ≡ steps.old + length bits.now }
{
    let pair = Pair::of_bit(value);
    for bit in bits {
        file.store(home(*bit), pair, steps);
    }
}
