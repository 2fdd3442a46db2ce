//! The lines of a text on a desk, in pieces.

use crate::StimError;
use crate::block::Block;
use crate::digits::Digits;
use crate::wanted::WantedDigits;
use std::alloc::{AllocError, Global};
use vs_desk::Desk;

/// The greatest number of bytes in a line before its LF.
const LINE_BYTES: u64 = 65_536;

/// The greatest number of bytes in a text.
const TEXT_BYTES: u64 = 4_294_967_296;

/// What comes next in a text.
#[derive(Clone, Copy)]
pub(crate) enum Piece {
    /// A byte of what the line says.
    Byte(u8),
    /// An LF, and a CR before it if there is one.
    LineEnd,
    /// The end of the text.
    TextEnd,
}

/// A text at a place of a desk, in the middle of a line.
#[derive(Drop)]
pub(crate) struct Source {
    /// Bytes that were taken and not yet read.
    pub(crate) block: Block,
    /// Where the text is attached.
    pub(crate) place: u32,
    /// The line's number, from 1.
    pub(crate) number: u64,
    /// How many bytes stand before the line.
    pub(crate) start: u64,
    /// How many bytes of the line were read.
    pub(crate) length: u64,
}

impl Source {
    ghost use Rattle.std.specs.Prelude.{◌≡◌, ◌≢◌, ◌≤◌, ◌<◌, ◌+◌, ◌-◌, ◌∷◌, [], drop, ℕ, List, length, true, Some, None, IsTrue, IfOk, OnOk, IfErr, OnErr, IfSome, IfNone, IsErrOf};
    ghost use Rattle.vs_desk.specs.Desk.{IsAttached, Fails};
    ghost use Rattle.vs_desk.specs.declared.desk.Way.TheVariants.{Read};
    ghost use Rattle.vs_desk.specs.Taking.{OnlyTaken, TakesAt};
    ghost use Rattle.vs_stim.specs.Reading.{limits};
    ghost use Rattle.vs_stim.specs.Lines.{lines, is_inner};
    ghost use Rattle.vs_stim.specs.Source.{open_at, open_before, in_block, is_told, rest_of, line_refusal, Gives, GoesOn, ComesBy, Moves, IsReadError, IsSource, WentOn, ReadsDigits, ReadsWantedDigits};

    /// The start of the text at this place.
    pub(crate) fn new(alloc: Global, place: u32) -> Result<Source, AllocError>
        ensures source { IfOk result IsSource }
        ensures block { IfOk result (λ s. s.block ≡ []) }
        ensures place { IfOk result (λ s. s.place ≡ place) }
        ensures number { IfOk result (λ s. s.number ≡ 1) }
        ensures start { IfOk result (λ s. s.start ≡ 0) }
        ensures length { IfOk result (λ s. s.length ≡ 0) }
    {
        Ok(Source {
            block: Block::new(alloc)?,
            place,
            number: 1,
            start: 0,
            length: 0,
        })
    }

    /// Reads the line's next byte, which is no LF and stands first in the block.
    fn read_byte(&mut self) -> Result<(), StimError>
        requires source { IsSource self.old }
        requires byte { 0 < length self.old.block }
        ensures ok { OnOk result (self.new ≡ record self.old { block = drop 1 self.old.block; length = self.old.length + 1 }) }
        ensures err { OnErr result (self.new ≡ self.old) }
        ensures source { IsSource self.new }
        ensures errors { IfErr result (IsReadError self.old.number) }
        ensures refused { IfErr result (λ e. (b : ℕ) (rest : List ℕ) → b ≢ 10 → line_refusal (open_before self.old (b ∷ rest)) ≡ Some e) }
        ensures no_fault { result ≢ Err StimError.ReadFault }
        ensures within { OnOk result ((self.old.length < limits.line) × (self.old.start + self.old.length < limits.bytes)) }
    {
        if self.length == LINE_BYTES {
            return Err(StimError::LineTooLong { line: self.number });
        }
        if self.start + self.length == TEXT_BYTES {
            return Err(StimError::StimulusTooLong);
        }
        self.block.skip(1);
        self.length += 1;
        Ok(())
    }

    /// Reads the digits `0` and `1` that stand first in the block, below those before them: at most so
    /// many, and no byte past a limit.
    pub(crate) fn read_digits(&mut self, digits: &mut Digits, most: usize)
        requires source { IsSource self.old }
        requires room { length digits.old + most ≤ 64 }
        ensures source { IsSource self.new }
        ensures most { length digits.new ≤ length digits.old + most }
        ensures reads { ReadsDigits self.old self.new digits.old digits.new }
    {
        let line = (LINE_BYTES - self.length) as usize;
        let text = (TEXT_BYTES - self.start - self.length) as usize;
        let count = digits.read(self.block.as_slice(), most.min(line).min(text));
        self.block.skip(count);
        self.length += count as u64;
    }

    /// And the same of digits that an output is wanted to have.
    pub(crate) fn read_wanted(&mut self, digits: &mut WantedDigits, most: usize)
        requires source { IsSource self.old }
        requires room { length digits.old + most ≤ 64 }
        ensures source { IsSource self.new }
        ensures most { length digits.new ≤ length digits.old + most }
        ensures reads { ReadsWantedDigits self.old self.new digits.old digits.new }
    {
        let line = (LINE_BYTES - self.length) as usize;
        let text = (TEXT_BYTES - self.start - self.length) as usize;
        let count = digits.read(self.block.as_slice(), most.min(text).min(line));
        self.block.skip(count);
        self.length += count as u64;
    }

    /// Reads the byte that stands first in the block, if it is no LF and no CR and past no limit.
    pub(crate) fn next_inner(&mut self) -> Option<u8>
        requires { IsSource self.old }
        ensures source { IsSource self.new }
        ensures some { IfSome result (λ byte. WentOn (byte ∷ []) self.old self.new) }
        ensures inner { IfSome result (λ byte. is_inner (byte ∷ []) ≡ true) }
        ensures none { IfNone result (self.new ≡ self.old) }
    {
        let byte = self.block.first()?;
        if byte == b'\n' || byte == b'\r' {
            return None;
        }
        match self.read_byte() {
            Ok(()) => Some(byte),
            Err(_) => None,
        }
    }

    /// Reads the LF of the line, which stands first in the block.
    fn read_lf(&mut self) -> Result<(), StimError>
        requires source { IsSource self.old }
        requires byte { 0 < length self.old.block }
        ensures ok { OnOk result (self.new ≡ record self.old {
          block = drop 1 self.old.block;
          number = self.old.number + 1;
          start = self.old.start + self.old.length + 1;
          length = 0;
        }) }
        ensures err { OnErr result (self.new ≡ self.old) }
        ensures source { IsSource self.new }
        ensures only { IfErr result (λ e. e ≡ StimError.StimulusTooLong) }
        ensures refused { IfErr result (λ e. (rest : List ℕ) → line_refusal (open_before self.old (10 ∷ rest)) ≡ Some e) }
        ensures within { OnOk result (self.old.start + self.old.length < limits.bytes) }
    {
        if self.start + self.length == TEXT_BYTES {
            return Err(StimError::StimulusTooLong);
        }
        self.block.skip(1);
        self.number += 1;
        self.start += self.length + 1;
        self.length = 0;
        Ok(())
    }

    /// Whether this many bytes more of the line are past no limit.
    pub(crate) fn has_room(&self, count: usize) -> bool
        requires { IsSource self.now }
        ensures line { IsTrue result → self.now.length + count ≤ limits.line }
        ensures bytes { IsTrue result → self.now.start + self.now.length + count ≤ limits.bytes }
    {
        let bytes = count as u64;
        bytes <= LINE_BYTES - self.length && bytes <= TEXT_BYTES - self.start - self.length
    }

    /// Passes the rest of a line: this many bytes with its LF, which stand first in the block.
    pub(crate) fn pass_line(&mut self, count: usize)
        requires source { IsSource self.old }
        requires some { 0 < count }
        requires within { count ≤ length self.old.block }
        requires line { self.old.length + count ≤ limits.line }
        requires bytes { self.old.start + self.old.length + count ≤ limits.bytes }
        ensures source { IsSource self.new }
        ensures passed { self.new ≡ record self.old {
          block = drop count self.old.block;
          number = self.old.number + 1;
          start = self.old.start + self.old.length + count;
          length = 0;
        } }
    {
        self.block.skip(count);
        self.number += 1;
        self.start += self.length + count as u64;
        self.length = 0;
    }

    /// Ends a line that the text ends with.
    fn end_text(&mut self)
        requires { IsSource self.old }
        ensures source { IsSource self.new }
        ensures moved { self.new ≡ record self.old { start = self.old.start + self.old.length; length = 0 } }
    {
        self.start += self.length;
        self.length = 0;
    }

    /// The next byte of the text, which stays. It then stands first in the block.
    fn peek<D: Desk>(&mut self, desk: &mut D) -> Result<Option<u8>, StimError>
        requires { IsAttached (D.told desk.old).register self.old.place Read }
        ensures block { self.new ≡ record self.old { block = self.new.block } }
        ensures same { OnOk result ((D.told desk.new).register ≡ (D.told desk.old).register) }
        ensures fault { IfErr result (λ e. e ≡ StimError.ReadFault) }
        ensures failed { OnErr result (Fails (D.told desk.old).register (D.told desk.new).register self.old.place (D.told desk.old).register.asked) }
        ensures empty { OnErr result (self.new.block ≡ []) }
        ensures rest { IsTrue D.tells → rest_of self.new (D.told desk.new) ≡ rest_of self.old (D.told desk.old) }
        ensures end { IsTrue D.tells → IfOk result (λ byte. IfNone byte (rest_of self.new (D.told desk.new) ≡ [])) }
        ensures some { IfOk result (λ byte. IfSome byte (λ b. self.new.block ≡ b ∷ drop 1 self.new.block)) }
        ensures none { IfOk result (λ byte. IfNone byte (self.new.block ≡ [])) }
        ensures none_before { IfOk result (λ byte. IfNone byte (self.old.block ≡ [])) }
        ensures others { IsTrue D.tells → OnlyTaken self.old.place (D.told desk.old).contents (D.told desk.new).contents }
        ensures frugal { self.old.block ≢ [] → (desk.new ≡ desk.old) × (self.new ≡ self.old) }
    {
        Ok(self.block.peek(desk, self.place)?)
    }

    /// Reads the next piece of the text.
    pub(crate) fn next_piece<D: Desk>(&mut self, desk: &mut D) -> Result<Piece, StimError>
        requires source { IsSource self.old }
        requires attached { IsAttached (D.told desk.old).register self.old.place Read }
        ensures source { IsSource self.new }
        ensures moves { IfOk result (λ piece. Moves piece self.old self.new) }
        ensures place { self.new.place ≡ self.old.place }
        ensures gives { IsTrue D.tells → IfOk result (λ piece. Gives piece (open_at self.old (D.told desk.old)) (open_at self.new (D.told desk.new))) }

        ensures refused { IsTrue D.tells → IfErr result (λ e. e ≢ StimError.ReadFault → line_refusal (open_at self.old (D.told desk.old)) ≡ Some e) }
        ensures errors { IfErr result (IsReadError self.old.number) }
        ensures desk { TakesAt self.old.place (D.told desk.old) (D.told desk.new) StimError.ReadFault result }
        ensures frugal { IsTrue (is_told (in_block self.old)) → desk.new ≡ desk.old }
        ensures told { IsTrue (is_told (in_block self.old)) → IfOk result (λ piece. Gives piece (in_block self.old) (in_block self.new)) }

        ensures comes { IsTrue D.tells → IfOk result (λ piece. ComesBy piece (open_at self.old (D.told desk.old)) (open_at self.new (D.told desk.new))) }
        ensures went { IsTrue D.tells → result ≡ Err StimError.ReadFault → GoesOn (open_at self.old (D.told desk.old)) (open_at self.new (D.told desk.new)) }
        ensures empty { result ≡ Err StimError.ReadFault → self.new.block ≡ [] }
    {
        match self.peek(desk)? {
            None => {
                self.end_text();
                Ok(Piece::TextEnd)
            }
            Some(b'\n') => {
                self.read_lf()?;
                Ok(Piece::LineEnd)
            }
            Some(b'\r') => self.read_cr(desk),
            Some(byte) => {
                self.read_byte()?;
                Ok(Piece::Byte(byte))
            }
        }
    }

    /// Reads a CR, which stands first in the block, and an LF behind it.
    fn read_cr<D: Desk>(&mut self, desk: &mut D) -> Result<Piece, StimError>
        requires source { IsSource self.old }
        requires attached { IsAttached (D.told desk.old).register self.old.place Read }
        requires cr { self.old.block ≡ 13 ∷ drop 1 self.old.block }
        ensures source { IsSource self.new }
        ensures moves { IfOk result (λ piece. Moves piece self.old self.new) }
        ensures place { self.new.place ≡ self.old.place }
        ensures gives { IsTrue D.tells → IfOk result (λ piece. Gives piece (open_at self.old (D.told desk.old)) (open_at self.new (D.told desk.new))) }

        ensures refused { IsTrue D.tells → IfErr result (λ e. e ≢ StimError.ReadFault → line_refusal (open_at self.old (D.told desk.old)) ≡ Some e) }
        ensures errors { IfErr result (IsReadError self.old.number) }
        ensures desk { TakesAt self.old.place (D.told desk.old) (D.told desk.new) StimError.ReadFault result }
        ensures frugal { IsTrue (is_told (in_block self.old)) → desk.new ≡ desk.old }
        ensures told { IsTrue (is_told (in_block self.old)) → IfOk result (λ piece. Gives piece (in_block self.old) (in_block self.new)) }

        ensures comes { IsTrue D.tells → IfOk result (λ piece. ComesBy piece (open_at self.old (D.told desk.old)) (open_at self.new (D.told desk.new))) }
        ensures went { IsTrue D.tells → result ≡ Err StimError.ReadFault → GoesOn (open_at self.old (D.told desk.old)) (open_at self.new (D.told desk.new)) }
        ensures empty { result ≡ Err StimError.ReadFault → self.new.block ≡ [] }
    {
        self.read_byte()?;
        match self.peek(desk)? {
            Some(b'\n') => {
                self.read_lf()?;
                Ok(Piece::LineEnd)
            }
            _ => Ok(Piece::Byte(b'\r')),
        }
    }
}
