//! Where a place of a design stands in its text.

ghost use Rattle.std.specs.Prelude.{◌≡◌, ◌≤◌, length, map};
ghost use Rattle.vs_accept.specs.declared.error.AcceptError.TheVariants.{Refused};
ghost use Rattle.vs_accept.specs.Answers.{TellsJust};
ghost use Rattle.vs_accept.specs.Numbers.{number_of, process_number};
ghost use Rattle.vs_accept.specs.Refused.{byte_of};
ghost use Rattle.vs_flat.specs.DesignOf.{design_of};
ghost use Rattle.vs_flat.specs.declared.processes.AnyProcess.TheVariants as any;
ghost use Rattle.vs_refusal.specs.declared.names.ProcessName.TheVariants.{InitialForm};
ghost use Rattle.vs_refusal.specs.declared.refusal.Refusal.TheVariants as refusal;

use crate::AcceptError;
use crate::numbers::{number, numbers};
use std::alloc::Global;
use vs_flat::AnyProcess;
use vs_lexer::Token;
use vs_refusal::{AtName, ProcessName, Processes, Refusal};
use vs_typed::Typed;

/// A text of at most 4,194,304 bytes, and the tokens as which it is read. The stages tell a place by the number of its token, and a refusal
/// tells the byte at which a reader of the text finds that token.
#[derive(Drop)]
pub(crate) struct Places<'a> {
    pub(crate) text: &'a [u8],
    pub(crate) tokens: &'a [Token],
    pub(crate) ghost short: { length text.now ≤ 4194304 },
}

impl Places<'_> {
    /// The byte at which a token is found; behind the last one stands the end of the text.
    pub(crate) fn byte(&self, token: u32) -> u32
        ensures { result ≡ byte_of self.now.text.now self.now.tokens.now token }
    {
        match self.tokens.get(token as usize) {
            Some(token) => token.at,
            None => self.text.len() as u32,
        }
    }

    /// A refusal at this token.
    pub(crate) fn refused_at(&self, name: AtName, token: u32) -> AcceptError
        ensures { result ≡ Refused (refusal.At name (byte_of self.now.text.now self.now.tokens.now token)) }
    {
        AcceptError::Refused(Refusal::At(name, self.byte(token)))
    }

    /// A refusal of a process, which begins at this token.
    pub(crate) fn refused_process(
        &self,
        typed: &Typed,
        name: ProcessName,
        process: u32,
        token: u32,
    ) -> AcceptError
        ensures { result ≡ Refused (refusal.Process name (process_number (design_of typed.now) process) (byte_of self.now.text.now self.now.tokens.now token)) }
    {
        let process = number(typed, AnyProcess::Process(process));
        AcceptError::Refused(Refusal::Process(name, process, self.byte(token)))
    }

    /// A refusal of an initial process, which begins at this token.
    pub(crate) fn refused_initial(&self, typed: &Typed, initial: u32, token: u32) -> AcceptError
        ensures { result ≡ Refused (refusal.Process InitialForm (number_of (design_of typed.now) (any.Initial initial)) (byte_of self.now.text.now self.now.tokens.now token)) }
    {
        let process = number(typed, AnyProcess::Initial(initial));
        AcceptError::Refused(Refusal::Process(ProcessName::InitialForm, process, self.byte(token)))
    }

    /// Two processes drive a bit, of which the second begins at this token.
    pub(crate) fn refused_two(
        &self,
        typed: &Typed,
        bit: u32,
        first: AnyProcess,
        second: AnyProcess,
        token: u32,
    ) -> AcceptError
        ensures { result ≡ Refused (refusal.TwoDrivers bit (number_of (design_of typed.now) first) (number_of (design_of typed.now) second) (byte_of self.now.text.now self.now.tokens.now token)) }
    {
        AcceptError::Refused(Refusal::TwoDrivers {
            bit,
            first: number(typed, first),
            second: number(typed, second),
            at: self.byte(token),
        })
    }

    /// Processes feed one another in a circle, of which the first begins at this token. There may be no memory for their numbers.
    pub(crate) fn refused_cycle(
        &self,
        alloc: Global,
        typed: &Typed,
        processes: &[u32],
        token: u32,
    ) -> AcceptError
        ensures { TellsJust (refusal.Cycle (map (process_number (design_of typed.now)) processes.now) (byte_of self.now.text.now self.now.tokens.now token)) result }
    {
        match numbers(alloc, typed, processes) {
            Ok(told) => AcceptError::Refused(Refusal::Cycle {
                processes: Processes::new(told),
                at: self.byte(token),
            }),
            Err(_) => AcceptError::Memory,
        }
    }
}
