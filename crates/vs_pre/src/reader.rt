//! The tokens of a text, with its macros and its conditional parts resolved.

ghost use Rattle.std.specs.Prelude.{◌≡◌, ◌⊎◌, ℕ, ◌+◌, ◌<◌, ◌==◌, List, [], ◌≤◌, length, drop, slice_index_or, Ok, Err, Some, None, true, false, is_some, MatchResult, IfOk, IfErr};
ghost use Rattle.std.specs.Option.{option_map};
ghost use Rattle.vs_lexer.specs.declared.token.Token.{Token};
ghost use Rattle.vs_pre.specs.declared.error.PreError.TheVariants.{Memory};
ghost use Rattle.vs_pre.specs.Conditions as conditions;
ghost use Rattle.vs_pre.specs.Roles.{role_of as role_in};
ghost use Rattle.std.specs.List.{list_any};
ghost use Rattle.vs_pre.specs.Words.{is_directive};
ghost use Rattle.vs_pre.specs.Expansion.{used, nested};
ghost use Rattle.vs_pre.specs.Preprocessing as spec;
ghost use Rattle.vs_pre.specs.Reading.{state_of, Stepped, IsFault};
ghost use Rattle.vs_pre.specs.Views.{macros_of};

use crate::attributes::without_attributes;
use crate::branch::{Branch, going_on, is_kept};
use crate::budget::Budget;
use crate::define::{Misdefined, defined_by};
use crate::error::{PreError, fault_at};
use crate::expansion::{Course, Scene, Stop, replace};
use crate::lines::line_behind;
use crate::roles::{Role, role_of};
use crate::sizes::sized;
use crate::table::Table;
use crate::words::{bytes, is_directive, is_word};
use std::alloc::Global;
use vs_lexer::{MAX_TOKENS, Token};

/// The greatest number of uses of macros.
const MAX_USES: u32 = 1_048_576;

/// How deep uses may be nested, arguments counting.
const MAX_NESTED: u32 = 64;

/// The greatest number of tokens that are held at one time.
const MAX_HELD: usize = 1_048_576;

/// The greatest number of tokens that are read in uses.
const MAX_STEPS: u32 = 16_777_216;

/// How far the tokens of a text have been read: the macros, the conditionals that are open, what uses may still take, how many tokens may still be
/// put out, and those that were.
#[derive(Drop)]
pub(crate) struct Reader<'s, 'a> {
    pub(crate) table: Table<'s, 'a>,
    pub(crate) branches: Vec<Branch>,
    pub(crate) budget: Budget,
    pub(crate) room: usize,
    pub(crate) out: Vec<Token>,
}

/// The word behind a directive.
fn word_behind<'a>(text: &'a [u8], rest: &[Token]) -> Option<&'a [u8]>
    ensures { option_map (λ w. w.now) result ≡ conditions.word_behind text.now rest.now }
{
    match rest {
        [] => None,
        [token, ..] => {
            if is_word(token.kind) {
                Some(bytes(text, token))
            } else {
                None
            }
        }
    }
}

impl<'s, 'a> Reader<'s, 'a> {
    /// A conditional begins, whose test is that the word has a macro, or that it has none.
    fn open(&mut self, at: u32, wanted: bool, word: Option<&[u8]>) -> Result<usize, PreError>
        ensures { MatchResult result (λ n. Stepped (spec.turns (state_of self.old) at (conditions.opened (macros_of self.old.table) self.old.branches.items at wanted (option_map (λ w. w.now) word.entry))) n self.old.out.items self.new.out.items (state_of self.new)) (IsFault (spec.turns (state_of self.old) at (conditions.opened (macros_of self.old.table) self.old.branches.items at wanted (option_map (λ w. w.now) word.entry)))) }
    {
        let Some(word) = word else {
            return Err(PreError::BadDirective(at));
        };
        let has = self.table.get(word).is_some();
        let holds = if wanted { has } else { !has };
        let branch = Branch::begun(at, is_kept(self.branches.as_slice()), holds);
        if self.branches.push(branch).is_err() {
            return Err(PreError::Memory);
        }
        Ok(1)
    }

    /// A further group begins.
    fn turn(&mut self, at: u32, word: Option<&[u8]>) -> Result<usize, PreError>
        ensures { MatchResult result (λ n. Stepped (spec.turns (state_of self.old) at (conditions.turned (macros_of self.old.table) self.old.branches.items (option_map (λ w. w.now) word.entry))) n self.old.out.items self.new.out.items (state_of self.new)) (IsFault (spec.turns (state_of self.old) at (conditions.turned (macros_of self.old.table) self.old.branches.items (option_map (λ w. w.now) word.entry)))) }
    {
        let Some(branch) = going_on(self.branches.as_slice()) else {
            return Err(PreError::BadDirective(at));
        };
        let Some(word) = word else {
            return Err(PreError::BadDirective(at));
        };
        let has = self.table.get(word).is_some();
        self.branches.pop();
        if self.branches.push(branch.continued(has)).is_err() {
            return Err(PreError::Memory);
        }
        Ok(1)
    }

    /// The last group begins.
    fn turn_last(&mut self, at: u32) -> Result<usize, PreError>
        ensures { MatchResult result (λ n. Stepped (spec.turns (state_of self.old) at (conditions.turned_last self.old.branches.items)) n self.old.out.items self.new.out.items (state_of self.new)) (IsFault (spec.turns (state_of self.old) at (conditions.turned_last self.old.branches.items))) }
    {
        let Some(branch) = going_on(self.branches.as_slice()) else {
            return Err(PreError::BadDirective(at));
        };
        self.branches.pop();
        if self.branches.push(branch.finished()).is_err() {
            return Err(PreError::Memory);
        }
        Ok(0)
    }

    /// A conditional ends.
    fn close(&mut self, at: u32) -> Result<usize, PreError>
        ensures { MatchResult result (λ n. Stepped (spec.turns (state_of self.old) at (conditions.closed self.old.branches.items)) n self.old.out.items self.new.out.items (state_of self.new)) (IsFault (spec.turns (state_of self.old) at (conditions.closed self.old.branches.items))) }
    {
        if self.branches.as_slice().last().is_none() {
            return Err(PreError::BadDirective(at));
        }
        self.branches.pop();
        Ok(0)
    }

    /// A token stays.
    fn keep(&mut self, token: &Token) -> Result<usize, PreError>
        ensures { MatchResult result (λ n. Stepped (spec.keeps (state_of self.old) token.now) n self.old.out.items self.new.out.items (state_of self.new)) (IsFault (spec.keeps (state_of self.old) token.now)) }
    {
        if self.room == 0 {
            return Err(PreError::MacroLimit(token.at));
        }
        if self.out.push(*token).is_err() {
            return Err(PreError::Memory);
        }
        self.room -= 1;
        Ok(0)
    }

    /// A macro is defined by this line.
    fn define(
        &mut self,
        alloc: Global,
        text: &'a [u8],
        token: &Token,
        line: &'s [Token],
    ) -> Result<usize, PreError>
        ensures { MatchResult result (λ n. Stepped (spec.defines text.now (state_of self.old) token.now line.now) n self.old.out.items self.new.out.items (state_of self.new)) (IsFault (spec.defines text.now (state_of self.old) token.now line.now)) }
    {
        match defined_by(alloc, text, line) {
            Ok(definition) => match self.table.put(definition.name, Some(definition.is)) {
                Ok(()) => Ok(line.len()),
                Err(_) => Err(PreError::Memory),
            },
            Err(Misdefined::Misformed) => Err(PreError::BadDirective(token.at)),
            Err(Misdefined::Misplaced(place)) => Err(PreError::BadDirective(place)),
            Err(Misdefined::Memory) => Err(PreError::Memory),
        }
    }

    /// A macro is undefined.
    fn undefine(&mut self, token: &Token, word: Option<&'a [u8]>) -> Result<usize, PreError>
        ensures { MatchResult result (λ n. Stepped (spec.undefines (state_of self.old) token.now (option_map (λ w. w.now) word.entry)) n self.old.out.items self.new.out.items (state_of self.new)) (IsFault (spec.undefines (state_of self.old) token.now (option_map (λ w. w.now) word.entry))) }
    {
        match word {
            None => Err(PreError::BadDirective(token.at)),
            Some(word) => match self.table.put(word, None) {
                Ok(()) => Ok(1),
                Err(_) => Err(PreError::Memory),
            },
        }
    }

    /// A use is replaced.
    fn replace(
        &mut self,
        alloc: Global,
        text: &'a [u8],
        token: &Token,
        rest: &[Token],
    ) -> Result<usize, PreError>
        ensures { MatchResult result (λ n. Stepped (spec.replaces (state_of self.old) token.now.at (used text.now (macros_of self.old.table) token.now.at (nested text.now (macros_of self.old.table) token.now.at 63) [] self.old.room self.old.budget token.now rest.now)) n self.old.out.items self.new.out.items (state_of self.new)) (IsFault (spec.replaces (state_of self.old) token.now.at (used text.now (macros_of self.old.table) token.now.at (nested text.now (macros_of self.old.table) token.now.at 63) [] self.old.room self.old.budget token.now rest.now))) }
    {
        let scene = Scene {
            alloc,
            text,
            table: &self.table,
            at: token.at,
        };
        let mut course = Course {
            budget: self.budget,
            active: Vec::new(alloc),
        };
        let start = self.out.len();
        let answer = replace(
            &scene,
            &mut course,
            MAX_NESTED - 1,
            self.room,
            token,
            rest,
            &mut self.out,
        );
        match answer {
            Ok(taken) => {
                self.budget = course.budget;
                self.room = self
                    .room
                    .saturating_sub(self.out.len().saturating_sub(start));
                Ok(taken)
            }
            Err(Stop::Fault(reason)) => Err(fault_at(reason, token.at)),
            Err(Stop::Memory) => Err(PreError::Memory),
        }
    }

    /// What is done with a token where the tokens are kept.
    fn kept_step(
        &mut self,
        alloc: Global,
        text: &'a [u8],
        token: &Token,
        rest: &'s [Token],
        role: Role,
    ) -> Result<usize, PreError>
        ensures { MatchResult result (λ n. Stepped (spec.kept_step text.now 63 (state_of self.old) token.now rest.now role) n self.old.out.items self.new.out.items (state_of self.new)) (IsFault (spec.kept_step text.now 63 (state_of self.old) token.now rest.now role)) }
    {
        match role {
            Role::Plain => self.keep(token),
            Role::Use => self.replace(alloc, text, token, rest),
            Role::Define => self.define(alloc, text, token, line_behind(text, token, rest)),
            Role::Undef => self.undefine(token, word_behind(text, rest)),
            _ => Ok(0),
        }
    }

    /// What is done with a token that is no directive of a conditional.
    fn other_step(
        &mut self,
        alloc: Global,
        text: &'a [u8],
        token: &Token,
        rest: &'s [Token],
        role: Role,
    ) -> Result<usize, PreError>
        ensures { MatchResult result (λ n. Stepped (spec.other_step text.now 63 (state_of self.old) token.now rest.now role) n self.old.out.items self.new.out.items (state_of self.new)) (IsFault (spec.other_step text.now 63 (state_of self.old) token.now rest.now role)) }
    {
        if is_kept(self.branches.as_slice()) {
            self.kept_step(alloc, text, token, rest, role)
        } else {
            Ok(0)
        }
    }

    /// One token is read; the answer is how many of those behind it belong to it.
    fn step(
        &mut self,
        alloc: Global,
        text: &'a [u8],
        token: &Token,
        rest: &'s [Token],
    ) -> Result<usize, PreError>
        ensures { MatchResult result (λ n. Stepped (spec.step text.now 63 (state_of self.old) token.now rest.now (role_in text.now token.now)) n self.old.out.items self.new.out.items (state_of self.new)) (IsFault (spec.step text.now 63 (state_of self.old) token.now rest.now (role_in text.now token.now))) }
    {
        let role = role_of(text, token);
        match role {
            Role::Ifdef => self.open(token.at, true, word_behind(text, rest)),
            Role::Ifndef => self.open(token.at, false, word_behind(text, rest)),
            Role::Elsif => self.turn(token.at, word_behind(text, rest)),
            Role::Else => self.turn_last(token.at),
            Role::Endif => self.close(token.at),
            _ => self.other_step(alloc, text, token, rest, role),
        }
    }
}

/// Whether a directive is among these tokens.
fn has_directive(tokens: &[Token]) -> bool
    ensures { result ≡ list_any (λ t. is_directive t.kind) tokens.now }
{
    for token in tokens {
        if is_directive(token.kind) {
            return true;
        }
    }
    false
}

/// The tokens with macros and conditional parts resolved.
fn read_all(alloc: Global, text: &[u8], tokens: &[Token]) -> Result<Vec<Token>, PreError>
    ensures { MatchResult result (λ v. spec.resolved text.now tokens.now ≡ Ok v.items) (IsFault (spec.resolved text.now tokens.now)) }
{
    let mut reader = Reader {
        table: Table::new(alloc),
        branches: Vec::new(alloc),
        budget: Budget {
            uses: MAX_USES,
            steps: MAX_STEPS,
        },
        room: MAX_HELD,
        out: Vec::new(alloc),
    };
    let mut next = 0;
    while next < tokens.len() {
        let rest = &tokens[next + 1..];
        match reader.step(alloc, text, &tokens[next], rest) {
            Ok(taken) => next += 1 + taken.min(rest.len()),
            Err(error) => return Err(error),
        }
    }
    match reader.branches.as_slice().first() {
        None => Ok(reader.out),
        Some(branch) => Err(PreError::BadDirective(branch.at)),
    }
}

/// The tokens with macros and conditional parts resolved; those without a directive are given back as they are.
fn resolve(alloc: Global, text: &[u8], tokens: Vec<Token>) -> Result<Vec<Token>, PreError>
    requires { length tokens.items ≤ MAX_TOKENS }
    ensures list { IfOk result (λ v. spec.resolved text.now tokens.items ≡ Ok v.items) }
    ensures fault { IfErr result (λ e. (spec.resolved text.now tokens.items ≡ Err e) ⊎ (e ≡ Memory)) }
{
    if !has_directive(tokens.as_slice()) {
        return Ok(tokens);
    }
    read_all(alloc, text, tokens.as_slice())
}

/// Replaces the uses of macros among the tokens of a text by their bodies, drops the conditional parts that don't hold (IEEE 1364-2005, 19.3
/// and 19.4), skips attributes (3.8), and puts each size that stands in front of its number to it (3.5.1). The first fault is the error, or there was
/// not enough memory.
pub fn preprocess(alloc: Global, text: &[u8], tokens: Vec<Token>) -> Result<Vec<Token>, PreError>
    requires { length tokens.items ≤ MAX_TOKENS }
    ensures list { IfOk result (λ v. spec.pre text.now tokens.items ≡ Ok v.items) }
    ensures fault { IfErr result (λ e. (spec.pre text.now tokens.items ≡ Err e) ⊎ (e ≡ Memory)) }
{
    let resolved = resolve(alloc, text, tokens)?;
    match without_attributes(alloc, resolved.as_slice()) {
        Ok(kept) => sized(alloc, text, kept.as_slice()),
        Err(_) => Err(PreError::Memory),
    }
}
