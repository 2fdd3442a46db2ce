//! The reading of the words, which takes no memory.

ghost use Rattle.std.specs.Prelude.{◌≡◌, [], map, option_map, IfOk, string_bytes};
ghost use Rattle.std.specs.List.{before_first};
ghost use Rattle.vs_job.specs.Job as spec;
ghost use Rattle.vs_job.specs.Lines as lines;
ghost use Rattle.vs_job.specs.Lines.{said_of, values};
ghost use Rattle.vs_job.specs.Command.{line_of, job_of, paths_of};

use crate::defines::{MOST_DEFINES, are_defines, head_of};
use crate::job::{Job, Mode};
use crate::text::{Text, Texts};
use arrayvec::ArrayVec;
use std::alloc::{AllocError, Global};
use vs_desk::{MOST_LANES, MOST_OTHERS};

/// The half-period where none is given.
const DEFAULT_HALF: u32 = 5;

/// The greatest half-period.
const MOST_HALF: u32 = 1_000_000;

/// How many paths there are at most: the design and 256 stimuli.
const MOST_PATHS: usize = MOST_LANES + 1;

/// A command that calls for a job.
#[derive(Clone, Copy)]
pub(crate) enum Verb {
    /// `run`.
    Run,
    /// `check`.
    Check,
    /// `queue`.
    Queue,
}

/// An option.
#[derive(Clone, Copy)]
pub(crate) enum Flag {
    /// `--top`.
    Top,
    /// `--clock`.
    Clock,
    /// `--half`.
    Half,
    /// `--order`.
    Order,
    /// `--define`, which may be given again.
    Define,
    /// `--with`, which may be given again.
    With,
}

/// What the next word may be.
#[derive(Clone, Copy)]
pub(crate) enum Next {
    /// `--`, a path or an option.
    Any,
    /// The value of this option.
    Value(Flag),
    /// A path, since `--` was read.
    Path,
}

/// What the words so far say, and what the next one may be.
#[derive(Drop)]
pub(crate) struct Line<'a> {
    verb: Verb,
    next: Next,
    top: Option<&'a str>,
    clock: Option<&'a str>,
    half: Option<&'a str>,
    order: Option<&'a str>,
    defines: ArrayVec<&'a str, MOST_DEFINES>,
    withs: ArrayVec<&'a str, MOST_OTHERS>,
    share: bool,
    paths: ArrayVec<&'a str, MOST_PATHS>,
}

/// A job whose texts are words of the command line.
#[derive(Clone, Copy)]
pub(crate) struct Command<'b, 'a> {
    mode: Mode,
    top: Option<&'a str>,
    clock: Option<&'a str>,
    half: u32,
    share: bool,
    defines: &'b [&'a str],
    design: &'a str,
    others: &'b [&'a str],
    stimuli: &'b [&'a str],
}

/// Whether the word doesn't begin with `-`.
fn is_plain(word: &str) -> bool
    ensures { result ≡ spec.is_plain word.now }
{
    match word.as_bytes().split_first() {
        None => true,
        Some((first, _)) => *first != b'-',
    }
}

/// The command of this name.
fn verb_named(command: &str) -> Option<Verb>
    ensures { result ≡ spec.verb_named command.now }
{
    if command == "run" {
        Some(Verb::Run)
    } else if command == "check" {
        Some(Verb::Check)
    } else if command == "queue" {
        Some(Verb::Queue)
    } else {
        None
    }
}

/// The command, which stands behind the program's own name, and the words behind it.
fn verb_and_words(words: &[String]) -> Option<(Verb, &[String])>
    ensures { option_map (λ read. (read.0, map string_bytes read.1.now)) result ≡ spec.verb_and_words (map string_bytes words.now) }
{
    let (_, words) = words.split_first()?;
    let (command, words) = words.split_first()?;
    let verb = verb_named(command.as_str())?;
    Some((verb, words))
}

/// The option of this name.
fn flag_named(name: &str) -> Option<Flag>
    ensures { result ≡ spec.flag_named name.now }
{
    if name == "--top" {
        Some(Flag::Top)
    } else if name == "--clock" {
        Some(Flag::Clock)
    } else if name == "--half" {
        Some(Flag::Half)
    } else if name == "--order" {
        Some(Flag::Order)
    } else if name == "--define" {
        Some(Flag::Define)
    } else if name == "--with" {
        Some(Flag::With)
    } else {
        None
    }
}

/// What stands before the first `=` of the word, and what stands behind it.
pub(crate) fn name_and_value(word: &str) -> (&str, Option<&str>)
    ensures name { result.0.now ≡ before_first spec.is_equals word.now }
    ensures value { option_map (λ s. s.now) result.1 ≡ spec.attached word.now }
{
    match word.split_once('=') {
        Some((name, value)) => (name, Some(value)),
        None => (word, None),
    }
}

impl<'a> Line<'a> {
    /// Before the first word behind the command.
    fn start(verb: Verb) -> Line<'a>
        ensures { line_of result ≡ lines.start verb }
    {
        Line {
            verb,
            next: Next::Any,
            top: None,
            clock: None,
            half: None,
            order: None,
            defines: ArrayVec::new(),
            withs: ArrayVec::new(),
            share: false,
            paths: ArrayVec::new(),
        }
    }

    /// One more path: the design and 256 stimuli at most.
    fn read_path(&mut self, path: &'a str) -> Option<()>
        ensures { option_map (λ _. line_of self.new) result ≡ lines.with_path path.now (line_of self.old) }
    {
        if self.paths.is_full() {
            return None;
        }
        self.paths.push(path);
        Some(())
    }

    /// `--share`, which is given once at most.
    fn read_share(&mut self) -> Option<()>
        ensures { option_map (λ _. line_of self.new) result ≡ lines.with_share (line_of self.old) }
    {
        if self.share {
            return None;
        }
        self.share = true;
        Some(())
    }

    /// Whether the option has its value, or as many as it may have.
    fn is_given(&self, flag: Flag) -> bool
        ensures { result ≡ lines.is_given flag (line_of self.now) }
    {
        match flag {
            Flag::Top => self.top.is_some(),
            Flag::Clock => self.clock.is_some(),
            Flag::Half => self.half.is_some(),
            Flag::Order => self.order.is_some(),
            Flag::Define => self.defines.is_full(),
            Flag::With => self.withs.is_full(),
        }
    }

    /// The option's value: it doesn't begin with `-`, and the option may have it.
    fn read_value(&mut self, flag: Flag, value: &'a str) -> Option<()>
        ensures { option_map (λ _. line_of self.new) result ≡ lines.with_value flag value.now (line_of self.old) }
    {
        if !is_plain(value) || self.is_given(flag) {
            return None;
        }
        self.next = Next::Any;
        match flag {
            Flag::Top => self.top = Some(value),
            Flag::Clock => self.clock = Some(value),
            Flag::Half => self.half = Some(value),
            Flag::Order => self.order = Some(value),
            Flag::Define => self.defines.push(value),
            Flag::With => self.withs.push(value),
        }
        Some(())
    }

    /// An option alone, or with `=` and its value.
    fn read_option(&mut self, word: &'a str) -> Option<()>
        ensures { option_map (λ _. line_of self.new) result ≡ lines.with_option word.now (line_of self.old) }
    {
        let (name, value) = name_and_value(word);
        let flag = flag_named(name)?;
        match value {
            Some(value) => self.read_value(flag, value),
            None => {
                self.next = Next::Value(flag);
                Some(())
            }
        }
    }

    /// `--`, a path, `--share`, or an option with a value.
    fn read_any(&mut self, word: &'a str) -> Option<()>
        ensures { option_map (λ _. line_of self.new) result ≡ lines.with_any word.now (line_of self.old) }
    {
        if word == "--" {
            self.next = Next::Path;
            Some(())
        } else if is_plain(word) {
            self.read_path(word)
        } else if word == "--share" {
            self.read_share()
        } else {
            self.read_option(word)
        }
    }

    /// One more word.
    fn read_word(&mut self, word: &'a str) -> Option<()>
        ensures { option_map (λ _. line_of self.new) result ≡ lines.with_word self.old.next word.now (line_of self.old) }
    {
        match self.next {
            Next::Any => self.read_any(word),
            Next::Value(flag) => self.read_value(flag, word),
            Next::Path => self.read_path(word),
        }
    }

    /// The line, where no option waits for its value.
    fn complete(self) -> Option<Line<'a>>
        ensures { option_map line_of result ≡ lines.read (line_of self.entry) [] }
    {
        match self.next {
            Next::Value(_) => None,
            _ => Some(self),
        }
    }

    /// The job that the line calls for.
    #[tactic(auto, using(crate::proofs::Once::at_most_once_values))]
    pub(crate) fn called(&self) -> Option<Command<'_, 'a>>
        ensures { option_map job_of result ≡ spec.called self.now.verb (said_of (line_of self.now)) }
    {
        let mode = mode_given(self.verb, self.order)?;
        let top = self.top;
        let clock = self.clock;
        let half = half_given(self.half)?;
        let defines = self.defines.as_slice();
        if !are_defines(defines) {
            return None;
        }
        let others = self.withs.as_slice();
        let (design, stimuli) = design_and_stimuli(most_stimuli(mode), self.paths.as_slice())?;
        let share = share_given(mode, self.share)?;
        Some(Command {
            mode,
            top,
            clock,
            half,
            share,
            defines,
            design,
            others,
            stimuli,
        })
    }
}

/// The words behind the command, one after the other.
fn read_words(verb: Verb, words: &[String]) -> Option<Line<'_>>
    ensures { option_map line_of result ≡ lines.read (lines.start verb) (map string_bytes words.now) }
{
    let mut line = Line::start(verb);
    for word in words {
        line.read_word(word.as_str())?;
    }
    line.complete()
}

/// What the words say.
pub(crate) fn read_line(words: &[String]) -> Option<Line<'_>>
    ensures { option_map line_of result ≡ lines.line (map string_bytes words.now) }
{
    let (verb, words) = verb_and_words(words)?;
    read_words(verb, words)
}

/// The number from 1 to the greatest one that the digits write.
fn number_value(digits: &str, most: u64) -> Option<u64>
    ensures { result ≡ spec.count_value most digits.now }
{
    let (first, _) = digits.as_bytes().split_first()?;
    if *first == b'+' || *first == b'0' {
        return None;
    }
    let count = digits.parse().ok()?;
    if 1 <= count && count <= most {
        Some(count)
    } else {
        None
    }
}

/// The number from 1 to the greatest one that the digits write, where that one has 32 bits.
pub(crate) fn count_value(digits: &str, most: u32) -> Option<u32>
    ensures { result ≡ spec.count_value most digits.now }
{
    let count = number_value(digits, u64::from(most))?;
    Some(count as u32)
}

/// The order that the digits write: any number of 64 bits.
fn order_value(digits: &str) -> Option<u64>
    ensures { result ≡ spec.order_value digits.now }
{
    if digits == "0" {
        return Some(0);
    }
    number_value(digits, u64::MAX)
}

/// What is done with the lanes: the order is given with `queue`, and with no other command.
fn mode_given(verb: Verb, order: Option<&str>) -> Option<Mode>
    ensures { result ≡ spec.mode_given verb (values (option_map (λ s. s.now) order.entry)) }
{
    match (verb, order) {
        (Verb::Run, None) => Some(Mode::Run),
        (Verb::Check, None) => Some(Mode::Check),
        (Verb::Queue, Some(digits)) => Some(Mode::Queue {
            order: order_value(digits)?,
        }),
        _ => None,
    }
}

/// How many stimuli there are at most.
fn most_stimuli(mode: Mode) -> usize
    ensures { result ≡ spec.most_stimuli mode }
{
    match mode {
        Mode::Queue { .. } => 1,
        Mode::Run | Mode::Check => MOST_LANES,
    }
}

/// The first path, which is the design, and the stimuli behind it, of which there are 1 to so many.
fn design_and_stimuli<'b, 'a>(most: usize, paths: &'b [&'a str]) -> Option<(&'a str, &'b [&'a str])>
    ensures { option_map paths_of result ≡ spec.design_and_stimuli most (map (λ s. s.now) paths.now) }
{
    let (design, stimuli) = paths.split_first()?;
    if stimuli.is_empty() || most < stimuli.len() {
        return None;
    }
    Some((*design, stimuli))
}

/// The half-period, which is 5 where none is given.
fn half_given(digits: Option<&str>) -> Option<u32>
    ensures { result ≡ spec.half_given (values (option_map (λ s. s.now) digits.entry)) }
{
    match digits {
        None => Some(DEFAULT_HALF),
        Some(digits) => count_value(digits, MOST_HALF),
    }
}

/// Whether signals share codes: in a run alone.
fn share_given(mode: Mode, share: bool) -> Option<bool>
    ensures { result ≡ spec.share_given mode (lines.shares share) }
{
    match (mode, share) {
        (Mode::Check | Mode::Queue { .. }, true) => None,
        (_, share) => Some(share),
    }
}

/// Copies a word.
fn copy(alloc: Global, word: &str) -> Result<Text, AllocError>
    ensures { IfOk result (λ text. text ≡ word.now) }
{
    Ok(Text::of(String::from_str(alloc, word)?))
}

/// Copies a word, where one is given.
fn copy_given(alloc: Global, word: Option<&str>) -> Result<Option<Text>, AllocError>
    ensures { IfOk result (λ text. text ≡ option_map (λ s. s.now) word.entry) }
{
    match word {
        Some(word) => Ok(Some(copy(alloc, word)?)),
        None => Ok(None),
    }
}

/// Copies words.
fn copies(alloc: Global, words: &[&str]) -> Result<Texts, AllocError>
    ensures { IfOk result (λ texts. texts ≡ map (λ s. s.now) words.now) }
{
    let mut texts = Vec::new(alloc);
    for word in words {
        texts.push(copy(alloc, *word)?)?;
    }
    Ok(Texts::of(texts))
}

/// The names that commas part.
fn pieces<'a>(alloc: Global, value: &'a str) -> Result<Vec<&'a str>, AllocError>
    ensures { IfOk result (λ names. map (λ s. s.now) names.items ≡ spec.parted value.now) }
{
    value.split(',').collect(alloc)
}

/// Copies the names that commas part.
fn parted(alloc: Global, value: &str) -> Result<Texts, AllocError>
    ensures { IfOk result (λ names. names ≡ spec.parted value.now) }
{
    let names = pieces(alloc, value)?;
    copies(alloc, names.as_slice())
}

/// Copies the names that the value of `--clock` has, where one is given.
fn names_given(alloc: Global, value: Option<&str>) -> Result<Texts, AllocError>
    ensures { IfOk result (λ names. names ≡ spec.names_given (option_map (λ s. s.now) value.entry)) }
{
    match value {
        Some(value) => parted(alloc, value),
        None => Ok(Texts::of(Vec::new(alloc))),
    }
}

impl Command<'_, '_> {
    /// The job, with copies of the words.
    pub(crate) fn to_job(self, alloc: Global) -> Result<Job, AllocError>
        ensures { IfOk result (λ j. j ≡ job_of self.entry) }
    {
        Ok(Job {
            mode: self.mode,
            top: copy_given(alloc, self.top)?,
            clocks: names_given(alloc, self.clock)?,
            half: self.half,
            share: self.share,
            head: head_of(alloc, self.defines)?,
            design: copy(alloc, self.design)?,
            others: copies(alloc, self.others)?,
            stimuli: copies(alloc, self.stimuli)?,
        })
    }
}
