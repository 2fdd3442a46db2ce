//! Texts of cases, read. `README.md` of this crate says how they are written.

use crate::escapes::unescape;
use std::alloc::{AllocError, AllocFailed, Global};
use thiserror::Error;

/// Why a text isn't one of cases.
#[derive(Clone, Copy, PartialEq, Eq, Debug, Drop, Error)]
pub enum ReadError {
    #[error("a part stands before the first case")]
    NoCase,
    #[error("an escape is none of those that there are")]
    BadEscape,
    #[error("a number isn't one")]
    BadNumber,
    #[error("a word isn't text")]
    BadWord,
    #[error("no memory")]
    Memory,
}

impl From<AllocError> for ReadError {
    fn from(_error: AllocError) -> Self {
        ReadError::Memory
    }
}

impl<T: Drop> From<AllocFailed<T>> for ReadError {
    fn from(_error: AllocFailed<T>) -> Self {
        ReadError::Memory
    }
}

/// What a part of a case says.
#[derive(Drop)]
pub enum Kind {
    /// The desk has a file at this path.
    File(String),
    /// A run may end with this status, and with so many plane operations where the number is told.
    Answer { status: u8, steps: Option<u64> },
    /// A run writes a file at this path.
    Waveform(String),
    /// A run writes a file at this path, whose bytes the case doesn't tell.
    AnyWaveform(String),
}

/// A part of a case, and the bytes of its file or of its report.
#[derive(Drop)]
pub struct Part {
    pub kind: Kind,
    pub bytes: Vec<u8>,
}

/// A command line, the files that it finds, and what it has to leave.
#[derive(Drop)]
pub struct Case {
    pub name: String,
    /// Whether the run has to differ from what the case says: such a case tries the comparison itself.
    pub is_wrong: bool,
    pub words: Vec<String>,
    pub parts: Vec<Part>,
}

/// A line of a text of cases, without what marks it.
enum Line<'a> {
    Name { name: &'a str, is_wrong: bool },
    File(&'a str),
    Answer(&'a str),
    Waveform(&'a str),
    AnyWaveform(&'a str),
    Text(&'a str),
}

impl Line<'_> {
    /// What a line is.
    fn of(line: &str) -> Line<'_> {
        if let Some(name) = line.strip_prefix("==== ") {
            Line::Name {
                name,
                is_wrong: false,
            }
        } else if let Some(name) = line.strip_prefix("!!!! ") {
            Line::Name {
                name,
                is_wrong: true,
            }
        } else if let Some(path) = line.strip_prefix("---- ") {
            Line::File(path)
        } else if let Some(numbers) = line.strip_prefix(">>>> ") {
            Line::Answer(numbers)
        } else if let Some(path) = line.strip_prefix("++++ ") {
            Line::Waveform(path)
        } else if let Some(path) = line.strip_prefix("???? ") {
            Line::AnyWaveform(path)
        } else {
            Line::Text(line)
        }
    }
}

/// The text of a word.
fn read_word(alloc: Global, word: &str) -> Result<String, ReadError> {
    let bytes = unescape(alloc, word, b"")?;
    match String::from_utf8(bytes) {
        Ok(text) => Ok(text),
        Err(_) => Err(ReadError::BadWord),
    }
}

/// The words of a command line, with one blank between them.
fn read_words(alloc: Global, line: &str) -> Result<Vec<String>, ReadError> {
    let mut words = Vec::new(alloc);
    for word in line.split(' ') {
        words.push(read_word(alloc, word)?)?;
    }
    Ok(words)
}

/// An answer of these numbers: a status, and the number of plane operations where there is a second one.
fn read_answer(numbers: &str) -> Result<Kind, ReadError> {
    let (status, steps) = match numbers.split_once(' ') {
        None => (numbers, None),
        Some((status, steps)) => match steps.parse::<u64>() {
            Ok(steps) => (status, Some(steps)),
            Err(_) => return Err(ReadError::BadNumber),
        },
    };
    match status.parse::<u8>() {
        Ok(status) => Ok(Kind::Answer { status, steps }),
        Err(_) => Err(ReadError::BadNumber),
    }
}

/// How often a line of a file stands there, and the line: `\*N LINE` stands N times, every other line once.
fn read_times(line: &str) -> Result<(u32, &str), ReadError> {
    let Some(repeated) = line.strip_prefix("\\*") else {
        return Ok((1, line));
    };
    let Some((number, line)) = repeated.split_once(' ') else {
        return Err(ReadError::BadNumber);
    };
    match number.parse::<u32>() {
        Ok(times) => Ok((times, line)),
        Err(_) => Err(ReadError::BadNumber),
    }
}

impl Part {
    /// A part without bytes.
    fn new(alloc: Global, kind: Kind) -> Part {
        Part {
            kind,
            bytes: Vec::new(alloc),
        }
    }

    /// Adds the bytes that a line stands for.
    fn add_line(&mut self, alloc: Global, line: &str) -> Result<(), ReadError> {
        let (times, line) = read_times(line)?;
        let bytes = unescape(alloc, line, b"\n")?;
        for _ in 0..times {
            self.bytes.extend_from_slice(&bytes)?;
        }
        Ok(())
    }
}

impl Case {
    /// A case of this name without words and parts.
    fn new(alloc: Global, name: &str, is_wrong: bool) -> Result<Case, ReadError> {
        Ok(Case {
            name: String::from_str(alloc, name)?,
            is_wrong,
            words: Vec::new(alloc),
            parts: Vec::new(alloc),
        })
    }

    /// Adds a line of text: to the last part, or the command line where there is no part.
    fn add_text(&mut self, alloc: Global, line: &str) -> Result<(), ReadError> {
        match self.parts.last_mut() {
            Some(part) => part.add_line(alloc, line)?,
            None => self.words = read_words(alloc, line)?,
        }
        Ok(())
    }
}

/// Adds a line to the cases before it. Text in front of the first case says nothing.
fn add_line(alloc: Global, cases: &mut Vec<Case>, line: &str) -> Result<(), ReadError> {
    let kind = match Line::of(line) {
        Line::Name { name, is_wrong } => {
            cases.push(Case::new(alloc, name, is_wrong)?)?;
            return Ok(());
        }
        Line::Text(text) => {
            return match cases.last_mut() {
                Some(case) => case.add_text(alloc, text),
                None => Ok(()),
            };
        }
        Line::File(path) => Kind::File(read_word(alloc, path)?),
        Line::Answer(numbers) => read_answer(numbers)?,
        Line::Waveform(path) => Kind::Waveform(read_word(alloc, path)?),
        Line::AnyWaveform(path) => Kind::AnyWaveform(read_word(alloc, path)?),
    };
    match cases.last_mut() {
        Some(case) => case.parts.push(Part::new(alloc, kind))?,
        None => return Err(ReadError::NoCase),
    }
    Ok(())
}

/// The cases of a text, in order.
pub fn read_cases(alloc: Global, text: &str) -> Result<Vec<Case>, ReadError> {
    let mut cases = Vec::new(alloc);
    for line in text.lines() {
        add_line(alloc, &mut cases, line)?;
    }
    Ok(cases)
}
