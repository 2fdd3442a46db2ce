//! The text of the design: the lines of the macros that the words define, and its files behind them.

ghost use Rattle.std.specs.Prelude.{◌≡◌, ◌≢◌, ◌⊎◌, ◌<◌, ◌≤◌, ◌+◌, ◌++◌, [], ℕ, length, take, IsTrue, IsNone, IfOk, IfErr, OnOk, OnErr, string_bytes};
ghost use Rattle.vs_desk.specs.Desk.{IsAttached, Fails, with_place};
ghost use Rattle.vs_desk.specs.declared.desk.Way.TheVariants.{Read};
ghost use Rattle.vs_desk.specs.Taking.{OnlyTaken, TakesAt};
ghost use Rattle.vs_desk.specs.Places.{most_others};
ghost use Rattle.vs_accept.specs.Accepted.{most_bytes};
ghost use Rattle.vs_job.specs.Job.{most_head};
ghost use Rattle.vs_setup.specs.declared.design_text.DesignError.TheVariants.{Memory};
ghost use Rattle.vs_setup.specs.DesignText.{AreFilesFree, AreTaken, AreTextsKept, FileFails, IsBehind, IsPartTaken, IsTooLongBehind, IsUnread, joined_files, with_design};

use std::alloc::{AllocError, Global};
use thiserror::Error;
use vs_accept::MAX_BYTES;
use vs_desk::{DESIGN_PLACE, Desk, FIRST_OTHER, Failed, Way, attach_law};
use vs_job::Job;

/// How many bytes are taken at once at most.
const BLOCK: usize = 4096;

/// Why the design's text wasn't read.
#[derive(Clone, Copy, PartialEq, Eq, Debug, Error)]
pub enum DesignError {
    /// 3: the text has more than 4,194,304 bytes, head and files together.
    #[error("the design's text has too many bytes")]
    TooLong,
    /// A call on the desk failed at this place.
    #[error("place {place} can't be read")]
    ReadFault { place: u32 },
    /// Memory ran out.
    #[error("out of memory")]
    Memory,
}

impl From<AllocError> for DesignError {
    ghost from_gives = { λ _ e. e ≡ Memory };

    fn from(_error: AllocError) -> DesignError {
        DesignError::Memory
    }
}

/// Takes bytes into the front of a block, at most so many.
fn take_front<D: Desk>(
    desk: &mut D,
    place: u32,
    block: &mut [u8],
    most: usize,
) -> Result<usize, DesignError>
    requires attached { IsAttached (D.told desk.old).register place Read }
    requires room { 0 < length block.old }
    requires some { 0 < most }
    ensures within { IfOk result (λ n. n ≤ length block.old) }
    ensures most { IfOk result (λ n. n ≤ most) }
    ensures moved { IsTrue D.tells → IfOk result (λ n. take n block.new ++ (D.told desk.new).contents.left place ≡ (D.told desk.old).contents.left place) }
    ensures end { IsTrue D.tells → IfOk result (λ n. n ≡ 0 → (D.told desk.old).contents.left place ≡ []) }
    ensures only { IsTrue D.tells → OnlyTaken place (D.told desk.old).contents (D.told desk.new).contents }
    ensures same { OnOk result ((D.told desk.new).register ≡ (D.told desk.old).register) }
    ensures fault { IfErr result (λ e. e ≡ DesignError.ReadFault place) }
    ensures failed { OnErr result (Fails (D.told desk.old).register (D.told desk.new).register place (D.told desk.old).register.asked) }
    ensures kept { IsTrue D.tells → OnErr result ((D.told desk.new).contents ≡ (D.told desk.old).contents) }
{
    let room = block.len().min(most);
    match desk.take(place, &mut block[..room]) {
        Ok(taken) => Ok(taken),
        Err(Failed) => Err(DesignError::ReadFault { place }),
    }
}

/// Takes a file to its end, and puts it behind the text.
fn take_text<D: Desk>(desk: &mut D, place: u32, text: &mut Vec<u8>) -> Result<(), DesignError>
    requires attached { IsAttached (D.told desk.old).register place Read }
    requires short { length text.old.items ≤ most_bytes + 1 }
    ensures text { OnOk result (IsBehind D.tells text.old.items ((D.told desk.old).contents.left place) text.new.items) }
    ensures end { IsTrue D.tells → OnOk result ((D.told desk.new).contents.left place ≡ []) }
    ensures short { OnOk result (length text.new.items ≤ most_bytes) }
    ensures long { IsTrue D.tells → result ≡ Err DesignError.TooLong → IsTooLongBehind text.old.items ((D.told desk.old).contents.left place) ((D.told desk.new).contents.left place) }
    ensures desk { TakesAt place (D.told desk.old) (D.told desk.new) (DesignError.ReadFault place) result }
    ensures fault { (p : ℕ) → result ≡ Err (DesignError.ReadFault p) → p ≡ place }
    ensures part { IsTrue D.tells → result ≡ Err (DesignError.ReadFault place) → IsPartTaken text.old.items ((D.told desk.old).contents.left place) ((D.told desk.new).contents.left place) }
{
    let mut block = [0; BLOCK];
    'taking: loop {
        if text.len() > MAX_BYTES {
            return Err(DesignError::TooLong);
        }
        let taken = take_front(desk, place, &mut block, MAX_BYTES + 1 - text.len())?;
        if taken == 0 {
            return Ok(());
        }
        text.extend_from_slice(&block[..taken])?;
    }
}

/// Reads a file of the design, with these bytes before it: puts the bytes behind the text, attaches the file's place to the path, takes
/// the file to its end, and puts it behind them.
fn read_file<D: Desk>(
    desk: &mut D,
    place: u32,
    path: String,
    before: &[u8],
    text: &mut Vec<u8>,
) -> Result<(), DesignError>
    requires place { place ≢ 0 }
    requires free { IsNone ((D.told desk.old).register.attached place) }
    requires short { length (text.old.items ++ before.now) ≤ most_bytes + 1 }
    ensures text { OnOk result (IsBehind D.tells (text.old.items ++ before.now) ((D.told desk.old).contents.files (string_bytes path)) text.new.items) }
    ensures end { IsTrue D.tells → OnOk result ((D.told desk.new).contents.left place ≡ []) }
    ensures short { OnOk result (length text.new.items ≤ most_bytes) }
    ensures attached { OnOk result ((D.told desk.new).register ≡ with_place (D.told desk.old).register place Read (string_bytes path)) }
    ensures only { IsTrue D.tells → OnlyTaken place (D.told desk.old).contents (D.told desk.new).contents }
    ensures long { result ≡ Err DesignError.TooLong → ((D.told desk.new).register ≡ with_place (D.told desk.old).register place Read (string_bytes path))
        × (IsTrue D.tells → IsTooLongBehind (text.old.items ++ before.now) ((D.told desk.old).contents.files (string_bytes path)) ((D.told desk.new).contents.left place)) }
    ensures memory { result ≡ Err DesignError.Memory → ((D.told desk.new).register ≡ (D.told desk.old).register)
        ⊎ ((D.told desk.new).register ≡ with_place (D.told desk.old).register place Read (string_bytes path)) }
    ensures fault { (p : ℕ) → result ≡ Err (DesignError.ReadFault p) → (p ≡ place) × FileFails (D.told desk.old) (D.told desk.new) place (text.old.items ++ before.now) (string_bytes path) }
{
    text.extend_from_slice(before)?;
    match desk.attach(place, path, Way::Read) {
        Ok(()) => take_text(desk, place, text),
        Err(Failed) => Err(DesignError::ReadFault { place }),
    }
}

/// Reads the design's text, which is the job's head and the design's files behind it, the further ones behind a line feed each:
/// attaches the place of each to its path, and takes it to its end, one file behind the other.
///
/// `TooLong` comes exactly where byte 4,194,305 of the text was taken, and nothing is taken behind it. `ReadFault`
/// comes only where a call at that place failed.
pub fn read_design<D: Desk>(alloc: Global, desk: &mut D, job: &Job) -> Result<Vec<u8>, DesignError>
    requires head { length job.now.head ≤ most_head }
    requires together { length job.now.others ≤ most_others }
    requires free { AreFilesFree (D.told desk.old).register (length job.now.others) }
    ensures text { IfOk result (λ text. IsBehind D.tells job.now.head (joined_files (D.told desk.old).contents.files job.now.design job.now.others) text.items) }
    ensures end { IsTrue D.tells → OnOk result (AreTaken job.now (D.told desk.new).contents) }
    ensures short { IfOk result (λ text. length text.items ≤ most_bytes) }
    ensures register { OnOk result ((D.told desk.new).register ≡ with_design (D.told desk.old).register job.now.design job.now.others) }
    ensures kept { IsTrue D.tells → AreTextsKept (D.told desk.old).contents (D.told desk.new).contents }
    ensures unread { IfErr result (IsUnread job.now (D.told desk.old) (D.told desk.new)) }
{
    attach_law();
    let mut text = Vec::new(alloc);
    let path = String::from_str(alloc, job.design.as_str())?;
    read_file(desk, DESIGN_PLACE, path, job.head.as_bytes(), &mut text)?;
    for i in 0..job.others.len() {
        let path = String::from_str(alloc, job.others.get(i).as_str())?;
        read_file(desk, FIRST_OTHER + i as u32, path, b"\n", &mut text)?;
    }
    Ok(text)
}
