//! A file that is read again.

ghost use Rattle.std.specs.Prelude.{◌≡◌, ◌≢◌, ◌<◌, ◌≤◌, ◌++◌, ◌-◌, ℕ, [], Err, length, take, count_by, if◌then◌else◌, IsTrue, IsNone, IfOk, OnOk, OnErr, string_bytes};
ghost use Rattle.vs_desk.specs.Desk.{IsAttached, Fails, Rose};
ghost use Rattle.vs_desk.specs.Places.{most_lanes, most_others};
ghost use Rattle.vs_desk.specs.Taking.{OnlyTaken, TakesAt};
ghost use Rattle.vs_desk.specs.declared.desk.Way.TheVariants.{Read};
ghost use Rattle.vs_reread.specs.declared.again.AgainError.TheVariants.{ReadFault, Memory};
ghost use Rattle.vs_excerpt.specs.Positions.{is_newline};
ghost use Rattle.vs_reread.specs.Again.{IsAgain, lane_again, other_again, most_bytes, most_stimulus, first_lines, IsStart, OnlyRead, OnlyReadAt, IsFaultless};

use std::alloc::{AllocError, Global};
use thiserror::Error;
use vs_desk::{Desk, Failed, Way};
use vs_lexer::MAX_BYTES;

/// The place at which a design is read again.
pub const DESIGN_AGAIN: u32 = 2;

/// The place at which a stimulus is read again.
pub const STIMULUS_AGAIN: u32 = 3;

/// The place at which the stimulus of lane 0 is read again where those of several lanes are; that of each other lane stands behind it.
const FIRST_LANE_AGAIN: u32 = 4;

/// The greatest number of bytes in the text of a stimulus.
const MAX_STIMULUS: usize = 4_294_967_296;

/// How many bytes are taken at once at most.
const BLOCK: usize = 4096;

/// Why a file wasn't read again.
#[derive(Clone, Copy, PartialEq, Eq, Debug, Error)]
pub enum AgainError {
    /// A call on the desk failed.
    #[error("the file can't be read again")]
    ReadFault,
    /// Memory ran out.
    #[error("out of memory")]
    Memory,
}

impl From<Failed> for AgainError {
    ghost from_gives = { λ _ e. e ≡ ReadFault };

    fn from(_failed: Failed) -> AgainError {
        AgainError::ReadFault
    }
}

impl From<AllocError> for AgainError {
    ghost from_gives = { λ _ e. e ≡ Memory };

    fn from(_error: AllocError) -> AgainError {
        AgainError::Memory
    }
}

/// Takes bytes into the front of a block, at most so many.
fn take_front<D: Desk>(
    desk: &mut D,
    place: u32,
    block: &mut [u8],
    most: usize,
) -> Result<usize, Failed>
    requires attached { IsAttached (D.told desk.old).register place Read }
    requires room { 0 < length block.old }
    requires some { 0 < most }
    ensures within { IfOk result (λ n. n ≤ length block.old) }
    ensures most { IfOk result (λ n. n ≤ most) }
    ensures moved { IsTrue D.tells → IfOk result (λ n. take n block.new ++ (D.told desk.new).contents.left place ≡ (D.told desk.old).contents.left place) }
    ensures end { IsTrue D.tells → IfOk result (λ n. n ≡ 0 → (D.told desk.old).contents.left place ≡ []) }
    ensures only { IsTrue D.tells → OnlyTaken place (D.told desk.old).contents (D.told desk.new).contents }
    ensures same { OnOk result ((D.told desk.new).register ≡ (D.told desk.old).register) }
    ensures failed { OnErr result (Fails (D.told desk.old).register (D.told desk.new).register place (D.told desk.old).register.asked) }
{
    let room = block.len().min(most);
    desk.take(place, &mut block[..room])
}

/// Takes the first bytes of a file, as many as a text may have, behind those of the head.
fn take_start<D: Desk>(
    alloc: Global,
    desk: &mut D,
    place: u32,
    head: &[u8],
) -> Result<Vec<u8>, AgainError>
    requires attached { IsAttached (D.told desk.old).register place Read }
    requires head { length head.now ≤ most_bytes }
    ensures text { IfOk result (λ text. IsStart D.tells head.now ((D.told desk.old).contents.left place) text.items) }
    ensures short { IfOk result (λ text. length text.items ≤ most_bytes) }
    ensures desk { TakesAt place (D.told desk.old) (D.told desk.new) AgainError.ReadFault result }
{
    let mut text = Vec::new(alloc);
    text.extend_from_slice(head)?;
    let mut block = [0; BLOCK];
    'taking: while text.len() < MAX_BYTES {
        let taken = take_front(desk, place, &mut block, MAX_BYTES - text.len())?;
        if taken == 0 {
            return Ok(text);
        }
        text.extend_from_slice(&block[..taken])?;
    }
    Ok(text)
}

/// How many lines end in a text.
fn line_ends(text: &[u8]) -> u64
    ensures { result ≡ count_by is_newline text.now }
{
    text.iter().filter(|b| **b == b'\n').count() as u64
}

/// How many of so many lines are left behind a byte, which ends one where it is an LF.
fn lines_behind(b: u8, left: u64) -> u64
    requires { 0 < left }
    ensures { result ≡ (if is_newline b then left - 1 else left) }
{
    if b == b'\n' { left - 1 } else { left }
}

/// How many bytes the first n lines of a text have, each with its LF.
fn lines_len(text: &[u8], n: u64) -> usize
    ensures within { result ≤ length text.now }
    ensures lines { take result text.now ≡ first_lines n text.now }
{
    let mut end = 0;
    let mut left = n;
    while end < text.len() && left > 0 {
        left = lines_behind(text[end], left);
        end += 1;
    }
    end
}

/// Takes bytes of a file until they have its first n lines, and perhaps some more.
fn take_past<D: Desk>(
    alloc: Global,
    desk: &mut D,
    place: u32,
    n: u64,
) -> Result<Vec<u8>, AgainError>
    requires attached { IsAttached (D.told desk.old).register place Read }
    ensures lines { IfOk result (λ text. IsTrue D.tells → first_lines n text.items ≡ first_lines n (take most_stimulus ((D.told desk.old).contents.left place))) }
    ensures desk { TakesAt place (D.told desk.old) (D.told desk.new) AgainError.ReadFault result }
{
    let mut text = Vec::new(alloc);
    let mut block = [0; BLOCK];
    let mut left = n;
    'taking: while left > 0 && text.len() < MAX_STIMULUS {
        let count = take_front(desk, place, &mut block, MAX_STIMULUS - text.len())?;
        if count == 0 {
            return Ok(text);
        }
        left = left.saturating_sub(line_ends(&block[..count]));
        text.extend_from_slice(&block[..count])?;
    }
    Ok(text)
}

/// Takes the first n lines of a file, of the bytes that a stimulus may have.
fn take_lines<D: Desk>(
    alloc: Global,
    desk: &mut D,
    place: u32,
    n: u64,
) -> Result<Vec<u8>, AgainError>
    requires attached { IsAttached (D.told desk.old).register place Read }
    ensures text { IfOk result (λ text. IsTrue D.tells → text.items ≡ first_lines n (take most_stimulus ((D.told desk.old).contents.left place))) }
    ensures desk { TakesAt place (D.told desk.old) (D.told desk.new) AgainError.ReadFault result }
{
    let mut text = take_past(alloc, desk, place, n)?;
    let end = lines_len(&text, n);
    text.truncate(end);
    Ok(text)
}

/// Reads a design again: attaches one of the places 2 and 3 to its path, and takes the first bytes of it, as many as the text of a design may have, behind those of the
/// head. The answer is head and file together.
///
/// `ReadFault` comes only where a call at that place failed.
pub fn read_again<D: Desk>(
    alloc: Global,
    desk: &mut D,
    place: u32,
    path: String,
    head: &[u8],
) -> Result<Vec<u8>, AgainError>
    requires again { IsAgain place }
    requires free { IsNone ((D.told desk.old).register.attached place) }
    requires head { length head.now ≤ most_bytes }
    ensures text { IfOk result (λ text. IsStart D.tells head.now ((D.told desk.old).contents.files (string_bytes path)) text.items) }
    ensures short { IfOk result (λ text. length text.items ≤ most_bytes) }
    ensures only { OnlyRead (D.told desk.old) (D.told desk.new) }
    ensures other { (p : ℕ) → p ≢ place → (D.told desk.new).register.attached p ≡ (D.told desk.old).register.attached p }
    ensures failed { result ≡ Err AgainError.ReadFault → Rose (D.told desk.old).register.faults (D.told desk.new).register.faults }
    ensures faultless { result ≢ Err AgainError.ReadFault → IsFaultless (D.told desk.old).register (D.told desk.new).register }
{
    desk.attach(place, path, Way::Read)?;
    take_start(alloc, desk, place, head)
}

/// Reads further file n of a design again: attaches place 4 + n to its path, and takes the first bytes of it, as many as the text of a design may have, behind those of
/// the head. The answer is head and file together.
///
/// `ReadFault` comes only where a call at that place failed.
pub fn read_other<D: Desk>(
    alloc: Global,
    desk: &mut D,
    n: u32,
    path: String,
    head: &[u8],
) -> Result<Vec<u8>, AgainError>
    requires few { n < most_others }
    requires free { IsNone ((D.told desk.old).register.attached (other_again n)) }
    requires head { length head.now ≤ most_bytes }
    ensures text { IfOk result (λ text. IsStart D.tells head.now ((D.told desk.old).contents.files (string_bytes path)) text.items) }
    ensures short { IfOk result (λ text. length text.items ≤ most_bytes) }
    ensures only { OnlyReadAt (other_again n) (D.told desk.old) (D.told desk.new) }
    ensures failed { result ≡ Err AgainError.ReadFault → Rose (D.told desk.old).register.faults (D.told desk.new).register.faults }
    ensures faultless { result ≢ Err AgainError.ReadFault → IsFaultless (D.told desk.old).register (D.told desk.new).register }
{
    let place = FIRST_LANE_AGAIN + n;
    desk.attach(place, path, Way::Read)?;
    take_start(alloc, desk, place, head)
}

/// Reads a stimulus again, as far as its line n: attaches one of the places 2 and 3 to its path, and takes the first n lines of it, each with its LF, of the 4,294,967,296
/// bytes that a stimulus may have.
///
/// `ReadFault` comes only where a call at that place failed.
pub fn read_lines<D: Desk>(
    alloc: Global,
    desk: &mut D,
    place: u32,
    path: String,
    n: u64,
) -> Result<Vec<u8>, AgainError>
    requires again { IsAgain place }
    requires free { IsNone ((D.told desk.old).register.attached place) }
    ensures text { IfOk result (λ text. IsTrue D.tells → text.items ≡ first_lines n (take most_stimulus ((D.told desk.old).contents.files (string_bytes path)))) }
    ensures only { OnlyRead (D.told desk.old) (D.told desk.new) }
    ensures other { (p : ℕ) → p ≢ place → (D.told desk.new).register.attached p ≡ (D.told desk.old).register.attached p }
    ensures failed { result ≡ Err AgainError.ReadFault → Rose (D.told desk.old).register.faults (D.told desk.new).register.faults }
    ensures faultless { result ≢ Err AgainError.ReadFault → IsFaultless (D.told desk.old).register (D.told desk.new).register }
{
    desk.attach(place, path, Way::Read)?;
    take_lines(alloc, desk, place, n)
}

/// Reads the stimulus of a lane again, as far as its line n: attaches place 4 + lane to its path, and takes the first n lines of it, each with its LF, of the
/// 4,294,967,296 bytes that a stimulus may have. So the stimuli of all lanes can be read again, one behind the other.
///
/// `ReadFault` comes only where a call at that place failed.
pub fn read_lane<D: Desk>(
    alloc: Global,
    desk: &mut D,
    lane: u32,
    path: String,
    n: u64,
) -> Result<Vec<u8>, AgainError>
    requires lane { lane < most_lanes }
    requires free { IsNone ((D.told desk.old).register.attached (lane_again lane)) }
    ensures text { IfOk result (λ text. IsTrue D.tells → text.items ≡ first_lines n (take most_stimulus ((D.told desk.old).contents.files (string_bytes path)))) }
    ensures only { OnlyReadAt (lane_again lane) (D.told desk.old) (D.told desk.new) }
    ensures failed { result ≡ Err AgainError.ReadFault → Rose (D.told desk.old).register.faults (D.told desk.new).register.faults }
    ensures faultless { result ≢ Err AgainError.ReadFault → IsFaultless (D.told desk.old).register (D.told desk.new).register }
{
    let place = FIRST_LANE_AGAIN + lane;
    desk.attach(place, path, Way::Read)?;
    take_lines(alloc, desk, place, n)
}
