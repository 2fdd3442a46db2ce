//! The files of a design, read again one behind the other.

ghost use Rattle.std.specs.Prelude.{◌≡◌, ◌≢◌, ◌<◌, ◌≤◌, ◌+◌, ◌-◌, ◌++◌, ◌∷◌, ℕ, [], Err, IsNone, IsTrue, IfOk, OnOk, MatchOption, length, slice_index_or};
ghost use Rattle.vs_desk.specs.Desk.{Rose};
ghost use Rattle.vs_desk.specs.Places.{most_others};
ghost use Rattle.vs_reread.specs.Again.{AreUnread, stimulus_again, other_again, most_bytes, IsFaultless, OnlyRead};
ghost use Rattle.vs_explainer.specs.Joined.{IsJoined, JoinsNext};

use std::alloc::{AllocError, Global};
use vs_desk::Desk;
use vs_job::Job;
use vs_lexer::MAX_BYTES;
use vs_reread::{AgainError, DESIGN_AGAIN, read_again, read_other};

/// The text of a design that was read again.
#[derive(Drop)]
pub(crate) struct Joined {
    /// Its bytes, behind the lines of macros.
    pub(crate) text: Vec<u8>,
    /// The bytes behind these lines at which its further files begin, in order.
    pub(crate) starts: Vec<usize>,
}

impl Joined {
    /// Begins a further file, behind a line feed, in a text with a head of so many bytes. The only error is that memory ran out.
    fn begin_file(&mut self, head: usize) -> Result<(), AllocError>
        requires head { head ≤ length self.old.text.items }
        requires short { length self.old.text.items < most_bytes }
        ensures text { OnOk result (self.new.text.items ≡ self.old.text.items ++ 10 ∷ []) }
        ensures starts { OnOk result (self.new.starts.items ≡ self.old.starts.items ++ (length self.old.text.items + 1 - head) ∷ []) }
    {
        self.text.push(b'\n')?;
        let start = self.text.len() - head;
        self.starts.push(start)?;
        Ok(())
    }
}

/// Reads further file n of the design, behind a line feed, where the text has room for one.
fn read_next<D: Desk>(
    alloc: Global,
    desk: &mut D,
    job: &Job,
    n: usize,
    joined: &mut Joined,
) -> Result<(), AgainError>
    requires file { n < length job.now.others }
    requires few { n < most_others }
    requires free { IsNone ((D.told desk.old).register.attached (other_again n)) }
    requires head { length job.now.head ≤ length joined.old.text.items }
    requires short { length joined.old.text.items ≤ most_bytes }
    ensures short { OnOk result (length joined.new.text.items ≤ most_bytes) }
    ensures head { OnOk result (length job.now.head ≤ length joined.new.text.items) }
    ensures only { OnlyRead (D.told desk.old) (D.told desk.new) }
    ensures other { (p : ℕ) → p ≢ other_again n → (D.told desk.new).register.attached p ≡ (D.told desk.old).register.attached p }
    ensures joined { OnOk result (JoinsNext D.tells job.now.head ((D.told desk.old).contents.files (slice_index_or job.now.others n [])) joined.old.text.items joined.old.starts.items joined.new.text.items joined.new.starts.items) }
    ensures failed { result ≡ Err AgainError.ReadFault → Rose (D.told desk.old).register.faults (D.told desk.new).register.faults }
    ensures faultless { result ≢ Err AgainError.ReadFault → IsFaultless (D.told desk.old).register (D.told desk.new).register }
{
    if joined.text.len() >= MAX_BYTES {
        return Ok(());
    }
    joined.begin_file(job.head.as_bytes().len())?;
    let path = String::from_str(alloc, job.others.get(n).as_str())?;
    joined.text = read_other(alloc, desk, n as u32, path, joined.text.as_slice())?;
    Ok(())
}

/// Reads the files of the design again, one behind the other.
fn read_joined<D: Desk>(alloc: Global, desk: &mut D, job: &Job) -> Result<Joined, AgainError>
    requires free { AreUnread (D.told desk.old).register }
    requires head { length job.now.head ≤ most_bytes }
    requires few { length job.now.others ≤ most_others }
    ensures joined { IfOk result (λ j. IsJoined D.tells job.now.head (D.told desk.old).contents.files job.now.design job.now.others j.text.items j.starts.items) }
    ensures short { IfOk result (λ j. length j.text.items ≤ most_bytes) }
    ensures only { OnlyRead (D.told desk.old) (D.told desk.new) }
    ensures stimulus { (D.told desk.new).register.attached stimulus_again ≡ (D.told desk.old).register.attached stimulus_again }
    ensures failed { result ≡ Err AgainError.ReadFault → Rose (D.told desk.old).register.faults (D.told desk.new).register.faults }
    ensures faultless { result ≢ Err AgainError.ReadFault → IsFaultless (D.told desk.old).register (D.told desk.new).register }
{
    let path = String::from_str(alloc, job.design.as_str())?;
    let text = read_again(alloc, desk, DESIGN_AGAIN, path, job.head.as_bytes())?;
    let mut joined = Joined {
        text,
        starts: Vec::new(alloc),
    };
    for n in 0..job.others.len() {
        read_next(alloc, desk, job, n, &mut joined)?;
    }
    Ok(joined)
}

/// The text of the design behind the lines of macros, with all its files, or None where a call at a place of theirs failed.
pub(crate) fn read_design<D: Desk>(
    alloc: Global,
    desk: &mut D,
    job: &Job,
) -> Result<Option<Joined>, AllocError>
    requires free { AreUnread (D.told desk.old).register }
    requires head { length job.now.head ≤ most_bytes }
    requires few { length job.now.others ≤ most_others }
    ensures only { OnlyRead (D.told desk.old) (D.told desk.new) }
    ensures stimulus { (D.told desk.new).register.attached stimulus_again ≡ (D.told desk.old).register.attached stimulus_again }
    ensures read { IfOk result (λ o. MatchOption o (Rose (D.told desk.old).register.faults (D.told desk.new).register.faults)
        (λ j. IsJoined D.tells job.now.head (D.told desk.old).contents.files job.now.design job.now.others j.text.items j.starts.items × (length j.text.items ≤ most_bytes) × IsFaultless (D.told desk.old).register (D.told desk.new).register)) }
{
    match read_joined(alloc, desk, job) {
        Ok(joined) => Ok(Some(joined)),
        Err(AgainError::ReadFault) => Ok(None),
        Err(AgainError::Memory) => Err(AllocError),
    }
}
