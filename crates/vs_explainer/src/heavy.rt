//! What is weighed of a design that is too large.

ghost use Rattle.std.specs.Prelude.{◌≡◌, ◌≤◌, List, None, Option, Some, IfOk, drop, length, map, option_map};
ghost use Rattle.vs_flat.specs.DesignOf.{design_of};
ghost use Rattle.vs_flat.specs.Lawful.{IsLawful};
ghost use Rattle.vs_typed.specs.Refused.{first_refused};
ghost use Rattle.vs_typed.specs.Weights.{told_weight};
ghost use Rattle.vs_explanation.specs.Heavy as most;
ghost use Rattle.vs_explanation.specs.declared.heavy.Heavy as declared;
ghost use Rattle.vs_desk.specs.Places.{most_others};
ghost use Rattle.vs_reread.specs.Again.{most_bytes, AreUnread, OnlyRead};
ghost use Rattle.vs_explainer.specs.Heavy.{AreWeighed, unless_refused, weighed_in};
ghost use Rattle.vs_explainer.specs.Lent.{seen_of};
ghost use Rattle.vs_explainer.specs.Looks as spec;

use crate::joined::{Joined, read_design};
use crate::looks::{View, unseen};
use std::alloc::{AllocError, Global};
use vs_desk::Desk;
use vs_explanation::{Heavy, heaviest};
use vs_flat::Flat;
use vs_job::Job;
use vs_names::Drawing;
use vs_reread::draw;
use vs_typed::{WidthError, process_weights};

/// What each process of a design weighs, or None where a length or a division of it is refused.
fn weights_of(alloc: Global, flat: Flat) -> Result<Option<Vec<u64>>, AllocError>
    requires { IsLawful flat }
    ensures { IfOk result (λ o. option_map (λ v. v.items) o ≡ unless_refused (first_refused (design_of flat)) (map told_weight (design_of flat).processes)) }
{
    match process_weights(alloc, flat) {
        Ok(weights) => Ok(Some(weights)),
        Err(error) => match error {
            WidthError::TooWide { .. }
            | WidthError::Division { .. }
            | WidthError::TooLarge { .. } => Ok(None),
            WidthError::Memory => Err(AllocError),
        },
    }
}

/// The heaviest of the processes that have these bytes and these weights.
fn heaviest_of(
    alloc: Global,
    bytes: &[Option<u32>],
    weights: &[u64],
) -> Result<Option<Vec<Heavy>>, AllocError>
    requires { length bytes.now ≡ length weights.now }
    ensures { IfOk result (λ o. option_map (λ v. v.items) o ≡ Some (most.heaviest (most.paired bytes.now weights.now))) }
{
    Ok(Some(heaviest(alloc, bytes, weights)?))
}

/// The heaviest processes of a design, or None where a length or a division of it is refused.
fn weigh(alloc: Global, drawing: Drawing) -> Result<Option<Vec<Heavy>>, AllocError>
    requires { IsLawful drawing.flat }
    ensures { IfOk result (λ o. option_map (λ v. v.items) o ≡ weighed_in drawing) }
{
    let bytes = drawing.process_bytes(alloc)?;
    match weights_of(alloc, drawing.into_flat())? {
        None => Ok(None),
        Some(weights) => heaviest_of(alloc, bytes.as_slice(), weights.as_slice()),
    }
}

/// The heaviest processes of the design of a text, or None where it has none, or one of which a length or a division is refused.
fn weigh_text(
    alloc: Global,
    text: &[u8],
    top: Option<&[u8]>,
) -> Result<Option<Vec<Heavy>>, AllocError>
    requires { length text.now ≤ most_bytes }
    ensures { IfOk result (λ o. AreWeighed text.now (option_map (λ t. t.now) top.entry) (option_map (λ v. v.items) o)) }
{
    match draw(alloc, text, top)? {
        None => Ok(None),
        Some(drawing) => weigh(alloc, drawing),
    }
}

/// What is seen of a text that was read of a design that is too large.
fn weighed_view(alloc: Global, job: &Job, joined: Joined) -> Result<View, AllocError>
    requires { length joined.text.items ≤ most_bytes }
    ensures head { IfOk result (λ view. view.head ≡ length job.now.head) }
    ensures view { IfOk result (λ view. (heavy : Option (List declared.Heavy)) × AreWeighed joined.text.items job.now.top heavy
        × (seen_of view ≡ record { file = Some (drop (length job.now.head) joined.text.items); starts = joined.starts.items; head = length job.now.head; drawn = None; heavy = heavy; ports = None })) }
{
    let heavy = weigh_text(alloc, joined.text.as_slice(), job.top_bytes())?;
    Ok(View {
        text: Some(joined.text),
        starts: joined.starts,
        head: job.head.as_bytes().len(),
        drawing: None,
        heavy,
        ports: None,
    })
}

/// What is seen of a design that is too large.
pub(crate) fn see_weights<D: Desk>(
    alloc: Global,
    desk: &mut D,
    job: &Job,
) -> Result<View, AllocError>
    requires free { AreUnread (D.told desk.old).register }
    requires head { length job.now.head ≤ most_bytes }
    requires few { length job.now.others ≤ most_others }
    ensures only { OnlyRead (D.told desk.old) (D.told desk.new) }
    ensures sees { IfOk result (λ view. spec.SeesOf job.now.top (Some (spec.weighed_look job.now)) (D.told desk.old) (D.told desk.new) (seen_of view)) }
    ensures head { IfOk result (λ view. view.head ≤ most_bytes) }
{
    match read_design(alloc, desk, job)? {
        None => Ok(unseen(alloc, job.head.as_bytes().len())),
        Some(joined) => weighed_view(alloc, job, joined),
    }
}
