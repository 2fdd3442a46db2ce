//! The notes on a header of a stimulus that is wrong, and on a reset input or a select input that a vector leaves unknown.

ghost use Rattle.std.specs.Prelude.{◌≡◌, ◌++◌, OnOk, option_map};
ghost use Rattle.vs_explanation.specs.Naming as spec;
ghost use Rattle.vs_rows.specs.Lent.{bad_of, wrong_of};

use std::alloc::AllocError;
use vs_excerpt::Page;
use vs_rows::{BadName, Control, NameFault, Wrong};
use vs_stim::Ports;

/// Adds which field it is, and what is said of it.
fn push_field(page: &mut Page, place: usize, name: &[u8], why: &str) -> Result<(), AllocError>
    ensures { OnOk result (page.new ≡ page.old ++ spec.field_note place name.now why.now) }
{
    page.text("note: field ")?;
    page.number(place as u64)?;
    page.text(", ")?;
    page.escaped(name)?;
    page.text(why)
}

/// Adds that no field names a data input.
fn push_lacking(page: &mut Page, name: &[u8]) -> Result<(), AllocError>
    ensures { OnOk result (page.new ≡ page.old ++ spec.lacking_note name.now) }
{
    page.text("note: no field names the data input ")?;
    page.escaped(name)?;
    page.text("\n")
}

/// Adds what is wrong in a header, and why. The only error is that memory ran out.
pub(crate) fn push_bad_name(page: &mut Page, bad: &BadName<'_>) -> Result<(), AllocError>
    ensures { OnOk result (page.new ≡ page.old ++ spec.bad_note (bad_of bad.now)) }
{
    match bad.fault {
        NameFault::NoTitle => page.text("note: field 1 has to be inputs\n"),
        NameFault::NoInput => push_field(page, bad.place, bad.name, ", is no data input\n"),
        NameFault::NoOutput => push_field(page, bad.place, bad.name, ", is no output\n"),
        NameFault::Repeated => push_field(page, bad.place, bad.name, ", stands there before\n"),
        NameFault::LacksInput => push_lacking(page, bad.name),
        NameFault::LacksOutput => page.text("note: no field behind -> names an output\n"),
    }
}

/// What is said of a field that leaves such an input unknown.
fn control_words(control: Control) -> &'static str
    ensures { result.now ≡ spec.control_words control }
{
    match control {
        Control::Reset => ", is a reset input and has a digit x or z\n",
        Control::Select => ", is a select input and has a digit x or z\n",
    }
}

/// Adds which field of a vector leaves such an input unknown. The only error is that memory ran out.
pub(crate) fn push_control(
    page: &mut Page,
    control: Control,
    wrong: &Wrong<'_>,
) -> Result<(), AllocError>
    ensures { OnOk result (page.new ≡ page.old ++ spec.control_note control (wrong_of wrong.now)) }
{
    push_field(page, wrong.place, wrong.name, control_words(control))
}

/// Adds that nothing is wrong any more by these ports of the design, or that there are none to compare with. The only error is that memory ran out.
pub(crate) fn push_right(page: &mut Page, ports: Option<&Ports>) -> Result<(), AllocError>
    ensures { OnOk result (page.new ≡ page.old ++ spec.right_note (option_map (λ p. p.now) ports.entry)) }
{
    match ports {
        None => page.text("note: the design can't be accepted again, so names aren't compared\n"),
        Some(_) => page.text("note: the files have changed: no field of the line is wrong\n"),
    }
}
