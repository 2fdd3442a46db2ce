//! The lines before the vectors.

ghost use Rattle.std.specs.Prelude.{◌≡◌, ◌≢◌, ◌<◌, All, [], length, Ok, Err, Some, None, true, false, IsTrue, IfOk, IfErr, OnOk};
ghost use Rattle.vs_desk.specs.Desk.{IsAttached, Fails};
ghost use Rattle.vs_desk.specs.declared.desk.Way.TheVariants.{Read};
ghost use Rattle.vs_desk.specs.Taking.{OnlyTaken, TakesAt};
ghost use Rattle.vs_stim.specs.Header.{ArePorts, lengths, output_lengths, each_once};
ghost use Rattle.vs_stim.specs.Reading.{header_line, refused};
ghost use Rattle.vs_stim.specs.Row.{as_said, IsColumn};
ghost use Rattle.vs_stim.specs.Wants.{IsExpected, IsExpectedOf, is_each_once};
ghost use Rattle.vs_stim.specs.Heading.{heading_with, columns_of_heading, lists_of, IsUnread, IsHeading};
ghost use Rattle.vs_stim.specs.Source.{open_at, line_refusal, says, rest_of, vectors_from, header_from, header_fault_from, IsSource, IsHeaderError, GoesOn, PassesLf, Passes, PassesHeader};
ghost use Rattle.vs_stim.specs.Known.{IsUntold};
ghost use Rattle.vs_stim.specs.declared.heading.Stage.TheVariants.{Start};
ghost use Rattle.vs_stim.specs.declared.row.LineKind.TheVariants.{Skipped, Given};

use crate::heading::Heading;
use crate::input::Columns;
use crate::row::LineKind;
use crate::source::{Piece, Source};
use crate::{Ports, StimError};
use std::alloc::Global;
use vs_desk::Desk;

/// Reads a line into the heading, and answers whether the text ends with it.
fn feed_heading<D: Desk>(
    source: &mut Source,
    heading: &mut Heading,
    ports: &Ports,
    desk: &mut D,
) -> Result<bool, StimError>
    requires source { IsSource source.old }
    requires ports { ArePorts ports.now }
    requires heading { IsHeading ports.now heading.old }
    requires attached { IsAttached (D.told desk.old).register source.old.place Read }
    ensures source { IsSource source.new }
    ensures heading { OnOk result (IsHeading ports.now heading.new) }
    ensures place { source.new.place ≡ source.old.place }
    ensures moves { result ≡ Ok false → source.old.start < source.new.start }
    ensures begins { OnOk result (source.new.length ≡ 0) }
    ensures says { IsTrue D.tells → OnOk result (heading_with ports.now heading.new [] ≡ heading_with ports.now heading.old (says (open_at source.old (D.told desk.old)))) }
    ensures passes { IsTrue D.tells → IfOk result (λ last. Passes last (open_at source.old (D.told desk.old)) (open_at source.new (D.told desk.new))) }

    ensures refused { IsTrue D.tells → IfErr result (λ e. e ≢ StimError.ReadFault → e ≢ StimError.Memory → line_refusal (open_at source.old (D.told desk.old)) ≡ Some e) }
    ensures errors { IfErr result IsHeaderError }
    ensures lacking { result ≢ Err StimError.NoExpectation }
    ensures desk { TakesAt source.old.place (D.told desk.old) (D.told desk.new) StimError.ReadFault result }

    ensures went { IsTrue D.tells → result ≡ Err StimError.ReadFault → GoesOn (open_at source.old (D.told desk.old)) (open_at source.new (D.told desk.new)) }
    ensures empty { result ≡ Err StimError.ReadFault → source.new.block ≡ [] }
    ensures ends { IsTrue D.tells → result ≡ Ok false → PassesLf (open_at source.old (D.told desk.old)) (open_at source.new (D.told desk.new)) }
{
    'line: loop {
        match source.next_piece(desk)? {
            Piece::Byte(byte) => heading.feed(ports, byte)?,
            Piece::LineEnd => return Ok(false),
            Piece::TextEnd => return Ok(true),
        }
    }
}

/// Reads a line, and answers what it is and whether the text ends with it.
fn read_heading<D: Desk>(
    source: &mut Source,
    heading: &mut Heading,
    ports: &Ports,
    desk: &mut D,
) -> Result<(LineKind, bool), StimError>
    requires source { IsSource source.old }
    requires ports { ArePorts ports.now }
    requires heading { IsHeading ports.now heading.old }
    requires stage { heading.old.stage ≡ Start }
    requires attached { IsAttached (D.told desk.old).register source.old.place Read }
    ensures source { IsSource source.new }
    ensures heading { OnOk result (IsHeading ports.now heading.new) }
    ensures skipped { IfOk result (λ line. line.0 ≡ Skipped → IsUnread heading.new) }
    ensures given { IfOk result (λ line. line.0 ≡ Given → each_once (length ports.now.inputs) heading.new.columns.items ≡ true) }
    ensures place { source.new.place ≡ source.old.place }
    ensures moves { IfOk result (λ line. line.1 ≡ false → source.old.start < source.new.start) }
    ensures begins { OnOk result (source.new.length ≡ 0) }
    ensures says { IsTrue D.tells → IfOk result (λ line. as_said line.0 (columns_of_heading heading.new) ≡ header_line ports.now (says (open_at source.old (D.told desk.old)))) }
    ensures passes { IsTrue D.tells → IfOk result (λ line. Passes line.1 (open_at source.old (D.told desk.old)) (open_at source.new (D.told desk.new))) }

    ensures refused { IsTrue D.tells → IfErr result (λ e. e ≢ StimError.ReadFault → e ≢ StimError.Memory → line_refusal (open_at source.old (D.told desk.old)) ≡ Some e) }
    ensures errors { IfErr result IsHeaderError }
    ensures lacking { result ≢ Err StimError.NoExpectation }
    ensures desk { TakesAt source.old.place (D.told desk.old) (D.told desk.new) StimError.ReadFault result }

    ensures went { IsTrue D.tells → result ≡ Err StimError.ReadFault → GoesOn (open_at source.old (D.told desk.old)) (open_at source.new (D.told desk.new)) }
    ensures empty { result ≡ Err StimError.ReadFault → source.new.block ≡ [] }
    ensures ends { IsTrue D.tells → IfOk result (λ line. line.1 ≡ false → PassesLf (open_at source.old (D.told desk.old)) (open_at source.new (D.told desk.new))) }
{
    let last = feed_heading(source, heading, ports, desk)?;
    Ok((heading.finish(ports)?, last))
}

/// Reads lines up to the header, and answers its columns.
pub(crate) fn find_header<D: Desk>(
    alloc: Global,
    source: &mut Source,
    ports: &Ports,
    desk: &mut D,
) -> Result<Columns, StimError>
    requires source { IsSource source.old }
    requires begins { source.old.length ≡ 0 }
    requires ports { ArePorts ports.now }
    requires attached { IsAttached (D.told desk.old).register source.old.place Read }
    ensures source { IsSource source.new }
    ensures place { source.new.place ≡ source.old.place }
    ensures begins { OnOk result (source.new.length ≡ 0) }
    ensures columns { IfOk result (λ cs. All (IsColumn (lengths ports.now.inputs)) cs.inputs.items) }
    ensures expected { IfOk result (λ cs. All IsExpected cs.expected.items) }
    ensures named { IfOk result (λ cs. All (IsExpectedOf (output_lengths ports.now.outputs)) cs.expected.items) }
    ensures once { IfOk result (λ cs. is_each_once cs.expected.items ≡ true) }
    ensures each { IfOk result (λ cs. each_once (length ports.now.inputs) cs.inputs.items ≡ true) }

    ensures found { IsTrue D.tells → IfOk result (λ cs. header_from ports.now (open_at source.old (D.told desk.old)) ≡ vectors_from (lists_of cs) 0 (open_at source.new (D.told desk.new))) }
    ensures passes { IsTrue D.tells → IfOk result (λ cs. PassesHeader ports.now (lists_of cs) (open_at source.old (D.told desk.old)) (open_at source.new (D.told desk.new))) }
    ensures refused { IsTrue D.tells → IfErr result (λ e. e ≢ StimError.ReadFault → e ≢ StimError.Memory → header_from ports.now (open_at source.old (D.told desk.old)) ≡ refused e) }

    ensures headed { IsTrue D.tells → OnOk result (header_fault_from ports.now (open_at source.old (D.told desk.old)) ≡ None) }
    ensures faulty { IsTrue D.tells → IfErr result (λ e. e ≢ StimError.ReadFault → e ≢ StimError.Memory → header_fault_from ports.now (open_at source.old (D.told desk.old)) ≡ Some e) }

    ensures errors { IfErr result IsHeaderError }
    ensures demanded { result ≡ Err StimError.NoExpectation → IsTrue ports.now.demanded }
    ensures desk { TakesAt source.old.place (D.told desk.old) (D.told desk.new) StimError.ReadFault result }
    ensures needed { IsTrue D.tells → result ≡ Err StimError.ReadFault →
        let o = open_at source.old (D.told desk.old) in IsUntold o.at o.rest ((D.told desk.new).contents.left source.old.place) }
{
    let mut heading = Heading::new(alloc, ports)?;
    'lines: loop {
        let (kind, last) = read_heading(source, &mut heading, ports, desk)?;
        match kind {
            LineKind::Given => {
                if heading.lacks_output(ports) {
                    return Err(StimError::NoExpectation);
                }
                return Ok(heading.into_columns());
            }
            LineKind::Malformed => return Err(StimError::BadHeader),
            LineKind::Skipped => {
                if last {
                    return Err(StimError::BadHeader);
                }
                heading.begin();
            }
        }
    }
}
