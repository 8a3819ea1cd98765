// Captures of either version are damaged.
ghost use Rattle.std.specs.Prelude.{◌≡◌, ℕ, List, true, false, OnOk, OnErr};
ghost use Rattle.std.specs.List.{All};
ghost use Rattle.lane_impair.specs.declared.item.Item.{Item as ItemValue};
ghost use Rattle.lane_impair.specs.Items.{AreItems, IsItem};
ghost use Rattle.lane_impair.specs.Histories.{opened};
ghost use Rattle.lane_impair.specs.Standing.{Stands};
ghost use Rattle.pcs_io.specs.Captures.{History};
ghost use Rattle.pcs_io.specs.Faults.{HasCause};
ghost use Rattle.pcs_drive.specs.Seen.{seen};
ghost use Rattle.pcs_drive.specs.CaptureCommand.{FromBeats, FromCapture, HasHeader};
ghost use Rattle.pcs_drive.specs.Writing.{Extends};
ghost use Rattle.pcs_top.specs.Impairing.{impairing, header_octets_of};
ghost use Rattle.pcs_top.specs.Giving.{IsRead, GivesAll, BreaksGiving};

use lane_impair::{Impairer, Item};
use pcs_drive::{Outcome, Output, Task, drive, open_capture};
use pcs_io::{Beats, Failed, Header, Sink, Source, write_header, write_header2};
use std::alloc::Global;

/// Reads a capture and writes it under the same header, damaged by the items.
pub fn impair<R: Source, W: Sink>(
    alloc: Global,
    items: &[Item],
    source: &mut R,
    sink: &mut W,
) -> Outcome
    requires { AreItems items.now }
    ensures { FromCapture (impairing items.now)
        (seen R.told R.ended R.faults W.held W.faults source.old source.new sink.old sink.new) result }
{
    match open_capture(alloc, source) {
        Ok((mut beats, header)) => match Impairer::open(alloc, items) {
            Ok(impairer) => impair_opened(&mut beats, &header, impairer, source, sink),
            Err(_) => Outcome::NoMemory,
        },
        Err(outcome) => outcome,
    }
}

// Reads the beats of a capture whose header was read, and writes the header and the damaged beats. No
// memory is taken.
fn impair_opened<R: Source, W: Sink>(
    beats: &mut Beats,
    header: &Header,
    impairer: Impairer,
    source: &mut R,
    sink: &mut W,
) -> Outcome
    requires header { (h : History) × HasHeader beats.old h header.now }
    requires fresh { (impairer.taken ≡ 0) × (impairer.finished ≡ false) }
    ensures { (h : History) (items : List ItemValue) → HasHeader beats.old h header.now → All IsItem items → Stands impairer (opened items)
        → FromBeats (impairing items header.now) h.octets h.limit header.now
        (seen R.told R.ended R.faults W.held W.faults source.old source.new sink.old sink.new) result }
{
    let mut output = text_of(header);
    let mut damaging = Damaging { impairer };
    match put_next(&mut damaging.impairer, &mut output, sink) {
        Ok(()) => drive(beats, &mut damaging, &mut output, source, sink),
        Err(Failed) => Outcome::WriteFault,
    }
}

// The octets of a header that was read.
fn text_of(header: &Header) -> Output
    requires { IsRead header.now }
    ensures { result ≡ header_octets_of header.now }
{
    if header.version == 1 {
        return Output::holding(&write_header(header));
    }
    Output::holding(&write_header2(header))
}

// Puts all beats that the impairer can give.
fn put_next<W: Sink>(
    impairer: &mut Impairer,
    output: &mut Output,
    sink: &mut W,
) -> Result<(), Failed>
    ensures ok { OnOk result (GivesAll impairer.old impairer.new (W.held sink.old) output.old (W.held sink.new) output.new) }
    ensures drained { OnOk result (impairer.new.drained ≡ true) }
    ensures state { (impairer.new.taken ≡ impairer.old.taken) × (impairer.new.finished ≡ impairer.old.finished) }
    ensures err { OnErr result (BreaksGiving impairer.old (W.held sink.old) output.old (W.held sink.new)) }
    ensures cause { HasCause (W.faults sink.old) (W.faults sink.new) result }
    ensures grows { Extends (W.held sink.old) (W.held sink.new) result }
{
    while let Some(beat) = impairer.next() {
        output.put(sink, &beat)?;
    }
    Ok(())
}

// The beats are damaged.
#[derive(Drop)]
struct Damaging {
    impairer: Impairer,
}

impl Task for Damaging {
    ghost use Rattle.std.specs.Prelude.{◌≡◌, true, false};
    ghost use Rattle.pcs_top.specs.Giving.{IsImpairing};

    ghost Keeps = { λ x text beats. IsImpairing x.impairer text beats };

    ghost IsReady = { λ x. (x.impairer.drained ≡ true) × (x.impairer.finished ≡ false) };

    ghost taken = { λ x. x.impairer.taken };

    fn take<W: Sink>(
        &mut self,
        beat: [u8; 16],
        output: &mut Output,
        sink: &mut W,
    ) -> Result<(), Failed> {
        self.impairer.take(beat);
        put_next(&mut self.impairer, output, sink)
    }

    fn finish<W: Sink>(&mut self, output: &mut Output, sink: &mut W) -> Result<bool, Failed> {
        self.impairer.finish();
        put_next(&mut self.impairer, output, sink)?;
        Ok(true)
    }
}
