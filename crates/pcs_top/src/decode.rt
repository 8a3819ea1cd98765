// A capture becomes the text of its frames.
ghost use Rattle.std.specs.Prelude.{◌≡◌, ℕ, List, false};
ghost use Rattle.pcs_io.specs.Captures.{History};
ghost use Rattle.pcs_io.specs.declared.header.Header.{Header};
ghost use Rattle.pcs_receive.specs.Events.{Event as EventValue};
ghost use Rattle.pcs_drive.specs.Seen.{seen};
ghost use Rattle.pcs_drive.specs.CaptureCommand.{FromBeats, FromCapture, HasHeader};
ghost use Rattle.pcs_top.specs.Decoding.{decoded, good_text};
ghost use Rattle.pcs_top.specs.EventTexts.{HasBegun};
ghost use Rattle.pcs_top.specs.Headlines.{Headline, AnyDamage, Complete};
ghost use Rattle.pcs_top.specs.Statuses.{ByOutcome};

use crate::Status;
use crate::listening::Listening;
use crate::teller::Teller;
use mac_columns::Column;
use pcs_drive::{Output, drive, open_capture};
use pcs_io::{Beats, Failed, Sink, Source};
use pcs_receive::{Event, Receiver, Want};
use std::alloc::Global;

/// Reads a capture and writes the text of its frames. It allows for a skew of `limit` bits, or for
/// that of the capture where that is smaller.
pub fn decode<R: Source, W: Sink>(alloc: Global, limit: u32, source: &mut R, sink: &mut W) -> Status
    ensures { ByOutcome (FromCapture (decoded limit)
        (seen R.told R.ended R.faults W.held W.faults source.old source.new sink.old sink.new)) result }
{
    match open_capture(alloc, source) {
        Ok((mut beats, header)) => {
            let skew = limit.min(header.skew);
            match Receiver::open(alloc, header.period, skew, Want::Frames) {
                Ok(mut receiver) => decode_opened(&mut beats, &mut receiver, source, sink),
                Err(_) => Status::NoMemory,
            }
        }
        Err(outcome) => Status::from(outcome),
    }
}

/// Reads the beats of a capture whose header was read, and writes the text of its frames, by the
/// period and the skew limit with which the receiver was opened. It takes no memory.
pub fn decode_opened<R: Source, W: Sink>(
    beats: &mut Beats,
    receiver: &mut Receiver,
    source: &mut R,
    sink: &mut W,
) -> Status
    requires header { (h : History) × (header : Header) × HasHeader beats.old h header }
    requires begun { (period : ℕ) × (skew : ℕ) × HasBegun receiver.old period skew false }
    ensures answers { (h : History) (header : Header) (period skew : ℕ) → HasHeader beats.old h header → HasBegun receiver.old period skew false
        → ByOutcome (FromBeats (good_text period skew) h.octets h.limit header
        (seen R.told R.ended R.faults W.held W.faults source.old source.new sink.old sink.new)) result }
    ensures headline { (h : History) (header : Header) (period skew : ℕ) → HasHeader beats.old h header → HasBegun receiver.old period skew false
        → Headline h.octets h.limit header period skew
        (seen R.told R.ended R.faults W.held W.faults source.old source.new sink.old sink.new) result }
    ensures any_damage { (h : History) (header : Header) (period skew : ℕ) → HasHeader beats.old h header → HasBegun receiver.old period skew false
        → AnyDamage h.octets h.limit header period skew
        (seen R.told R.ended R.faults W.held W.faults source.old source.new sink.old sink.new) result }
    ensures complete { (h : History) (header : Header) (period skew : ℕ) → HasHeader beats.old h header → HasBegun receiver.old period skew false
        → Complete h.octets h.limit header period skew
        (seen R.told R.ended R.faults W.held W.faults source.old source.new sink.old sink.new) result }
{
    let mut listening = Listening::new(receiver, FrameLines);
    let mut output = Output::new();
    Status::from(drive(beats, &mut listening, &mut output, source, sink))
}

// Each frame is told by a line, and other events by nothing.
#[derive(Drop)]
struct FrameLines;

impl Teller for FrameLines {
    ghost use Rattle.std.specs.Prelude.{◌≡◌};
    ghost use Rattle.pcs_top.specs.Decoding.{told_frames};

    ghost Keeps = { λ x text es. text ≡ told_frames };

    ghost weight = { λ x. 0 };

    fn tell<W: Sink>(
        &mut self,
        event: &Event,
        receiver: &Receiver,
        output: &mut Output,
        sink: &mut W,
    ) -> Result<(), Failed> {
        if let Event::Frame = event {
            return output.put_hex_line(sink, receiver.frame());
        }
        Ok(())
    }

    fn tell_column<W: Sink>(
        &mut self,
        column: &Column,
        receiver: &Receiver,
        output: &mut Output,
        sink: &mut W,
    ) -> Result<(), Failed> {
        self.tell(&Event::Column(*column), receiver, output, sink)
    }

    fn finish<W: Sink>(&mut self, output: &mut Output, sink: &mut W) -> Result<(), Failed> {
        Ok(())
    }
}
