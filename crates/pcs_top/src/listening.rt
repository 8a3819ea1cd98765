// A receiver that takes the beats of a capture, and a teller of its events.
ghost use Rattle.std.specs.Prelude.{◌≡◌, ◌||◌, ◌≤◌, ◌<◌, ◌+◌, ◌*◌, ◌^◌, List, ℕ, Option, false, OnOk, OnErr};
ghost use Rattle.pcs_io.specs.Faults.{HasCause};
ghost use Rattle.pcs_io.specs.Octets.{AppendsFront};
ghost use Rattle.pcs_receive.specs.Events.{Event as EventValue};
ghost use Rattle.pcs_receive.specs.Hearings.{IsAnswer};
ghost use Rattle.pcs_receive.specs.State.{IsDrained, left_count};
ghost use Rattle.pcs_drive.specs.CaptureCommand.{BeatsText};
ghost use Rattle.pcs_drive.specs.Writing.{Wrote, Extends};
ghost use Rattle.pcs_top.specs.EventTexts.{is_alignment, IsListening, IsTelling};

use crate::teller::Teller;
use pcs_drive::{Output, Task};
use pcs_io::{Failed, Sink};
use pcs_receive::{Event, Receiver};

/// A receiver that takes the beats of a capture, and a teller of its events.
#[derive(Drop)]
pub struct Listening<'a, T> {
    receiver: &'a mut Receiver,
    teller: T,
    // An alignment was among the events.
    aligned: bool,
}

impl<'a, T> Listening<'a, T> {
    pub fn new(receiver: &'a mut Receiver, teller: T) -> Listening<'a, T>
        ensures receiver { result.receiver.now ≡ receiver.old }
        ensures teller { result.teller ≡ teller }
        ensures aligned { result.aligned ≡ false }
    {
        Listening {
            receiver,
            teller,
            aligned: false,
        }
    }
}

impl<T: Teller> Listening<'_, T> {
    // Tells the events that wait. It isn't inlined, since each beat would pay for an event's place.
    #[inline(never)]
    fn tell_events<W: Sink>(&mut self, output: &mut Output, sink: &mut W) -> Result<(), Failed>
        requires ready { T.weight self.old.teller + 32 * left_count self.old.receiver.now ≤ 6400 * self.old.receiver.now.aligner.beats }
        requires room { self.old.receiver.now.aligner.beats ≤ 2 ^ 40 }
        ensures ok { OnOk result ((text : BeatsText) (beats : List (List ℕ)) (start : Option (List ℕ))
            → IsTelling T.Keeps self.old.receiver.now self.old.teller self.old.aligned text beats start (W.held sink.old) output.old
            → IsListening T.Keeps self.new.receiver.now self.new.teller self.new.aligned text beats
            × Wrote start (W.held sink.new) (text.so_far beats) output.new) }
        ensures ready { OnOk result (IsDrained self.new.receiver.now × (T.weight self.new.teller ≤ 6400 * self.new.receiver.now.aligner.beats)) }
        ensures beats { self.new.receiver.now.aligner.beats ≡ self.old.receiver.now.aligner.beats }
        ensures err { OnErr result ((text : BeatsText) (beats : List (List ℕ)) (start : Option (List ℕ))
            → IsTelling T.Keeps self.old.receiver.now self.old.teller self.old.aligned text beats start (W.held sink.old) output.old
            → AppendsFront start (W.held sink.new) (text.so_far beats)) }
        ensures cause { HasCause (W.faults sink.old) (W.faults sink.new) result }
        ensures grows { Extends (W.held sink.old) (W.held sink.new) result }
    {
        while let Some(event) = &self.receiver.next() {
            self.aligned = aligned_after(self.aligned, event);
            self.teller.tell(event, self.receiver, output, sink)?;
            while let Some(column) = &self.receiver.next_column() {
                self.teller
                    .tell_column(column, self.receiver, output, sink)?;
            }
        }
        Ok(())
    }
}

impl<T: Teller> Task for Listening<'_, T> {
    ghost Keeps = { λ x text beats. IsListening T.Keeps x.receiver.now x.teller x.aligned text beats };

    ghost IsReady = { λ x. IsDrained x.receiver.now × (T.weight x.teller ≤ 6400 * x.receiver.now.aligner.beats) };

    ghost taken = { λ x. x.receiver.now.aligner.beats };

    fn take<W: Sink>(
        &mut self,
        beat: [u8; 16],
        output: &mut Output,
        sink: &mut W,
    ) -> Result<(), Failed> {
        self.receiver.take(beat);
        // Most beats bring nothing.
        if self.receiver.is_drained() {
            return Ok(());
        }
        self.receiver.has_few_left();
        self.tell_events(output, sink)
    }

    fn finish<W: Sink>(&mut self, output: &mut Output, sink: &mut W) -> Result<bool, Failed> {
        self.teller.finish(output, sink)?;
        Ok(self.aligned)
    }
}

// Whether an alignment was among the events, with one event more.
fn aligned_after(aligned: bool, event: &Event) -> bool
    ensures { (told : EventValue) → IsAnswer event.now told → result ≡ (aligned || is_alignment told) }
{
    match event {
        Event::Aligned(_) => true,
        _ => aligned,
    }
}
