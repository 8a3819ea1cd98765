// What a command makes of the events of a receiver.
ghost use Rattle.std.specs.Prelude.{◌≡◌, ◌≤◌, ◌+◌, ◌^◌, ℕ, List, Some, OnOk, OnErr};
ghost use Rattle.pcs_io.specs.Faults.{HasCause};
ghost use Rattle.pcs_receive.specs.Events.{Event as EventValue};
ghost use Rattle.pcs_receive.specs.Hearings.{Hearing, IsAnswer, last_event};
ghost use Rattle.pcs_receive.specs.State.{HasFrame, Stands};
ghost use Rattle.pcs_drive.specs.Writing.{Extends};
ghost use Rattle.pcs_top.specs.EventTexts.{EventText, TellsEvent, BreaksAtEvent, EndsEvents, BreaksAfterEvents};

use mac_columns::Column;
use pcs_drive::Output;
use pcs_io::{Failed, Sink};
use pcs_receive::{Event, Receiver};

/// What a command makes of the events of a receiver. Its meaning is `Keeps`: the text that it makes,
/// and the events for which it stands.
pub trait Teller {
    ghost Keeps: { Self → EventText → List EventValue → Type 0 };

    // A number that no event raises by more than 32.
    ghost weight: { Self → ℕ };

    /// Puts the text of the event that the receiver gave last.
    fn tell<W: Sink>(
        &mut self,
        event: &Event,
        receiver: &Receiver,
        output: &mut Output,
        sink: &mut W,
    ) -> Result<(), Failed>
        requires frame { (event.now ≡ Event.Frame) → HasFrame receiver.now }
        requires room { weight self.old ≤ 2 ^ 53 }
        ensures ok { OnOk result ((h : Hearing) (told : EventValue) → Stands receiver.now h → IsAnswer event.now told → last_event h ≡ Some told
            → TellsEvent Keeps self.old self.new told (W.held sink.old) output.old (W.held sink.new) output.new) }
        ensures weight { weight self.new ≤ weight self.old + 32 }
        ensures err { OnErr result ((h : Hearing) (told : EventValue) → Stands receiver.now h → IsAnswer event.now told → last_event h ≡ Some told
            → BreaksAtEvent Keeps self.old told (W.held sink.old) output.old (W.held sink.new)) }
        ensures cause { HasCause (W.faults sink.old) (W.faults sink.new) result }
        ensures grows { Extends (W.held sink.old) (W.held sink.new) result };

    /// Puts the text of the column that the receiver told last, as `tell` does.
    fn tell_column<W: Sink>(
        &mut self,
        column: &Column,
        receiver: &Receiver,
        output: &mut Output,
        sink: &mut W,
    ) -> Result<(), Failed>
        requires room { weight self.old ≤ 2 ^ 53 }
        ensures ok { OnOk result ((h : Hearing) (told : EventValue) → Stands receiver.now h → IsAnswer (Event.Column column.now) told → last_event h ≡ Some told
            → TellsEvent Keeps self.old self.new told (W.held sink.old) output.old (W.held sink.new) output.new) }
        ensures weight { weight self.new ≤ weight self.old + 32 }
        ensures err { OnErr result ((h : Hearing) (told : EventValue) → Stands receiver.now h → IsAnswer (Event.Column column.now) told → last_event h ≡ Some told
            → BreaksAtEvent Keeps self.old told (W.held sink.old) output.old (W.held sink.new)) }
        ensures cause { HasCause (W.faults sink.old) (W.faults sink.new) result }
        ensures grows { Extends (W.held sink.old) (W.held sink.new) result };

    /// Puts the text that stands behind all events.
    fn finish<W: Sink>(&mut self, output: &mut Output, sink: &mut W) -> Result<(), Failed>
        ensures ok { OnOk result (EndsEvents Keeps self.old (W.held sink.old) output.old (W.held sink.new) output.new) }
        ensures err { OnErr result (BreaksAfterEvents Keeps self.old (W.held sink.old) output.old (W.held sink.new)) }
        ensures cause { HasCause (W.faults sink.old) (W.faults sink.new) result }
        ensures grows { Extends (W.held sink.old) (W.held sink.new) result };
}
