// What a command makes of the beats of a file.
ghost use Rattle.std.specs.Prelude.{◌≡◌, ◌≤◌, ◌<◌, ◌+◌, ◌*◌, ◌/◌, ◌^◌, ℕ, List, length, take, drop, IfOk, OnOk, OnErr};
ghost use Rattle.pcs_io.specs.Faults.{HasCause};
ghost use Rattle.pcs_drive.specs.CaptureCommand.{BeatsText};
ghost use Rattle.pcs_drive.specs.Writing.{Extends};
ghost use Rattle.pcs_drive.specs.Tasks.{TakesBeat, BreaksAtBeat, TakesBeats, BreaksAtBeats, Finishes, BreaksAtEnd};

use crate::Output;
use pcs_io::{Failed, Sink};

/// What a command makes of the beats of a file. Its meaning is `Keeps`: the text that it makes, and
/// the beats for which it stands.
pub trait Task {
    ghost Keeps: { Self → BeatsText → List (List ℕ) → Type 0 };

    // No write failed so far.
    ghost IsReady: { Self → Type 0 };

    // The number of beats taken.
    ghost taken: { Self → ℕ };

    /// Takes a beat, and puts the text that it brings.
    fn take<W: Sink>(
        &mut self,
        beat: [u8; 16],
        output: &mut Output,
        sink: &mut W,
    ) -> Result<(), Failed>
        requires ready { IsReady self.old }
        requires room { taken self.old < 2 ^ 40 }
        ensures ok { OnOk result (TakesBeat Keeps self.old self.new beat (W.held sink.old) output.old (W.held sink.new) output.new) }
        ensures ready { OnOk result (IsReady self.new) }
        ensures taken { OnOk result (taken self.new ≤ taken self.old + 1) }
        ensures err { OnErr result (BreaksAtBeat Keeps self.old beat (W.held sink.old) output.old (W.held sink.new)) }
        ensures cause { HasCause (W.faults sink.old) (W.faults sink.new) result }
        ensures grows { Extends (W.held sink.old) (W.held sink.new) result };

    /// Takes so many beats of sixteen octets, one behind the other.
    fn take_all<W: Sink>(
        &mut self,
        octets: &[u8],
        output: &mut Output,
        sink: &mut W,
    ) -> Result<(), Failed>
        requires ready { IsReady self.old }
        requires whole { 16 * (length octets.now / 16) ≡ length octets.now }
        requires few { length octets.now ≤ 65536 }
        requires room { taken self.old + length octets.now / 16 ≤ 2 ^ 40 }
        ensures ok { OnOk result (TakesBeats Keeps self.old self.new octets.now (W.held sink.old) output.old (W.held sink.new) output.new) }
        ensures ready { OnOk result (IsReady self.new) }
        ensures taken { OnOk result (taken self.new ≤ taken self.old + length octets.now / 16) }
        ensures err { OnErr result (BreaksAtBeats Keeps self.old octets.now (W.held sink.old) output.old (W.held sink.new)) }
        ensures cause { HasCause (W.faults sink.old) (W.faults sink.new) result }
        ensures grows { Extends (W.held sink.old) (W.held sink.new) result }
    {
        for i in 0..octets.len() / 16 {
            self.take(beat_of(octets, i), output, sink)?;
        }
        Ok(())
    }

    /// Puts the text that stands at the end of the input, and tells whether the lanes were aligned.
    fn finish<W: Sink>(&mut self, output: &mut Output, sink: &mut W) -> Result<bool, Failed>
        requires ready { IsReady self.old }
        ensures ok { IfOk result (λ aligned. Finishes Keeps self.old aligned (W.held sink.old) output.old (W.held sink.new) output.new) }
        ensures err { OnErr result (BreaksAtEnd Keeps self.old (W.held sink.old) output.old (W.held sink.new)) }
        ensures cause { HasCause (W.faults sink.old) (W.faults sink.new) result }
        ensures grows { Extends (W.held sink.old) (W.held sink.new) result };
}

// Beat i of the octets.
fn beat_of(octets: &[u8], i: usize) -> [u8; 16]
    requires { 16 * i + 16 ≤ length octets.now }
    ensures { result ≡ take 16 (drop (16 * i) octets.now) }
{
    let mut beat = [0; 16];
    beat.copy_from_slice(&octets[16 * i..16 * i + 16]);
    beat
}
