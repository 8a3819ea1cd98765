// Pairs of a capture, and pairs that are filled with idles.
ghost use Rattle.std.specs.Prelude.{◌≡◌, ◌-◌, ◌++◌, ℕ, List, Option, length, true, false, OnOk, OnErr};
ghost use Rattle.bit_lists.specs.Places.{flat};
ghost use Rattle.mac_columns.specs.declared.column.Column.{Column};
ghost use Rattle.pcs_io.specs.Faults.{HasCause};
ghost use Rattle.pcs_io.specs.Octets.{AppendsFront};
ghost use Rattle.pcs_send.specs.Transmission.{idles, carried, pair_beats};
ghost use Rattle.pcs_send.specs.Histories.{Sending, end_column, after_take};
ghost use Rattle.pcs_send.specs.Holding.{Stands, is_ready};
ghost use Rattle.pcs_top.specs.Captures.{capture_octets};
ghost use Rattle.pcs_top.specs.Sending.{HasSent, with_pairs, AreWhole};
ghost use Rattle.pcs_drive.specs.Writing.{Puts, BreaksOff, Extends};

use pcs_drive::Output;
use pcs_io::{Failed, Sink};
use pcs_send::{Sender, as_octets};

/// Puts the beats of the pair that is full. Not inlined, so that its array is no local of a loop over
/// columns.
#[inline(never)]
pub fn put_pair<W: Sink>(
    sender: &mut Sender,
    output: &mut Output,
    sink: &mut W,
) -> Result<(), Failed>
    requires { is_ready sender.old ≡ true }
    ensures waits { is_ready sender.new ≡ false }
    ensures stands { (h : Sending) → Stands sender.old h → Stands sender.new (after_take h) }
    ensures ok { OnOk result ((h : Sending) → Stands sender.old h
        → Puts (W.held sink.old) output.old (flat (pair_beats h.period h.placed h.taken)) (W.held sink.new) output.new) }
    ensures err { OnErr result ((h : Sending) → Stands sender.old h
        → BreaksOff (W.held sink.old) output.old (flat (pair_beats h.period h.placed h.taken)) (W.held sink.new)) }
    ensures cause { HasCause (W.faults sink.old) (W.faults sink.new) result }
    ensures grows { Extends (W.held sink.old) (W.held sink.new) result }
{
    let pair = sender.take_pair();
    output.put(sink, as_octets(&pair))
}

/// Fills the pair in hand with idles.
pub fn fill(sender: &mut Sender)
    ensures { (h : Sending) → Stands sender.old h
        → Stands sender.new (record h { placed = h.placed ++ idles (end_column h - length h.placed) }) }
{
    for i in 0..160u32 {
        if !sender.ready() {
            sender.idle();
        }
    }
}

/// Puts a pair that is filled with idles.
pub fn put_idle_pair<W: Sink>(
    sender: &mut Sender,
    output: &mut Output,
    sink: &mut W,
) -> Result<(), Failed>
    ensures waits { OnOk result (is_ready sender.new ≡ false) }
    ensures ok { OnOk result ((f : ℕ) (p : ℕ) (cs : List Column) (owed : ℕ) (start : Option (List ℕ)) → HasSent sender.old f p cs owed start (W.held sink.old) output.old
        → HasSent sender.new f p (with_pairs p cs 1) owed start (W.held sink.new) output.new) }
    ensures err { OnErr result ((f : ℕ) (p : ℕ) (cs : List Column) (owed : ℕ) (start : Option (List ℕ)) → HasSent sender.old f p cs owed start (W.held sink.old) output.old
        → AppendsFront start (W.held sink.new) (capture_octets f p (carried p (with_pairs p cs 1)))) }
    ensures cause { HasCause (W.faults sink.old) (W.faults sink.new) result }
    ensures grows { Extends (W.held sink.old) (W.held sink.new) result }
{
    fill(sender);
    if sender.ready() {
        put_pair(sender, output, sink)?;
    }
    Ok(())
}

/// Puts so many pairs that are filled with idles.
pub fn put_idle_pairs<W: Sink>(
    sender: &mut Sender,
    output: &mut Output,
    sink: &mut W,
    count: u32,
) -> Result<(), Failed>
    requires waits { is_ready sender.old ≡ false }
    ensures waits { OnOk result (is_ready sender.new ≡ false) }
    ensures ok { OnOk result ((f : ℕ) (p : ℕ) (cs : List Column) (owed : ℕ) (start : Option (List ℕ)) → HasSent sender.old f p cs owed start (W.held sink.old) output.old
        → AreWhole p cs → HasSent sender.new f p (with_pairs p cs count) owed start (W.held sink.new) output.new) }
    ensures err { OnErr result ((f : ℕ) (p : ℕ) (cs : List Column) (owed : ℕ) (start : Option (List ℕ)) → HasSent sender.old f p cs owed start (W.held sink.old) output.old
        → AreWhole p cs → AppendsFront start (W.held sink.new) (capture_octets f p (carried p (with_pairs p cs count)))) }
    ensures cause { HasCause (W.faults sink.old) (W.faults sink.new) result }
    ensures grows { Extends (W.held sink.old) (W.held sink.new) result }
{
    for i in 0..count {
        put_idle_pair(sender, output, sink)?;
    }
    Ok(())
}
