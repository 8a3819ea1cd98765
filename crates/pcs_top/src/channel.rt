// What lies behind the sender of a trial.
ghost use Rattle.std.specs.Prelude.{◌≡◌, ◌≤◌, ◌<◌, ◌+◌, ◌^◌, ◌∷◌, ◌++◌, [], ℕ, List, Some, length, true, false, IfOk};
ghost use Rattle.lane_impair.specs.Histories.{Impairing};
ghost use Rattle.lane_impair.specs.Standing.{comes};
ghost use Rattle.pcs_receive.specs.Events.{Event as EventValue};
ghost use Rattle.pcs_receive.specs.Hearings.{Hearing, IsAnswer, last_event};
ghost use Rattle.pcs_receive.specs.State.{HasFrame, Stands};
ghost use Rattle.pcs_words.specs.Commands.{IsTrial};
ghost use Rattle.pcs_words.specs.declared.command.TrialOptions.{TrialOptions as OptionsValue};
ghost use Rattle.trial_laws.specs.Counting.{Counted};
ghost use Rattle.trial_laws.specs.Trial.{limit_of};
ghost use Rattle.pcs_top.specs.Giving.{with_given};
ghost use Rattle.pcs_top.specs.Channels.{items_of, all_damaged, events_heard, IsHearing, HasHeard, Passes, HasTaken, IsTaking};

use lane_impair::{Impairer, Item};
use pcs_receive::{Event, Receiver, Want};
use pcs_send::PairOctets;
use pcs_words::TrialOptions;
use std::alloc::{AllocError, Global};
use trial_laws::Counts;

/// Damages beats, receives what comes of them, and counts what is told.
#[derive(Drop)]
pub struct Channel {
    impairer: Impairer,
    receiver: Receiver,
    counts: Counts,
}

impl Channel {
    /// A channel that has taken no beat. It takes all its memory here.
    pub fn open(
        alloc: Global,
        options: &TrialOptions,
        items: &[Item],
        limit: u32,
    ) -> Result<Channel, AllocError>
        requires ranges { IsTrial options.now }
        requires items { items.now ≡ items_of options.now }
        requires limit { limit ≡ limit_of options.now.period }
        ensures { IfOk result (λ channel. HasTaken options.now channel []) }
    {
        let impairer = Impairer::open(alloc, items)?;
        let receiver = Receiver::open(alloc, options.period, limit, Want::Frames)?;
        let counts = Counts::new(options.seed, options.count);
        let mut channel = Channel {
            impairer,
            receiver,
            counts,
        };
        channel.receive();
        Ok(channel)
    }

    /// Takes the beats of a pair.
    pub fn take_pair(&mut self, pair: &PairOctets)
        requires { IsTaking self.old (2 ^ 33) }
        ensures { (options : OptionsValue) (beats : List (List ℕ)) → HasTaken options self.old beats → HasTaken options self.new (beats ++ pair.now) }
    {
        for b in 0..85usize {
            self.take(pair[b]);
        }
    }

    // Takes a beat.
    fn take(&mut self, beat: [u8; 16])
        requires { IsTaking self.old (2 ^ 34) }
        ensures { (options : OptionsValue) (beats : List (List ℕ)) → HasTaken options self.old beats → HasTaken options self.new (beats ++ beat ∷ []) }
    {
        self.impairer.take(beat);
        self.receive();
    }

    /// Ends the beats.
    pub fn finish(&mut self)
        requires { IsTaking self.old (2 ^ 34) }
        ensures { (options : OptionsValue) (beats : List (List ℕ)) → HasTaken options self.old beats
            → Counted options.seed options.count self.new.counts (events_heard options (all_damaged options beats)) }
    {
        self.impairer.finish();
        self.receive();
    }

    // Receives the beats that the impairer can give.
    fn receive(&mut self)
        requires { (options : OptionsValue) × (h : Impairing) × Passes options h self.old × (length h.beats ≤ 2 ^ 35) }
        ensures gives { (options : OptionsValue) (h : Impairing) → Passes options h self.old
            → (given : ℕ) × Passes options (with_given h given) self.new × (comes h given ≡ false) }
        ensures drained { self.new.impairer.drained ≡ true }
        ensures state { (self.new.impairer.taken ≡ self.old.impairer.taken) × (self.new.impairer.finished ≡ self.old.impairer.finished) }
    {
        while let Some(beat) = self.impairer.next() {
            hear(&mut self.receiver, &mut self.counts, beat);
        }
    }

    /// What was counted.
    pub fn counts(&self) -> &Counts
        ensures { result.now ≡ self.now.counts }
    {
        &self.counts
    }
}

// Receives a beat, and counts what is told.
fn hear(receiver: &mut Receiver, counts: &mut Counts, beat: [u8; 16])
    requires few { receiver.old.aligner.beats < 2 ^ 40 }
    requires waits { IsHearing receiver.old counts.old }
    ensures { (options : OptionsValue) (beats : List (List ℕ)) → HasHeard options receiver.old counts.old beats
        → HasHeard options receiver.new counts.new (beats ++ beat ∷ []) }
{
    receiver.take(beat);
    receiver.has_few_left();
    while let Some(event) = &receiver.next() {
        tell(event, receiver, counts);
    }
}

// Counts what an event tells.
fn tell(event: &Event, receiver: &Receiver, counts: &mut Counts)
    requires frame { (event.now ≡ Event.Frame) → HasFrame receiver.now }
    requires corrected { counts.old.corrected ≤ 2 ^ 60 }
    requires back { counts.old.back ≤ 2 ^ 60 }
    ensures counts { (h : Hearing) (told : EventValue) → Stands receiver.now h → IsAnswer event.now told → last_event h ≡ Some told
        → (seed count : ℕ) (es : List EventValue) → Counted seed count counts.old es → Counted seed count counts.new (es ++ told ∷ []) }
    ensures corrected { counts.new.corrected ≤ counts.old.corrected + 510 }
    ensures back { counts.new.back ≤ counts.old.back + 1 }
{
    match event {
        Event::Report(report) => counts.report(report),
        Event::Frame => counts.frame(receiver.frame()),
        _ => {}
    }
}
