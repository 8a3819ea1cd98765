// Frames that are made from a number are sent, damaged and received.
ghost use Rattle.std.specs.Prelude.{◌≡◌, ◌≤◌, ◌+◌, ◌-◌, ◌^◌, ◌∷◌, ◌++◌, [], ℕ, Bool, List, Option, length, reverse, true, false, IfOk, OnOk, OnErr};
ghost use Rattle.std.specs.Io.KnownBytes.{Appends};
ghost use Rattle.mac_columns.specs.declared.column.Column.{Column as ColumnValue};
ghost use Rattle.mac_columns.specs.Columns.{columns_of};
ghost use Rattle.lane_impair.specs.Noise.{state_after};
ghost use Rattle.rate_match.specs.Kept.{debt, HasLegalGaps};
ghost use Rattle.pcs_io.specs.Faults.{HasCause};
ghost use Rattle.pcs_io.specs.Octets.{Told, AppendsFront};
ghost use Rattle.pcs_send.specs.Transmission.{pair_beats, sent_columns};
ghost use Rattle.pcs_send.specs.Histories.{Sending, after_take};
ghost use Rattle.pcs_send.specs.Holding.{Stands, is_ready};
ghost use Rattle.pcs_words.specs.Commands.{IsTrial};
ghost use Rattle.pcs_words.specs.declared.command.TrialOptions.{TrialOptions as OptionsValue};
ghost use Rattle.trial_laws.specs.Trial.{limit_of, trial_summary, summary_text};
ghost use Rattle.pcs_top.specs.Sending.{with_pairs, filled_columns, AreWhole};
ghost use Rattle.pcs_top.specs.Trials.{encoding, HasBurst, Strikes, IsTrying, Places, HasTried, HasBegun, HasMade, HasEnded};
ghost use Rattle.pcs_top.specs.Trying.{Tried, writes_only};

use crate::channel::Channel;
use crate::idle_pairs::fill;
use mac_columns::{Column, FrameColumns};
use pcs_drive::Outcome;
use pcs_io::{Failed, Sink, put_all};
use pcs_send::{PairOctets, Put, Sender};
use pcs_words::TrialOptions;
use rand_xoshiro::SplitMix64;
use std::alloc::{AllocError, Global};
use trial_laws::{FrameMaker, Summary, draw, draw_items, strike, words_of};

/// Makes frames from a seed, sends them, damages what is sent, receives it, and writes a summary.
pub fn trial<W: Sink>(alloc: Global, options: &TrialOptions, sink: &mut W) -> Outcome
    requires { IsTrial options.now }
    ensures { (told : Told) (ended : Bool) (reads : ℕ)
        → Tried options.now (writes_only W.held W.faults sink.old sink.new told ended reads) result }
{
    match Trying::open(alloc, options) {
        Ok(mut trial) => {
            trial.run(options);
            match write_summary(&trial.summary(options), sink) {
                Ok(()) => Outcome::Done,
                Err(Failed) => Outcome::WriteFault,
            }
        }
        Err(_) => Outcome::NoMemory,
    }
}

// Writes the seven lines.
fn write_summary<W: Sink>(summary: &Summary, sink: &mut W) -> Result<(), Failed>
    ensures ok { OnOk result (Appends (W.held sink.old) (W.held sink.new) (summary_text summary.now)) }
    ensures err { OnErr result (AppendsFront (W.held sink.old) (W.held sink.new) (summary_text summary.now)) }
    ensures cause { HasCause (W.faults sink.old) (W.faults sink.new) result }
{
    put_all(sink, summary.text().as_bytes())
}

// The greatest skew.
fn skew_limit(period: u32) -> u32
    requires { (1 ≤ period) × (period ≤ 4096) }
    ensures { result ≡ limit_of period }
{
    (340 * period - 1).min(8192)
}

// Damages the pair of a number, where it stands behind the lead.
fn damage(pair: &mut PairOctets, number: u64, lead: u64, words: &mut SplitMix64)
    ensures words { (seed : ℕ) → words.old ≡ state_after (31 + (number - lead)) seed → words.new ≡ state_after (31 + (number + 1 - lead)) seed }
    ensures pair { (seed : ℕ) → words.old ≡ state_after (31 + (number - lead)) seed → HasBurst seed lead number pair.old pair.new }
{
    if number < lead {
        return;
    }
    strike(pair, draw(words));
}

// The two ends of a trial, and what lies between.
#[derive(Drop)]
struct Trying {
    sender: Sender,
    // The words of the bursts, and the number of the first pairs, which have none.
    words: SplitMix64,
    lead: u64,
    channel: Channel,
    octets: u64,
    columns: u64,
    pairs: u64,
}

impl Trying {
    // It has sent nothing. It takes all its memory here.
    fn open(alloc: Global, options: &TrialOptions) -> Result<Trying, AllocError>
        requires { IsTrial options.now }
        ensures { IfOk result (λ trial. HasBegun options.now trial) }
    {
        let limit = skew_limit(options.period);
        let mut words = words_of(options.seed.wrapping_add(1));
        let items = draw_items(&mut words, limit);
        let channel = Channel::open(alloc, options, &items, limit)?;
        Ok(Trying {
            sender: Sender::new(options.period),
            words,
            lead: 2 * u64::from(options.period),
            channel,
            octets: 0,
            columns: 0,
            pairs: 0,
        })
    }

    // Sends and receives all of it.
    fn run(&mut self, options: &TrialOptions)
        requires ranges { IsTrial options.now }
        requires begun { HasBegun options.now self.old }
        ensures { HasEnded options.now self.new }
    {
        self.send_idle_pairs(2 * options.period);
        self.send_frames(options);
        self.send_end(options.period);
        self.channel.finish();
    }

    // Sends the frames, each with its gap.
    fn send_frames(&mut self, options: &TrialOptions)
        requires ranges { IsTrial options.now }
        requires tried { HasTried options.now self.old [] }
        requires waits { is_ready self.old.sender ≡ false }
        requires none { (self.old.octets ≡ 0) × (self.old.pairs ≤ 2 ^ 14) }
        ensures made { HasMade options.now self.new }
        ensures waits { is_ready self.new.sender ≡ false }
        ensures few { self.new.pairs ≤ 2 ^ 25 }
    {
        let mut maker = FrameMaker::new(options.seed);
        for i in 0..options.count {
            let gap = maker.make();
            let frame = maker.frame();
            self.octets += frame.len() as u64;
            self.send_frame(frame, gap);
        }
    }

    // Sends a frame and its gap.
    fn send_frame(&mut self, frame: &[u8], gap: u32)
        requires small { (length frame.now ≤ 1088) × (gap ≤ 64) }
        requires trying { IsTrying self.old }
        requires waits { is_ready self.old.sender ≡ false }
        requires few { (self.old.pairs ≤ 2 ^ 25) × (self.old.columns ≤ 2 ^ 60) }
        ensures tried { (options : OptionsValue) (cs : List ColumnValue) → HasTried options self.old cs
            → HasLegalGaps options.period (cs ++ columns_of frame.now gap) → HasTried options self.new (cs ++ columns_of frame.now gap) }
        ensures trying { IsTrying self.new }
        ensures waits { is_ready self.new.sender ≡ false }
        ensures octets { self.new.octets ≡ self.old.octets }
        ensures few { (self.new.pairs ≤ self.old.pairs + 204) × (self.new.columns ≤ self.old.columns + 204) }
    {
        let mut columns = FrameColumns::new(frame, gap);
        while let Some(column) = columns.next() {
            self.send_column(column);
        }
    }

    // Sends a column of a frame or a gap.
    fn send_column(&mut self, column: Column)
        requires trying { IsTrying self.old }
        requires waits { is_ready self.old.sender ≡ false }
        requires few { (self.old.pairs ≤ 2 ^ 26) × (self.old.columns ≤ 2 ^ 61) }
        ensures tried { (options : OptionsValue) (cs : List ColumnValue) → HasTried options self.old cs
            → HasLegalGaps options.period (cs ++ column ∷ []) → HasTried options self.new (cs ++ column ∷ []) }
        ensures trying { IsTrying self.new }
        ensures waits { is_ready self.new.sender ≡ false }
        ensures octets { self.new.octets ≡ self.old.octets }
        ensures few { (self.new.pairs ≤ self.old.pairs + 1) × (self.new.columns ≡ self.old.columns + 1) }
    {
        self.columns += 1;
        match self.sender.put(column) {
            Ok(Put::More) => {}
            Ok(Put::PairReady) => self.send_pair(),
            // The gaps of a trial are legal.
            Err(_) => {}
        }
    }

    // Fills the last pair begun, if there is one, and sends it and a period of idles.
    fn send_end(&mut self, period: u32)
        requires ranges { (1 ≤ period) × (period ≤ 4096) }
        requires trying { IsTrying self.old }
        requires waits { is_ready self.old.sender ≡ false }
        requires few { self.old.pairs ≤ 2 ^ 25 }
        ensures ended { (options : OptionsValue) (cs : List ColumnValue) → options.period ≡ period → HasTried options self.old cs
            → (owed : ℕ) × Places options self.new (sent_columns options.period 2 1 cs) owed }
        ensures trying { IsTrying self.new }
        ensures same { (self.new.octets ≡ self.old.octets) × (self.new.columns ≡ self.old.columns) }
        ensures few { self.new.pairs ≤ 2 ^ 26 }
    {
        self.fill_last();
        self.send_idle_pairs(period);
    }

    // Fills the last pair begun, if there is one, and sends it.
    fn fill_last(&mut self)
        requires trying { IsTrying self.old }
        requires waits { is_ready self.old.sender ≡ false }
        requires few { self.old.pairs ≤ 2 ^ 25 }
        ensures filled { (options : OptionsValue) (cs : List ColumnValue) → HasTried options self.old cs
            → Places options self.new (filled_columns (encoding options) cs) (debt options.period (reverse cs)) × AreWhole options.period (filled_columns (encoding options) cs) }
        ensures trying { IsTrying self.new }
        ensures waits { is_ready self.new.sender ≡ false }
        ensures same { (self.new.octets ≡ self.old.octets) × (self.new.columns ≡ self.old.columns) }
        ensures few { self.new.pairs ≤ self.old.pairs + 1 }
    {
        if !self.sender.begun() {
            return;
        }
        self.send_idle_pair();
    }

    // Sends so many pairs that are filled with idles.
    fn send_idle_pairs(&mut self, count: u32)
        requires small { count ≤ 2 ^ 13 }
        requires trying { IsTrying self.old }
        requires waits { is_ready self.old.sender ≡ false }
        requires few { self.old.pairs ≤ 2 ^ 25 + 1 }
        ensures places { (options : OptionsValue) (cs : List ColumnValue) (owed : ℕ) → Places options self.old cs owed
            → AreWhole options.period cs → Places options self.new (with_pairs options.period cs count) owed }
        ensures trying { IsTrying self.new }
        ensures waits { is_ready self.new.sender ≡ false }
        ensures same { (self.new.octets ≡ self.old.octets) × (self.new.columns ≡ self.old.columns) }
        ensures few { self.new.pairs ≤ self.old.pairs + count }
    {
        for i in 0..count {
            self.send_idle_pair();
        }
    }

    // Fills the pair in hand with idles, and sends it.
    fn send_idle_pair(&mut self)
        requires trying { IsTrying self.old }
        requires few { self.old.pairs ≤ 2 ^ 26 }
        ensures places { (options : OptionsValue) (cs : List ColumnValue) (owed : ℕ) → Places options self.old cs owed
            → Places options self.new (with_pairs options.period cs 1) owed }
        ensures trying { IsTrying self.new }
        ensures waits { is_ready self.new.sender ≡ false }
        ensures same { (self.new.octets ≡ self.old.octets) × (self.new.columns ≡ self.old.columns) }
        ensures few { self.new.pairs ≤ self.old.pairs + 1 }
    {
        fill(&mut self.sender);
        if !self.sender.ready() {
            return;
        }
        self.send_pair();
    }

    // Damages the pair that is full, and hands it to the channel.
    fn send_pair(&mut self)
        requires full { is_ready self.old.sender ≡ true }
        requires trying { IsTrying self.old }
        requires few { self.old.pairs ≤ 2 ^ 26 }
        ensures strikes { (options : OptionsValue) (sent : List (List ℕ)) → Strikes options self.old sent
            → (pair : List (List ℕ)) × ((h : Sending) → Stands self.old.sender h → pair ≡ pair_beats h.period h.placed h.taken)
            × Strikes options self.new (sent ++ pair) }
        ensures stands { (h : Sending) → Stands self.old.sender h → Stands self.new.sender (after_take h) }
        ensures trying { IsTrying self.new }
        ensures waits { is_ready self.new.sender ≡ false }
        ensures same { (self.new.octets ≡ self.old.octets) × (self.new.columns ≡ self.old.columns) }
        ensures few { self.new.pairs ≡ self.old.pairs + 1 }
    {
        let mut pair = self.sender.take_pair();
        damage(&mut pair, self.pairs, self.lead, &mut self.words);
        self.pairs += 1;
        self.channel.take_pair(&pair);
    }

    // What all of it came to.
    fn summary(&self, options: &TrialOptions) -> Summary
        requires { HasEnded options.now self.now }
        ensures { result ≡ trial_summary options.now.seed options.now.count options.now.period }
    {
        let counts = self.channel.counts();
        Summary {
            frames: options.count,
            octets: self.octets,
            columns: self.columns,
            pairs: self.pairs,
            corrected: counts.corrected(),
            back: counts.back(),
            equal: counts.equal(),
        }
    }
}
