// The receiver of a capture.
ghost use Rattle.std.specs.Prelude.{[], false, ◌||◌, ◌==◌, nat_lt, ◌≡◌, ℕ, ◌+◌, ◌*◌, ◌<◌, ◌≤◌, ◌^◌, ◌↔◌, List, Some, None, IfOk, IsSome, IfSome, IfNone, IsTrue, drop, length, true, if◌then◌else◌, vec_capacity, vec_len};
ghost use Rattle.mac_columns.specs.declared.column.Column.{Column as ColumnValue};
ghost use Rattle.mac_columns.specs.Gathering.{Stands as GatherStands, HasFrame as GatherHasFrame};
ghost use Rattle.lane_deskew.specs.Bound.{bound};
ghost use Rattle.lane_deskew.specs.State.{held_of, room_of};
ghost use Rattle.pcs_receive.specs.Hearings.{Hearing, wants_columns, begun, with_beat, with_event, next_event, last_event, Answers};
ghost use Rattle.pcs_receive.specs.Events.{frame, column as told_column};
ghost use Rattle.pcs_receive.specs.State.{Stands, IsDrained, HasFrame, left_count};
ghost use Rattle.pcs_receive.specs.Steps.{TakesPair, TakesEvent, TakesLoss, Searches, Moves, lead_behind};

use crate::correction::are_near;
use crate::reading::read_pair;
use crate::{Event, Want};
use lane_deskew::{AlignFault, Deskew, Order, Turn};
use mac_columns::{Column, Gather, Gathered};
use pcs_watch::Report;
use scramble58::Descrambler;
use std::alloc::{AllocError, Global};
use std::marker::Model;

// The event that comes next, before those of columns.
#[derive(Clone, Copy)]
enum Lead {
    Nothing,
    Failed(AlignFault),
    Aligned(Order),
    Report(Report),
    Group,
}

/// Takes the beats of a capture and tells its events. Contracts see it as a `State`, and say by
/// `Stands` which beats it took and how many events it gave.
#[derive(Drop)]
pub struct Receiver {
    deskew: Deskew,
    period: u32,
    want: Want,
    // The number of the next pair, and how many bad pairs in a row came before it.
    number: u64,
    bad: u8,
    descrambler: Descrambler,
    gather: Gather,
    // The last event was a frame.
    framed: bool,
    lead: Lead,
    // The columns of the last pair, and how many of them were told or gathered.
    columns: Vec<Column>,
    given: usize,
    // Where the lanes are sought again, to be told behind the columns.
    lost: Option<u64>,
}

impl Model for Receiver {
    ghost use Rattle.std.specs.Prelude.{◌≡◌, ◌≤◌, ◌^◌, ◌<◌, true, drop, length, vec_capacity};
    ghost use Rattle.mac_columns.specs.Gathering.{HasFrame};
    ghost use Rattle.pcs_receive.specs.Hearings.{wants_columns};
    ghost use Rattle.pcs_receive.specs.State.{State};

    ghost Value = { State };

    ghost view = { λ r. record {
      aligner = r.deskew;
      period = r.period;
      columns = wants_columns r.want;
      number = r.number;
      bad = r.bad;
      last = r.descrambler;
      gather = r.gather;
      framed = r.framed;
      lead = r.lead;
      rest = drop r.given r.columns.items;
      lost_at = r.lost;
      columns_room = vec_capacity r.columns;
    } };

    ghost invariant = { λ r. (1 ≤ r.period) × (r.number ≤ r.deskew.beats) × (r.deskew.beats ≤ 2 ^ 40) × (r.bad ≤ 2)
        × (r.framed ≡ true → HasFrame r.gather) × (160 ≤ vec_capacity r.columns) × (r.given ≤ length r.columns.items)
        × (length r.columns.items ≤ 160) };
}

impl Receiver {
    /// A receiver of a capture with this marker period in pairs and this skew limit in bits. It takes
    /// all its memory here.
    pub fn open(alloc: Global, period: u32, skew: u32, want: Want) -> Result<Receiver, AllocError>
        requires period { (1 ≤ period) × (period ≤ 65536) }
        requires skew { skew < 340 * period }
        ensures stands { IfOk result (λ r. Stands r (begun period skew (wants_columns want))) }
        ensures drained { IfOk result (λ r. IsDrained r) }
        ensures beats { IfOk result (λ r. r.aligner.beats ≡ 0) }
        ensures room { IfOk result (λ r. room_of r.aligner ≤ bound period skew) }
    {
        let deskew = Deskew::open(alloc, period, skew)?;
        let gather = Gather::open(alloc)?;
        let columns = Vec::with_capacity(alloc, 160)?;
        Ok(Receiver {
            deskew,
            period,
            want,
            number: 0,
            bad: 0,
            descrambler: Descrambler::new(),
            gather,
            framed: false,
            lead: Lead::Nothing,
            columns,
            given: 0,
            lost: None,
        })
    }

    /// Takes a beat. The events of the beats before it were all given.
    pub fn take(&mut self, beat: [u8; 16])
        requires beats { self.old.aligner.beats < 2 ^ 40 }
        requires drained { IsDrained self.old }
        ensures stands { (h : Hearing) → Stands self.old h → Stands self.new (with_beat h beat) }
        ensures beats { self.new.aligner.beats ≡ self.old.aligner.beats + 1 }
        ensures room { room_of self.new.aligner ≡ room_of self.old.aligner }
        ensures memory { self.new.columns_room ≡ self.old.columns_room }
    {
        if self.deskew.wait(beat) {
            self.framed = false;
            return;
        }
        self.take_turn(beat);
    }

    /// No more events are left than one pair has.
    #[inline(always)]
    pub fn has_few_left(&self)
        ensures { left_count self.now ≤ 163 }
    {
        let _given = self.given;
    }

    // Takes a beat that may bring something.
    #[inline(never)]
    fn take_turn(&mut self, beat: [u8; 16])
        requires beats { self.old.aligner.beats < 2 ^ 40 }
        requires drained { IsDrained self.old }
        ensures stands { (h : Hearing) → Stands self.old h → Stands self.new (with_beat h beat) }
        ensures beats { self.new.aligner.beats ≡ self.old.aligner.beats + 1 }
        ensures room { room_of self.new.aligner ≡ room_of self.old.aligner }
        ensures memory { self.new.columns_room ≡ self.old.columns_room }
    {
        self.framed = false;
        match self.deskew.take(beat) {
            Turn::Hunting | Turn::Waiting => {}
            Turn::Failed(fault) => self.lead = Lead::Failed(fault),
            Turn::Aligned(order) => self.lead = Lead::Aligned(order),
            Turn::Pair => self.take_pair(),
        }
    }

    // Takes the pair that the last beat brought.
    #[inline(never)]
    fn take_pair(&mut self)
        requires pair { self.old.aligner.has_pair ≡ true }
        requires number { self.old.number < self.old.aligner.beats }
        requires drained { IsDrained self.old }
        ensures takes { TakesPair self.old self.new }
        ensures beats { self.new.aligner.beats ≡ self.old.aligner.beats }
        ensures room { room_of self.new.aligner ≡ room_of self.old.aligner }
    {
        let fresh = is_fresh(self.number, self.bad);
        let report = read_pair(
            self.deskew.pair(),
            self.number,
            self.period,
            fresh,
            &mut self.descrambler,
            &mut self.columns,
        );
        self.given = 0;
        self.lead = Lead::Report(report);
        if are_near(report.a, report.b) {
            self.bad = 0;
            self.number += 1;
            return;
        }
        if self.bad < 2 {
            self.bad += 1;
            self.number += 1;
            return;
        }
        self.lost = Some(self.deskew.restart());
        self.bad = 0;
        self.number = 0;
        self.descrambler = Descrambler::new();
    }

    /// The next event of the beats so far, or `None` where all were given.
    #[inline(always)]
    pub fn next(&mut self) -> Option<Event>
        ensures answer { (h : Hearing) → Stands self.old h → Answers result (next_event h) }
        ensures some { IsSome result → (h : Hearing) → Stands self.old h → Stands self.new (with_event h) }
        ensures none { IfNone result ((h : Hearing) → Stands self.old h → Stands self.new h) }
        ensures drained { IfNone result (IsDrained self.new) }
        ensures fewer { IsSome result → left_count self.new < left_count self.old }
        ensures frame { (result ≡ Some Event.Frame) → HasFrame self.new }
        ensures same { self.new.aligner ≡ self.old.aligner }
        ensures memory { self.new.columns_room ≡ self.old.columns_room }
    {
        if self.is_drained() {
            return None;
        }
        self.next_event()
    }

    /// Whether all events of the beats so far were given. It takes less time than `next`.
    #[inline(always)]
    pub fn is_drained(&self) -> bool
        ensures drained { IsTrue result ↔ IsDrained self.now }
        ensures none { IsTrue result → (h : Hearing) → Stands self.now h → Answers None (next_event h) }
    {
        is_nothing(&self.lead) && is_past(self.given, &self.columns) && self.lost.is_none()
    }

    /// The next column, where the next event is one to be told, and otherwise `None`. It takes less time
    /// than `next`.
    #[inline(always)]
    pub fn next_column(&mut self) -> Option<Column>
        ensures answer { IfSome result (λ column. (h : Hearing) → Stands self.old h → Answers (Some (Event.Column column)) (next_event h)) }
        ensures some { IsSome result → (h : Hearing) → Stands self.old h → Stands self.new (with_event h) }
        ensures none { IfNone result (self.new ≡ self.old) }
        ensures when { IfNone result ((h : Hearing) (c : ColumnValue) → Stands self.old h → ¬ (next_event h ≡ Some (told_column c))) }
        ensures fewer { IsSome result → left_count self.new < left_count self.old }
        ensures same { self.new.aligner ≡ self.old.aligner }
        ensures memory { self.new.columns_room ≡ self.old.columns_room }
    {
        if !is_nothing(&self.lead) || is_past(self.given, &self.columns) {
            return None;
        }
        match self.want {
            Want::Columns => {
                self.framed = false;
                let column = self.columns[self.given];
                self.given += 1;
                Some(column)
            }
            Want::Frames => None,
        }
    }

    #[inline(never)]
    fn next_event(&mut self) -> Option<Event>
        ensures takes { TakesEvent result self.old self.new }
        ensures frame { (result ≡ Some Event.Frame) → HasFrame self.new }
    {
        self.framed = false;
        match self.lead {
            Lead::Nothing => self.next_of_pair(),
            Lead::Failed(fault) => {
                self.lead = Lead::Nothing;
                Some(Event::Failed(fault))
            }
            Lead::Aligned(order) => {
                self.lead = Lead::Nothing;
                Some(Event::Aligned(order))
            }
            Lead::Report(report) => {
                self.lead = lead_after(&report, self.want, self.period);
                Some(Event::Report(report))
            }
            Lead::Group => {
                self.lead = Lead::Nothing;
                Some(Event::Group)
            }
        }
    }

    // The next event behind those that come before all columns.
    fn next_of_pair(&mut self) -> Option<Event>
        requires lead { self.old.lead ≡ Lead.Nothing }
        requires framed { self.old.framed ≡ false }
        ensures takes { TakesEvent result self.old self.new }
        ensures frame { (result ≡ Some Event.Frame) → HasFrame self.new }
    {
        match self.want {
            Want::Columns => {
                if self.given < self.columns.len() {
                    let column = self.columns[self.given];
                    self.given += 1;
                    return Some(Event::Column(column));
                }
                self.next_loss()
            }
            Want::Frames => match next_end(&mut self.gather, &self.columns, &mut self.given) {
                Gathered::Nothing => self.next_loss(),
                Gathered::Whole => {
                    self.framed = true;
                    Some(Event::Frame)
                }
                Gathered::Dropped(why) => Some(Event::Dropped(why)),
            },
        }
    }

    // The loss behind all columns.
    fn next_loss(&mut self) -> Option<Event>
        requires lead { self.old.lead ≡ Lead.Nothing }
        requires columns { self.old.rest ≡ [] }
        requires framed { self.old.framed ≡ false }
        ensures takes { TakesLoss result self.old self.new }
    {
        match self.lost {
            Some(at) => {
                self.lost = None;
                Some(Event::Lost { at })
            }
            None => None,
        }
    }

    /// The frame that was given last.
    pub fn frame(&self) -> &[u8]
        requires { HasFrame self.now }
        ensures octets { (h : Hearing) → Stands self.now h → last_event h ≡ Some (frame result.now) }
        ensures within { length result.now ≤ 16384 }
    {
        self.gather.frame()
    }

    /// How many bits its rings hold.
    pub fn held(&self) -> u64
        ensures held { result ≡ held_of self.now.aligner }
        ensures within { result ≤ room_of self.now.aligner }
        ensures bound { (h : Hearing) → Stands self.now h → result ≤ bound h.heard.period h.skew }
    {
        self.deskew.held()
    }
}

// Whether there is no event before those of columns.
#[inline(always)]
fn is_nothing(lead: &Lead) -> bool
    ensures { IsTrue result ↔ (lead.now ≡ Lead.Nothing) }
{
    matches!(lead, Lead::Nothing)
}

// Whether a place is the end of the columns.
#[inline(always)]
fn is_past(given: usize, columns: &[Column]) -> bool
    requires { given ≤ length columns.now }
    ensures { IsTrue result ↔ (drop given columns.now ≡ []) }
{
    given >= columns.len()
}

// What comes right behind a report.
fn lead_after(report: &Report, want: Want, period: u32) -> Lead
    requires { 1 ≤ period }
    ensures { result ≡ lead_behind (wants_columns want) period report.now.pair }
{
    match want {
        Want::Columns => {
            if report.pair % period as u64 == 0 {
                Lead::Group
            } else {
                Lead::Nothing
            }
        }
        Want::Frames => Lead::Nothing,
    }
}

// Whether the next pair is the first one or stands behind a bad one.
#[inline]
fn is_fresh(number: u64, bad: u8) -> bool
    ensures { result ≡ ((number == 0) || nat_lt 0 bad) }
{
    number == 0 || bad > 0
}

// Gathers columns up to the next one that ends a frame.
fn next_end(gather: &mut Gather, columns: &[Column], given: &mut usize) -> Gathered
    requires { given.old ≤ length columns.now }
    ensures searches { (past : List ColumnValue) → GatherStands gather.old past
        → Searches gather.old gather.new (drop given.old columns.now) (drop given.new columns.now) result }
    ensures within { given.new ≤ length columns.now }
    ensures all { (result ≡ Gathered.Nothing) → given.new ≡ length columns.now }
    ensures moves { Moves result given.old given.new }
    ensures whole { (result ≡ Gathered.Whole) → GatherHasFrame gather.new }
{
    while *given < columns.len() {
        let found = gather.take(&columns[*given]);
        *given += 1;
        match found {
            Gathered::Nothing => {}
            Gathered::Whole => return Gathered::Whole,
            Gathered::Dropped(why) => return Gathered::Dropped(why),
        }
    }
    Gathered::Nothing
}
