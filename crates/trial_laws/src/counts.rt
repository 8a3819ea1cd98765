// What is counted of the events of a receiver.
ghost use Rattle.std.specs.Prelude.{◌≡◌, ◌≤◌, ◌+◌, ◌^◌, ◌++◌, ◌∷◌, [], ℕ, List};
ghost use Rattle.pcs_receive.specs.Events.{Event as EventValue, report, frame};
ghost use Rattle.trial_laws.specs.Counting.{Compares, Counted, given_frames};
ghost use Rattle.trial_laws.specs.Trial.{are_same, made_frames};

use crate::frames::FrameMaker;
use pcs_watch::Report;

/// What is counted of the events of a receiver. The frames that come are compared with those of a
/// seed, which are made again.
#[derive(Drop)]
pub struct Counts {
    made: FrameMaker,
    // The frames that are still to be made.
    left: u32,
    corrected: u64,
    back: u64,
    equal: bool,
}

impl Counts {
    /// No event came.
    pub fn new(seed: u64, count: u32) -> Counts
        ensures { Counted seed count result [] }
    {
        Counts {
            made: FrameMaker::new(seed),
            left: count,
            corrected: 0,
            back: 0,
            equal: true,
        }
    }

    /// A report came.
    pub fn report(&mut self, told: &Report)
        requires { self.old.corrected ≤ 2 ^ 60 }
        ensures counts { (seed count : ℕ) (es : List EventValue) → Counted seed count self.old es
            → Counted seed count self.new (es ++ report told.now ∷ []) }
        ensures few { self.new.corrected ≤ self.old.corrected + 510 }
        ensures back { self.new.back ≡ self.old.back }
    {
        self.corrected += u64::from(told.a.unwrap_or(0));
        self.corrected += u64::from(told.b.unwrap_or(0));
    }

    /// A frame came.
    pub fn frame(&mut self, given: &[u8])
        requires { self.old.back ≤ 2 ^ 60 }
        ensures counts { (seed count : ℕ) (es : List EventValue) → Counted seed count self.old es
            → Counted seed count self.new (es ++ frame given.now ∷ []) }
        ensures corrected { self.new.corrected ≡ self.old.corrected }
        ensures back { self.new.back ≡ self.old.back + 1 }
    {
        let same = self.is_next(given);
        self.equal = self.equal && same;
        self.back += 1;
    }

    // Whether a frame is the one that is made next.
    fn is_next(&mut self, given: &[u8]) -> bool
        ensures { Compares self.old self.new given.now result }
    {
        if self.left == 0 {
            return false;
        }
        self.left -= 1;
        self.made.make();
        given == self.made.frame()
    }

    /// The symbols that the reports tell as corrected.
    pub fn corrected(&self) -> u64
        ensures { result ≡ self.now.corrected }
    {
        self.corrected
    }

    /// The number of frames that came.
    pub fn back(&self) -> u64
        ensures { result ≡ self.now.back }
    {
        self.back
    }

    /// Whether the frames that came are those of the seed, all of them, in order.
    pub fn equal(&self) -> bool
        ensures { (seed count : ℕ) (es : List EventValue) → Counted seed count self.now es
            → result ≡ are_same (given_frames es) (made_frames seed count) }
    {
        self.equal && self.left == 0
    }
}
