// The frames of columns, one column at a time.
ghost use Rattle.std.specs.Prelude.{◌≡◌, ◌≤◌, ◌↔◌, List, [], ◌∷◌, ◌++◌, length, Some, None, IfOk, IsSome, if◌then◌else◌};
ghost use Rattle.mac_columns.specs.declared.column.Column.{Column};
ghost use Rattle.mac_columns.specs.Frames.{open_frame, outcome, ended_frame, answer_of, is_within};
ghost use Rattle.mac_columns.specs.Gathering.{HasFrame, Stands, Takes, after};

use crate::Column;
use arrayvec::ArrayVec;
use std::alloc::{AllocError, Global};
use std::marker::Model;

// The greatest number of octets of a frame.
const MOST_OCTETS: usize = 16384;

/// Why an open frame came to nothing.
#[derive(Clone, Copy, Debug, PartialEq, Eq)]
pub enum Why {
    /// An Error column came.
    Error,
    /// A new frame began.
    Start,
    /// An Idle column came.
    Idle,
    /// It had more than 16,384 octets.
    Long,
    /// An ordered set came.
    Set,
}

/// What a column did.
#[derive(Clone, Copy, Debug, PartialEq, Eq)]
pub enum Gathered {
    /// It ended no frame.
    Nothing,
    /// It ended a whole frame.
    Whole,
    /// A frame was open, and it is lost.
    Dropped(Why),
}

#[derive(Clone, Copy)]
enum Stage {
    Closed,
    Open,
    Whole,
}

/// Puts frames together from columns.
#[derive(Drop)]
pub struct Gather {
    frame: Box<ArrayVec<u8, MOST_OCTETS>>,
    stage: Stage,
}

impl Model for Gather {
    ghost use Rattle.mac_columns.specs.Gathering.{Gathering, gathering};

    ghost Value = { Gathering };

    ghost view = { λ g. gathering g.stage g.frame.value.items };
}

impl Gather {
    /// A `Gather` that has taken no column. It has room for one frame, and no later call takes
    /// memory.
    ///
    /// # Errors
    ///
    /// `AllocError` where there is no memory.
    pub fn open(alloc: Global) -> Result<Self, AllocError>
        ensures { IfOk result (λ gather. Stands gather []) }
    {
        Ok(Gather {
            frame: Box::new(alloc, ArrayVec::new())?,
            stage: Stage::Closed,
        })
    }

    /// Takes the next column.
    pub fn take(&mut self, column: &Column) -> Gathered
        ensures answer { (past : List Column) → Stands self.old past
            → result ≡ answer_of (outcome (open_frame past) column.now) }
        ensures stands { (past : List Column) → Stands self.old past
            → Stands self.new (column.now ∷ past) }
        ensures frame { (result ≡ Gathered.Whole) ↔ HasFrame self.new }
    {
        match self.stage {
            Stage::Open => self.go_on(column),
            Stage::Closed | Stage::Whole => {
                self.wait(column);
                Gathered::Nothing
            }
        }
    }

    // Takes a column where a frame is open.
    fn go_on(&mut self, column: &Column) -> Gathered
        requires { IsSome self.old.open_now }
        ensures { Takes self.old.open_now column.now result self.new }
    {
        match column {
            Column::Data(octets) => {
                if append(&mut self.frame, octets) {
                    return Gathered::Nothing;
                }
                self.stage = Stage::Closed;
                Gathered::Dropped(Why::Long)
            }
            Column::End(tail) => {
                if append(&mut self.frame, tail.octets()) {
                    self.stage = Stage::Whole;
                    return Gathered::Whole;
                }
                self.stage = Stage::Closed;
                Gathered::Dropped(Why::Long)
            }
            Column::Start(_) => {
                self.frame.clear();
                Gathered::Dropped(Why::Start)
            }
            Column::Idle => {
                self.stage = Stage::Closed;
                Gathered::Dropped(Why::Idle)
            }
            Column::Error => {
                self.stage = Stage::Closed;
                Gathered::Dropped(Why::Error)
            }
            Column::Set(_) => {
                self.stage = Stage::Closed;
                Gathered::Dropped(Why::Set)
            }
        }
    }

    // Takes a column where no frame is open.
    fn wait(&mut self, column: &Column)
        ensures { self.new ≡ after None column.now }
    {
        if let Column::Start(_) = column {
            self.frame.clear();
            self.stage = Stage::Open;
        } else {
            self.stage = Stage::Closed;
        }
    }

    /// The frame that the last column ended.
    pub fn frame(&self) -> &[u8]
        requires { HasFrame self.now }
        ensures octets { (past : List Column) → Stands self.now past
            → ended_frame past ≡ Some result.now }
        ensures within { length result.now ≤ 16384 }
    {
        self.frame.as_slice()
    }
}

// Appends octets where a frame may have so many.
#[inline]
fn append(frame: &mut ArrayVec<u8, MOST_OCTETS>, more: &[u8]) -> bool
    ensures fits { result ≡ is_within (frame.old.items ++ more.now) }
    ensures octets { frame.new.items ≡ (if result then frame.old.items ++ more.now else frame.old.items) }
{
    frame.try_extend_from_slice(more).is_ok()
}
