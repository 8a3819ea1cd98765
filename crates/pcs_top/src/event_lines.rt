// The lines of events.
ghost use Rattle.std.specs.Prelude.{◌≡◌, ◌≤◌, ◌+◌, ◌++◌, ◌∷◌, [], length, decimal, map, Some};
ghost use Rattle.pcs_receive.specs.Events.{Event as EventValue};
ghost use Rattle.pcs_receive.specs.Hearings.{Hearing, IsAnswer, last_event};
ghost use Rattle.pcs_receive.specs.State.{HasFrame, Stands};
ghost use Rattle.pcs_top.specs.Reporting.{alignment_line, commas, corrected_text, drop_line, event_line, failure_line, lane_digit, number_line, report_line};

use arrayvec::ArrayString;
use itoa::Buffer;
use lane_deskew::{AlignFault, Order};
use mac_columns::Why;
use pcs_receive::{Event, Receiver};
use pcs_watch::Report;

/// A line.
pub type Line = ArrayString<160>;

/// The line of the event that the receiver gave last. Groups and columns have none.
pub fn line_of(event: &Event, receiver: &Receiver) -> Line
    requires frame { (event.now ≡ Event.Frame) → HasFrame receiver.now }
    ensures text { (h : Hearing) (told : EventValue) → Stands receiver.now h → IsAnswer event.now told → last_event h ≡ Some told
        → result.bytes ≡ event_line told }
    ensures short { length result.bytes ≤ 160 }
{
    match event {
        Event::Failed(fault) => failure_line(fault),
        Event::Aligned(order) => alignment_line(order),
        Event::Report(report) => report_line(report),
        Event::Frame => number_line("frame ", receiver.frame().len() as u64),
        Event::Dropped(why) => drop_line(*why),
        Event::Lost { at } => number_line("lost ", *at),
        Event::Group | Event::Column(_) => Line::new(),
    }
}

// A word and a number.
fn number_line(word: &str, number: u64) -> Line
    requires { length word.now ≤ 6 }
    ensures { result.bytes ≡ number_line word.now number }
{
    let mut line = Line::new();
    put(&mut line, word);
    put_number(&mut line, number);
    put(&mut line, "\n");
    line
}

fn failure_line(fault: &AlignFault) -> Line
    ensures { result.bytes ≡ failure_line fault.now }
{
    let mut line = Line::new();
    match fault {
        AlignFault::TwoLanes { number } => {
            put(&mut line, "failed lanes ");
            put_number(&mut line, u64::from(*number));
        }
        AlignFault::Skew { least, most } => {
            put(&mut line, "failed skew ");
            put_number(&mut line, *least);
            put(&mut line, " ");
            put_number(&mut line, *most);
        }
    }
    put(&mut line, "\n");
    line
}

fn alignment_line(order: &Order) -> Line
    ensures { result.bytes ≡ alignment_line order.now }
{
    let mut line = Line::new();
    put(&mut line, "aligned ");
    put_number(&mut line, order.at);
    put(&mut line, " ");
    put_digits(&mut line, &order.numbers);
    put(&mut line, "\n");
    line
}

fn report_line(report: &Report) -> Line
    ensures { result.bytes ≡ report_line report.now }
{
    let mut line = Line::new();
    put(&mut line, "pair ");
    put_number(&mut line, report.pair);
    put(&mut line, " ");
    put_corrected(&mut line, report.a);
    put(&mut line, " ");
    put_corrected(&mut line, report.b);
    put(&mut line, " ");
    put_wrong(&mut line, &report.wrong);
    put(&mut line, "\n");
    line
}

fn drop_line(why: Why) -> Line
    ensures { result.bytes ≡ drop_line why }
{
    let mut line = Line::new();
    let text = match why {
        Why::Error => "dropped error\n",
        Why::Start => "dropped start\n",
        Why::Idle => "dropped idle\n",
        Why::Long => "dropped long\n",
        Why::Set => "dropped set\n",
    };
    put(&mut line, text);
    line
}

// Puts a lane number as a digit for each capture lane.
fn put_digits(line: &mut Line, numbers: &[u8; 16])
    requires { length line.old.bytes ≤ 40 }
    ensures text { line.new.bytes ≡ line.old.bytes ++ map lane_digit numbers.now }
    ensures size { length line.new.bytes ≤ length line.old.bytes + 16 }
{
    for lane in 0..16usize {
        put_digit(line, numbers[lane]);
    }
}

fn put_digit(line: &mut Line, number: u8)
    requires { length line.old.bytes ≤ 100 }
    ensures text { line.new.bytes ≡ line.old.bytes ++ lane_digit number ∷ [] }
    ensures size { length line.new.bytes ≡ length line.old.bytes + 1 }
{
    let low = number % 16;
    let digit = if low < 10 {
        b'0' + low
    } else {
        b'a' - 10 + low
    };
    line.try_push(char::from(digit)).unwrap();
}

// Puts the symbols corrected in a word.
fn put_corrected(line: &mut Line, count: Option<u8>)
    requires { length line.old.bytes ≤ 100 }
    ensures text { line.new.bytes ≡ line.old.bytes ++ corrected_text count }
    ensures size { length line.new.bytes ≤ length line.old.bytes + 3 }
{
    match count {
        Some(count) => put(line, Buffer::new().format(count)),
        None => put(line, "-"),
    }
}

// Puts the sixteen numbers with commas between them.
fn put_wrong(line: &mut Line, wrong: &[u16; 16])
    requires { length line.old.bytes ≤ 40 }
    ensures text { line.new.bytes ≡ line.old.bytes ++ commas wrong.now }
    ensures size { length line.new.bytes ≤ length line.old.bytes + 96 }
{
    for lane in 0..15usize {
        put_count(line, wrong[lane]);
        put(line, ",");
    }
    put_count(line, wrong[15]);
}

fn put_count(line: &mut Line, count: u16)
    requires { length line.old.bytes ≤ 150 }
    ensures text { line.new.bytes ≡ line.old.bytes ++ decimal count }
    ensures size { length line.new.bytes ≤ length line.old.bytes + 5 }
{
    put(line, Buffer::new().format(count));
}

fn put_number(line: &mut Line, number: u64)
    requires { length line.old.bytes ≤ 140 }
    ensures text { line.new.bytes ≡ line.old.bytes ++ decimal number }
    ensures size { length line.new.bytes ≤ length line.old.bytes + 20 }
{
    put(line, Buffer::new().format(number));
}

fn put(line: &mut Line, more: &str)
    requires { length line.old.bytes + length more.now ≤ 160 }
    ensures text { line.new.bytes ≡ line.old.bytes ++ more.now }
    ensures size { length line.new.bytes ≡ length line.old.bytes + length more.now }
{
    line.try_push_str(more).unwrap();
}
