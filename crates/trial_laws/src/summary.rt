// What a trial comes to.
ghost use Rattle.std.specs.Prelude.{◌≡◌, ◌≤◌, ◌+◌, ◌++◌, length};
ghost use Rattle.trial_laws.specs.Trial.{line_of, summary_text};

use arrayvec::ArrayString;
use itoa::Buffer;

/// The lines of a summary.
pub type SummaryText = ArrayString<256>;

/// The numbers of a trial, and whether all frames came back.
#[derive(Clone, Copy)]
pub struct Summary {
    pub frames: u32,
    pub octets: u64,
    pub columns: u64,
    pub pairs: u64,
    pub corrected: u64,
    pub back: u64,
    pub equal: bool,
}

impl Summary {
    /// Its seven lines.
    pub fn text(&self) -> SummaryText
        ensures text { result.bytes ≡ summary_text self.now }
        ensures short { length result.bytes ≤ 256 }
    {
        let mut text = SummaryText::new();
        put_line(&mut text, "frames ", u64::from(self.frames));
        put_line(&mut text, "octets ", self.octets);
        put_line(&mut text, "columns ", self.columns);
        put_line(&mut text, "pairs ", self.pairs);
        put_line(&mut text, "corrected ", self.corrected);
        put_line(&mut text, "back ", self.back);
        let last = if self.equal {
            "equal yes\n"
        } else {
            "equal no\n"
        };
        put(&mut text, last);
        text
    }
}

// Puts a line of a word and a number.
fn put_line(text: &mut SummaryText, word: &str, number: u64)
    requires word { length word.now ≤ 10 }
    requires room { length text.old.bytes ≤ 200 }
    ensures text { text.new.bytes ≡ text.old.bytes ++ line_of word.now number }
    ensures size { length text.new.bytes ≤ length text.old.bytes + length word.now + 21 }
{
    put(text, word);
    put(text, Buffer::new().format(number));
    put(text, "\n");
}

fn put(text: &mut SummaryText, more: &str)
    requires { length text.old.bytes + length more.now ≤ 256 }
    ensures text { text.new.bytes ≡ text.old.bytes ++ more.now }
    ensures size { length text.new.bytes ≡ length text.old.bytes + length more.now }
{
    text.try_push_str(more).unwrap();
}
