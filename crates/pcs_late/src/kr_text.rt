// The text of a line's answer.
ghost use Rattle.std.specs.Prelude.{◌≡◌, ◌≤◌, ◌<◌, ◌+◌, ◌*◌, ◌++◌, ◌∷◌, [], length};
ghost use Rattle.std.specs.Char.{digit_char};
ghost use Rattle.kr_code.specs.Short.{short_coded, short_near};
ghost use Rattle.pcs_io.specs.SymbolAnswers.{AreSymbols};
ghost use Rattle.pcs_late.specs.Kr.{answer_text, corrected_text, symbol_digits, word_of, word_text};

use arrayvec::ArrayVec;
use gf1024::Gf;
use itoa::Buffer;
use kr_code::{correct, encode};

// The symbols of a word, and of its parity and its message.
const WORD: usize = 528;

const PARITY: usize = 14;

const MESSAGE: usize = 514;

/// The text of an answer: a number, a space, the digits of a word and a newline at most.
pub type Text = ArrayVec<u8, 1640>;

/// The answer to a line's symbols, and a newline.
pub fn text_of(symbols: &[u16]) -> Text
    requires { AreSymbols symbols.now }
    ensures text { result.items ≡ answer_text symbols.now ++ 10 ∷ [] }
    ensures short { length result.items ≤ 1640 }
{
    let mut text = Text::new();
    if symbols.len() == MESSAGE {
        put_coded(&mut text, symbols);
    } else {
        put_corrected(&mut text, symbols);
    }
    put(&mut text, b"\n");
    text
}

// The codeword of a message, whose parity has the lowest places.
fn put_coded(text: &mut Text, symbols: &[u16])
    requires empty { text.old.items ≡ [] }
    requires long { length symbols.now ≡ 514 }
    ensures text { text.new.items ≡ word_text (short_coded (word_of symbols.now)) }
    ensures short { length text.new.items ≤ 1625 }
{
    let message = word_of::<MESSAGE>(symbols);
    let mut parity = [Gf::low(0); PARITY];
    encode(&message, &mut parity);
    put_symbols(text, &message);
    put_symbols(text, &parity);
}

// The codeword near a word, if there is one, behind its distance.
fn put_corrected(text: &mut Text, symbols: &[u16])
    requires empty { text.old.items ≡ [] }
    requires long { length symbols.now ≡ 528 }
    ensures text { text.new.items ≡ corrected_text (word_of symbols.now) (short_near (word_of symbols.now)) }
    ensures short { length text.new.items ≤ 1625 }
{
    let mut word = word_of::<WORD>(symbols);
    match correct(&mut word) {
        Some(distance) => {
            put(text, Buffer::new().format(distance).as_bytes());
            put(text, b" ");
            put_symbols(text, &word);
        }
        None => put(text, b"-"),
    }
}

// The word of so many symbols, the last of which has place 0.
fn word_of<const N: usize>(symbols: &[u16]) -> [Gf; N]
    requires { length symbols.now ≡ N }
    ensures { result ≡ word_of symbols.now }
{
    let mut word = [Gf::low(0); N];
    for i in 0..N {
        word[i] = Gf::low(symbols[N - 1 - i]);
    }
    word
}

// Puts symbols, the highest place first.
fn put_symbols(text: &mut Text, word: &[Gf])
    requires { length text.old.items + 3 * length word.now ≤ 1640 }
    ensures text { text.new.items ≡ text.old.items ++ word_text word.now }
    ensures long { length text.new.items ≡ length text.old.items + 3 * length word.now }
{
    let count = word.len();
    for i in 0..count {
        put(text, &symbol_digits(word[count - 1 - i]));
    }
}

// Three lower-case hexadecimal digits.
#[inline]
fn symbol_digits(symbol: Gf) -> [u8; 3]
    ensures { result ≡ symbol_digits symbol }
{
    let value = symbol.value();
    [
        digit(value / 256),
        digit(value / 16 % 16),
        digit(value % 16),
    ]
}

#[inline]
fn digit(value: u16) -> u8
    requires { value < 16 }
    ensures { result ≡ digit_char value }
{
    if value < 10 {
        b'0' + value as u8
    } else {
        b'a' + (value - 10) as u8
    }
}

#[inline]
fn put(text: &mut Text, more: &[u8])
    requires { length text.old.items + length more.now ≤ 1640 }
    ensures text { text.new.items ≡ text.old.items ++ more.now }
    ensures long { length text.new.items ≡ length text.old.items + length more.now }
{
    text.try_extend_from_slice(more).unwrap();
}
