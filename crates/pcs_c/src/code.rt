// The codes. A symbol is the ten lowest bits of a number, and its place is its power of `x` in the word.
ghost use Rattle.std.specs.Prelude.{◌≡◌, ◌++◌, map, unwrap_or};
ghost use Rattle.gf1024.specs.Symbol.{symbol};
ghost use Rattle.rs_code.specs.Near.{coded, near};
ghost use Rattle.kr_code.specs.Short.{short_coded, short_near};
ghost use Rattle.pcs_c.specs.Code.{AreSymbols, IsCorrected};

use crate::symbols::{read, write};
use gf1024::Gf;

/// Writes the parity of a message of RS(544,514): places 0 to 29 of the codeword, of which the message
/// is places 30 to 543.
#[unsafe(no_mangle)]
pub extern "C" fn pcs_rs_encode(message: &[u16; 514], parity: &mut [u16; 30])
    ensures coded { map symbol parity.new ++ map symbol message.now ≡ coded (map symbol message.now) }
    ensures symbols { AreSymbols parity.new }
{
    let mut symbols = [Gf::low(0); 514];
    read(&mut symbols, message);
    let mut parity_symbols = [Gf::low(0); 30];
    rs_code::encode(&symbols, &mut parity_symbols);
    write(parity, &parity_symbols);
}

/// Replaces the word by the codeword of RS(544,514) within fifteen places, and answers in how many
/// places it differed. Answers 255 where there is none, and leaves the symbols as they were.
#[unsafe(no_mangle)]
pub extern "C" fn pcs_rs_correct(word: &mut [u16; 544]) -> u8
    ensures answer { IsCorrected (near (map symbol word.old) 15) word.old word.new result }
    ensures symbols { AreSymbols word.new }
{
    let mut symbols = [Gf::low(0); 544];
    read(&mut symbols, word);
    let answer = rs_decode::correct(&mut symbols);
    write(word, &symbols);
    count_or_none(answer)
}

/// Writes the parity of a message of RS(528,514): places 0 to 13 of the codeword, of which the message
/// is places 14 to 527.
#[unsafe(no_mangle)]
pub extern "C" fn pcs_kr_encode(message: &[u16; 514], parity: &mut [u16; 14])
    ensures coded { map symbol parity.new ++ map symbol message.now ≡ short_coded (map symbol message.now) }
    ensures symbols { AreSymbols parity.new }
{
    let mut symbols = [Gf::low(0); 514];
    read(&mut symbols, message);
    let mut parity_symbols = [Gf::low(0); 14];
    kr_code::encode(&symbols, &mut parity_symbols);
    write(parity, &parity_symbols);
}

/// Replaces the word by the codeword of RS(528,514) within seven places, and answers in how many
/// places it differed. Answers 255 where there is none, and leaves the symbols as they were.
#[unsafe(no_mangle)]
pub extern "C" fn pcs_kr_correct(word: &mut [u16; 528]) -> u8
    ensures answer { IsCorrected (short_near (map symbol word.old)) word.old word.new result }
    ensures symbols { AreSymbols word.new }
{
    let mut symbols = [Gf::low(0); 528];
    read(&mut symbols, word);
    let answer = kr_code::correct(&mut symbols);
    write(word, &symbols);
    count_or_none(answer)
}

// A count, or 255.
pub(crate) fn count_or_none(answer: Option<u8>) -> u8
    ensures { result ≡ unwrap_or answer 255 }
{
    match answer {
        Some(count) => count,
        None => 255,
    }
}
