// The parser of symbol lines: three hexadecimal digits for each symbol, and a newline.
ghost use Rattle.std.specs.Prelude.{◌≡◌, ◌<◌, ◌+◌, ◌∷◌, [], ℕ, List, IsTrue, length, take, drop, IfSome};
ghost use Rattle.std.specs.Char.{digit_value};
ghost use Rattle.pcs_io.specs.Grammars.{Line};
ghost use Rattle.pcs_io.specs.Parsing.{comes_after};
ghost use Rattle.pcs_io.specs.SymbolAnswers.{AreSymbols, is_count};
ghost use Rattle.pcs_io.specs.SymbolLines.{symbol_line_at, symbols_at, numbers_of, is_width, MayStand, AreSymbolDigits, AreSmall};

use crate::Kind;
use crate::parser::{Parser, Step, Taken};
use arrayvec::ArrayVec;
use memchr::memchr;
use std::alloc::{AllocError, Global};
use std::marker::Model;

// The most symbols of a line, and the fewest.
const MOST: usize = 528;

const FEWEST: usize = 514;

// The digits of a symbol.
const EACH: usize = 3;

const MOST_DIGITS: usize = EACH * MOST;

/// The parser of symbol lines. It has room for the longest line.
#[derive(Drop)]
pub struct SymbolParser {
    digits: Box<ArrayVec<u8, MOST_DIGITS>>,
    symbols: Box<[u16; MOST]>,
    count: usize,
}

impl Model for SymbolParser {
    ghost use Rattle.std.specs.Prelude.{◌≡◌, true, length, take};
    ghost use Rattle.pcs_io.specs.SymbolAnswers.{is_count};
    ghost use Rattle.pcs_io.specs.SymbolLines.{SymbolParserState, AreSymbolDigits, AreSmall};

    ghost Value = { SymbolParserState };

    ghost view = { λ s. record { digits = s.digits.value.items; numbers = take s.count s.symbols.value } };

    ghost invariant = { λ s. AreSymbolDigits s.digits.value.items × (length s.symbols.value ≡ 528) × AreSmall s.symbols.value × (is_count s.count ≡ true) };
}

impl SymbolParser {
    pub fn open(alloc: Global) -> Result<Self, AllocError> {
        Ok(SymbolParser {
            digits: Box::new(alloc, ArrayVec::new())?,
            symbols: Box::new(alloc, [0; MOST])?,
            count: FEWEST,
        })
    }

    /// The numbers of the line that was read last.
    #[inline]
    pub fn symbols(&self) -> &[u16]
        ensures numbers { result.now ≡ self.now.numbers }
        ensures fits { AreSymbols result.now }
    {
        &self.symbols[..self.count]
    }
}

impl Parser for SymbolParser {
    ghost use Rattle.std.specs.Prelude.{ℕ, List};
    ghost use Rattle.pcs_io.specs.SymbolLines.{SymbolParserState, symbol_line_at, symbols_at, nothing_at};
    ghost use Rattle.pcs_io.specs.SymbolGrammar.{symbol_grammar};

    ghost Item = { List ℕ };

    ghost line_at = { symbol_line_at };

    ghost grammar = { symbol_grammar };

    ghost ahead = { λ p. symbols_at p.digits };

    ghost nothing_ahead = { λ p. nothing_at p.digits };

    ghost line = { λ p. p.numbers };

    fn restart(&mut self) {
        self.digits.clear();
    }

    fn take(&mut self, octets: &[u8]) -> Taken {
        let step = match symbol_step(&mut self.digits, octets[0]) {
            Step::More => Step::More,
            Step::Whole => {
                self.count = decode_symbols(self.digits.as_slice(), &mut self.symbols[..]);
                Step::Whole
            }
            Step::Refuse(kind) => Step::Refuse(kind),
        };
        Taken { used: 1, step }
    }

    fn quick(&mut self, octets: &[u8]) -> Option<usize> {
        let digits = digits_in_front(octets)?;
        self.count = decode_symbols(&octets[..digits], &mut self.symbols[..]);
        Some(digits + 1)
    }
}

// One more octet of a line.
fn symbol_step(digits: &mut ArrayVec<u8, MOST_DIGITS>, octet: u8) -> Step
    requires right { AreSymbolDigits digits.old.items }
    ensures step { (rest : List ℕ) → symbols_at digits.old.items (octet ∷ rest)
        ≡ comes_after (symbols_at digits.new.items) (numbers_of digits.new.items) result rest }
    ensures whole { result ≡ Step.Whole → IsTrue (is_width (length digits.new.items)) }
    ensures right { AreSymbolDigits digits.new.items }
{
    if octet == b'\n' {
        return if is_width(digits.len()) {
            Step::Whole
        } else {
            Step::Refuse(Kind::BadWidth)
        };
    }
    if digits.is_full() {
        return Step::Refuse(Kind::BadWidth);
    }
    if !(octet as char).is_digit(16) {
        return Step::Refuse(Kind::BadHex);
    }
    if digits.len() % EACH == 0 && value_of(octet) > 3 {
        return Step::Refuse(Kind::Symbol);
    }
    digits.push(octet);
    Step::More
}

// Whether a line has so many digits.
fn is_width(digits: usize) -> bool
    ensures { result ≡ is_width digits }
{
    digits == EACH * FEWEST || digits == EACH * MOST
}

// The value of a hexadecimal digit.
#[inline(always)]
fn value_of(digit: u8) -> u16
    requires { digit_value digit < 16 }
    ensures { result ≡ digit_value digit }
{
    (digit as char).to_digit(16).unwrap() as u16
}

// The number of digits in front of the octets, where a line of them is whole and right.
fn digits_in_front(octets: &[u8]) -> Option<usize>
    ensures line { IfSome result (λ n. symbol_line_at octets.now ≡ Line (numbers_of (take n octets.now)) (drop (n + 1) octets.now)) }
    ensures within { IfSome result (λ n. n < length octets.now) }
    ensures width { IfSome result (λ n. IsTrue (is_width n)) }
    ensures right { IfSome result (λ n. AreSymbolDigits (take n octets.now)) }
{
    let count = memchr(b'\n', octets)?;
    if is_width(count) && are_symbol_digits(&octets[..count]) {
        Some(count)
    } else {
        None
    }
}

// Whether each digit may stand where it does.
fn are_symbol_digits(digits: &[u8]) -> bool
    ensures { IsTrue result → AreSymbolDigits digits.now }
{
    for i in 0..digits.len() {
        if !may_stand(i, digits[i]) {
            return false;
        }
    }
    true
}

// Whether the digit may stand behind so many.
#[inline(always)]
fn may_stand(count: usize, digit: u8) -> bool
    ensures { IsTrue result → MayStand count digit }
{
    (digit as char).is_digit(16) && (count % EACH > 0 || value_of(digit) <= 3)
}

// The symbols of so many digits go to the front; answers how many there are.
fn decode_symbols(digits: &[u8], symbols: &mut [u16]) -> usize
    requires width { IsTrue (is_width (length digits.now)) }
    requires right { AreSymbolDigits digits.now }
    requires room { length symbols.old ≡ 528 }
    requires small { AreSmall symbols.old }
    ensures numbers { take result symbols.new ≡ numbers_of digits.now }
    ensures count { IsTrue (is_count result) }
    ensures small { AreSmall symbols.new }
{
    let count = digits.len() / EACH;
    for i in 0..count {
        symbols[i] = symbol_of(&digits[EACH * i..EACH * i + EACH]);
    }
    count
}

// The symbol of three digits.
#[inline(always)]
fn symbol_of(digits: &[u8]) -> u16
    requires three { length digits.now ≡ 3 }
    requires right { AreSymbolDigits digits.now }
    ensures number { numbers_of digits.now ≡ result ∷ [] }
    ensures small { result < 1024 }
{
    256 * value_of(digits[0]) + 16 * value_of(digits[1]) + value_of(digits[2])
}
