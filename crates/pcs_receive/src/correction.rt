// The two words of a pair, corrected.
ghost use Rattle.std.specs.Prelude.{◌≡◌, ℕ, ◌<◌, ◌&&◌, [], Some, IsTrue, length, is_some, replicate, slice_index_or};
ghost use Rattle.gf1024.specs.Symbol.{zero_symbol};
ghost use Rattle.bit_lists.specs.Places.{flat, for_each};
ghost use Rattle.pcs_receive.specs.Corrections.{IsCorrectionOf, differing};
ghost use Rattle.pcs_receive.specs.Received.{bits_of_pair};
ghost use Rattle.pcs_receive.specs.Reports.{report_of, wrong_in};

use gf1024::Gf;
use pcs_bits::Wide;
use pcs_watch::Report;
use rs_decode::correct;
use symbol_deal::{Codewords, from_codewords, split_rows, to_rows};

/// The words of a pair, each replaced by the codeword near it where there is one, and in how many
/// places that differed.
#[derive(Drop)]
pub struct Corrected {
    pub words: Codewords,
    pub near_a: Option<u8>,
    pub near_b: Option<u8>,
}

impl Corrected {
    /// Words of zeros.
    pub fn new() -> Corrected {
        let words = Codewords {
            a: [Gf::low(0); 544],
            b: [Gf::low(0); 544],
        };
        Corrected {
            words,
            near_a: None,
            near_b: None,
        }
    }
}

/// Replaces the words by those of a pair, corrected. A pair is 68 rows of sixteen symbols, by lane number.
pub fn correct_pair(rows: &[[Gf; 16]; 68], corrected: &mut Corrected)
    ensures { IsCorrectionOf rows.now corrected.new.words.a corrected.new.words.b corrected.new.near_a corrected.new.near_b }
{
    split_rows(rows, &mut corrected.words);
    corrected.near_a = correct(&mut corrected.words.a);
    corrected.near_b = correct(&mut corrected.words.b);
}

/// The report of a pair with this number, from its rows and its words.
pub fn report(number: u64, rows: &[[Gf; 16]; 68], corrected: &Corrected) -> Report
    requires { IsCorrectionOf rows.now corrected.now.words.a corrected.now.words.b corrected.now.near_a corrected.now.near_b }
    ensures { result ≡ report_of number rows.now }
{
    Report {
        pair: number,
        a: corrected.near_a,
        b: corrected.near_b,
        wrong: replaced(rows, corrected),
    }
}

// How many symbols of each lane were replaced: of words that are codewords none.
fn replaced(rows: &[[Gf; 16]; 68], corrected: &Corrected) -> [u16; 16]
    requires { IsCorrectionOf rows.now corrected.now.words.a corrected.now.words.b corrected.now.near_a corrected.now.near_b }
    ensures { result ≡ for_each 16 (wrong_in rows.now) }
{
    if is_codeword(corrected.near_a) && is_codeword(corrected.near_b) {
        return [0; 16];
    }
    differences(rows, &to_rows(&corrected.words.a, &corrected.words.b))
}

// Whether the codeword near a word is the word.
#[inline]
fn is_codeword(near: Option<u8>) -> bool
    ensures { IsTrue result → near ≡ Some 0 }
{
    match near {
        Some(distance) => distance == 0,
        None => false,
    }
}

// In how many rows each lane differs.
fn differences(rows: &[[Gf; 16]; 68], sent: &[[Gf; 16]; 68]) -> [u16; 16]
    ensures { result ≡ for_each 16 (λ u. differing rows.now sent.now u 68) }
{
    let mut wrong = [0; 16];
    for lane in 0..16usize {
        wrong[lane] = difference(rows, sent, lane);
    }
    wrong
}

fn difference(rows: &[[Gf; 16]; 68], sent: &[[Gf; 16]; 68], lane: usize) -> u16
    requires { lane < 16 }
    ensures { result ≡ differing rows.now sent.now lane 68 }
{
    let mut count = 0;
    for k in 0..68usize {
        if number_in(&rows[k], lane) != number_in(&sent[k], lane) {
            count += 1;
        }
    }
    count
}

// The number of a lane's symbol in a row.
#[inline]
fn number_in(row: &[Gf; 16], lane: usize) -> u16
    requires { lane < 16 }
    ensures { result ≡ (slice_index_or row.now lane zero_symbol).value }
{
    row[lane].value()
}

/// Replaces the wides by the forty that a pair carries: those of the messages of its codewords, or
/// zeros where a word has no codeword near it. The first one travels first.
pub fn put_wides(wides: &mut [Wide; 40], rows: &[[Gf; 16]; 68], corrected: &Corrected)
    requires { IsCorrectionOf rows.now corrected.now.words.a corrected.now.words.b corrected.now.near_a corrected.now.near_b }
    ensures bits { flat wides.new ≡ bits_of_pair rows.now }
    ensures count { length wides.new ≡ 40 }
    ensures sizes { (i : ℕ) → i < 40 → length (slice_index_or wides.new i []) ≡ 257 }
{
    if are_near(corrected.near_a, corrected.near_b) {
        from_codewords(&corrected.words, wides);
    } else {
        *wides = zeros();
    }
}

/// Whether both words have a codeword near them.
#[inline]
pub fn are_near(near_a: Option<u8>, near_b: Option<u8>) -> bool
    ensures { result ≡ (is_some near_a && is_some near_b) }
{
    near_a.is_some() && near_b.is_some()
}

fn zeros() -> [Wide; 40]
    ensures bits { flat result ≡ replicate 10280 0 }
    ensures sizes { (i : ℕ) → i < 40 → length (slice_index_or result i []) ≡ 257 }
{
    [Wide::new([0; 5]); 40]
}
