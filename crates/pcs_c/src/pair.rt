// Pairs of codewords.
ghost use Rattle.std.specs.Prelude.{◌≡◌, map};
ghost use Rattle.bit_lists.specs.Places.{flat};
ghost use Rattle.pcs_send.specs.Lanes.{beats_of};
ghost use Rattle.pcs_send.specs.Transmission.{pair_lanes};
ghost use Rattle.pcs_c.specs.Blocks.{wide_meant};
ghost use Rattle.pcs_c.specs.Pairs.{rows_in, IsDecoded};

use crate::code::count_or_none;
use crate::rows::read_rows;
use crate::wide::{wide_meant, write_wides};
use gf1024::Gf;
use pcs_bits::Wide;
use pcs_receive::{Corrected, are_near, correct_pair, put_wides, report};
use pcs_send::put_pair;

/// Writes the 85 beats of a pair of forty wides, the first of which travels first. A pair with a group begins with the
/// eight wides of it; all other wides come scrambled.
#[unsafe(no_mangle)]
pub extern "C" fn pcs_encode_pair(wides: &[[u64; 5]; 40], beats: &mut [[u8; 16]; 85])
    ensures { beats.new ≡ beats_of (pair_lanes (flat (map wide_meant wides.now))) }
{
    put_pair(beats, &wides_meant(wides));
}

/// Writes the forty wides of a pair of 85 beats, both of its codewords corrected, in how many places each word
/// differed, or 255, and how many symbols of each lane did. Answers 0, or 1 where one of the words has no codeword
/// within fifteen places; the wides are zeros then.
#[unsafe(no_mangle)]
pub extern "C" fn pcs_decode_pair(
    beats: &[[u8; 16]; 85],
    wides: &mut [[u64; 5]; 40],
    counts: &mut [u8; 2],
    wrong: &mut [u16; 16],
) -> u8
    ensures { IsDecoded (rows_in beats.now) wides.new counts.new wrong.new result }
{
    let mut rows = [[Gf::low(0); 16]; 68];
    read_rows(&mut rows, beats);
    let mut words = Corrected::new();
    correct_pair(&rows, &mut words);
    let mut all = [Wide::new([0; 5]); 40];
    put_wides(&mut all, &rows, &words);
    write_wides(wides, &all);
    let told = report(0, &rows, &words);
    *counts = [count_or_none(told.a), count_or_none(told.b)];
    let lanes = told.wrong;
    *wrong = lanes;
    if are_near(words.near_a, words.near_b) {
        0
    } else {
        1
    }
}

// Forty wides.
fn wides_meant(wides: &[[u64; 5]; 40]) -> [Wide; 40]
    ensures { result ≡ map wide_meant wides.now }
{
    let mut all = [Wide::new([0; 5]); 40];
    for i in 0..40usize {
        all[i] = wide_meant(&wides[i]);
    }
    all
}
