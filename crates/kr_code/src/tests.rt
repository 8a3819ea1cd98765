use crate::{correct, encode};
use gf1024::Gf;

// The generator of the code without x^14, lowest coefficient first.
const GENERATOR: [u16; 14] = [
    432, 290, 945, 265, 592, 391, 614, 900, 925, 656, 32, 701, 6, 904,
];

// The product of x - alpha^j for j from 0 to 6, lowest coefficient first.
const HALF: [u16; 8] = [130, 28, 398, 607, 972, 253, 127, 1];

// The message whose symbol at place 0 is 1.
#[test]
fn parity_of_one_is_the_generator(rt: HostRuntime) {
    let mut message = [Gf::low(0); 514];
    message[0] = Gf::low(1);
    let mut parity = [Gf::low(7); 14];
    encode(&message, &mut parity);
    assert_eq!(rt; parity[13].value(), 0x388);
    assert_eq!(rt; parity[0].value(), 0x1b0);
    for k in 0..14usize {
        assert_eq!(rt; parity[k].value(), GENERATOR[k]);
    }
}

#[test]
fn corrects_seven_of_zeros(rt: HostRuntime) {
    for start in [0, 5, 60] {
        let mut word = [Gf::low(0); 528];
        for j in 0..7usize {
            word[start + 77 * j] = Gf::low(1);
        }
        assert_eq!(rt; correct(&mut word), Some(7));
        assert_eq!(rt; differences(&word, &[Gf::low(0); 528]), 0);
    }
}

// Eight symbols that aren't zero, and no codeword within seven.
#[test]
fn leaves_the_product_of_half_the_roots(rt: HostRuntime) {
    let mut word = [Gf::low(0); 528];
    for k in 0..8usize {
        word[k] = Gf::low(HALF[k]);
    }
    let before = word;
    assert_eq!(rt; correct(&mut word), None);
    assert_eq!(rt; differences(&word, &before), 0);
}

#[test]
fn corrects_what_was_encoded(rt: HostRuntime) {
    for (seed, errors) in [(1, 0), (2, 1), (77, 6), (1023, 7)] {
        let sent = codeword(seed);
        let mut word = sent;
        for j in 0..errors {
            // Places 0 and 527 among them.
            let place = if j == 0 { 527 } else { (j - 1) as usize * 75 };
            word[place] = word[place].add(Gf::low(seed as u16));
        }
        assert_eq!(rt; correct(&mut word), Some(errors));
        assert_eq!(rt; differences(&word, &sent), 0);
    }
}

// A codeword of symbols that look random.
fn codeword(seed: u32) -> [Gf; 528] {
    let mut message = [Gf::low(0); 514];
    let mut state = seed;
    for i in 0..514usize {
        state = state.wrapping_mul(1_664_525).wrapping_add(1_013_904_223);
        message[i] = Gf::low((state >> 16) as u16);
    }
    let mut parity = [Gf::low(0); 14];
    encode(&message, &mut parity);
    let mut word = [Gf::low(0); 528];
    for k in 0..14usize {
        word[k] = parity[k];
    }
    for i in 0..514usize {
        word[14 + i] = message[i];
    }
    word
}

fn differences(a: &[Gf; 528], b: &[Gf; 528]) -> u32 {
    let mut count = 0u32;
    for i in 0..528usize {
        if a[i] != b[i] {
            count = count.saturating_add(1);
        }
    }
    count
}
