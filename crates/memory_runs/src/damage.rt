// What happens to a capture of version 1 on its way.
use std::alloc::{AllocError, Global};

/// A part of a lane whose bits are inverted: the lane, its first place, and how many.
pub type Burst = (usize, usize, usize);

const HEADER: usize = 16;

/// Inverts the bits, which are counted from the first beat.
pub fn invert(capture: &mut Vec<u8>, bursts: &[Burst]) {
    for (lane, place, count) in bursts {
        for n in *place..place.saturating_add(*count) {
            let at = (n / 8).saturating_mul(16).saturating_add(HEADER);
            if let Some(octet) = capture.get_mut(at.saturating_add(*lane)) {
                *octet ^= 1 << (n % 8);
            }
        }
    }
}

/// The capture whose lane l is lane 15 - l.
pub fn turned_round(alloc: Global, capture: &[u8]) -> Result<Vec<u8>, AllocError> {
    let mut turned = capture.to_vec(alloc)?;
    for (beat, old) in turned.chunks_mut(16).zip(capture.chunks(16)).skip(1) {
        for (octet, from) in beat.iter_mut().zip(old.iter().rev()) {
            *octet = *from;
        }
    }
    Ok(turned)
}

/// The capture with so many zero bits before lane 0.
pub fn skewed(alloc: Global, capture: &[u8], bits: usize) -> Result<Vec<u8>, AllocError> {
    let mut skewed = capture.to_vec(alloc)?;
    let behind = (bits / 8).saturating_add(1).saturating_mul(16);
    skewed.extend_from_slice(&vec![in alloc; 0u8; behind]?)?;
    for octet in skewed.iter_mut().skip(HEADER).step_by(16) {
        *octet = 0;
    }
    let lane = capture.iter().skip(HEADER).step_by(16);
    for (beat, octet) in lane.enumerate() {
        let word = u16::from(*octet) << (bits % 8);
        let at = beat
            .saturating_add(bits / 8)
            .saturating_mul(16)
            .saturating_add(HEADER);
        if let Some(low) = skewed.get_mut(at) {
            *low |= (word % 256) as u8;
        }
        if let Some(high) = skewed.get_mut(at.saturating_add(16)) {
            *high |= (word / 256) as u8;
        }
    }
    Ok(skewed)
}
