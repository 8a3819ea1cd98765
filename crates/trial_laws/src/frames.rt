// Frames that are made of the words of a seed.
ghost use Rattle.std.specs.Prelude.{◌≡◌, ◌≤◌, length};
ghost use Rattle.rand_xoshiro.specs.SplitMix64.{next_state};
ghost use Rattle.lane_impair.specs.Noise.{word_of};
ghost use Rattle.trial_laws.specs.TrialFrames.{frame_of, gap_of, behind_frame};

use rand_core::SeedableRng;
use rand_core::utils::NextWord;
use rand_xoshiro::SplitMix64;
use std::marker::Model;

// The octets of the words of the longest frame.
const ROOM: usize = 1088;

/// The words of a seed.
pub fn words_of(seed: u64) -> SplitMix64
    ensures { result ≡ seed }
{
    SplitMix64::from_seed(seed.to_le_bytes())
}

/// Draws the next word.
#[inline]
#[tactic(auto, unfolding(lane_impair::specs::Noise::word_of))]
pub fn draw(words: &mut SplitMix64) -> u64
    ensures word { result ≡ word_of words.old }
    ensures state { words.new ≡ next_state words.old }
{
    words.next_word()
}

/// Frames that are made one after the other, of the words of a seed.
#[derive(Drop)]
pub struct FrameMaker {
    words: SplitMix64,
    octets: [u8; ROOM],
    size: usize,
}

impl Model for FrameMaker {
    ghost use Rattle.std.specs.Prelude.{◌≡◌, ◌≤◌, length, take};
    ghost use Rattle.trial_laws.specs.TrialFrames.{Made};

    ghost Value = { Made };

    ghost view = { λ s. record { state = s.words; frame = take s.size s.octets } };

    ghost invariant = { λ s. (s.size ≤ 1088) × (length s.octets ≡ 1088) };
}

impl FrameMaker {
    pub fn new(seed: u64) -> FrameMaker
        ensures { result.state ≡ seed }
    {
        FrameMaker {
            words: words_of(seed),
            octets: [0; ROOM],
            size: 0,
        }
    }

    /// Makes the next frame, and tells the gap behind it.
    pub fn make(&mut self) -> u32
        ensures gap { result ≡ gap_of self.old.state }
        ensures frame { self.new.frame ≡ frame_of self.old.state }
        ensures state { self.new.state ≡ behind_frame self.old.state }
    {
        let word = draw(&mut self.words);
        self.size = 64 + (word % 1024) as usize;
        for k in 0..self.size.div_ceil(8) {
            let octets = draw(&mut self.words).to_le_bytes();
            self.octets[8 * k..8 * k + 8].copy_from_slice(&octets);
        }
        let columns = 2 + self.size / 8;
        (columns / 4 + 1) as u32 + ((word >> 10) % 8) as u32
    }

    /// The frame that was made last.
    pub fn frame(&self) -> &[u8]
        ensures octets { result.now ≡ self.now.frame }
        ensures within { length result.now ≤ 1088 }
    {
        &self.octets[..self.size]
    }
}
