// The symbols replaced in each lane.
ghost use Rattle.std.specs.Prelude.{◌≡◌, ℕ, false, List, [], ◌∷◌, codes};
ghost use Rattle.std.specs.Simd.Lanes.{zip2};
ghost use Rattle.pcs_watch.specs.Tallies.{add_up, lanes_after, lanes};
ghost use Rattle.pcs_watch.specs.Watching.{seen};

use crate::{Report, Stay, Watcher};

/// Counts for each lane the symbols that were replaced.
#[derive(Drop)]
pub struct Lanes {
    counts: [u64; 16],
}

impl Lanes {
    /// No symbol so far.
    pub fn new() -> Lanes
        ensures seen { let w = ⟦<Lanes as Watcher>⟧ in seen w.label w.tally w.after w.leaves result ≡ lanes }
    {
        Lanes { counts: [0; 16] }
    }
}

// The counts and what is added, lane by lane.
fn add_each(counts: &[u64; 16], wrong: &[u16; 16]) -> [u64; 16]
    ensures { result ≡ zip2 add_up counts.now wrong.now }
{
    let mut sums = [0; 16];
    for lane in 0..16usize {
        sums[lane] = counts[lane].saturating_add(u64::from(wrong[lane]));
    }
    sums
}

impl Watcher for Lanes {
    ghost label = { λ _. codes "lanes" };

    ghost tally = { λ w. w.counts };

    ghost after = { λ _. lanes_after };

    ghost leaves = { λ _ _. false };

    fn name(&self) -> &str {
        "lanes"
    }

    fn number(&self, i: usize) -> Option<u64> {
        self.counts.get(i).copied()
    }

    fn tell(&mut self, report: &Report) -> Stay {
        self.counts = add_each(&self.counts, &report.wrong);
        Stay::Stay
    }
}
