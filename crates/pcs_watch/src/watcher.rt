// What is told of each report.
ghost use Rattle.std.specs.Prelude.{◌≡◌, ◌<◌, ◌^◌, ◌↔◌, ℕ, Bool, true, List, length, map, slice_get, vec_capacity};
ghost use Rattle.pcs_watch.specs.declared.Report.{Report};
ghost use Rattle.pcs_watch.specs.Watching.{seen, stays, told, told_all};

use crate::Report;

/// Whether a watcher stays.
#[derive(Clone, Copy, Debug, PartialEq, Eq)]
pub enum Stay {
    /// It is told of the next report too.
    Stay,
    /// It is dropped.
    Leave,
}

/// One that is told of reports and counts them in a tally. It has four meanings: `label` is its name and
/// `tally` the numbers of its tally, `after` gives a tally from a tally and a report, and `leaves`
/// says at which tally it leaves.
pub trait Watcher: Drop {
    ghost label: { Self → List ℕ };

    ghost tally: { Self → List ℕ };

    ghost after: { Self → List ℕ → Report → List ℕ };

    ghost leaves: { Self → List ℕ → Bool };

    /// Its name.
    fn name(&self) -> &str
        ensures name { result.now ≡ label self.now };

    /// Number i of its tally, counted from 0; `None` past the end.
    fn number(&self, i: usize) -> Option<u64>
        ensures number { result ≡ slice_get (tally self.now) i }
        ensures count { length (tally self.now) < 2 ^ 64 };

    /// Counts a report, and says whether it stays.
    fn tell(&mut self, report: &Report) -> Stay
        ensures told { tally self.new ≡ after self.old (tally self.old) report.now }
        ensures leave { (result ≡ Stay.Leave) ↔ (leaves self.old (tally self.new) ≡ true) }
        ensures same_name { label self.new ≡ label self.old }
        ensures same_after { (t : List ℕ) (r : Report) → after self.new t r ≡ after self.old t r }
        ensures same_leaves { (t : List ℕ) → leaves self.new t ≡ leaves self.old t };
}

// Tells one watcher, and answers whether it stays.
fn tell_one(watcher: &mut Box<dyn Watcher>, report: &Report) -> bool
    ensures told { seen label tally after leaves watcher.new ≡ told report.now (seen label tally after leaves watcher.old) }
    ensures stays { result ≡ stays (seen label tally after leaves watcher.new) }
{
    watcher.tell(report) == Stay::Stay
}

/// Tells each watcher once, in order. Those that leave are dropped, the others stay in their order.
pub fn tell_all(watchers: &mut Vec<Box<dyn Watcher>>, report: &Report)
    ensures told { map (seen label tally after leaves) watchers.new.items
        ≡ told_all report.now (map (seen label tally after leaves) watchers.old.items) }
    ensures room { vec_capacity watchers.new ≡ vec_capacity watchers.old }
{
    watchers.retain_mut(
        |watcher: &mut Box<dyn Watcher>| -> bool
            ensures { (seen label tally after leaves watcher.exit.now ≡ told report.entry.now (seen label tally after leaves watcher.entry.now))
                × (result ≡ stays (seen label tally after leaves watcher.exit.now)) }
        { tell_one(watcher, report) },
    );
}
