// Octets that only proofs read. They take no memory, and the calls do nothing when they run.
ghost use Rattle.std.specs.Prelude.{◌≡◌, ℕ, List, [], ◌++◌};
ghost use Rattle.std.specs.Borrow.{ftrue};

use std::marker::{Model, PhantomData};

#[derive(Drop)]
pub struct Ledger {
    marker: PhantomData<u8>,
    pub ghost octets: { List ℕ },
    // Those that were entered before the last call.
    pub ghost earlier: { List ℕ },
}

impl Model for Ledger {
    ghost also_owns = { λ _. ftrue };
}

impl Ledger {
    pub(crate) fn new() -> Ledger
        ensures { (result.octets ≡ []) × (result.earlier ≡ []) }
    {
        Ledger {
            marker: PhantomData,
        }
    }

    /// Enters these octets after the others.
    pub(crate) fn append(&mut self, _octets: &[u8])
        ensures { (self.new.octets ≡ self.old.octets ++ _octets.now) × (self.new.earlier ≡ self.old.octets) }
    {}
}
