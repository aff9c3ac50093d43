ghost use Rattle.std.specs.Prelude.{◌≡◌, ◌<◌, ◌≤◌, ◌+◌, ◌^◌, ℕ, true, length, slice_index, replicate, IfOk};
ghost use Rattle.ring_book.specs.GrantCounts.{IsEven};
ghost use Rattle.ring_book.specs.GrantsView.{raised, no_grants, one_grant, run_ended};

use std::alloc::{AllocError, Global};
use std::marker::Model;

/// How many passes were granted: in all, to each machine, and to each machine in the settled run, which is
/// the longest suffix of the history that has no corruption and before each of whose events exactly one
/// machine was privileged.
#[derive(Drop)]
pub struct GrantBook {
    total: u64,
    each: Vec<u64>,
    settled: Vec<u64>,
    // Set exactly where no count of the settled run is above 0: then nothing has to be cleared when a settled run ends.
    settled_is_clear: bool,
}

impl Model for GrantBook {
    ghost use Rattle.ring_book.specs.GrantsView.{GrantsView};
    ghost use Rattle.ring_book.specs.GrantCounts.{IsCounted};

    ghost Value = { GrantsView };

    ghost view = { λ g.
        record { total = g.total; each = g.each.items; settled = g.settled.items } };

    ghost invariant = { λ g. IsCounted g.total g.each.items g.settled.items g.settled_is_clear };
}

impl GrantBook {
    /// No grants of `machines` machines.
    pub(crate) fn new(alloc: Global, machines: u32) -> Result<GrantBook, AllocError>
        ensures { IfOk result (λ g. g ≡ no_grants machines) }
    {
        let each = vec![in alloc; 0u64; machines as usize]?;
        let settled = vec![in alloc; 0u64; machines as usize]?;
        Ok(GrantBook {
            total: 0,
            each,
            settled,
            settled_is_clear: true,
        })
    }

    /// The granted passes of all machines.
    pub fn total(&self) -> u64
        ensures { result ≡ self.now.total }
    {
        self.total
    }

    /// The granted passes of `machine`, which is below n.
    pub fn of(&self, machine: u32) -> u64
        requires { machine < length self.now.each }
        ensures { result ≡ slice_index self.now.each machine }
    {
        self.each[machine as usize]
    }

    /// The granted passes of `machine`, which is below n, in the settled run. Those of two machines differ by
    /// at most 1.
    pub fn settled_of(&self, machine: u32) -> u64
        requires { machine < length self.now.each }
        ensures is { result ≡ slice_index self.now.settled machine }
        ensures even { (other : ℕ) → other < length self.now.settled
            → (result ≤ slice_index self.now.settled other + 1)
            × (slice_index self.now.settled other ≤ result + 1) }
    {
        self.settled[machine as usize]
    }

    /// Counts a grant of `machine`, in the settled run too where that continues: there the grants go round.
    #[tactic(auto, using(crate::proofs::Marks::raised_not_clear))]
    pub(crate) fn add(&mut self, machine: u32, settled: bool)
        requires machine { machine < length self.old.each }
        requires fits { self.old.total + 1 < 2 ^ 64 }
        requires even { settled ≡ true → IsEven (raised self.old.settled machine) }
        ensures { self.new ≡ one_grant self.old machine settled }
    {
        let at = machine as usize;
        self.total += 1;
        self.each[at] += 1;
        if settled {
            self.settled[at] += 1;
            self.settled_is_clear = false;
        }
    }

    /// Ends the settled run.
    pub(crate) fn end_run(&mut self)
        ensures { self.new ≡ run_ended self.old }
    {
        if !self.settled_is_clear {
            clear(&mut self.settled);
            self.settled_is_clear = true;
        }
    }
}

/// Sets each count to 0.
fn clear(counts: &mut Vec<u64>)
    ensures { counts.new.items ≡ replicate (length counts.old.items) 0 }
{
    counts.as_mut_slice().fill(0);
}
