ghost use Rattle.std.specs.Prelude.{◌≡◌, ◌<◌, ◌≤◌, ◌+◌, ◌^◌, ℕ, true, length, slice_index, replicate, IfOk, Bool};
ghost use Rattle.ring_model.specs.Limits.{seat_limit};
ghost use Rattle.ring_book.specs.GrantCounts.{IsEven};
ghost use Rattle.ring_book.specs.GrantsView.{raised, no_grants};
ghost use Rattle.ring_book.specs.TallyView.{TallyView, after_call, after_grant, after_corruption};

use crate::grants::GrantBook;
use ring_model::limits::SEAT_LIMIT;
use std::alloc::{AllocError, Global};
use std::marker::Model;

/// The running counts of a book.
#[derive(Drop)]
pub(crate) struct Tally {
    calm: u64,
    calls: [u64; SEAT_LIMIT],
    settled: bool,
    grants: GrantBook,
}

impl Model for Tally {
    ghost use Rattle.std.specs.Prelude.{◌≡◌, ◌≤◌, length};
    ghost use Rattle.ring_model.specs.Limits.{seat_limit};
    ghost use Rattle.ring_book.specs.TallyView.{TallyView};

    ghost Value = { TallyView };

    ghost view = { λ t.
        record { calm = t.calm; calls = t.calls; settled = t.settled; grants = t.grants } };

    ghost invariant = { λ t. length t.calls ≡ seat_limit };
}

impl Tally {
    /// The counts of no events on `machines` machines, where exactly one is privileged or not.
    pub(crate) fn new(alloc: Global, machines: u32, settled: bool) -> Result<Tally, AllocError>
        ensures { IfOk result (λ t. t
            ≡ record {
              calm = 0;
              calls = replicate seat_limit 0;
              settled = settled;
              grants = no_grants machines;
            }) }
    {
        let grants = GrantBook::new(alloc, machines)?;
        Ok(Tally {
            calm: 0,
            calls: [0; SEAT_LIMIT],
            settled,
            grants,
        })
    }

    /// The granted passes since the last corruption.
    pub(crate) fn calm(&self) -> u64
        ensures { result ≡ self.now.calm }
    {
        self.calm
    }

    /// The events of `seat`, which is below `SEAT_LIMIT`.
    pub(crate) fn calls_of(&self, seat: u32) -> u64
        requires { seat < seat_limit }
        ensures { result ≡ slice_index self.now.calls seat }
    {
        self.calls[seat as usize]
    }

    /// Whether exactly one machine is privileged.
    pub(crate) fn is_settled(&self) -> bool
        ensures { result ≡ self.now.settled }
    {
        self.settled
    }

    /// The counted grants.
    pub(crate) fn grants(&self) -> &GrantBook
        ensures { result.now ≡ self.now.grants }
    {
        &self.grants
    }

    /// Counts a call of `seat`, which is below `SEAT_LIMIT`.
    pub(crate) fn add_call(&mut self, seat: u32)
        requires seat { seat < seat_limit }
        requires fits { slice_index self.old.calls seat + 1 < 2 ^ 64 }
        ensures { self.new ≡ after_call self.old seat }
    {
        let at = seat as usize;
        self.calls[at] += 1;
    }

    /// Counts a granted pass of `machine`, after which exactly one machine is privileged or not, and answers
    /// its number.
    pub(crate) fn add_grant(&mut self, machine: u32, settled: bool) -> u64
        requires machine { machine < length self.old.grants.each }
        requires fits { self.old.grants.total + 1 < 2 ^ 64 }
        requires calm { self.old.calm + 1 < 2 ^ 64 }
        requires even { self.old.settled ≡ true → IsEven (raised self.old.grants.settled machine) }
        ensures number { result ≡ self.old.grants.total + 1 }
        ensures new { self.new ≡ after_grant self.old machine settled }
    {
        self.calm += 1;
        self.grants.add(machine, self.settled);
        self.settled = settled;
        self.grants.total()
    }

    /// Counts a corruption, after which exactly one machine is privileged or not.
    pub(crate) fn add_corruption(&mut self, settled: bool)
        ensures { self.new ≡ after_corruption self.old settled }
    {
        self.calm = 0;
        self.grants.end_run();
        self.settled = settled;
    }
}
