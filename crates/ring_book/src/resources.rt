ghost use Rattle.std.specs.Prelude.{◌≡◌};
ghost use Rattle.ring_model.specs.History.{Works};

use std::marker::Model;

/// The resource that a ring arbitrates: a granted pass does its work.
///
/// Contracts see the implementation's own value as its content: the first one, and two functions of the
/// content, the machine and the order, which are the content afterwards and the answer.
pub trait Resource {
    ghost first: { Self };

    ghost works: { Works Self };

    /// Does the work of `machine` on `order`, and answers.
    fn work(&mut self, machine: u32, order: u64) -> u64
        ensures content { self.new ≡ works.after self.old machine order }
        ensures answer { result ≡ works.answer self.old machine order };
}

/// A resource with no content, whose every answer is 0.
#[derive(Clone, Copy, Debug, PartialEq, Eq)]
pub struct Idle;

impl Resource for Idle {
    ghost use Rattle.ring_book.specs.IdleWorks.{idle};

    ghost first = { record {} };

    ghost works = { idle };

    fn work(&mut self, _machine: u32, _order: u64) -> u64 {
        0
    }
}

/// A resource that adds up the orders, up to 18,446,744,073,709,551,615, where it stays.
///
/// Contracts see the amount, which is 0 at first.
#[derive(Drop)]
pub struct Till {
    amount: u64,
}

impl Model for Till {
    ghost use Rattle.std.specs.Prelude.{ℕ};

    ghost Value = { ℕ };

    ghost view = { λ t. t.amount };
}

impl Till {
    /// A till with the amount 0.
    pub fn new() -> Till
        ensures { result ≡ 0 }
    {
        Till { amount: 0 }
    }
}

impl Resource for Till {
    ghost use Rattle.ring_model.specs.Resources.{till};

    ghost first = { 0 };

    ghost works = { till };

    /// Adds the order, and answers the new amount.
    fn work(&mut self, _machine: u32, order: u64) -> u64 {
        self.amount = self.amount.saturating_add(order);
        self.amount
    }
}
