ghost use Rattle.std.specs.Prelude.{◌≡◌, ◌<◌, ◌≤◌, ◌↔◌, IsErrOf, IfOk, IsOk};
ghost use Rattle.ring_model.specs.Limits.{machine_limit, value_limit};
ghost use Rattle.ring_state.specs.Sizes.{IsSize};

use ring_model::limits::{MACHINE_LIMIT, VALUE_LIMIT};
use std::marker::Model;

/// The size of a ring: the number n of its machines, and the number K of the values that each can hold.
/// Always `2 <= n <= MACHINE_LIMIT` and `n <= K <= VALUE_LIMIT`.
#[derive(Clone, Copy, Debug, PartialEq, Eq)]
pub struct Params {
    n: u32,
    k: u32,
}

impl Model for Params {
    ghost use Rattle.ring_state.specs.Sizes.{Size, IsSize};

    ghost Value = { Size };

    ghost view = { λ p. record { n = p.n; k = p.k } };

    ghost invariant = { λ p. IsSize (record { n = p.n; k = p.k }) };

    ghost inverse = { λ s. record { n = s.n; k = s.k } };
}

/// Why a size is refused.
#[derive(Clone, Copy, Debug, Drop, PartialEq, Eq)]
pub enum ParamsError {
    TooFew,
    TooMany,
    FewValues,
    ManyValues,
}

impl Params {
    /// The size with `n` machines and `k` values, from 2 machines to `MACHINE_LIMIT` and from n values to `VALUE_LIMIT`.
    ///
    /// # Errors
    ///
    /// The first that applies: `TooFew` where n is below 2, `TooMany` where it is over the limit of machines,
    /// `FewValues` where k is below n, `ManyValues` where it is over the limit of values.
    pub fn new(n: u32, k: u32) -> Result<Params, ParamsError>
        ensures ok { IfOk result (λ p. p ≡ record { n = n; k = k }) }
        ensures exact { IsOk result ↔ IsSize (record { n = n; k = k }) }
        ensures too_few { IsErrOf result ParamsError.TooFew ↔ n < 2 }
        ensures too_many { IsErrOf result ParamsError.TooMany ↔ machine_limit < n }
        ensures few_values { IsErrOf result ParamsError.FewValues
            ↔ (2 ≤ n) × (n ≤ machine_limit) × (k < n) }
        ensures many_values { IsErrOf result ParamsError.ManyValues
            ↔ (2 ≤ n) × (n ≤ machine_limit) × (value_limit < k) }
    {
        if n < 2 {
            return Err(ParamsError::TooFew);
        }
        if n > MACHINE_LIMIT {
            return Err(ParamsError::TooMany);
        }
        if k < n {
            return Err(ParamsError::FewValues);
        }
        if k > VALUE_LIMIT {
            return Err(ParamsError::ManyValues);
        }
        Ok(Params { n, k })
    }

    /// The size of a ring that is there already.
    pub(crate) fn of_ring(n: u32, k: u32) -> Params
        requires { IsSize (record { n = n; k = k }) }
        ensures { result ≡ record { n = n; k = k } }
    {
        Params { n, k }
    }

    /// The number of machines, from 2 on.
    pub fn n(&self) -> u32
        ensures is { result ≡ self.now.n }
        ensures size { IsSize self.now }
    {
        self.n
    }

    /// The number of values, from n on.
    pub fn k(&self) -> u32
        ensures is { result ≡ self.now.k }
        ensures size { IsSize self.now }
    {
        self.k
    }
}
