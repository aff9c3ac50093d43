//! The gate that lets the workers of a farm continue.

/// Asked by each worker before each of its actions on a ring, and once more after its last answer there.
///
/// A worker is any plan's thread, the injector's too; `worker` is its seat's number. With m actions on a ring
/// it comes with `call` from 0 to m: with c just before its action c there, with m after its last answer.
pub trait Gate {
    /// Whether the worker may continue. Where it may not, the worker stops, and its ring is refused.
    fn arrive(&self, ring: u32, worker: u32, call: u32) -> bool;
}

/// Lets all pass.
#[derive(Clone, Copy, Debug)]
pub struct Open;

impl Gate for Open {
    ghost use Rattle.std.specs.Prelude.{◌≡◌, true};

    fn arrive(&self, _ring: u32, _worker: u32, _call: u32) -> bool
        ensures { result ≡ true }
    {
        true
    }
}
