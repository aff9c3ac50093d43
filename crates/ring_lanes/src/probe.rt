// The view that a kernel has of a ring: a test that each machine passes or fails.
ghost use Rattle.std.specs.Prelude.{◌≡◌, ℕ, ◌+◌, ◌≤◌, ◌<◌, Bool};
ghost use Rattle.ring_lanes.specs.Hits.{mask_from};

/// A test of the machines, one at a time, or 32 or 8 at once.
///
/// The kernels are generic over it, so that a ring with wider values needs tests of its own and no
/// kernel of its own.
pub(crate) trait Probe {
    /// The number of machines.
    ghost size: { Self → ℕ };

    /// The machines that pass.
    ghost hit: { Self → ℕ → Bool };

    /// The number of machines.
    fn len(&self) -> usize
        ensures { result ≡ size self.now };

    /// Whether machine `i` passes.
    fn is_hit(&self, i: usize) -> bool
        requires { i < size self.now }
        ensures { result ≡ hit self.now i };

    /// The tests of machines `i` to `i + 31`: bit `k` is set exactly where machine `i + k` passes.
    ///
    /// Machine 0 is never in such a block, since its left neighbour is not beside it.
    fn hits(&self, i: usize) -> u64
        requires low { 1 ≤ i }
        requires room { i + 32 ≤ size self.now }
        ensures { result ≡ mask_from (hit self.now) i 32 };

    /// The same of 8 machines, `i` to `i + 7`.
    fn few_hits(&self, i: usize) -> u64
        requires low { 1 ≤ i }
        requires room { i + 8 ≤ size self.now }
        ensures { result ≡ mask_from (hit self.now) i 8 };
}
