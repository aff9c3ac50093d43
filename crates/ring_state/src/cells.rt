//! The cells of a state, one for each machine: a byte, or two.
ghost use Rattle.std.specs.Prelude.{◌≡◌, ◌<◌, ◌≤◌, ℕ, map, length, not, slice_index, true};
ghost use Rattle.ring_model.specs.Ring.{is_privileged, privileged_count, first_privileged, weight, is_absent, first_value_is_prefix};
ghost use Rattle.ring_model.specs.Limits.{machine_limit, value_limit};
ghost use Rattle.ring_lanes.specs.Masks.{IsMaskOf};
ghost use Rattle.ring_state.specs.Widths.{byte_values};

/// A cell that holds a machine's value, and what a list of such cells is asked as a whole.
pub(crate) trait Cell: Copy {
    /// The value that it holds.
    ghost number: { Self → ℕ };

    /// How many values such a cell can hold.
    ghost most: { ℕ };

    /// The cell that holds `value`.
    fn new(value: u32) -> Self
        requires { value < most }
        ensures { number result ≡ value };

    /// The value that it holds.
    fn value(self) -> u32
        ensures { result ≡ number self };

    /// How many machines are privileged.
    fn count(cells: &[Self]) -> usize
        requires { 2 ≤ length cells.now }
        ensures { result ≡ privileged_count (map number cells.now) };

    /// The least privileged machine.
    fn first(cells: &[Self]) -> usize
        requires { 2 ≤ length cells.now }
        ensures least { result ≡ first_privileged (map number cells.now) }
        ensures within { result < length cells.now }
        ensures privileged { is_privileged (map number cells.now) result ≡ true };

    /// A bit for each machine.
    fn mask(cells: &[Self], out: &mut [u64; 16])
        requires low { 2 ≤ length cells.now }
        requires high { length cells.now ≤ machine_limit }
        requires values { length cells.now ≤ most }
        ensures { IsMaskOf machine_limit (map number cells.now) out.new };

    /// The weight.
    fn weight(cells: &[Self]) -> u64
        requires low { 2 ≤ length cells.now }
        requires high { length cells.now ≤ machine_limit }
        ensures { result ≡ weight (map number cells.now) };

    /// Whether a machine other than machine 0 holds the value.
    fn holds_past_first(cells: &[Self], value: u32) -> bool
        requires low { 2 ≤ length cells.now }
        requires value { value < most }
        ensures { result ≡ not (is_absent (map number cells.now) value) };

    /// Whether the machines that hold the value of machine 0 are a prefix.
    fn first_value_is_prefix(cells: &[Self]) -> bool
        requires { 2 ≤ length cells.now }
        ensures { result ≡ first_value_is_prefix (map number cells.now) };
}

impl Cell for u8 {
    ghost number = { λ cell. cell };

    ghost most = { byte_values };

    #[inline(always)]
    fn new(value: u32) -> u8 {
        value as u8
    }

    #[inline(always)]
    fn value(self) -> u32 {
        self as u32
    }

    #[inline(always)]
    fn count(cells: &[u8]) -> usize {
        ring_lanes::privileged_count(cells)
    }

    #[inline(always)]
    fn first(cells: &[u8]) -> usize {
        ring_lanes::first_privileged(cells)
    }

    #[inline(always)]
    fn mask(cells: &[u8], out: &mut [u64; 16]) {
        let mut words = [0; 4];
        ring_lanes::privileged_mask(cells, &mut words);
        for w in 0..16usize {
            out[w] = if w < 4 { words[w] } else { 0 };
        }
    }

    #[inline(always)]
    fn weight(cells: &[u8]) -> u64 {
        ring_lanes::weight(cells)
    }

    #[inline(always)]
    fn holds_past_first(cells: &[u8], value: u32) -> bool {
        ring_lanes::holds_past_first(cells, value as u8)
    }

    #[inline(always)]
    fn first_value_is_prefix(cells: &[u8]) -> bool {
        ring_lanes::first_value_is_prefix(cells)
    }
}

impl Cell for u16 {
    ghost number = { λ cell. cell };

    ghost most = { value_limit };

    #[inline(always)]
    fn new(value: u32) -> u16 {
        value as u16
    }

    #[inline(always)]
    fn value(self) -> u32 {
        self as u32
    }

    #[inline(always)]
    fn count(cells: &[u16]) -> usize {
        ring_lanes::wide_count(cells)
    }

    #[inline(always)]
    fn first(cells: &[u16]) -> usize {
        ring_lanes::wide_first(cells)
    }

    #[inline(always)]
    fn mask(cells: &[u16], out: &mut [u64; 16]) {
        ring_lanes::wide_mask(cells, out);
    }

    #[inline(always)]
    fn weight(cells: &[u16]) -> u64 {
        ring_lanes::wide_weight(cells)
    }

    #[inline(always)]
    fn holds_past_first(cells: &[u16], value: u32) -> bool {
        ring_lanes::wide_holds_past_first(cells, value as u16)
    }

    #[inline(always)]
    fn first_value_is_prefix(cells: &[u16]) -> bool {
        ring_lanes::wide_first_value_is_prefix(cells)
    }
}
