//! Worked examples of rings in bytes, by hand.

ghost use Rattle.std.specs.Prelude.{◌≤◌, length};

use ring_lanes::{
    all_below, first_privileged, first_value_is_prefix, holds_past_first, privileged_count,
    privileged_mask, weight,
};

/// A ring that holds 0 except for a 1 at one machine, and what the kernels find of it.
#[derive(Clone, Copy)]
struct Lone {
    n: usize,
    at: usize,
    mask: [u64; 4],
    count: usize,
    first: usize,
    weight: u64,
    prefix: bool,
}

macro_rules! lone {
    ($n:expr, $at:expr, $mask:expr, $count:expr, $first:expr, $weight:expr, $prefix:expr) => {
        Lone {
            n: $n,
            at: $at,
            mask: $mask,
            count: $count,
            first: $first,
            weight: $weight,
            prefix: $prefix,
        }
    };
}

const LONE: [Lone; 8] = [
    lone!(2, 0, [0b10, 0, 0, 0], 1, 1, 1, true),
    lone!(2, 1, [0b10, 0, 0, 0], 1, 1, 1, true),
    lone!(32, 15, [0x1_8001, 0, 0, 0], 3, 0, 33, false),
    lone!(33, 31, [0x1_8000_0001, 0, 0, 0], 3, 0, 3, false),
    lone!(65, 63, [0x8000_0000_0000_0001, 1, 0, 0], 3, 0, 3, false),
    lone!(65, 64, [0, 1, 0, 0], 1, 64, 1, true),
    lone!(256, 0, [0b10, 0, 0, 0], 1, 1, 255, true),
    lone!(256, 1, [0b111, 0, 0, 0], 3, 0, 509, false),
];

/// Whether the kernels find this of the ring.
fn is_found(ring: &[u8], lone: &Lone) -> bool
    requires low { 2 ≤ length ring.now }
    requires high { length ring.now ≤ 256 }
{
    // Every bit is set at first, so that one which is not written shows.
    let mut mask = [u64::MAX; 4];
    privileged_mask(ring, &mut mask);
    mask == lone.mask
        && privileged_count(ring) == lone.count
        && first_privileged(ring) == lone.first
        && weight(ring) == lone.weight
        && first_value_is_prefix(ring) == lone.prefix
}

/// Whether the kernels that take a value find that only 0 and 1 are there, and a 1 past the first or not.
fn is_bounded(ring: &[u8], lone: &Lone) -> bool
    requires { 2 ≤ length ring.now }
{
    !all_below(ring, 1)
        && all_below(ring, 2)
        && all_below(ring, u32::MAX)
        && holds_past_first(ring, 1) == (lone.at >= 1)
}

#[test]
fn a_lone_value(rt: HostRuntime) {
    for lone in &LONE {
        assert!(rt; lone.n >= 2 && lone.n <= 256 && lone.at < lone.n);
        let mut values = [0u8; 256];
        values[lone.at] = 1;
        let ring = &values[..lone.n];
        assert!(rt; is_found(ring, lone) && is_bounded(ring, lone));
    }
}

// Machine i holds i: each but machine 0 differs from its left neighbour, and 255 + 254 + .. + 1 is 32,640.
#[test]
fn all_values_apart(rt: HostRuntime) {
    let mut values = [0u8; 256];
    for i in 0..256usize {
        values[i] = i as u8;
    }
    let mut mask = [0u64; 4];
    privileged_mask(&values, &mut mask);
    assert!(rt; mask == [u64::MAX - 1, u64::MAX, u64::MAX, u64::MAX]);
    assert!(rt; privileged_count(&values) == 255 && first_privileged(&values) == 1);
    assert!(rt; weight(&values) == 32_640 && first_value_is_prefix(&values));
    assert!(rt; !all_below(&values, 255) && all_below(&values, 256));
    assert!(rt; holds_past_first(&values, 255) && !holds_past_first(&values, 0));
}

// A ring of 65,536 machines, alternately 0 and 1: machines 1 to 65,535 are privileged, with the weight 65,535 * 65,536 / 2.
#[test]
fn the_greatest_weight(rt: HostRuntime) {
    let mut values = [0u8; 65_536];
    for i in 0..65_536usize {
        values[i] = (i % 2) as u8;
    }
    assert!(rt; weight(&values) == 2_147_450_880);
    assert!(rt; privileged_count(&values) == 65_535 && first_privileged(&values) == 1);
}
