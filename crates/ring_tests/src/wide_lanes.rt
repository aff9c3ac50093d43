//! Worked examples of rings in two bytes each, by hand.

ghost use Rattle.std.specs.Prelude.{◌≤◌, length};

use ring_lanes::{
    wide_all_below, wide_count, wide_first, wide_first_value_is_prefix, wide_holds_past_first,
    wide_mask, wide_weight,
};

/// A ring that holds 0 except for 256, whose low byte is 0, at one machine, and what the kernels find of it: the first three
/// words of the mask, and the rest.
#[derive(Clone, Copy)]
struct Lone {
    n: usize,
    at: usize,
    mask: [u64; 3],
    count: usize,
    first: usize,
    weight: u64,
    prefix: bool,
}

macro_rules! lone {
    ($n:expr, $at:expr, $mask:expr, $count:expr, $first:expr, $weight:expr, $prefix:expr) => {
        Lone {
            n: $n,
            at: $at,
            mask: $mask,
            count: $count,
            first: $first,
            weight: $weight,
            prefix: $prefix,
        }
    };
}

const LONE: [Lone; 8] = [
    lone!(2, 0, [0b10, 0, 0], 1, 1, 1, true),
    lone!(2, 1, [0b10, 0, 0], 1, 1, 1, true),
    lone!(17, 15, [0x1_8001, 0, 0], 3, 0, 3, false),
    lone!(33, 31, [0x1_8000_0001, 0, 0], 3, 0, 3, false),
    lone!(130, 127, [1, 0x8000_0000_0000_0000, 1], 3, 0, 5, false),
    lone!(130, 129, [0, 0, 2], 1, 129, 1, true),
    lone!(1024, 0, [0b10, 0, 0], 1, 1, 1_023, true),
    lone!(1024, 1, [0b111, 0, 0], 3, 0, 2_045, false),
];

/// Whether the kernels find this of the ring.
fn is_found(ring: &[u16], lone: &Lone) -> bool
    requires low { 2 ≤ length ring.now }
    requires high { length ring.now ≤ 1024 }
{
    let mut wanted = [0u64; 16];
    wanted[..3].copy_from_slice(&lone.mask);
    // Every bit is set at first, so that one which is not written shows.
    let mut mask = [u64::MAX; 16];
    wide_mask(ring, &mut mask);
    mask == wanted
        && wide_count(ring) == lone.count
        && wide_first(ring) == lone.first
        && wide_weight(ring) == lone.weight
        && wide_first_value_is_prefix(ring) == lone.prefix
}

/// Whether the kernels that take a value find that only 0 and 256 are there, and a 256 past the first or not.
fn is_bounded(ring: &[u16], lone: &Lone) -> bool
    requires { 2 ≤ length ring.now }
{
    !wide_all_below(ring, 256)
        && wide_all_below(ring, 257)
        && wide_all_below(ring, u32::MAX)
        && wide_holds_past_first(ring, 256) == (lone.at >= 1)
}

#[test]
fn a_lone_value(rt: HostRuntime) {
    for lone in &LONE {
        assert!(rt; lone.n >= 2 && lone.n <= 1024 && lone.at < lone.n);
        let mut values = [0u16; 1024];
        values[lone.at] = 256;
        let ring = &values[..lone.n];
        assert!(rt; is_found(ring, lone) && is_bounded(ring, lone));
    }
}

// Machine i holds i: each but machine 0 differs from its left neighbour, and 1,023 + 1,022 + .. + 1 is 523,776.
#[test]
fn all_values_apart(rt: HostRuntime) {
    let mut values = [0u16; 1024];
    for i in 0..1024usize {
        values[i] = i as u16;
    }
    let mut wanted = [u64::MAX; 16];
    wanted[0] = u64::MAX - 1;
    let mut mask = [0u64; 16];
    wide_mask(&values, &mut mask);
    assert!(rt; mask == wanted);
    assert!(rt; wide_count(&values) == 1_023 && wide_first(&values) == 1);
    assert!(rt; wide_weight(&values) == 523_776 && wide_first_value_is_prefix(&values));
    assert!(rt; !wide_all_below(&values, 1_023) && wide_all_below(&values, 1_024));
    assert!(rt; wide_holds_past_first(&values, 1_023) && !wide_holds_past_first(&values, 0));
}

// A ring of 65,536 machines, alternately 0 and 256: machines 1 to 65,535 are privileged, with the weight 65,535 * 65,536 / 2.
#[test]
fn the_greatest_weight(rt: HostRuntime) {
    let mut values = [0u16; 65_536];
    for i in 0..65_536usize {
        values[i] = (i % 2 * 256) as u16;
    }
    assert!(rt; wide_weight(&values) == 2_147_450_880);
    assert!(rt; wide_count(&values) == 65_535 && wide_first(&values) == 1);
}
