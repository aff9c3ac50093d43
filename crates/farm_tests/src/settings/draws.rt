//! Plans that are drawn.

ghost use Rattle.std.specs.Prelude.{◌%◌, ◌/◌, ◌^◌, ℕ};
ghost use Rattle.rand_core.specs.Steps.{stream_of, steps_u32};

use super::{is_plan, settings_of};
use rand_core::Rng;
use rand_core::utils::{self, NextWord};
use rand_pcg::Lcg64Xsh32;
use ring_settings::{Action, Plan, Role, draw_plan, plans};
use ring_state::Params;
use std::marker::Model;
use std::test::Fail;

/// A generator that gives four words, from the low end of a number on, and then zeros.
#[derive(Drop)]
struct FourWords(u128);

impl Model for FourWords {
    ghost Value = { ℕ };

    ghost view = { λ a. a.0 };
}

impl NextWord<u32> for FourWords {
    ghost step = { λ s. (s % 2 ^ 32, s / 2 ^ 32) };

    fn next_word(&mut self) -> u32 {
        let word = (self.0 % (1 << 32)) as u32;
        self.0 /= 1 << 32;
        word
    }
}

impl Rng for FourWords {
    ghost stream = { stream_of (steps_u32 (λ s. (s % 2 ^ 32, s / 2 ^ 32))) };

    fn next_u32(&mut self) -> u32 {
        self.next_word()
    }

    fn next_u64(&mut self) -> u64 {
        utils::next_u64_via_u32(self)
    }

    fn fill_bytes(&mut self, dst: &mut [u8]) {
        utils::fill_bytes_via_u32(self, dst)
    }
}

/// A generator that gives these words.
fn generator_of(words: [u32; 4]) -> FourWords {
    let [a, b, c, d] = words;
    FourWords(u128::from(a) | u128::from(b) << 32 | u128::from(c) << 64 | u128::from(d) << 96)
}

#[test]
fn four_words_give_one_action(rt: HostRuntime) -> Result<(), Fail> {
    let alloc = rt.alloc();
    let rings = [Params::new(3, 3)?];
    for (words, role, want) in [
        (
            [5, 7, 4, 9],
            Role::Worker,
            Action::Pass {
                ring: 0,
                machine: 1,
                order: 9,
            },
        ),
        (
            [5, 7, 4, 9],
            Role::Injector,
            Action::Corrupt {
                ring: 0,
                machine: 1,
                value: 0,
            },
        ),
        ([0, 8, 2, 5], Role::Worker, Action::Survey { ring: 0 }),
        (
            [0, 8, 2, 5],
            Role::Injector,
            Action::Corrupt {
                ring: 0,
                machine: 2,
                value: 2,
            },
        ),
    ] {
        let mut g = generator_of(words);
        let plan = draw_plan(alloc, &mut g, role, &rings, 1)?;
        is_plan(&rt, &plan, &[want]);
        assert_eq!(rt; g.0, 0);
    }
    let mut g = generator_of([1, 2, 3, 4]);
    assert_eq!(rt;
        draw_plan(alloc, &mut g, Role::Worker, &rings, 0)?
            .actions
            .len(),
        0
    );
    assert_eq!(rt; g.next_u32(), 1);
    Ok(())
}

/// The first six words of PCG32 with state 42 and stream 54, as its author's demonstration prints them.
#[test]
fn words_are_those_of_pcg32(rt: HostRuntime) {
    let mut g = Lcg64Xsh32::new(42, 54);
    for want in [
        0xa15c_02b7,
        0x7b47_f409,
        0xba1d_3330,
        0x83d2_f293,
        0xbfa4_784b,
        0xcbed_606e,
    ] {
        assert_eq!(rt; g.next_u32(), want);
    }
}

/// An action takes the first four of them.
#[test]
fn an_action_is_drawn_of_pcg32(rt: HostRuntime) -> Result<(), Fail> {
    let mut g = Lcg64Xsh32::new(42, 54);
    let plan = draw_plan(rt.alloc(), &mut g, Role::Worker, &[Params::new(3, 3)?], 1)?;
    let pass = Action::Pass {
        ring: 0,
        machine: 2,
        order: 0x83d2_f293,
    };
    is_plan(&rt, &plan, &[pass]);
    assert_eq!(rt; g.next_u32(), 0xbfa4_784b);
    Ok(())
}

// Passes too where any one request for memory is refused, as `trials/refused_memory.sh` has it.
#[test]
fn lack_of_memory_for_a_drawn_plan_is_told(rt: HostRuntime) -> Result<(), Fail> {
    let alloc = rt.alloc();
    let words = [5, 7, 4, 9];
    let rings = [Params::new(3, 3)?];
    let plan = match draw_plan(alloc, &mut generator_of(words), Role::Worker, &rings, 1) {
        Ok(plan) => plan,
        Err(_) => draw_plan(alloc, &mut generator_of(words), Role::Worker, &rings, 1)?,
    };
    let pass = Action::Pass {
        ring: 0,
        machine: 1,
        order: 9,
    };
    is_plan(&rt, &plan, &[pass]);
    Ok(())
}

/// How many actions each plan has, how many of them are surveys, and the first one, by a short program in another language.
const WANTS: [(usize, usize, Action); 5] = [
    (
        500,
        70,
        Action::Pass {
            ring: 1,
            machine: 5,
            order: 194_195_274,
        },
    ),
    (500, 66, Action::Survey { ring: 0 }),
    (
        500,
        58,
        Action::Pass {
            ring: 1,
            machine: 3,
            order: 3_164_221_927,
        },
    ),
    (
        500,
        84,
        Action::Pass {
            ring: 0,
            machine: 1,
            order: 2_272_865_616,
        },
    ),
    (
        50,
        0,
        Action::Corrupt {
            ring: 1,
            machine: 7,
            value: 15,
        },
    ),
];

/// How many surveys a plan has.
fn surveys_of(plan: &Plan) -> usize {
    plan.actions
        .iter()
        .filter(|a| matches!(a, Action::Survey { .. }))
        .count()
}

#[test]
fn each_seat_has_a_plan_of_its_own(rt: HostRuntime) -> Result<(), Fail> {
    let alloc = rt.alloc();
    let text = r#"{"rings":[{"n":3,"k":3,"start":[0,0,0]},{"n":8,"k":16,"start":[0,0,0,0,0,0,0,0]}],
        "workers":[{"seed":1,"actions":500},{"seed":2,"actions":500},{"seed":3,"actions":500},{"seed":4,"actions":500}],
        "injector":{"seed":5,"actions":50}}"#;
    let all = plans(alloc, &settings_of(&rt, alloc, text))?;
    assert_eq!(rt; all.len(), 5);
    for (plan, (actions, surveys, first)) in all.iter().zip(WANTS) {
        assert_eq!(rt; plan.actions.len(), actions);
        assert_eq!(rt; surveys_of(plan), surveys);
        assert_eq!(rt; plan.actions.first().copied(), Some(first));
    }
    Ok(())
}
