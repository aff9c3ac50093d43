//! The settings files of the repository's `examples`, byte for byte, and their content.

use super::{is_plan, settings_of};
use ring_settings::{Action, plans};
use std::test::Fail;

/// `examples/contended.json`: nine workers on one ring.
const CONTENDED: &str = r#"{
  "rings": [
    { "n": 8, "k": 8, "start": [0, 0, 0, 0, 0, 0, 0, 0] }
  ],
  "workers": [
    { "seed": 1, "actions": 2000 },
    { "seed": 2, "actions": 2000 },
    { "seed": 3, "actions": 2000 },
    { "seed": 4, "actions": 2000 },
    { "seed": 5, "actions": 2000 },
    { "seed": 6, "actions": 2000 },
    { "seed": 7, "actions": 2000 },
    { "seed": 8, "actions": 2000 },
    { "seed": 9, "actions": 2000 }
  ]
}
"#;

/// `examples/faults.json`: four workers on three rings, and an injector of faults.
const FAULTS: &str = r#"{
  "rings": [
    { "n": 3, "k": 3, "start": [0, 2, 1] },
    { "n": 8, "k": 16, "start": [0, 0, 0, 0, 0, 0, 0, 0] },
    { "n": 5, "k": 7, "start": [6, 5, 4, 3, 2] }
  ],
  "workers": [
    { "seed": 1, "actions": 500 },
    { "seed": 2, "actions": 500 },
    { "seed": 3, "actions": 500 },
    { "seed": 4, "actions": 500 }
  ],
  "injector": { "seed": 5, "actions": 50 }
}
"#;

/// `examples/script.json`: a worker and an injector that follow their scripts.
const SCRIPT: &str = r#"{
  "rings": [
    { "n": 3, "k": 3, "start": [0, 2, 0] }
  ],
  "workers": [
    {
      "script": [
        ["pass", 0, 0, 5],
        ["pass", 0, 0, 1],
        ["pass", 0, 2, 4],
        ["survey", 0]
      ]
    }
  ],
  "injector": {
    "script": [
      ["corrupt", 0, 1, 2],
      ["survey", 0]
    ]
  }
}
"#;

#[test]
fn nine_workers_contend_for_one_ring(rt: HostRuntime) -> Result<(), Fail> {
    let alloc = rt.alloc();
    let settings = settings_of(&rt, alloc, CONTENDED);
    assert_eq!(rt; settings.ring_count(), 1);
    assert_eq!(rt; settings.start(0), [0, 0, 0, 0, 0, 0, 0, 0].as_slice());
    assert_eq!(rt; settings.seat_count(), 9);
    for plan in &plans(alloc, &settings)? {
        assert_eq!(rt; plan.actions.len(), 2000);
    }
    Ok(())
}

#[test]
fn an_injector_writes_faults_into_three_rings(rt: HostRuntime) -> Result<(), Fail> {
    let alloc = rt.alloc();
    let settings = settings_of(&rt, alloc, FAULTS);
    assert_eq!(rt; settings.ring_count(), 3);
    assert_eq!(rt; settings.params(2).k(), 7);
    assert_eq!(rt; settings.start(2), [6, 5, 4, 3, 2].as_slice());
    let all = plans(alloc, &settings)?;
    assert_eq!(rt; all.len(), 5);
    assert_eq!(rt; all[4].actions.len(), 50);
    assert!(rt;
        all[4]
            .actions
            .iter()
            .all(|a| matches!(a, Action::Corrupt { .. }))
    );
    Ok(())
}

#[test]
fn a_script_is_its_seats_plan(rt: HostRuntime) -> Result<(), Fail> {
    let alloc = rt.alloc();
    let all = plans(alloc, &settings_of(&rt, alloc, SCRIPT))?;
    assert_eq!(rt; all.len(), 2);
    assert_eq!(rt; all[0].actions.len(), 4);
    let corruption = Action::Corrupt {
        ring: 0,
        machine: 1,
        value: 2,
    };
    is_plan(&rt, &all[1], &[corruption, Action::Survey { ring: 0 }]);
    Ok(())
}
