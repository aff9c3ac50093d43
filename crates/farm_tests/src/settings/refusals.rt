//! Refusals in words, and out of memory. The refused settings, and which fault is reported first, are in the script of
//! `tests/rows`.

use super::SCRIPTED;
use ring_settings::{Field, RingCause, SettingsError, plans, read_settings};
use std::test::Fail;

#[test]
fn refusals_are_told_in_words(rt: HostRuntime) -> Result<(), Fail> {
    let alloc = rt.alloc();
    for (fault, want) in [
        (SettingsError::Json, "settings are not JSON"),
        (
            SettingsError::Shape(Field::Top),
            "settings: document is missing or has the wrong shape",
        ),
        (
            SettingsError::Shape(Field::Rings),
            "settings: rings is missing or has the wrong shape",
        ),
        (
            SettingsError::Limit(Field::N),
            "settings: n is out of limits",
        ),
        (
            SettingsError::Shape(Field::K),
            "settings: k is missing or has the wrong shape",
        ),
        (
            SettingsError::Limit(Field::Start),
            "settings: start is out of limits",
        ),
        (
            SettingsError::Limit(Field::Workers),
            "settings: workers is out of limits",
        ),
        (
            SettingsError::Shape(Field::Injector),
            "settings: injector is missing or has the wrong shape",
        ),
        (
            SettingsError::Limit(Field::Script),
            "settings: script is out of limits",
        ),
        (
            SettingsError::Shape(Field::Seed),
            "settings: seed is missing or has the wrong shape",
        ),
        (
            SettingsError::Limit(Field::Actions),
            "settings: actions is out of limits",
        ),
        (
            SettingsError::Ring(0, RingCause::TooFew),
            "ring 0: n is less than 2",
        ),
        (
            SettingsError::Ring(1, RingCause::TooMany),
            "ring 1: n is more than 1024",
        ),
        (
            SettingsError::Ring(2, RingCause::FewValues),
            "ring 2: k is less than n",
        ),
        (
            SettingsError::Ring(3, RingCause::ManyValues),
            "ring 3: k is more than 65536",
        ),
        (
            SettingsError::Ring(4, RingCause::Length),
            "ring 4: start does not have n values",
        ),
        (
            SettingsError::Ring(15, RingCause::Value(7)),
            "ring 15: start value 7 is not below k",
        ),
        (
            SettingsError::Script(9, 12),
            "seat 9, action 12: not an action",
        ),
        (SettingsError::OutOfMemory, "out of memory"),
    ] {
        assert_eq!(rt; fault.to_string(alloc)?.as_str(), want);
    }
    Ok(())
}

/// Where a request for memory is refused, by `rt try --test --fail-alloc`, nothing but out of memory is reported.
#[test]
fn lack_of_memory_is_told_as_such(rt: HostRuntime) {
    let alloc = rt.alloc();
    let settings = match read_settings(alloc, SCRIPTED.as_bytes()) {
        Ok(settings) => settings,
        Err(e) => {
            assert_eq!(rt; e, SettingsError::OutOfMemory);
            return;
        }
    };
    assert_eq!(rt; settings.ring_count(), 1);
    assert_eq!(rt; settings.start(0), [0, 2, 0].as_slice());
    let Ok(all) = plans(alloc, &settings) else {
        return;
    };
    assert_eq!(rt; all.len(), 1);
    assert_eq!(rt; all[0].actions.len(), 4);
}
