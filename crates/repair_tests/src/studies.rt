use ring_repairs::limits::TRIAL_LIMIT;
use ring_repairs::{Daemon, Start, Study, StudyError, longest_repair};
use ring_state::Params;

#[test]
fn studies_keep_what_they_are_given(rt: HostRuntime) {
    let size = Params::new(7, 9).expect(&rt, "a size within the limits");
    let study = Study::new(size, Start::Faults(7), Daemon::Last, TRIAL_LIMIT, 12).expect(
        &rt, "a study",
    );
    assert!(rt; study.size() == size && study.start() == Start::Faults(7));
    assert!(rt; study.daemon() == Daemon::Last && study.trials() == 10_000_000_000);
    assert!(rt; study.seed() == 12);
}

#[test]
fn studies_beyond_the_limits(rt: HostRuntime) {
    let size = Params::new(7, 9).expect(&rt, "a size within the limits");
    for (start, trials, refusal) in [
        (Start::Faults(8), 0, StudyError::NoTrials),
        (Start::Faults(8), TRIAL_LIMIT + 1, StudyError::ManyTrials),
        (Start::Faults(8), TRIAL_LIMIT, StudyError::ManyFaults),
    ] {
        match Study::new(size, start, Daemon::First, trials, 0) {
            Ok(_) => panic!(&rt; "it is refused"),
            Err(error) => assert!(rt; error == refusal),
        }
    }
}

#[test]
fn studies_of_all_states(rt: HostRuntime) {
    let size = Params::new(3, 4).expect(&rt, "a size within the limits");
    let study = Study::new(size, Start::All, Daemon::Random, 20, 0).expect(&rt, "a study");
    assert!(rt; study.trials() == 20 && study.count() == 320);
    for (n, k, daemon, trials, refusal) in [
        (10, 12, Daemon::Random, 1, StudyError::ManyStates),
        (1024, 65_536, Daemon::First, 1, StudyError::ManyStates),
        (9, 9, Daemon::Random, 1_000, StudyError::ManyTrials),
        (3, 3, Daemon::Slow, 2, StudyError::OneTrial),
    ] {
        let size = Params::new(n, k).expect(&rt, "a size within the limits");
        match Study::new(size, Start::All, daemon, trials, 0) {
            Ok(_) => panic!(&rt; "it is refused"),
            Err(error) => assert!(rt; error == refusal),
        }
    }
}

#[test]
fn longest_repairs(rt: HostRuntime) {
    for (n, passes) in [
        (2, 0),
        (3, 5),
        (4, 13),
        (5, 24),
        (16, 343),
        (1_024, 1_570_303),
    ] {
        assert!(rt; n >= 2 && n <= 1_024);
        assert!(rt; longest_repair(n) == passes, "of {n} machines");
    }
}
