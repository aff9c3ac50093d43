//! The rounds of trials in which all machines are asked in turn, as another program has them (`models/drawn_repairs.py`).

use crate::reports::threads;
use repair_report::{Lines, report_repairs};
use repair_texts::record;
use ring_repairs::{Daemon, Repairs, Start, Study, count_rounds, most_rounds};
use ring_state::Params;
use std::process::Abort;

/// 100 trials of eight machines with eleven values, each of which one fault hits.
fn one_fault(rt: &impl Abort, daemon: Daemon) -> Study {
    let size = Params::new(8, 11).expect(rt, "a size");
    let Ok(study) = Study::new(size, Start::Faults(1), daemon, 100, 7) else {
        panic!(rt; "the study is within the limits");
    };
    study
}

const LINES: &[u8] = b"\
repairs 8 11 daemon turn from faults:1 trials 100 bound 84 sharp 75 least 0 mean 2.17 median 1 p90 5 p99 7 p999 7 greatest 7
histogram 8 11 passes 0 trials 15
histogram 8 11 passes 1 trials 43
histogram 8 11 passes 2 trials 7
histogram 8 11 passes 3 trials 12
histogram 8 11 passes 4 trials 4
histogram 8 11 passes 5 trials 9
histogram 8 11 passes 6 trials 7
histogram 8 11 passes 7 trials 3
rounds 8 11 daemon turn from faults:1 trials 100 bound 13 sharp 13 least 0 mean 0.85 median 1 p90 1 p99 1 p999 1 greatest 1
histogram 8 11 rounds 0 trials 15
histogram 8 11 rounds 1 trials 85
";

#[test]
fn a_report_in_turn_has_rounds(rt: HostRuntime) {
    let alloc = rt.alloc();
    let mut out = Vec::new(alloc);
    let mut rows = Vec::new(alloc);
    let study = one_fault(&rt, Daemon::Turn);
    assert!(rt;
        report_repairs(
            &rt,
            alloc,
            study,
            threads(&rt, 2),
            Lines::Histogram,
            &mut rows,
            &mut Vec::new(alloc),
            &mut out
        ) == Ok(())
    );
    assert!(rt; out.as_slice() == LINES);
    assert!(rt; rows.len() == 2);
    let line = record(alloc, &rows[1]).expect(&rt, "memory");
    let wanted: &[u8] = b"rounds,turn,faults,8,11,1,100,13,13,0,85,1,1,1,1,1\n";
    assert!(rt; line.as_slice() == wanted);
}

const OBJECTS: &[u8] = b"\
{\"bound\":84,\"daemon\":\"turn\",\"faults\":1,\"from\":\"faults\",\"greatest\":7,\"k\":11,\"least\":0,\"longest\":75,\"mean_hundredths\":217,\"measure\":\"repairs\",\"median\":1,\"n\":8,\"p90\":5,\"p99\":7,\"p999\":7,\"trials\":100}
{\"bound\":13,\"daemon\":\"turn\",\"faults\":1,\"from\":\"faults\",\"greatest\":1,\"k\":11,\"least\":0,\"longest\":13,\"mean_hundredths\":85,\"measure\":\"rounds\",\"median\":1,\"n\":8,\"p90\":1,\"p99\":1,\"p999\":1,\"trials\":100}
";

#[test]
fn rounds_are_an_object_of_their_own(rt: HostRuntime) {
    let alloc = rt.alloc();
    let mut out = Vec::new(alloc);
    let mut rows = Vec::new(alloc);
    let study = one_fault(&rt, Daemon::Turn);
    assert!(rt;
        report_repairs(
            &rt,
            alloc,
            study,
            threads(&rt, 5),
            Lines::Object,
            &mut rows,
            &mut Vec::new(alloc),
            &mut out
        ) == Ok(())
    );
    assert!(rt; out.as_slice() == OBJECTS);
}

#[test]
fn trials_in_turn_begin_a_round_and_others_none(rt: HostRuntime) {
    for (daemon, counts) in [(Daemon::Turn, [15, 85]), (Daemon::Last, [100, 0])] {
        let mut repairs = Repairs::new(rt.alloc(), one_fault(&rt, daemon)).expect(&rt, "memory");
        repairs.advance(100);
        let rounds = count_rounds(rt.alloc(), &repairs).expect(&rt, "memory");
        assert!(rt; rounds.counts() == &counts[..] && rounds.total() == 100);
        assert!(rt; most_rounds(8) == 13);
    }
}
