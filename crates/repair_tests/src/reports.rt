//! The reports on studies, as another program has them (`models/drawn_repairs.py`), and a writer that has no room for one.

use repair_report::{Lines, ReportFault, report_repairs};
use repair_texts::record;
use repair_threads::ThreadCount;
use ring_repairs::{Daemon, Start, Study};
use ring_state::Params;
use std::process::Abort;

pub(crate) fn threads(rt: &impl Abort, count: u32) -> ThreadCount {
    ThreadCount::new(count).expect(rt, "at most 64 threads")
}

/// 300 trials of five machines with five values, whose last privileged machine moves, and which two faults hit.
fn faulty_study(rt: &impl Abort) -> Study {
    let size = Params::new(5, 5).expect(rt, "a size");
    let Ok(study) = Study::new(size, Start::Faults(2), Daemon::Last, 300, 7) else {
        panic!(rt; "the study is within the limits");
    };
    study
}

const FAULTY: &[u8] = b"\
repairs 5 5 daemon last from faults:2 trials 300 bound 30 sharp 24 least 0 mean 2.74 median 3 p90 5 p99 6 p999 6 greatest 6
histogram 5 5 passes 0 trials 49
histogram 5 5 passes 1 trials 45
histogram 5 5 passes 2 trials 21
histogram 5 5 passes 3 trials 97
histogram 5 5 passes 4 trials 23
histogram 5 5 passes 5 trials 37
histogram 5 5 passes 6 trials 28
";

/// How many of them take each number of passes, up to the greatest.
const PASSES: [u64; 7] = [49, 45, 21, 97, 23, 37, 28];

const DRAWN: &[u8] =
    b"repairs 3 3 daemon random from any trials 300 bound 9 long 5 least 0 mean 0.47 median 0 p90 1 p99 2 p999 2 greatest 2\n";

#[test]
fn a_report_has_all_numbers(rt: HostRuntime) {
    let alloc = rt.alloc();
    let mut out = Vec::new(alloc);
    let mut rows = Vec::new(alloc);
    let mut counts = Vec::new(alloc);
    let reported = report_repairs(
        &rt,
        alloc,
        faulty_study(&rt),
        threads(&rt, 4),
        Lines::Histogram,
        &mut rows,
        &mut counts,
        &mut out,
    );
    assert!(rt; reported == Ok(()));
    assert!(rt; out.as_slice() == FAULTY);
    assert!(rt; counts.as_slice().starts_with(PASSES.as_slice()));
    assert!(rt; rows.len() == 1);
    let line = record(alloc, &rows[0]).expect(&rt, "memory");
    let wanted: &[u8] = b"repairs,last,faults,5,5,2,300,30,24,0,274,3,5,6,6,6\n";
    assert!(rt; line.as_slice() == wanted);
}

#[test]
fn a_report_may_have_one_line(rt: HostRuntime) {
    let alloc = rt.alloc();
    let size = Params::new(3, 3).expect(&rt, "a size");
    let Ok(study) = Study::new(size, Start::Any, Daemon::Random, 300, 0) else {
        panic!(rt; "the study is within the limits");
    };
    let mut out = Vec::new(alloc);
    let mut rows = Vec::new(alloc);
    assert!(rt;
        report_repairs(
            &rt,
            alloc,
            study,
            threads(&rt, 1),
            Lines::Figures,
            &mut rows,
            &mut Vec::new(alloc),
            &mut out
        ) == Ok(())
    );
    assert!(rt; out.as_slice() == DRAWN);
}

#[test]
fn a_writer_without_room_is_told(rt: HostRuntime) {
    let alloc = rt.alloc();
    let mut room = [0u8; 50];
    let mut out: &mut [u8] = &mut room;
    let mut rows = Vec::new(alloc);
    let reported = report_repairs(
        &rt,
        alloc,
        faulty_study(&rt),
        threads(&rt, 4),
        Lines::Histogram,
        &mut rows,
        &mut Vec::new(alloc),
        &mut out,
    );
    assert!(rt; reported == Err(ReportFault::Write));
    assert!(rt; out.is_empty());
    assert!(rt; &room[..] == &FAULTY[..50]);
}

const OBJECT: &[u8] =
    b"{\"bound\":9,\"daemon\":\"random\",\"faults\":0,\"from\":\"any\",\"greatest\":2,\"k\":3,\"least\":0,\"longest\":5,\"mean_hundredths\":47,\"measure\":\"repairs\",\"median\":0,\"n\":3,\"p90\":1,\"p99\":2,\"p999\":2,\"trials\":300}\n";

#[test]
fn a_report_may_be_an_object(rt: HostRuntime) {
    let alloc = rt.alloc();
    let size = Params::new(3, 3).expect(&rt, "a size");
    let Ok(study) = Study::new(size, Start::Any, Daemon::Random, 300, 0) else {
        panic!(rt; "the study is within the limits");
    };
    let mut out = Vec::new(alloc);
    let mut rows = Vec::new(alloc);
    assert!(rt;
        report_repairs(
            &rt,
            alloc,
            study,
            threads(&rt, 2),
            Lines::Object,
            &mut rows,
            &mut Vec::new(alloc),
            &mut out
        ) == Ok(())
    );
    assert!(rt; out.as_slice() == OBJECT);
}
