//! The lines of what was measured, and writers that fail.

use repair_texts::{Figures, Head, Row, heading, object_line, put_counts, put_figures, record};
use std::alloc::Global;
use std::process::Abort;

const FIGURES: Figures = Figures {
    trials: 200,
    bound: 30,
    longest: 24,
    least: 0,
    mean: 369,
    median: 4,
    p90: 6,
    p99: 7,
    p999: 7,
    greatest: 18,
};

/// The head of a ring of this size, with this many faults at its start, if there are some.
fn head_of(n: u32, k: u32, faults: Option<u32>) -> Head<'static> {
    let start = if faults.is_some() { "faults" } else { "any" };
    Head {
        measure: "repairs",
        n,
        k,
        daemon: "random",
        start,
        faults,
    }
}

/// Whether the line of these figures is this text.
fn is_line(rt: &impl Abort, alloc: Global, head: &Head<'_>, figures: &Figures, text: &[u8]) {
    let mut out = Vec::new(alloc);
    assert!(rt; put_figures(&mut out, head, figures).is_ok());
    assert!(rt; out.as_slice() == text);
}

#[test]
fn a_line_has_each_figure(rt: HostRuntime) {
    let alloc = rt.alloc();
    is_line(
        &rt,
        alloc,
        &head_of(5, 8, None),
        &FIGURES,
        b"repairs 5 8 daemon random from any trials 200 bound 30 sharp 24 least 0 mean 3.69 median 4 p90 6 p99 7 p999 7 greatest 18\n",
    );
    is_line(
        &rt,
        alloc,
        &head_of(3, 3, Some(2)),
        &Figures { mean: 5, ..FIGURES },
        b"repairs 3 3 daemon random from faults:2 trials 200 bound 30 long 24 least 0 mean 0.05 median 4 p90 6 p99 7 p999 7 greatest 18\n",
    );
}

#[test]
fn only_numbers_that_occurred_have_a_line(rt: HostRuntime) {
    let mut out = Vec::new(rt.alloc());
    let counts = [28, 0, 60, 0, 0, 12];
    assert!(rt; put_counts(&mut out, &head_of(4, 7, None), b"passes", &counts).is_ok());
    let lines: &[u8] =
        b"histogram 4 7 passes 0 trials 28\nhistogram 4 7 passes 2 trials 60\nhistogram 4 7 passes 5 trials 12\n";
    assert!(rt; out.as_slice() == lines);
}

#[test]
fn a_row_is_a_record_of_a_table(rt: HostRuntime) {
    let alloc = rt.alloc();
    let row = Row {
        head: head_of(5, 8, Some(2)),
        figures: FIGURES,
    };
    let names = heading(alloc).expect(&rt, "memory");
    let line = record(alloc, &row).expect(&rt, "memory");
    let wanted: &[u8] =
        b"measure,daemon,from,n,k,faults,trials,bound,longest,least,mean_hundredths,median,p90,p99,p999,greatest\n";
    assert!(rt; names.as_slice() == wanted);
    let wanted: &[u8] = b"repairs,random,faults,5,8,2,200,30,24,0,369,4,6,7,7,18\n";
    assert!(rt; line.as_slice() == wanted);
}

#[test]
fn a_row_is_an_object(rt: HostRuntime) {
    let alloc = rt.alloc();
    let row = Row {
        head: head_of(5, 8, None),
        figures: FIGURES,
    };
    let object = object_line(alloc, &row).expect(&rt, "memory");
    let wanted =
        "{\"bound\":30,\"daemon\":\"random\",\"faults\":0,\"from\":\"any\",\"greatest\":18,\"k\":8,\"least\":0,\"longest\":24,\"mean_hundredths\":369,\"measure\":\"repairs\",\"median\":4,\"n\":5,\"p90\":6,\"p99\":7,\"p999\":7,\"trials\":200}";
    assert!(rt; object.as_str() == wanted);
}
