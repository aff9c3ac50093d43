//! The command `repairs`, over files in memory.

use repair_commands::repairs;
use repair_report::Lines;
use repair_requests::{Made, Refusal, RepairsWords};
use ring_repairs::{Daemon, Start};
use std::alloc::Global;
use std::test::Fail;
use test_files::{bytes_of, no_files};
use tool_parts::requests::RingSize;

/// 300 trials of each of these sizes, whose last privileged machine moves, and which two faults hit.
fn faulty_words<'a>(
    alloc: Global,
    sizes: &[RingSize],
    made: Made<'a>,
) -> Result<RepairsWords<'a>, Fail> {
    let mut given = Vec::new(alloc);
    for size in sizes {
        given.push(*size)?;
    }
    Ok(RepairsWords {
        sizes: given,
        start: Start::Faults(2),
        daemon: Daemon::Last,
        trials: Some(300),
        seed: 7,
        threads: 3,
        lines: Lines::Figures,
        made,
    })
}

const LINES: &[u8] = b"\
repairs 3 3 daemon last from faults:2 trials 300 bound 9 long 5 least 0 mean 0.42 median 0 p90 1 p99 1 p999 1 greatest 1
repairs 5 5 daemon last from faults:2 trials 300 bound 30 sharp 24 least 0 mean 2.74 median 3 p90 5 p99 6 p999 6 greatest 6
";

const TABLE: &[u8] = b"\
measure,daemon,from,n,k,faults,trials,bound,longest,least,mean_hundredths,median,p90,p99,p999,greatest
repairs,last,faults,3,3,2,300,9,5,0,42,0,1,1,1,1
repairs,last,faults,5,5,2,300,30,24,0,274,3,5,6,6,6
";

#[test]
fn each_size_has_a_line_and_a_record(rt: HostRuntime) -> Result<(), Fail> {
    let alloc = rt.alloc();
    let mut disk = no_files(alloc);
    let sizes = [RingSize { n: 3, k: 3 }, RingSize { n: 5, k: 5 }];
    let words = faulty_words(alloc, &sizes, Made::Table("table.csv"))?;
    let mut out = Vec::new(alloc);
    assert!(rt; repairs::run(&rt, alloc, &mut disk, &words, &mut out).is_ok());
    assert!(rt; out.as_slice() == LINES);
    let table = bytes_of(alloc, &disk, "table.csv")?;
    assert!(rt; table.as_slice() == TABLE);
    Ok(())
}

#[test]
fn a_picture_is_of_one_size_or_of_more(rt: HostRuntime) -> Result<(), Fail> {
    let alloc = rt.alloc();
    let mut disk = no_files(alloc);
    let all = [RingSize { n: 3, k: 3 }, RingSize { n: 5, k: 5 }];
    let spread: &[u8] = b"how many trials took how many";
    let growth: &[u8] = b"by the number of machines";
    for (sizes, title) in [(&all[..1], spread), (&all[..], growth)] {
        let words = faulty_words(alloc, sizes, Made::Picture("picture.svg"))?;
        let mut out = Vec::new(alloc);
        assert!(rt; repairs::run(&rt, alloc, &mut disk, &words, &mut out).is_ok());
        let picture = bytes_of(alloc, &disk, "picture.svg")?;
        let mut found = false;
        for piece in picture.as_slice().windows(title.len()) {
            found = found || piece == title;
        }
        assert!(rt; found && picture.as_slice().ends_with(b"</svg>\n"));
    }
    Ok(())
}

#[test]
fn a_table_and_a_picture_are_made_at_once(rt: HostRuntime) -> Result<(), Fail> {
    let alloc = rt.alloc();
    let mut disk = no_files(alloc);
    let sizes = [RingSize { n: 3, k: 3 }, RingSize { n: 5, k: 5 }];
    let words = faulty_words(alloc, &sizes, Made::Both("table.csv", "picture.svg"))?;
    let mut out = Vec::new(alloc);
    assert!(rt; repairs::run(&rt, alloc, &mut disk, &words, &mut out).is_ok());
    assert!(rt; out.as_slice() == LINES);
    let table = bytes_of(alloc, &disk, "table.csv")?;
    assert!(rt; table.as_slice() == TABLE);
    let picture = bytes_of(alloc, &disk, "picture.svg")?;
    assert!(rt; picture.as_slice().ends_with(b"</svg>\n"));
    Ok(())
}

#[test]
fn a_size_with_fewer_machines_than_faults_is_refused_first(rt: HostRuntime) -> Result<(), Fail> {
    let alloc = rt.alloc();
    let mut disk = no_files(alloc);
    let sizes = [RingSize { n: 3, k: 3 }, RingSize { n: 2, k: 2 }];
    let mut words = faulty_words(alloc, &sizes, Made::Nothing)?;
    words.start = Start::Faults(3);
    let mut out = Vec::new(alloc);
    match repairs::run(&rt, alloc, &mut disk, &words, &mut out) {
        Err(Refusal::ManyFaults(place)) => assert!(rt; place == 1),
        _ => panic!(rt; "it is refused"),
    }
    assert!(rt; out.is_empty());
    Ok(())
}

#[test]
fn threads_are_counted_last(rt: HostRuntime) -> Result<(), Fail> {
    let alloc = rt.alloc();
    let mut disk = no_files(alloc);
    let sizes = [RingSize { n: 3, k: 3 }];
    for (threads, many) in [(0, false), (65, true)] {
        let mut words = faulty_words(alloc, &sizes, Made::Nothing)?;
        words.threads = threads;
        let mut out = Vec::new(alloc);
        match repairs::run(&rt, alloc, &mut disk, &words, &mut out) {
            Err(Refusal::NoThreads) => assert!(rt; !many),
            Err(Refusal::ManyThreads) => assert!(rt; many),
            _ => panic!(rt; "it is refused"),
        }
        assert!(rt; out.is_empty());
    }
    Ok(())
}

/// Each refusal that no other command has, and its line.
const LINES_OF_REFUSALS: [(Refusal<'static>, &str); 7] = [
    (Refusal::NoTrials, "there are no trials"),
    (
        Refusal::ManyTrials,
        "there are more than 10000000000 trials",
    ),
    (
        Refusal::ManyFaults(3),
        "ring 3: there are more faults than machines",
    ),
    (
        Refusal::ManyStates(0),
        "ring 0: there are more than 100000000 states",
    ),
    (
        Refusal::OneTrial,
        "a daemon that draws nothing makes one trial of each state",
    ),
    (Refusal::NoThreads, "there are no threads"),
    (Refusal::ManyThreads, "there are more than 64 threads"),
];

#[test]
fn refusals_have_a_line(rt: HostRuntime) -> Result<(), Fail> {
    let alloc = rt.alloc();
    for (refusal, line) in &LINES_OF_REFUSALS {
        let text = format!(in alloc; "{refusal}")?;
        assert!(rt; text.as_str() == *line);
        assert!(rt; refusal.status() == 1);
    }
    Ok(())
}
