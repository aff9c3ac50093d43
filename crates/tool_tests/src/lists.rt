//! A history with as many events as one can have.

use run_commands::step::step_lines;
use std::test::Fail;
use tool_parts::faults::ToolError;

/// Lets machine 1 of the ring 0, 0 ask to pass so often, and answers what is printed. It is not privileged, so each line has
/// 17 bytes.
fn pass_often<R: AllocGlobal>(
    rt: &R,
    often: usize,
) -> Result<(Result<(), ToolError<'static>>, Vec<u8>), Fail> {
    let mut choices = Vec::with_capacity(rt.alloc(), often)?;
    for _ in 0..often {
        choices.push(1)?;
    }
    let mut out = Vec::new(rt.alloc());
    let done = step_lines(rt.alloc(), 2, 2, &[0, 0], choices.as_slice(), &mut out);
    Ok((done, out))
}

#[test]
fn a_history_holds_four_million_events(rt: HostRuntime) -> Result<(), Fail> {
    let end = "states 0,0\nprivileged 1 first 0\n";
    let line = "1 not privileged\n".len();
    let (done, written) = pass_often(&rt, 4_000_000)?;
    assert!(rt; done.is_ok() && written.len() == 4_000_000 * line + end.len());
    let (done, written) = pass_often(&rt, 4_000_001)?;
    assert!(rt; matches!(done, Err(ToolError::HistoryFull)) && written.len() == 4_000_000 * line);
    Ok(())
}
