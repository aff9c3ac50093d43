//! The program: `command_line` reads its words, and it does the command that they ask for and prints what the command answers.
#![tactic(auto)]

mod asked;
mod ends;
mod motion;
mod process;
mod program;
mod repairs;
mod requests;
mod strict;
mod wanted;

use crate::process::{CommandLine, SystemProcess, run_process};
use disks::{SystemDisk, take_low};
use std::io::{self, BufWriter};
use std::process::ExitCode;
use tool_parts::endings::tell;
use tool_parts::faults::ToolError;

fn main(rt: HostRuntime) -> ExitCode {
    // Before any file is opened, so that none gets a standard descriptor that was closed and is printed into. If it
    // fails, no device can be opened, and things are as they were.
    let _ = take_low(&rt);
    let mut err = rt.stderr();
    let Ok(out) = BufWriter::new(rt.alloc(), io::writer(&rt)) else {
        return ExitCode::from(tell(&ToolError::OutOfMemory, &mut err));
    };
    let ending = run_process(
        &rt,
        &mut SystemDisk::new(&rt),
        &SystemProcess::new(&rt),
        &CommandLine,
        &mut rt.reader(),
        out,
        &mut err,
    );
    ExitCode::from(ending.status)
}
