//! What words ask of the program.

ghost use Rattle.ring_tool.specs.Run.{IsAskedBy};

use clap::Error;
use clap::error::ErrorKind;
use command_line::{StrictWords, Words, read_words};
use repair_requests::RepairsWords;
use std::alloc::Global;
use tool_parts::requests::PictureWords;
use tool_requests::Wanted;

/// What words ask of the program.
#[derive(Drop)]
pub enum Asked<'a> {
    /// A command.
    Command(Wanted<'a>),
    /// Repairs of rings, counted.
    Repairs(RepairsWords<'a>),
    /// `run` with settings that are read strictly.
    Strict(StrictWords<'a>),
    /// A ring of a saved history in motion.
    Motion(PictureWords<'a>),
    /// The help or the version: this text.
    Text(String),
    /// They cannot be read, as this text says.
    Unread(String),
    /// There is no memory to read them.
    OutOfMemory,
}

/// What words ask for, by the answer of `clap`.
fn asked_by<'a>(alloc: Global, read: Result<Words<'a>, Error>) -> Asked<'a>
    ensures { IsAskedBy read.entry result }
{
    let error = match read {
        Ok(Words::Tool(wanted)) => return Asked::Command(wanted),
        Ok(Words::Repairs(words)) => return Asked::Repairs(words),
        Ok(Words::Strict(words)) => return Asked::Strict(words),
        Ok(Words::Motion(words)) => return Asked::Motion(words),
        Err(error) => error,
    };
    if error.kind() == ErrorKind::OutOfMemory {
        return Asked::OutOfMemory;
    }
    let Ok(text) = format!(in alloc; "{error}") else {
        return Asked::OutOfMemory;
    };
    if error.use_stderr() {
        Asked::Unread(text)
    } else {
        Asked::Text(text)
    }
}

/// What these words ask for. The program's name is not among them.
pub fn read_asked<'a>(alloc: Global, words: &'a [String]) -> Asked<'a> {
    asked_by(alloc, read_words(alloc, words))
}
