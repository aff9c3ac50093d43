//! The answers, as lines.

ghost use Rattle.std.specs.Prelude.{◌≡◌};
ghost use Rattle.ring_service.specs.declared.answers.Answer.TheVariants as answer;
ghost use Rattle.ring_service.specs.Answers.{answer_line};

use ring_model::Survey;
use text_lines::{Line, put_word, with_number, with_numbers, word_line};

/// Why a call is refused. Nothing has changed then.
#[derive(Clone, Copy)]
pub enum Refusal {
    /// The line is not a call, or has more than 8 KiB.
    Syntax,
    /// The call is not permitted.
    Off,
    /// The order is 2 to the power 64 or more.
    OrderTooLarge,
    /// No ring has this number.
    NoRing,
    /// The ring has no seat of this number.
    NoSeat,
    /// The ring has no machine of this number.
    NoMachine,
    /// The value is not below K.
    NoValue,
    /// The machines of a group do not rise, or one is not the ring's.
    NotRising,
    /// The group is the whole ring.
    WholeRing,
    /// The least machine of the group that is not privileged.
    NotPrivileged(u32),
    /// The history is full.
    HistoryFull,
    OutOfMemory,
    /// The name is not plain.
    Name,
    /// The rings could not be saved.
    File,
}

/// The answer to a call.
#[derive(Clone, Copy)]
pub enum Answer {
    /// The machine was privileged: the number of the grant, and the resource's answer.
    Granted { number: u64, result: u64 },
    /// The machine was not privileged.
    Waits,
    /// The fault was written over this value.
    Corrupted { old: u32 },
    /// The survey of the state as it is now.
    Survey(Survey),
    /// The group moved: the place of its first event in the history, and how many events it has.
    Block { first: u64, count: u32 },
    /// The rings were saved.
    Saved,
    Refused(Refusal),
}

/// The line of a survey.
fn survey_line(survey: Survey) -> Line
    ensures { result ≡ answer_line (answer.Survey survey) }
{
    let mut line = Line::new();
    line.byte(b'\n');
    line.number(survey.rest);
    line.byte(b' ');
    line.number(survey.calm);
    line.byte(b' ');
    line.number(survey.first as u64);
    line.byte(b' ');
    line.number(survey.privileged as u64);
    line.byte(b' ');
    line.number(survey.position);
    put_word(&mut line, b"survey ");
    line
}

/// The line of a refusal.
fn refusal_line(why: Refusal) -> Line
    ensures { result ≡ answer_line (answer.Refused why) }
{
    match why {
        Refusal::Syntax => word_line(b"refused syntax\n"),
        Refusal::Off => word_line(b"refused off\n"),
        Refusal::OrderTooLarge => word_line(b"refused order\n"),
        Refusal::NoRing => word_line(b"refused ring\n"),
        Refusal::NoSeat => word_line(b"refused seat\n"),
        Refusal::NoMachine => word_line(b"refused machine\n"),
        Refusal::NoValue => word_line(b"refused value\n"),
        Refusal::NotRising => word_line(b"refused group\n"),
        Refusal::WholeRing => word_line(b"refused whole\n"),
        Refusal::NotPrivileged(machine) => with_number(b"refused privileged ", machine as u64),
        Refusal::HistoryFull => word_line(b"refused full\n"),
        Refusal::OutOfMemory => word_line(b"refused memory\n"),
        Refusal::Name => word_line(b"refused name\n"),
        Refusal::File => word_line(b"refused file\n"),
    }
}

impl Answer {
    /// The answer's line, with its LF.
    pub fn line(&self) -> Line
        ensures { result ≡ answer_line self.now }
    {
        match *self {
            Answer::Granted { number, result } => with_numbers(b"granted ", number, result),
            Answer::Waits => word_line(b"waits\n"),
            Answer::Corrupted { old } => with_number(b"corrupted ", old as u64),
            Answer::Survey(survey) => survey_line(survey),
            Answer::Block { first, count } => with_numbers(b"block ", first, count as u64),
            Answer::Saved => word_line(b"saved\n"),
            Answer::Refused(why) => refusal_line(why),
        }
    }
}
