//! Rings that are driven line by line: each line is a command, and is answered with one line. The
//! journal is a file, or a chain of segment files.
#![tactic(auto)]

mod answers;
mod chain_segments;
mod commands;
mod kept_calls;
mod laws;
mod permits;
mod recovered;
mod rules;
mod saving;
mod segmented;
mod segments;
mod served;
mod service;
mod serving;
mod starting;
mod texts;
mod totals;
mod turns;

pub use answers::{Answer, Refusal};
pub use chain_segments::ChainRules;
pub use commands::{Command, read_command};
pub use kept_calls::segments_keep_calls;
pub use laws::{
    answers_are_of_chains, equal_lines_give_equal_answers, journals_are_right,
    no_line_is_refused_full, one_turn_is_right,
};
pub use permits::Permits;
pub use recovered::{answered_calls_are_in_chains, answered_calls_are_recovered};
pub use rules::{JournalFile, Rules};
pub use saving::{save_rings, write_rings};
pub use served::{LineAnswer, Served, answer_line};
pub use service::RingService;
pub use serving::{Journal, are_right, serve};
pub use starting::StartError;
pub use texts::put_beginning;
pub use turns::{CallAnswer, Trace};
