//! Reading and writing of line-based ASCII text.
//!
//! A reader takes a value from the front of some bytes, and says otherwise whether the bytes end
//! too early or which byte is the first that no spelling continues with. `Rattle.text_lines.specs`
//! has, for each reader, a function on lists that it answers like, the combinators that make a
//! grammar of such functions, and the law that ties a function to a spelling. The lemmas of
//! `proofs/` carry that law through each combinator, so that a whole grammar has it.
//!
//! A writer takes pieces of a text, one after the other, until all are written or the first fault.
//!
//! There are parts too of the lines by which a service is driven: decimals of any size, and answers
//! of words and numbers.
#![tactic(auto)]

mod answer;
mod bounded_numbers;
mod fault;
mod fixed;
mod line;
mod list;
mod long_numbers;
mod number_texts;
mod numbers;
mod row;
mod word_lines;
mod words;
mod write;

/// The most bytes of a line, with its LF.
pub const LINE_LIMIT: usize = 8192;

pub use answer::{
    ReadError, answers_are_apart, line_at, nothing_more, readers_answer_right, refusal,
};
pub use bounded_numbers::{number32, number64, positive32};
pub use fault::{Fault, Stop};
pub use fixed::fixed_word;
pub use line::Line;
pub use list::put_list;
pub use long_numbers::{decimal, number, place, places};
pub use number_texts::read_decimal;
pub use numbers::put_numbers;
pub use row::{put_row, row32};
pub use word_lines::{put_word, with_number, with_numbers, word_line};
pub use words::word;
pub use write::{WriteFault, put, put_all};
