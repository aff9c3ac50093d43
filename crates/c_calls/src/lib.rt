//! What a call of the library for other languages answers: a code, and the values that it writes. Everything of that
//! library is here but what C holds, a pointer, and the exports.
#![tactic(auto)]

pub mod answers;
pub mod checks;
pub mod codes;
pub mod desks;
pub mod kept;
pub mod kept_texts;
pub mod laws;
pub mod lock_answers;
pub mod lock_opens;
pub mod resumes;
pub mod segments;
