//! Rings for a program that is not written in Rattle: a static library with one function for each call.
//!
//! C holds a ring as a struct with one pointer, which is null where it is closed, and gives it to one call at a time
//! (`clients/c/wozgirt.h`). Each number that C passes is checked here, and whether the struct is open. The conditions on C,
//! which nothing checks, are in the header: nobody else wrote the struct, and no two calls have it at once.
#![tactic(auto)]

mod calls;
mod checks;
mod files;
mod handle;
mod lock_handle;
mod lock_opens;
mod locks;
mod loose;
mod opens;
mod resumes;
mod segments;
mod texts;
