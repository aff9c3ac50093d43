//! The locks of a list, and why a text is none.

use ring_state::ParamsError;

/// A lock of a list.
#[derive(Clone, Copy)]
pub struct ListedLock<'t> {
    pub name: &'t str,
    /// How many machines its ring has.
    pub n: u32,
    /// How many values each of them can hold.
    pub k: u32,
}

/// Why a text is not a list of locks. Places are from 0.
#[derive(Clone, Copy)]
pub enum ListError {
    /// It is not the text of one lock or more.
    Syntax,
    /// It has more than `LOCK_LIMIT` locks.
    Many,
    /// There is no ring of the size of the lock at this place.
    Size(usize, ParamsError),
    /// The lock at this place has the name of one before it.
    Twice(usize),
    OutOfMemory,
}
