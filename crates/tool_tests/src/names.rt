//! The names by which the checker's callers know its calls and types. Nothing here is run: if a name is gone or has moved, this
//! file does not compile.

use ring_check::{CheckError, Kind, Summary, check_saved, upgrade_is_legal};
