//! The program's version and the kit's.

/// The project's version, and below it the sum of the logic of the kit that proved it, with which the line of `rt version` ends:
/// kits with the same one prove the same. They are only here; `./test` holds them against the kit.
pub const VERSION: &str = "0.1.0
rattle logic dac8208d650f15bf";
