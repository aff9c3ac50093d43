//! What is true of folders that are accepted: the contract of a function that does nothing.

ghost use Rattle.judged_files.specs.Laws.{JudgedFoldersAreNamed};

use name_check::laws::{judged_are_named, sound_stays};

/// Of an accepted folder, what the lines of its files say is right, from the first file that is judged on; so the holds of each
/// name are one after the other, and their tokens rise.
pub fn judged_folders_are_named()
    ensures { JudgedFoldersAreNamed }
{
    judged_are_named(); // says: what is true of lines that are right
    sound_stays(); // says: what is known before the first line is sound
}
