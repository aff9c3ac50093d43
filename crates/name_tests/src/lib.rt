//! Tests of locks by any name: the machine, what answers lines about names, the remarks that record them, which names grants had, and
//! the judge of names and of the files of a folder, by their public calls only.
#![tactic(auto)]

#[cfg(test)]
mod dialogues;
#[cfg(test)]
mod holders;
#[cfg(test)]
mod judged_folders;
#[cfg(test)]
mod judged_names;
#[cfg(test)]
mod lines;
#[cfg(test)]
mod name_lines;
#[cfg(test)]
mod name_starts;
#[cfg(test)]
mod named_locks;
#[cfg(test)]
mod named_segments;
#[cfg(test)]
mod remarks_of_names;
#[cfg(test)]
mod restored_names;
#[cfg(test)]
mod services;
