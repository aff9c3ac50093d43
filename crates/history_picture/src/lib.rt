//! The picture of a ring's history: an SVG that is a plain function of a saved block.
//!
//! `specs/Picture.antt` spells it. Time goes to the right, a column for each place of the history that is drawn; each
//! machine has a row with a rectangle for each stretch of columns in which it is privileged by the definition, and a mark
//! for each corruption and each refused pass. Below are the curves of the rest and of the calm, one point for each column.
//! A group moves at once: the columns inside its block show the state before it, and the one after it the state after all
//! its members.
#![tactic(auto)]

mod columns;
mod curves;
mod frame;
mod groups;
mod laws;
mod marks;
mod page;
mod picture;
mod rows;
mod stretches;

pub use laws::stretches_cover;
pub use picture::{PictureFault, write_picture};
