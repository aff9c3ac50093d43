//! A ring of a saved history in motion: an SVG without a script, which is a plain function of a saved block.
//!
//! `specs/Motion.antt` spells it. The machines are on a circle; each place of the history that is drawn is seen for as long as each
//! other. A machine is filled while it is privileged by the definition, and has a mark after a corruption. A group moves at once.
#![tactic(auto)]

mod machines;
mod page;
mod seen;

pub use page::motion;
