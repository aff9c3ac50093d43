//! Settings of a farm, read from JSON, and the plans that they give.
#![tactic(auto)]

mod actions;
mod contents;
mod document;
mod draws;
mod faults;
pub mod limits;
mod members;
mod rings;
mod scripts;
mod seat_plans;
mod seats;

pub use actions::{Action, Plan, Role};
pub use contents::{SeatSetting, Settings};
pub use document::read_settings;
pub use draws::draw_plan;
pub use faults::{Field, RingCause, SettingsError};
pub use seat_plans::plans;
