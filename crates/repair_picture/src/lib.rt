//! The picture of repairs: of one size how often each number of passes occurred, of more sizes how the numbers grow with n.
#![tactic(auto)]

mod growth;
mod pages;
mod shapes;
mod spread;

pub use growth::growth_shapes;
pub use pages::{put_growth, put_spread};
pub use shapes::{Point, Shape, Style};
pub use spread::spread_shapes;
