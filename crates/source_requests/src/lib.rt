// The rows of a reroute operation that this end starts: soft trigger, and the answers of path choice (6.2.5). Direct code: each function
// returns the row of the page, carried out.
#![tactic(auto)]

mod path;
mod trigger;

pub use path::{no_path_row, path_row};
pub use trigger::trigger_row;
