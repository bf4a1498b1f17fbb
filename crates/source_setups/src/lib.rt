// The rows of a reroute operation that the neighbour starts: its setup, and the connect that answers it when this end is ready (6.2.7).
// Direct code: each function returns the row of the page, carried out.
#![tactic(auto)]

mod ready;
mod setup;

pub use ready::ready_row;
pub use setup::setup_row;
