// The rows of a setup from the far side, and of the connect that answers it when this end is ready (6.3.5). Direct code: each function
// returns the row of the page, carried out.
#![tactic(auto)]

mod ready;
mod setup;

pub use ready::ready_row;
pub use setup::setup_row;
