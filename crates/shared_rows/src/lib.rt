// The rows that are the same at both ends of a call, as direct code: each function returns the row of the page, carried out. `node` is the
// end; where the node's own party is not told, nothing differs by it.
#![tactic(auto)]

mod ended;
mod releases;
mod started;

pub use ended::{expiry_row, idle_lost, party_row};
pub use releases::{released, turned_away};
pub use started::{soft_connect, soft_crankback, soft_path, trigger_in};
