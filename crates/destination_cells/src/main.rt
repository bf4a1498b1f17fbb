// The cells of one call, at the destination node (docs/CELLS.md).
#![tactic(auto)]

use events::Node;

fn main(rt: HostRuntime) {
    cells_feed::serve(rt, Node::Destination);
}
