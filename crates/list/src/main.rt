// Event records as lines of `script`, at the source node (docs/BENCH.md).
#![tactic(auto)]

use events::Node;

fn main(rt: HostRuntime) {
    list_feed::serve(rt, Node::Source);
}
