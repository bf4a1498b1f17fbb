// Lines of a script into event records, at the destination node (docs/BENCH.md).
#![tactic(auto)]

use events::Node;

fn main(rt: HostRuntime) {
    script_feed::serve(rt, Node::Destination);
}
