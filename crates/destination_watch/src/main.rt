// The watch of event records at the destination node (docs/BENCH.md).
#![tactic(auto)]

use events::Node;
use trace_line::Columns;

fn main(rt: HostRuntime) {
    trace_feed::serve(rt, Node::Destination, Columns::Watch, b"destination_watch");
}
