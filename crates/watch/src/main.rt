// The watch of document 01's event records (docs/BENCH.md).
#![tactic(auto)]

use events::Node;
use trace_line::Columns;

fn main(rt: HostRuntime) {
    trace_feed::serve(rt, Node::Source, Columns::Watch, b"watch");
}
