// Cases over a whole table, at the source node (docs/TABLES.md).
#![tactic(auto)]

use events::Node;

fn main(rt: HostRuntime) {
    tables_feed::serve(rt, Node::Source);
}
