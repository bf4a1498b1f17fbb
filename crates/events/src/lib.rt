// What may be asked of either end of a call: the events of one call, and what is done with a key. No end is named here: the two releases
// are told by their role. At the source node the party is the calling one and the domain is released from the called side; at the
// destination node it is the other way round.
#![tactic(auto)]

use signal::{Crankback, ReroutingCause, Services, Switchover};

// An end of a call. It is named only where the two differ: in whose release names a connection, since that comes from across the domain.
#[derive(Clone, Copy)]
pub enum Node {
    Source,
    Destination,
}

// The events of one call, with their values (01, "Events and rows").
#[derive(Clone, Copy)]
pub enum Event {
    Trigger,
    PathFound,
    NoPath,
    // the connection, and local policy's yes
    Connect(u16, bool),
    // the switchover code and the incarnation number
    Setup(Switchover, u32),
    // a release from the side of the node's own party
    FromParty(Option<ReroutingCause>),
    // a release from across the domain, for a connection
    FromDomain(u16, Option<ReroutingCause>, Crankback),
    Ready,
    Expiry,
}

// What is done with a key: a call is opened, or an event meets it.
#[derive(Clone, Copy)]
pub enum Act {
    Opens(Option<Services>),
    Meets(Event),
}

// An act, and the end of the call at which it is done.
#[derive(Clone, Copy)]
pub struct NodeAct {
    pub node: Node,
    pub act: Act,
}
