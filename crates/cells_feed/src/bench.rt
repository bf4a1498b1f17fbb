// The bench run of an end on one call, a line for each event (docs/CELLS.md, "The bench run").
use crate::Console;
use crate::line::{put_answer, put_bar};
use call::{Call, Outcome};
use events::{Act, Event, Node};
use lines::Line;
use rows::State;
use signal::{Crankback, ReroutingCause, Services, Soft, Switchover};
use streams::Failure;

const COMPLETE: Option<ReroutingCause> = Some(ReroutingCause::COMPLETE);

// The opening of B1, step 1.
const OPENED: Option<Services> = Some(Services {
    hard: true,
    soft: Soft::Symmetric,
});

// The steps behind it at the source node.
const SOURCE: [(u64, Event); 16] = [
    // B2 to B9: the neighbour reroutes, and a release comes late.
    (2, Event::Setup(Switchover::CLEARING, 3)),
    (3, Event::Ready),
    (4, Event::Setup(Switchover::CLEARING, 3)),
    (5, Event::Setup(Switchover::IMMEDIATE, 9)),
    (6, Event::Setup(Switchover::CLEARING, 5)),
    (7, Event::Ready),
    (8, Event::FromDomain(1, COMPLETE, Crankback::NoCrankback)),
    (9, Event::FromDomain(1, None, Crankback::NoCrankback)),
    // B10 to B13: the node reroutes softly.
    (10, Event::Trigger),
    (11, Event::PathFound),
    (12, Event::Setup(Switchover::CLEARING, 6)),
    (13, Event::Connect(4, true)),
    // B15 and B16: the incumbent is lost under a soft rerouting, and the timer ends the call.
    (15, Event::Trigger),
    (15, Event::PathFound),
    (15, Event::FromDomain(4, None, Crankback::NoCrankback)),
    (16, Event::Expiry),
];

// And at the destination node.
const DESTINATION: [(u64, Event); 18] = [
    // Steps 2 to 6: the far side moves the call hard; in Rerouting Idle an old number and an unknown switchover code are rejected.
    (2, Event::Setup(Switchover::IMMEDIATE, 4)),
    (3, Event::Setup(Switchover { code: 200 }, 5)),
    (4, Event::Ready),
    (5, Event::Setup(Switchover::CLEARING, 5)),
    (6, Event::Setup(Switchover { code: 200 }, 9)),
    // Steps 7 to 13: the far side moves it softly, and a release comes late.
    (7, Event::Setup(Switchover::CLEARING, 6)),
    (8, Event::Ready),
    (9, Event::Ready),
    (10, Event::Setup(Switchover::CLEARING, 8)),
    (11, Event::Ready),
    (12, Event::FromDomain(3, COMPLETE, Crankback::NoCrankback)),
    (13, Event::FromDomain(3, None, Crankback::NoCrankback)),
    // Steps 14 to 17: this side moves it once.
    (14, Event::Trigger),
    (15, Event::Trigger),
    (16, Event::PathFound),
    (17, Event::Connect(6, true)),
    // Steps 19 and 20: the incumbent fails, and no setup comes in time.
    (19, Event::FromDomain(6, None, Crankback::NoCrankback)),
    (20, Event::Expiry),
];

impl Console {
    pub(crate) fn print_run(self) -> Result<(), Failure> {
        match self.node {
            Node::Source => self.print_steps(&SOURCE),
            Node::Destination => self.print_steps(&DESTINATION),
        }
    }

    // The opening, and then each step on the call that the one before it leaves.
    fn print_steps(self, steps: &[(u64, Event)]) -> Result<(), Failure> {
        let mut out = [0u8; 256];
        let mut line = Line {
            buffer: &mut out,
            at: 0,
        };
        put_label(&mut line, self.node, 1);
        event_words::put_event(&mut line, self.node, 7, Act::Opens(OPENED));
        let mut call = self.finish(&mut line, Call::opened(7, OPENED))?;
        for (number, event) in steps {
            line.at = 0;
            put_label(&mut line, self.node, *number);
            event_words::put_keyless(&mut line, self.node, *event);
            call = self.finish(&mut line, call.handle(self.node, *event))?;
        }
        Ok(())
    }

    // Ends a step's line with its outcome, and writes it: the call behind the step.
    fn finish(self, line: &mut Line, outcome: Outcome) -> Result<Call, Failure> {
        put_bar(line);
        put_answer(line, outcome.answer);
        put_bar(line);
        put_after(line, self.node, outcome.call);
        put_bar(line);
        signal_words::put_signals(line, outcome.signals);
        self.write_line(line)?;
        Ok(outcome.call)
    }
}

// What stands before a step, in 01 and in bench/destination/bench_run.txt.
fn put_label(line: &mut Line, node: Node, number: u64) {
    match node {
        Node::Source => line.put_numbered(b"B", number),
        Node::Destination => line.put_numbered(b"step ", number),
    }
    put_bar(line);
}

fn put_after(line: &mut Line, node: Node, call: Call) {
    put_state(line, node, call.state);
    line.put_numbered(b", ", call.remote as u64);
}

// The state's name (6.2.3, 6.3.3), with what it holds.
fn put_state(line: &mut Line, node: Node, state: State) {
    match state {
        State::Null => line.put_word(b"Null"),
        State::Idle(incumbent) => put_one(line, b"Rerouting Idle", incumbent),
        State::HardWaiting => put_waiting(line, node),
        State::HardUnderway(rerouting) => put_underway(line, node, rerouting),
        State::SoftTriggered(incumbent) => put_one(line, b"Soft Reroute Triggered", incumbent),
        State::SoftProceeding(incumbent, rerouting) => {
            put_two(line, b"Soft Reroute Proceeding", incumbent, rerouting)
        }
        State::SoftInitiated(incumbent, rerouting) => {
            put_two(line, b"Soft Reroute Initiated", incumbent, rerouting)
        }
        State::Awaiting(incumbent, rerouting) => {
            put_two(line, b"Awaiting Switchover", incumbent, rerouting)
        }
    }
}

fn put_waiting(line: &mut Line, node: Node) {
    match node {
        Node::Source => line.put_word(b"Hard Reroute Triggered"),
        Node::Destination => line.put_word(b"Hard Reroute Indicated"),
    }
}

fn put_underway(line: &mut Line, node: Node, rerouting: u16) {
    match node {
        Node::Source => put_one(line, b"Hard Reroute Proceeding", rerouting),
        Node::Destination => put_one(line, b"Hard Reroute Initiated", rerouting),
    }
}

fn put_one(line: &mut Line, name: &[u8], connection: u16) {
    line.put_word(name);
    line.put_numbered(b" (", connection as u64);
    line.put_byte(b')');
}

fn put_two(line: &mut Line, name: &[u8], incumbent: u16, rerouting: u16) {
    line.put_word(name);
    line.put_numbered(b" (", incumbent as u64);
    line.put_numbered(b",", rerouting as u64);
    line.put_byte(b')');
}
