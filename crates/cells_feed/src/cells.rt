// The cells of a state, and the openings, with the values and in the order of docs/CELLS.md.
use crate::Console;
use crate::line::{put_answer, put_bar};
use call::{Call, Outcome};
use events::{Act, Event, Node};
use lines::Line;
use rows::State;
use signal::{Crankback, ReroutingCause, Services, Soft, Switchover};
use streams::Failure;

const SOFTS: [Soft; 3] = [Soft::NoSoft, Soft::Asymmetric, Soft::Symmetric];

const CODES: [Switchover; 4] = [
    Switchover::CLEARING,
    Switchover::IMMEDIATE,
    Switchover { code: 2 },
    Switchover { code: 255 },
];

const CAUSES: [Option<ReroutingCause>; 6] = [
    None,
    Some(ReroutingCause { number: 0 }),
    Some(ReroutingCause { number: 1 }),
    Some(ReroutingCause { number: 2 }),
    Some(ReroutingCause { number: 4 }),
    Some(ReroutingCause { number: 255 }),
];

const CRANKBACKS: [Crankback; 3] = [
    Crankback::NoCrankback,
    Crankback::AlternateFound,
    Crankback::NoAlternate,
];

impl Console {
    pub(crate) fn print_state(self, state: State) -> Result<(), Failure> {
        for hard in [false, true] {
            for soft in SOFTS {
                for last in [10, 65534, 65535] {
                    let call = Call {
                        key: 7,
                        hard,
                        soft,
                        state,
                        last,
                        remote: 100,
                    };
                    self.print_events(call)?;
                    if let Some(state) = doubled(state) {
                        self.print_events(Call { state, ..call })?;
                    }
                }
            }
        }
        Ok(())
    }

    fn print_events(self, call: Call) -> Result<(), Failure> {
        for event in [Event::Trigger, Event::PathFound, Event::NoPath] {
            self.print_cell(call, event)?;
        }
        for connection in [0, 3, 4, 5] {
            for policy in [false, true] {
                self.print_cell(call, Event::Connect(connection, policy))?;
            }
        }
        for code in CODES {
            for number in [0, 99, 100, 101, 4294967295] {
                self.print_cell(call, Event::Setup(code, number))?;
            }
        }
        self.print_releases(call)?;
        for event in [Event::Ready, Event::Expiry] {
            self.print_cell(call, event)?;
        }
        Ok(())
    }

    // By name: `calling` before `called`. The party is the calling one at the source, and the called one at the destination.
    fn print_releases(self, call: Call) -> Result<(), Failure> {
        match self.node {
            Node::Source => {
                self.print_party(call)?;
                self.print_domain(call)
            }
            Node::Destination => {
                self.print_domain(call)?;
                self.print_party(call)
            }
        }
    }

    fn print_party(self, call: Call) -> Result<(), Failure> {
        for cause in CAUSES {
            self.print_cell(call, Event::FromParty(cause))?;
        }
        Ok(())
    }

    fn print_domain(self, call: Call) -> Result<(), Failure> {
        for connection in [0, 3, 4, 5] {
            for cause in CAUSES {
                for crankback in CRANKBACKS {
                    self.print_cell(call, Event::FromDomain(connection, cause, crankback))?;
                }
            }
        }
        Ok(())
    }

    fn print_cell(self, call: Call, event: Event) -> Result<(), Failure> {
        let mut out = [0u8; 256];
        let mut line = Line {
            buffer: &mut out,
            at: 0,
        };
        call_words::put_call(&mut line, call);
        put_bar(&mut line);
        event_words::put_keyless(&mut line, self.node, event);
        put_outcome(&mut line, call.handle(self.node, event));
        self.write_line(&mut line)
    }

    pub(crate) fn print_openings(self) -> Result<(), Failure> {
        for key in [0, 7, 4294967295] {
            self.print_opening(key, None)?;
            for hard in [false, true] {
                for soft in SOFTS {
                    self.print_opening(key, Some(Services { hard, soft }))?;
                }
            }
        }
        Ok(())
    }

    fn print_opening(self, key: u32, wanted: Option<Services>) -> Result<(), Failure> {
        let mut out = [0u8; 256];
        let mut line = Line {
            buffer: &mut out,
            at: 0,
        };
        event_words::put_event(&mut line, self.node, key, Act::Opens(wanted));
        put_outcome(&mut line, Call::opened(key, wanted));
        self.write_line(&mut line)
    }
}

// A state that holds two connections, with 4 for both.
fn doubled(state: State) -> Option<State> {
    match state {
        State::Null
        | State::Idle(_)
        | State::HardWaiting
        | State::HardUnderway(_)
        | State::SoftTriggered(_) => None,
        State::SoftProceeding(_, _) => Some(State::SoftProceeding(4, 4)),
        State::SoftInitiated(_, _) => Some(State::SoftInitiated(4, 4)),
        State::Awaiting(_, _) => Some(State::Awaiting(4, 4)),
    }
}

fn put_outcome(line: &mut Line, outcome: Outcome) {
    put_bar(line);
    put_answer(line, outcome.answer);
    put_bar(line);
    call_words::put_call(line, outcome.call);
    put_bar(line);
    signal_words::put_signals(line, outcome.signals);
}
