// The record of a call, at either end. An event is a method: it takes the old record and hands back the new one, beside the answer and the
// four signals of the event. Each end has one for each of its events (source_events, destination_events), and `handle` takes an event of
// any kind.
//
// Any record may be given, fit or not: the methods have no `requires`. What an event does stands on the page of rows of its end
// (source_rows, destination_rows) and in the direct code of the rows; here it is carried out on the record, in one place for all events.
#![tactic(auto)]

mod destination_events;
mod source_events;

ghost use Rattle.std.specs.Prelude.{cond, ◌≡◌};
ghost use Rattle.call.specs.Record.{moved_to, last_given, last_after, call_done, carried_out, opened_for};
ghost use Rattle.call.specs.Events.{half_of, handled_at};

use events::{Event, Node};
use rows::{Effect, State};
use signal::{Answer, Services, Signal, Soft};

// The key comes first: 0 marks an empty record.
#[derive(Clone, Copy)]
pub struct Call {
    pub key: u32,
    pub hard: bool,
    pub soft: Soft,
    pub state: State,
    pub last: u16,
    pub remote: u32,
}

#[derive(Clone, Copy)]
pub struct Outcome {
    pub answer: Answer,
    pub call: Call,
    pub signals: [Signal; 4],
}

impl Call {
    pub const EMPTY: Call = Call {
        key: 0,
        hard: false,
        soft: Soft::NoSoft,
        state: State::Null,
        last: 0,
        remote: 0,
    };

    fn moved(self, state: State, last: u16, remote: u32) -> Call
        ensures { result ≡ moved_to self state last remote }
    {
        Call {
            state,
            last,
            remote,
            ..self
        }
    }

    // The record after an event that is done: emptied where the call ends.
    fn after(self, number: u32, state: State, gives: bool, stores: bool) -> Call
        ensures { result ≡ call_done self number state gives stores }
    {
        if matches!(state, State::Null) {
            return Call::EMPTY;
        }
        let last = last_after(self.last, gives);
        let remote = remote_after(self.remote, number, stores);
        self.moved(state, last, remote)
    }

    // An effect is carried out on the record. A refusal leaves it.
    fn carried(self, number: u32, effect: Effect) -> Outcome
        ensures { result ≡ carried_out self number effect }
    {
        let signals = effect.signals;
        let call = match effect.answer {
            Answer::Done => self.after(number, effect.state, effect.gives, effect.stores),
            _ => self,
        };
        Outcome {
            answer: effect.answer,
            call,
            signals,
        }
    }

    // The record of a new call, with number 1 for its incumbent. The key and the place are the table's to check.
    pub fn opened(key: u32, wanted: Option<Services>) -> Outcome
        ensures { result ≡ opened_for key wanted }
    {
        let services = Services::wanted(wanted);
        Outcome {
            answer: Answer::Done,
            call: Call {
                key,
                hard: services.hard,
                soft: services.soft,
                state: State::Idle(1),
                last: 1,
                remote: 0,
            },
            signals: [Signal::NONE; 4],
        }
    }

    // One event of any kind, at an end of the call.
    pub fn handle(self, node: Node, event: Event) -> Outcome
        ensures { result ≡ handled_at (half_of node) self event }
    {
        match node {
            Node::Source => self.at_source(event),
            Node::Destination => self.at_destination(event),
        }
    }
}

// The last number after one was given; where there is none nothing gives one.
fn last_given(last: u16) -> u16
    ensures { result ≡ last_given last }
{
    signal::fresh_after(last).unwrap_or(last)
}

fn last_after(last: u16, gives: bool) -> u16
    ensures { result ≡ last_after gives last }
{
    if gives {
        return last_given(last);
    }
    last
}

fn remote_after(remote: u32, number: u32, stores: bool) -> u32
    ensures { result ≡ cond stores number remote }
{
    if stores {
        return number;
    }
    remote
}
