// Rows, for either end of a call: the states, what a row reads of a cause, and what an event does to a call.
//
// The rows themselves are data, in specs/: a case is all that a row may read, a rule all that a row says, and one definition carries a rule
// out. An end's page of rows is a function from cases to rules (crate source_rows). The code of a row is direct, and is proved to return
// that rule, carried out.
#![tactic(auto)]

ghost use Rattle.std.specs.Prelude.{◌≡◌};
ghost use Rattle.rows.specs.States.{state_number, incumbent_of, rerouting_of};
ghost use Rattle.rows.specs.Cases.{class_of};
ghost use Rattle.rows.specs.Effects.{party_kind, refused_in, done_in, given_in};
ghost use Rattle.rows.specs.Effects.{moved_quietly, rejection_left, ended_telling, stopped_telling};

use events::Node;
use signal::{Answer, CauseCode, Kind, ReroutingCause, SentCause, Signal};

// The states of 6.2.3 and 6.3.3, each with its own connection numbers: the incumbent first, then the rerouting one. Two have a name for
// each end: HardWaiting is Hard Reroute Triggered at the source and Hard Reroute Indicated at the destination, HardUnderway is Hard Reroute
// Proceeding and Hard Reroute Initiated.
#[derive(Clone, Copy)]
pub enum State {
    Null,
    Idle(u16),
    HardWaiting,
    HardUnderway(u16),
    SoftTriggered(u16),
    SoftProceeding(u16, u16),
    SoftInitiated(u16, u16),
    Awaiting(u16, u16),
}

impl State {
    // A match: a cast gives the numbers only of an enum without values.
    pub fn number(self) -> u8
        ensures { result ≡ state_number self }
    {
        match self {
            State::Null => 0,
            State::Idle(_) => 1,
            State::HardWaiting => 2,
            State::HardUnderway(_) => 3,
            State::SoftTriggered(_) => 4,
            State::SoftProceeding(_, _) => 5,
            State::SoftInitiated(_, _) => 6,
            State::Awaiting(_, _) => 7,
        }
    }

    // The incumbent connection, 0 where the state holds none.
    pub fn incumbent(self) -> u16
        ensures { result ≡ incumbent_of self }
    {
        match self {
            State::Null => 0,
            State::Idle(incumbent) => incumbent,
            State::HardWaiting => 0,
            State::HardUnderway(_) => 0,
            State::SoftTriggered(incumbent) => incumbent,
            State::SoftProceeding(incumbent, _) => incumbent,
            State::SoftInitiated(incumbent, _) => incumbent,
            State::Awaiting(incumbent, _) => incumbent,
        }
    }

    // The rerouting connection, 0 where the state holds none.
    pub fn rerouting(self) -> u16
        ensures { result ≡ rerouting_of self }
    {
        match self {
            State::Null => 0,
            State::Idle(_) => 0,
            State::HardWaiting => 0,
            State::HardUnderway(rerouting) => rerouting,
            State::SoftTriggered(_) => 0,
            State::SoftProceeding(_, rerouting) => rerouting,
            State::SoftInitiated(_, rerouting) => rerouting,
            State::Awaiting(_, rerouting) => rerouting,
        }
    }
}

// The Rerouting cause that came, as far as any row reads it: none, #1, #4, or another.
#[derive(Clone, Copy)]
pub enum Class {
    CameNone,
    CameOutside,
    CameComplete,
    CameOther,
}

// What a row reads of a cause.
pub fn class_of(cause: Option<ReroutingCause>) -> Class
    ensures { class_of cause ≡ result }
{
    match cause {
        None => Class::CameNone,
        Some(ReroutingCause { number: 1 }) => Class::CameOutside,
        Some(ReroutingCause { number: 4 }) => Class::CameComplete,
        Some(_) => Class::CameOther,
    }
}

// The release of the node's own party.
pub fn party_kind(node: Node) -> Kind
    ensures { result ≡ party_kind node }
{
    match node {
        Node::Source => Kind::CallingRelease,
        Node::Destination => Kind::CalledRelease,
    }
}

// What an event does to a call: a rule, carried out on the numbers of a record. `gives`: the state holds a new number. `stores`: the
// setup's incarnation number is stored. The signals come first: so laid out, an event of the trace costs eighteen machine instructions
// fewer.
#[derive(Clone, Copy)]
pub struct Effect {
    pub signals: [Signal; 4],
    pub state: State,
    pub answer: Answer,
    pub gives: bool,
    pub stores: bool,
}

impl Effect {
    pub fn refused(answer: Answer, state: State) -> Effect
        ensures { result ≡ refused_in answer state }
    {
        Effect {
            answer,
            state,
            gives: false,
            stores: false,
            signals: [Signal::NONE; 4],
        }
    }

    // Done, in a state, with three signals at most.
    pub fn done(state: State, first: Signal, second: Signal, third: Signal) -> Effect
        ensures { result ≡ done_in state first second third }
    {
        Effect {
            answer: Answer::Done,
            state,
            gives: false,
            stores: false,
            signals: [first, second, third, Signal::NONE],
        }
    }

    // Done, in a state, and nothing is sent.
    pub fn moved(state: State) -> Effect
        ensures { result ≡ moved_quietly state }
    {
        Effect::done(state, Signal::NONE, Signal::NONE, Signal::NONE)
    }

    // A setup is rejected to the neighbour with #8 or #5, which leaves the whole record as it was.
    pub fn rejected(cause: ReroutingCause, state: State) -> Effect
        ensures { result ≡ rejection_left cause state }
    {
        Effect::done(state, Signal::rejection(cause), Signal::NONE, Signal::NONE)
    }

    // The call ends, and the node's own party is told; another signal stands behind it.
    pub fn told(node: Node, cause: SentCause, other: Signal) -> Effect
        ensures { result ≡ ended_telling node cause other }
    {
        let party = Signal::release(party_kind(node), 0, cause, CauseCode::Section66);
        Effect::done(State::Null, party, other, Signal::NONE)
    }

    // The same out of the Hard states, where the timer is stopped first.
    pub fn told_stopping(node: Node, cause: SentCause) -> Effect
        ensures { result ≡ stopped_telling node cause }
    {
        let party = Signal::release(party_kind(node), 0, cause, CauseCode::Section66);
        Effect::done(State::Null, Signal::TIMER_STOP, party, Signal::NONE)
    }

    // Done, in a state that holds a new number.
    pub fn given(state: State, stores: bool, first: Signal, second: Signal, third: Signal) -> Effect
        ensures { result ≡ given_in state stores first second third }
    {
        Effect {
            answer: Answer::Done,
            state,
            gives: true,
            stores,
            signals: [first, second, third, Signal::NONE],
        }
    }
}
