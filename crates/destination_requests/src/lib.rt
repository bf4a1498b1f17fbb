// The rows of a soft reroute that the destination starts: soft trigger, the answers of path choice, and the connect (6.3.6, 6.3.7). Direct
// code: each function returns the row of the page, carried out.
#![tactic(auto)]

ghost use Rattle.std.specs.Prelude.{◌≡◌};
ghost use Rattle.destination_requests.specs.Effects.{destination_trigger, destination_path, destination_no_path, destination_connect};

use events::Node;
use rows::{Effect, State};
use signal::{Answer, Soft};

// 6.3.6.1: symmetric soft alone is started from this side.
pub fn trigger_row(soft: Soft, state: State) -> Effect
    ensures { result ≡ destination_trigger soft state }
{
    match soft {
        Soft::NoSoft => Effect::refused(Answer::NoMeaning, state),
        Soft::Asymmetric => Effect::refused(Answer::NoMeaning, state),
        Soft::Symmetric => shared_rows::trigger_in(Node::Destination, state),
    }
}

// 6.3.6.1 case 1
pub fn path_row(next: Option<u16>, state: State) -> Effect
    ensures { result ≡ destination_path next state }
{
    match state {
        State::Null => Effect::refused(Answer::NoMeaning, state),
        State::Idle(_) => Effect::refused(Answer::NoMeaning, state),
        State::HardWaiting => Effect::refused(Answer::NoMeaning, state),
        State::HardUnderway(_) => Effect::refused(Answer::NoMeaning, state),
        State::SoftTriggered(i) => shared_rows::soft_path(Node::Destination, next, i),
        State::SoftProceeding(_, _) => Effect::refused(Answer::NoMeaning, state),
        State::SoftInitiated(_, _) => Effect::refused(Answer::NoMeaning, state),
        State::Awaiting(_, _) => Effect::refused(Answer::NoMeaning, state),
    }
}

// 6.3.6.1 case 1, where no alternate path is found
pub fn no_path_row(state: State) -> Effect
    ensures { result ≡ destination_no_path state }
{
    match state {
        State::Null => Effect::refused(Answer::NoMeaning, state),
        State::Idle(_) => Effect::refused(Answer::NoMeaning, state),
        State::HardWaiting => Effect::refused(Answer::NoMeaning, state),
        State::HardUnderway(_) => Effect::refused(Answer::NoMeaning, state),
        State::SoftTriggered(i) => Effect::moved(State::Idle(i)),
        State::SoftProceeding(_, _) => Effect::refused(Answer::NoMeaning, state),
        State::SoftInitiated(_, _) => Effect::refused(Answer::NoMeaning, state),
        State::Awaiting(_, _) => Effect::refused(Answer::NoMeaning, state),
    }
}

// 6.3.7.1
pub fn connect_row(connection: u16, agreed: bool, state: State) -> Effect
    ensures { result ≡ destination_connect connection agreed state }
{
    match state {
        State::Null => Effect::refused(Answer::NoMeaning, state),
        State::Idle(_) => Effect::refused(Answer::NoMeaning, state),
        State::HardWaiting => Effect::refused(Answer::NoMeaning, state),
        State::HardUnderway(_) => Effect::refused(Answer::NoMeaning, state),
        State::SoftTriggered(_) => Effect::refused(Answer::NoMeaning, state),
        State::SoftProceeding(i, r) => {
            shared_rows::soft_connect(Node::Destination, connection, agreed, i, r)
        }
        State::SoftInitiated(_, _) => Effect::refused(Answer::NoMeaning, state),
        State::Awaiting(_, _) => Effect::refused(Answer::NoMeaning, state),
    }
}
