// The answers of path choice, 6.2.5.1 and 6.2.5.3.
ghost use Rattle.std.specs.Prelude.{◌≡◌};
ghost use Rattle.rows.specs.declared.State.TheVariants.{HardWaiting};
ghost use Rattle.source_requests.specs.Effects.{path_effect, no_path_effect};

use events::Node;
use rows::{Effect, State};
use signal::{Answer, Kind, Signal};

// 6.2.5.1
fn hard_path(next: Option<u16>) -> Effect
    ensures { result ≡ path_effect next HardWaiting }
{
    match next {
        Some(number) => {
            let setup = Signal::naming(Kind::SetupRequest, number);
            let state = State::HardUnderway(number);
            Effect::given(state, false, setup, Signal::NONE, Signal::NONE)
        }
        None => Effect::refused(Answer::NumbersSpent, State::HardWaiting),
    }
}

pub fn path_row(next: Option<u16>, state: State) -> Effect
    ensures { result ≡ path_effect next state }
{
    match state {
        State::Null => Effect::refused(Answer::NoMeaning, state),
        State::Idle(_) => Effect::refused(Answer::NoMeaning, state),
        State::HardWaiting => hard_path(next),
        State::HardUnderway(_) => Effect::refused(Answer::NoMeaning, state),
        State::SoftTriggered(incumbent) => shared_rows::soft_path(Node::Source, next, incumbent),
        State::SoftProceeding(_, _) => Effect::refused(Answer::NoMeaning, state),
        State::SoftInitiated(_, _) => Effect::refused(Answer::NoMeaning, state),
        State::Awaiting(_, _) => Effect::refused(Answer::NoMeaning, state),
    }
}

pub fn no_path_row(state: State) -> Effect
    ensures { result ≡ no_path_effect state }
{
    match state {
        State::Null => Effect::refused(Answer::NoMeaning, state),
        State::Idle(_) => Effect::refused(Answer::NoMeaning, state),
        State::HardWaiting => Effect::moved(state),
        State::HardUnderway(_) => Effect::refused(Answer::NoMeaning, state),
        State::SoftTriggered(incumbent) => Effect::moved(State::Idle(incumbent)),
        State::SoftProceeding(_, _) => Effect::refused(Answer::NoMeaning, state),
        State::SoftInitiated(_, _) => Effect::refused(Answer::NoMeaning, state),
        State::Awaiting(_, _) => Effect::refused(Answer::NoMeaning, state),
    }
}
