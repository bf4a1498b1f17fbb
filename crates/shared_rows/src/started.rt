// A soft reroute that this end starts: trigger, path found, connect, and the rerouting connection released (6.2.5.3, 6.2.6.2, 6.2.4.6;
// 6.3.6.1, 6.3.7.1, 6.3.4.8).
ghost use Rattle.std.specs.Prelude.{◌≡◌};
ghost use Rattle.shared_rows.specs.Effects.{trigger_in_effect, soft_path_effect, soft_connect_effect, soft_crankback_effect};

use crate::releases::{released, turned_away};
use events::Node;
use rows::{Effect, State};
use signal::{Answer, Crankback, Kind, ReroutingCause, SentCause, Signal};

pub fn trigger_in(node: Node, state: State) -> Effect
    ensures { result ≡ trigger_in_effect node state }
{
    match state {
        State::Null => Effect::refused(Answer::NoMeaning, state),
        State::Idle(incumbent) => Effect::moved(State::SoftTriggered(incumbent)),
        State::HardWaiting => Effect::moved(state),
        State::HardUnderway(_) => Effect::moved(state),
        State::SoftTriggered(_) => Effect::moved(state),
        State::SoftProceeding(_, _) => Effect::moved(state),
        State::SoftInitiated(_, _) => Effect::moved(state),
        State::Awaiting(_, _) => Effect::moved(state),
    }
}

pub fn soft_path(node: Node, next: Option<u16>, incumbent: u16) -> Effect
    ensures { result ≡ soft_path_effect node next incumbent }
{
    match next {
        Some(number) => {
            let setup = Signal::naming(Kind::SetupRequest, number);
            let state = State::SoftProceeding(incumbent, number);
            Effect::given(state, false, setup, Signal::NONE, Signal::NONE)
        }
        None => Effect::refused(Answer::NumbersSpent, State::SoftTriggered(incumbent)),
    }
}

pub fn soft_connect(
    node: Node,
    connection: u16,
    agreed: bool,
    incumbent: u16,
    rerouting: u16,
) -> Effect
    ensures { result ≡ soft_connect_effect node connection agreed incumbent rerouting }
{
    if connection == incumbent {
        return Effect::refused(Answer::NotHeld, State::SoftProceeding(incumbent, rerouting));
    }
    if connection == rerouting {
        if agreed {
            let switch = Signal::naming(Kind::Switch, rerouting);
            let cause = SentCause::Numbered(ReroutingCause::COMPLETE);
            let other = released(Kind::IncumbentRelease, incumbent, cause);
            return Effect::done(State::Idle(rerouting), switch, other, Signal::NONE);
        }
        let away = turned_away(Kind::ReroutingRelease, rerouting);
        return Effect::done(State::Idle(incumbent), away, Signal::NONE, Signal::NONE);
    }
    Effect::refused(Answer::NotHeld, State::SoftProceeding(incumbent, rerouting))
}

// The rerouting connection is released.
pub fn soft_crankback(
    node: Node,
    cause: Option<ReroutingCause>,
    crankback: Crankback,
    next: Option<u16>,
    incumbent: u16,
    rerouting: u16,
) -> Effect
    ensures { result ≡ soft_crankback_effect node cause crankback next incumbent rerouting }
{
    match crankback {
        Crankback::NoCrankback => Effect::moved(State::Idle(incumbent)),
        Crankback::AlternateFound => {
            match next {
                Some(number) => {
                    let setup = Signal::naming(Kind::SetupRequest, number);
                    let state = State::SoftProceeding(incumbent, number);
                    Effect::given(state, false, setup, Signal::NONE, Signal::NONE)
                }
                None => Effect::moved(State::Idle(incumbent)),
            }
        }
        Crankback::NoAlternate => Effect::moved(State::Idle(incumbent)),
    }
}
