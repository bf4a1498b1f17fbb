// The rerouting connection is ready at this end, 6.3.5.8 and 6.3.5.9.
ghost use Rattle.std.specs.Prelude.{◌≡◌};
ghost use Rattle.destination_setups.specs.Effects.{destination_ready};

use rows::{Effect, State};
use signal::{Answer, Kind, Signal};

pub fn ready_row(state: State) -> Effect
    ensures { result ≡ destination_ready state }
{
    match state {
        State::Null => Effect::refused(Answer::NoMeaning, state),
        State::Idle(_) => Effect::refused(Answer::NoMeaning, state),
        State::HardWaiting => Effect::refused(Answer::NoMeaning, state),
        State::HardUnderway(r) => {
            let switch = Signal::naming(Kind::Switch, r);
            let connect = Signal::naming(Kind::ConnectRequest, r);
            Effect::done(State::Idle(r), Signal::TIMER_STOP, switch, connect)
        }
        State::SoftTriggered(_) => Effect::refused(Answer::NoMeaning, state),
        State::SoftProceeding(_, _) => Effect::refused(Answer::NoMeaning, state),
        State::SoftInitiated(i, r) => {
            let connect = Signal::naming(Kind::ConnectRequest, r);
            Effect::done(State::Awaiting(i, r), connect, Signal::NONE, Signal::NONE)
        }
        State::Awaiting(_, _) => Effect::refused(Answer::NoMeaning, state),
    }
}
