// The rerouting connection is ready at this end, 6.2.7.8.
ghost use Rattle.std.specs.Prelude.{◌≡◌};
ghost use Rattle.source_setups.specs.Effects.{ready_effect};

use rows::{Effect, State};
use signal::{Answer, Kind, Signal};

pub fn ready_row(state: State) -> Effect
    ensures { result ≡ ready_effect state }
{
    match state {
        State::Null => Effect::refused(Answer::NoMeaning, state),
        State::Idle(_) => Effect::refused(Answer::NoMeaning, state),
        State::HardWaiting => Effect::refused(Answer::NoMeaning, state),
        State::HardUnderway(_) => Effect::refused(Answer::NoMeaning, state),
        State::SoftTriggered(_) => Effect::refused(Answer::NoMeaning, state),
        State::SoftProceeding(_, _) => Effect::refused(Answer::NoMeaning, state),
        State::SoftInitiated(incumbent, rerouting) => {
            let connect = Signal::naming(Kind::ConnectRequest, rerouting);
            Effect::done(
                State::Awaiting(incumbent, rerouting),
                connect,
                Signal::NONE,
                Signal::NONE,
            )
        }
        State::Awaiting(_, _) => Effect::refused(Answer::NoMeaning, state),
    }
}
