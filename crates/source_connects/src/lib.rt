// The rows of a connect for the rerouting connection (6.2.6), as direct code: each function returns the row of the page, carried out.
#![tactic(auto)]

ghost use Rattle.std.specs.Prelude.{◌≡◌};
ghost use Rattle.rows.specs.declared.State.TheVariants.{HardUnderway};
ghost use Rattle.source_connects.specs.Effects.{connect_effect};

use events::Node;
use rows::{Effect, State};
use signal::{Answer, Kind, Signal};

// 6.2.6.1
fn hard_connect(connection: u16, agreed: bool, rerouting: u16) -> Effect
    ensures { result ≡ connect_effect connection agreed (HardUnderway rerouting) }
{
    if connection == rerouting {
        let switch = Signal::naming(Kind::Switch, rerouting);
        return Effect::done(
            State::Idle(rerouting),
            Signal::TIMER_STOP,
            switch,
            Signal::NONE,
        );
    }
    Effect::refused(Answer::NotHeld, State::HardUnderway(rerouting))
}

pub fn connect_row(connection: u16, agreed: bool, state: State) -> Effect
    ensures { result ≡ connect_effect connection agreed state }
{
    match state {
        State::Null => Effect::refused(Answer::NoMeaning, state),
        State::Idle(_) => Effect::refused(Answer::NoMeaning, state),
        State::HardWaiting => Effect::refused(Answer::NoMeaning, state),
        State::HardUnderway(rerouting) => hard_connect(connection, agreed, rerouting),
        State::SoftTriggered(_) => Effect::refused(Answer::NoMeaning, state),
        State::SoftProceeding(incumbent, rerouting) => {
            shared_rows::soft_connect(Node::Source, connection, agreed, incumbent, rerouting)
        }
        State::SoftInitiated(_, _) => Effect::refused(Answer::NoMeaning, state),
        State::Awaiting(_, _) => Effect::refused(Answer::NoMeaning, state),
    }
}
