// What ends a call, or its incumbent: the party's release, timer expiry, and in Idle the release of the incumbent across the domain (6.2.4,
// 6.2.5.2; 6.3.4, 6.3.5.10).
ghost use Rattle.std.specs.Prelude.{◌≡◌};
ghost use Rattle.signal.specs.Signals.{release_of};
ghost use Rattle.shared_rows.specs.Effects.{incumbent_ended, both_ended_with, party_ended, expiry_effect, idle_lost_effect};

use crate::releases::released;
use events::Node;
use rows::{Class, Effect, State};
use signal::{Answer, Kind, ReroutingCause, SentCause, Signal};

fn incumbent_ended(incumbent: u16, cause: SentCause) -> Effect
    ensures { result ≡ incumbent_ended incumbent cause }
{
    let sent = released(Kind::IncumbentRelease, incumbent, cause);
    Effect::done(State::Null, sent, Signal::NONE, Signal::NONE)
}

fn both_ended(incumbent: u16, rerouting: u16, cause: SentCause) -> Effect
    ensures { result ≡ both_ended_with incumbent rerouting cause }
{
    let first = released(Kind::IncumbentRelease, incumbent, cause);
    let second = released(Kind::ReroutingRelease, rerouting, cause);
    Effect::done(State::Null, first, second, Signal::NONE)
}

// A release from the side of the node's own party. `triggered` is the cause that goes on in Soft Triggered.
pub fn party_row(
    hard: bool,
    cause: Option<ReroutingCause>,
    triggered: SentCause,
    state: State,
) -> Effect
    ensures { result ≡ party_ended hard cause triggered state }
{
    match state {
        State::Null => Effect::refused(Answer::NoMeaning, state),
        State::Idle(i) => incumbent_ended(i, SentCause::passed(cause, hard)),
        State::HardWaiting => Effect::done(
            State::Null,
            Signal::TIMER_STOP,
            Signal::NONE,
            Signal::NONE,
        ),
        State::HardUnderway(r) => {
            let sent = released(Kind::ReroutingRelease, r, SentCause::passed(cause, true));
            Effect::done(State::Null, Signal::TIMER_STOP, sent, Signal::NONE)
        }
        State::SoftTriggered(i) => incumbent_ended(i, triggered),
        State::SoftProceeding(i, r) => both_ended(i, r, SentCause::passed(cause, hard)),
        State::SoftInitiated(i, r) => both_ended(i, r, SentCause::passed(cause, hard)),
        State::Awaiting(i, r) => both_ended(i, r, SentCause::passed(cause, hard)),
    }
}

// The hard rerouting timer expires.
pub fn expiry_row(node: Node, state: State) -> Effect
    ensures { result ≡ expiry_effect node state }
{
    let failed = SentCause::Numbered(ReroutingCause::NOT_RECOVERED);
    match state {
        State::Null => Effect::refused(Answer::NoMeaning, state),
        State::Idle(_) => Effect::refused(Answer::NoMeaning, state),
        State::HardWaiting => Effect::told(node, failed, Signal::NONE),
        State::HardUnderway(r) => {
            Effect::told(node, failed, released(Kind::ReroutingRelease, r, failed))
        }
        State::SoftTriggered(_) => Effect::refused(Answer::NoMeaning, state),
        State::SoftProceeding(_, _) => Effect::refused(Answer::NoMeaning, state),
        State::SoftInitiated(_, _) => Effect::refused(Answer::NoMeaning, state),
        State::Awaiting(_, _) => Effect::refused(Answer::NoMeaning, state),
    }
}

// The incumbent is released across the domain, in Idle.
pub fn idle_lost(
    node: Node,
    hard: bool,
    cause: Option<ReroutingCause>,
    incumbent: u16,
    next: Option<u16>,
) -> Effect
    ensures { result ≡ idle_lost_effect node hard cause incumbent next }
{
    let failed = SentCause::Numbered(ReroutingCause::NOT_RECOVERED);
    match rows::class_of(cause) {
        Class::CameNone => {
            if hard {
                return Effect::done(
                    State::HardWaiting,
                    Signal::TIMER_START,
                    Signal::NONE,
                    Signal::NONE,
                );
            }
            Effect::told(node, SentCause::Absent, Signal::NONE)
        }
        Class::CameOutside => Effect::told(node, SentCause::as_received(cause), Signal::NONE),
        Class::CameComplete => Effect::told(node, failed, Signal::NONE),
        Class::CameOther => Effect::told(node, failed, Signal::NONE),
    }
}
