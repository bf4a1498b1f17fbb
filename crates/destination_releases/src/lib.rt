// The rows of a release from the calling side, for a connection (6.3.4), as direct code: each function returns the row of the page, carried
// out. What a row takes it takes one by one, as the page of rows does.
#![tactic(auto)]

ghost use Rattle.std.specs.Prelude.{◌≡◌};
ghost use Rattle.signal.specs.declared.SentCause.TheVariants.{Absent};
ghost use Rattle.signal.specs.Signals.{release_of};
ghost use Rattle.events.specs.declared.Node.TheVariants.{Destination};
ghost use Rattle.rows.specs.declared.State.TheVariants.{HardUnderway, SoftProceeding, SoftInitiated, Awaiting};
ghost use Rattle.rows.specs.Cases.{class_of};
ghost use Rattle.rows.specs.Effects.{ended_telling, said};
ghost use Rattle.destination_rows.specs.Rows.{at_destination, forwarding, hard_dropped, proceeding_lost, setup_lost};
ghost use Rattle.destination_rows.specs.Rows.{switchover_lost, switchover_dropped};
ghost use Rattle.destination_releases.specs.Effects.{destination_calling, setup_calling, switchover_calling};

use events::Node;
use rows::{Class, Effect, State};
use shared_rows::{released, turned_away};
use signal::{Answer, Crankback, Kind, ReroutingCause, SentCause, Signal};

// What goes on towards the called side: #1 as received, any other cause as #2, none as none.
fn forwarded(cause: Option<ReroutingCause>) -> SentCause
    ensures { result ≡ said cause (forwarding (class_of cause)) }
{
    match rows::class_of(cause) {
        Class::CameNone => SentCause::Absent,
        Class::CameOutside => SentCause::as_received(cause),
        Class::CameComplete => SentCause::Numbered(ReroutingCause::NOT_RECOVERED),
        Class::CameOther => SentCause::Numbered(ReroutingCause::NOT_RECOVERED),
    }
}

// The called side is told, and another connection of the call is released without a Rerouting cause.
fn told_with(cause: Option<ReroutingCause>, kind: Kind, connection: u16) -> Effect
    ensures { result ≡ ended_telling Destination (said cause (forwarding (class_of cause))) (release_of kind connection Absent) }
{
    let other = released(kind, connection, SentCause::Absent);
    Effect::told(Node::Destination, forwarded(cause), other)
}

// 6.3.4.8 cases 3 and 4
fn proceeding_lost(
    hard: bool,
    cause: Option<ReroutingCause>,
    i: u16,
    r: u16,
    next: Option<u16>,
) -> Effect
    ensures { result ≡ at_destination (SoftProceeding i r) next cause (proceeding_lost hard (class_of cause)) }
{
    match rows::class_of(cause) {
        Class::CameNone => {
            if hard {
                let away = turned_away(Kind::ReroutingRelease, r);
                return Effect::done(State::HardWaiting, Signal::TIMER_START, away, Signal::NONE);
            }
            told_with(cause, Kind::ReroutingRelease, r)
        }
        Class::CameOutside => told_with(cause, Kind::ReroutingRelease, r),
        Class::CameComplete => told_with(cause, Kind::ReroutingRelease, r),
        Class::CameOther => told_with(cause, Kind::ReroutingRelease, r),
    }
}

// 6.3.4.5 cases 3 and 4
fn setup_lost(
    hard: bool,
    cause: Option<ReroutingCause>,
    i: u16,
    r: u16,
    next: Option<u16>,
) -> Effect
    ensures { result ≡ at_destination (SoftInitiated i r) next cause (setup_lost hard (class_of cause)) }
{
    match rows::class_of(cause) {
        Class::CameNone => {
            if hard {
                return Effect::done(
                    State::HardUnderway(r),
                    Signal::TIMER_START,
                    Signal::NONE,
                    Signal::NONE,
                );
            }
            told_with(cause, Kind::ReroutingRelease, r)
        }
        Class::CameOutside => told_with(cause, Kind::ReroutingRelease, r),
        Class::CameComplete => told_with(cause, Kind::ReroutingRelease, r),
        Class::CameOther => told_with(cause, Kind::ReroutingRelease, r),
    }
}

// 6.3.4.6 cases 3 and 4
fn switchover_lost(cause: Option<ReroutingCause>, i: u16, r: u16, next: Option<u16>) -> Effect
    ensures { result ≡ at_destination (Awaiting i r) next cause (switchover_lost (class_of cause)) }
{
    let switch = Signal::naming(Kind::Switch, r);
    match rows::class_of(cause) {
        Class::CameNone => Effect::done(State::Idle(r), switch, Signal::NONE, Signal::NONE),
        Class::CameOutside => told_with(cause, Kind::ReroutingRelease, r),
        Class::CameComplete => Effect::done(State::Idle(r), switch, Signal::NONE, Signal::NONE),
        Class::CameOther => told_with(cause, Kind::ReroutingRelease, r),
    }
}

// 6.3.4.6 cases 5 and 6
fn switchover_dropped(cause: Option<ReroutingCause>, i: u16, r: u16, next: Option<u16>) -> Effect
    ensures { result ≡ at_destination (Awaiting i r) next cause (switchover_dropped (class_of cause)) }
{
    match rows::class_of(cause) {
        Class::CameNone => Effect::moved(State::Idle(i)),
        Class::CameOutside => told_with(cause, Kind::IncumbentRelease, i),
        Class::CameComplete => told_with(cause, Kind::IncumbentRelease, i),
        Class::CameOther => told_with(cause, Kind::IncumbentRelease, i),
    }
}

// 6.3.4.4 cases 3 and 4
fn hard_dropped(cause: Option<ReroutingCause>, r: u16, next: Option<u16>) -> Effect
    ensures { result ≡ at_destination (HardUnderway r) next cause (hard_dropped (class_of cause)) }
{
    match rows::class_of(cause) {
        Class::CameNone => Effect::moved(State::HardWaiting),
        Class::CameOutside => Effect::told_stopping(Node::Destination, forwarded(cause)),
        Class::CameComplete => Effect::told_stopping(Node::Destination, forwarded(cause)),
        Class::CameOther => Effect::told_stopping(Node::Destination, forwarded(cause)),
    }
}

// The rows by state: the connection that is named is one that the state holds, or the release is refused (107).
fn proceeding_calling(
    hard: bool,
    connection: u16,
    cause: Option<ReroutingCause>,
    crankback: Crankback,
    next: Option<u16>,
    i: u16,
    r: u16,
) -> Effect
    ensures { result ≡ destination_calling hard connection cause crankback next (SoftProceeding i r) }
{
    if connection == i {
        return proceeding_lost(hard, cause, i, r, next);
    }
    if connection == r {
        return shared_rows::soft_crankback(Node::Destination, cause, crankback, next, i, r);
    }
    Effect::refused(Answer::NotHeld, State::SoftProceeding(i, r))
}

fn setup_calling(
    hard: bool,
    connection: u16,
    cause: Option<ReroutingCause>,
    next: Option<u16>,
    i: u16,
    r: u16,
) -> Effect
    ensures { result ≡ setup_calling hard connection cause next i r }
{
    if connection == i {
        return setup_lost(hard, cause, i, r, next);
    }
    if connection == r {
        return Effect::moved(State::Idle(i));
    }
    Effect::refused(Answer::NotHeld, State::SoftInitiated(i, r))
}

fn switchover_calling(
    connection: u16,
    cause: Option<ReroutingCause>,
    next: Option<u16>,
    i: u16,
    r: u16,
) -> Effect
    ensures { result ≡ switchover_calling connection cause next i r }
{
    if connection == i {
        return switchover_lost(cause, i, r, next);
    }
    if connection == r {
        return switchover_dropped(cause, i, r, next);
    }
    Effect::refused(Answer::NotHeld, State::Awaiting(i, r))
}

pub fn calling_row(
    hard: bool,
    connection: u16,
    cause: Option<ReroutingCause>,
    crankback: Crankback,
    next: Option<u16>,
    state: State,
) -> Effect
    ensures { result ≡ destination_calling hard connection cause crankback next state }
{
    match state {
        State::Null => Effect::refused(Answer::NoMeaning, state),
        State::Idle(i) => {
            if connection == i {
                return shared_rows::idle_lost(Node::Destination, hard, cause, i, next);
            }
            Effect::refused(Answer::NotHeld, state)
        }
        State::HardWaiting => Effect::refused(Answer::NotHeld, state),
        State::HardUnderway(r) => {
            if connection == r {
                return hard_dropped(cause, r, next);
            }
            Effect::refused(Answer::NotHeld, state)
        }
        State::SoftTriggered(i) => {
            if connection == i {
                return Effect::told(Node::Destination, SentCause::Absent, Signal::NONE);
            }
            Effect::refused(Answer::NotHeld, state)
        }
        State::SoftProceeding(i, r) => {
            proceeding_calling(hard, connection, cause, crankback, next, i, r)
        }
        State::SoftInitiated(i, r) => setup_calling(hard, connection, cause, next, i, r),
        State::Awaiting(i, r) => switchover_calling(connection, cause, next, i, r),
    }
}
