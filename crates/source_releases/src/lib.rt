// The rows of a release from the called side, for a connection (6.2.4), as direct code: each function returns the row of the page, carried
// out. What a row takes it takes one by one, as the page of rows does.
#![tactic(auto)]

ghost use Rattle.std.specs.Prelude.{◌≡◌};
ghost use Rattle.rows.specs.declared.State.TheVariants.{HardUnderway, SoftProceeding, SoftInitiated, Awaiting};
ghost use Rattle.rows.specs.Cases.{class_of};
ghost use Rattle.rows.specs.Effects.{is_next};
ghost use Rattle.source_rows.specs.Rows.{at_source, hard_again, hard_alternate, hard_lost, soft_lost};
ghost use Rattle.source_rows.specs.Rows.{initiated_lost, awaiting_lost, awaiting_dropped};
ghost use Rattle.source_releases.specs.Effects.{called_effect, idle_called, initiated_called, awaiting_called};
ghost use Rattle.source_releases.specs.Effects.{told_both};

use events::Node;
use rows::{Class, Effect, State};
use shared_rows::{released, turned_away};
use signal::{Answer, Crankback, Kind, ReroutingCause, SentCause, Signal};

// The calling side and the rerouting connection are released with one cause.
fn told_both(rerouting: u16, cause: SentCause) -> Effect
    ensures { result ≡ told_both rerouting cause }
{
    let other = released(Kind::ReroutingRelease, rerouting, cause);
    Effect::told(Node::Source, cause, other)
}

// 6.2.4.4 case 6, the node's choice: it tries again.
fn hard_again(cause: Option<ReroutingCause>, next: Option<u16>, rerouting: u16) -> Effect
    ensures { result ≡ at_source (HardUnderway rerouting) next cause (hard_again (is_next next)) }
{
    match next {
        Some(_) => Effect::moved(State::HardWaiting),
        None => Effect::told_stopping(
            Node::Source,
            SentCause::Numbered(ReroutingCause::NOT_RECOVERED),
        ),
    }
}

// Case 4: a retry over an alternate path.
fn hard_alternate(cause: Option<ReroutingCause>, next: Option<u16>, rerouting: u16) -> Effect
    ensures { result ≡ at_source (HardUnderway rerouting) next cause (hard_alternate (is_next next)) }
{
    match next {
        Some(number) => {
            let setup = Signal::naming(Kind::SetupRequest, number);
            let state = State::HardUnderway(number);
            Effect::given(state, false, setup, Signal::NONE, Signal::NONE)
        }
        None => Effect::told_stopping(
            Node::Source,
            SentCause::Numbered(ReroutingCause::NOT_RECOVERED),
        ),
    }
}

// Cases 3 to 6: a cause comes before crankback.
fn hard_lost(
    cause: Option<ReroutingCause>,
    crankback: Crankback,
    next: Option<u16>,
    rerouting: u16,
) -> Effect
    ensures { result ≡ at_source (HardUnderway rerouting) next cause (hard_lost (class_of cause) crankback (is_next next)) }
{
    let failed = SentCause::Numbered(ReroutingCause::NOT_RECOVERED);
    match rows::class_of(cause) {
        Class::CameNone => {
            match crankback {
                Crankback::NoCrankback => hard_again(cause, next, rerouting),
                Crankback::AlternateFound => hard_alternate(cause, next, rerouting),
                Crankback::NoAlternate => Effect::told_stopping(Node::Source, failed),
            }
        }
        Class::CameOutside => Effect::told_stopping(Node::Source, SentCause::as_received(cause)),
        Class::CameComplete => Effect::told_stopping(Node::Source, failed),
        Class::CameOther => Effect::told_stopping(Node::Source, failed),
    }
}

// D17
fn soft_lost(
    hard: bool,
    cause: Option<ReroutingCause>,
    incumbent: u16,
    rerouting: u16,
    next: Option<u16>,
) -> Effect
    ensures { result ≡ at_source (SoftProceeding incumbent rerouting) next cause (soft_lost hard (class_of cause)) }
{
    if hard {
        match rows::class_of(cause) {
            Class::CameNone => {
                Effect::done(
                    State::HardUnderway(rerouting),
                    Signal::TIMER_START,
                    Signal::NONE,
                    Signal::NONE,
                )
            }
            Class::CameOutside => told_both(
                rerouting,
                SentCause::Numbered(ReroutingCause::OUTSIDE),
            ),
            Class::CameComplete => told_both(
                rerouting,
                SentCause::Numbered(ReroutingCause::NOT_RECOVERED),
            ),
            Class::CameOther => told_both(
                rerouting,
                SentCause::Numbered(ReroutingCause::NOT_RECOVERED),
            ),
        }
    } else {
        told_both(rerouting, SentCause::Absent)
    }
}

// D18
fn initiated_lost(
    hard: bool,
    cause: Option<ReroutingCause>,
    incumbent: u16,
    rerouting: u16,
    next: Option<u16>,
) -> Effect
    ensures { result ≡ at_source (SoftInitiated incumbent rerouting) next cause (initiated_lost hard (class_of cause)) }
{
    if hard {
        match rows::class_of(cause) {
            Class::CameNone => {
                let away = turned_away(Kind::ReroutingRelease, rerouting);
                Effect::done(State::HardWaiting, Signal::TIMER_START, away, Signal::NONE)
            }
            Class::CameOutside => told_both(
                rerouting,
                SentCause::Numbered(ReroutingCause::OUTSIDE),
            ),
            Class::CameComplete => told_both(
                rerouting,
                SentCause::Numbered(ReroutingCause::NOT_RECOVERED),
            ),
            Class::CameOther => told_both(
                rerouting,
                SentCause::Numbered(ReroutingCause::NOT_RECOVERED),
            ),
        }
    } else {
        told_both(rerouting, SentCause::Absent)
    }
}

// D19, the incumbent
fn awaiting_lost(
    cause: Option<ReroutingCause>,
    incumbent: u16,
    rerouting: u16,
    next: Option<u16>,
) -> Effect
    ensures { result ≡ at_source (Awaiting incumbent rerouting) next cause (awaiting_lost (class_of cause)) }
{
    let switch = Signal::naming(Kind::Switch, rerouting);
    match rows::class_of(cause) {
        Class::CameNone => Effect::done(State::Idle(rerouting), switch, Signal::NONE, Signal::NONE),
        Class::CameOutside => told_both(rerouting, SentCause::Numbered(ReroutingCause::OUTSIDE)),
        Class::CameComplete => Effect::done(
            State::Idle(rerouting),
            switch,
            Signal::NONE,
            Signal::NONE,
        ),
        Class::CameOther => told_both(
            rerouting,
            SentCause::Numbered(ReroutingCause::NOT_RECOVERED),
        ),
    }
}

// D19, the rerouting connection
fn awaiting_dropped(
    cause: Option<ReroutingCause>,
    incumbent: u16,
    rerouting: u16,
    next: Option<u16>,
) -> Effect
    ensures { result ≡ at_source (Awaiting incumbent rerouting) next cause (awaiting_dropped (class_of cause)) }
{
    let outside = SentCause::Numbered(ReroutingCause::OUTSIDE);
    let failed = SentCause::Numbered(ReroutingCause::NOT_RECOVERED);
    let other = released(Kind::IncumbentRelease, incumbent, SentCause::Absent);
    match rows::class_of(cause) {
        Class::CameNone => Effect::moved(State::Idle(incumbent)),
        Class::CameOutside => Effect::told(Node::Source, outside, other),
        Class::CameComplete => Effect::told(Node::Source, failed, other),
        Class::CameOther => Effect::told(Node::Source, failed, other),
    }
}

// The rows by state: the connection that is named is one that the state holds, or the release is refused (107).
fn idle_called(
    hard: bool,
    connection: u16,
    cause: Option<ReroutingCause>,
    next: Option<u16>,
    i: u16,
) -> Effect
    ensures { result ≡ idle_called hard connection cause next i }
{
    if connection == i {
        return shared_rows::idle_lost(Node::Source, hard, cause, i, next);
    }
    Effect::refused(Answer::NotHeld, State::Idle(i))
}

fn proceeding_called(
    hard: bool,
    connection: u16,
    cause: Option<ReroutingCause>,
    crankback: Crankback,
    next: Option<u16>,
    i: u16,
    r: u16,
) -> Effect
    ensures { result ≡ called_effect hard connection cause crankback next (SoftProceeding i r) }
{
    if connection == i {
        return soft_lost(hard, cause, i, r, next);
    }
    if connection == r {
        return shared_rows::soft_crankback(Node::Source, cause, crankback, next, i, r);
    }
    Effect::refused(Answer::NotHeld, State::SoftProceeding(i, r))
}

fn initiated_called(
    hard: bool,
    connection: u16,
    cause: Option<ReroutingCause>,
    next: Option<u16>,
    i: u16,
    r: u16,
) -> Effect
    ensures { result ≡ initiated_called hard connection cause next i r }
{
    if connection == i {
        return initiated_lost(hard, cause, i, r, next);
    }
    if connection == r {
        return Effect::moved(State::Idle(i));
    }
    Effect::refused(Answer::NotHeld, State::SoftInitiated(i, r))
}

fn awaiting_called(
    connection: u16,
    cause: Option<ReroutingCause>,
    next: Option<u16>,
    i: u16,
    r: u16,
) -> Effect
    ensures { result ≡ awaiting_called connection cause next i r }
{
    if connection == i {
        return awaiting_lost(cause, i, r, next);
    }
    if connection == r {
        return awaiting_dropped(cause, i, r, next);
    }
    Effect::refused(Answer::NotHeld, State::Awaiting(i, r))
}

pub fn called_row(
    hard: bool,
    connection: u16,
    cause: Option<ReroutingCause>,
    crankback: Crankback,
    next: Option<u16>,
    state: State,
) -> Effect
    ensures { result ≡ called_effect hard connection cause crankback next state }
{
    match state {
        State::Null => Effect::refused(Answer::NoMeaning, state),
        State::Idle(i) => idle_called(hard, connection, cause, next, i),
        State::HardWaiting => Effect::refused(Answer::NotHeld, state),
        State::HardUnderway(r) => {
            if connection == r {
                return hard_lost(cause, crankback, next, r);
            }
            Effect::refused(Answer::NotHeld, state)
        }
        State::SoftTriggered(i) => {
            if connection == i {
                return Effect::told(Node::Source, SentCause::Absent, Signal::NONE);
            }
            Effect::refused(Answer::NotHeld, state)
        }
        State::SoftProceeding(i, r) => {
            proceeding_called(hard, connection, cause, crankback, next, i, r)
        }
        State::SoftInitiated(i, r) => initiated_called(hard, connection, cause, next, i, r),
        State::Awaiting(i, r) => awaiting_called(connection, cause, next, i, r),
    }
}
