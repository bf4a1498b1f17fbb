// A reroute setup from the neighbour, 6.2.7: the checks in their order, then the rows by state. What a row takes it takes one by
// one, as the page of rows does.
ghost use Rattle.std.specs.Prelude.{◌≡◌, true, None};
ghost use Rattle.signal.specs.Numbers.{is_late};
ghost use Rattle.signal.specs.declared.Kind.TheVariants.{ReroutingRelease};
ghost use Rattle.signal.specs.declared.SentCause.TheVariants.{Absent};
ghost use Rattle.signal.specs.Signals.{none, release_of};
ghost use Rattle.rows.specs.declared.State.TheVariants.{SoftInitiated};
ghost use Rattle.rows.specs.Cases.{asking_of};
ghost use Rattle.rows.specs.Effects.{is_next, given_in};
ghost use Rattle.rows.specs.States.{phase_of};
ghost use Rattle.source_rows.specs.Rows.{at_source, setup_in, setup_asked};
ghost use Rattle.source_rows.specs.Shared.{in_call};
ghost use Rattle.source_setups.specs.Effects.{in_progress_stored, setup_effect};

use rows::{Effect, State};
use shared_rows::released;
use signal::{Answer, Kind, ReroutingCause, SentCause, Signal, Soft, Switchover};

// Row 4: a new rerouting connection; and row 5: the older one is released on its own number.
fn accepted(incumbent: u16, rerouting: u16, sent: Signal) -> Effect
    ensures { result ≡ given_in (SoftInitiated incumbent rerouting) true sent none none }
{
    Effect::given(
        State::SoftInitiated(incumbent, rerouting),
        true,
        sent,
        Signal::NONE,
        Signal::NONE,
    )
}

fn older_released(older: u16) -> Signal
    ensures { result ≡ release_of ReroutingRelease older Absent }
{
    released(Kind::ReroutingRelease, older, SentCause::Absent)
}

// Row 3: a reroute is in progress. The setup is rejected, and its number stored all the same.
fn in_progress(state: State) -> Effect
    ensures { result ≡ in_progress_stored state }
{
    Effect {
        stores: true,
        ..Effect::rejected(ReroutingCause::IN_PROGRESS, state)
    }
}

fn setup_in(next: Option<u16>, state: State) -> Effect
    ensures { result ≡ at_source state next None (setup_in (phase_of state) (is_next next)) }
{
    match state {
        State::Null => Effect::refused(Answer::NoMeaning, state),
        State::Idle(i) => {
            match next {
                Some(n) => accepted(i, n, Signal::NONE),
                None => Effect::refused(Answer::NumbersSpent, state),
            }
        }
        State::HardWaiting => in_progress(state),
        State::HardUnderway(_) => in_progress(state),
        State::SoftTriggered(_) => in_progress(state),
        State::SoftProceeding(_, _) => in_progress(state),
        State::SoftInitiated(i, r) => {
            match next {
                Some(n) => accepted(i, n, older_released(r)),
                None => Effect::refused(Answer::NumbersSpent, state),
            }
        }
        State::Awaiting(i, r) => {
            match next {
                Some(n) => accepted(i, n, older_released(r)),
                None => Effect::refused(Answer::NumbersSpent, state),
            }
        }
    }
}

// Rows 1 and 2 come before the state is looked at.
fn setup_checked(
    code: Switchover,
    number: u32,
    remote: u32,
    next: Option<u16>,
    state: State,
) -> Effect
    ensures { result ≡ at_source state next None (setup_asked (asking_of code) (is_late number remote) (phase_of state) (is_next next)) }
{
    if code.clearing() {
        if signal::late(number, remote) {
            return Effect::rejected(ReroutingCause::OLD_NUMBER, state);
        }
        return setup_in(next, state);
    }
    Effect::rejected(ReroutingCause::UNSUPPORTED, state)
}

// In Null no event has a meaning.
fn setup_met(code: Switchover, number: u32, remote: u32, next: Option<u16>, state: State) -> Effect
    ensures { result ≡ at_source state next None
        (in_call (phase_of state) (setup_asked (asking_of code) (is_late number remote) (phase_of state) (is_next next))) }
{
    match state {
        State::Null => Effect::refused(Answer::NoMeaning, state),
        State::Idle(_) => setup_checked(code, number, remote, next, state),
        State::HardWaiting => setup_checked(code, number, remote, next, state),
        State::HardUnderway(_) => setup_checked(code, number, remote, next, state),
        State::SoftTriggered(_) => setup_checked(code, number, remote, next, state),
        State::SoftProceeding(_, _) => setup_checked(code, number, remote, next, state),
        State::SoftInitiated(_, _) => setup_checked(code, number, remote, next, state),
        State::Awaiting(_, _) => setup_checked(code, number, remote, next, state),
    }
}

pub fn setup_row(
    soft: Soft,
    code: Switchover,
    number: u32,
    remote: u32,
    next: Option<u16>,
    state: State,
) -> Effect
    ensures { result ≡ setup_effect soft code number remote next state }
{
    match soft {
        Soft::NoSoft => Effect::refused(Answer::NoMeaning, state),
        Soft::Asymmetric => Effect::refused(Answer::NoMeaning, state),
        Soft::Symmetric => setup_met(code, number, remote, next, state),
    }
}
