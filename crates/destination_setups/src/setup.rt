// A reroute setup from the far side, 6.3.5: the checks in their order, then the rows by state. What a row takes it takes one by
// one, as the page of rows does.
ghost use Rattle.std.specs.Prelude.{◌≡◌, true, not, ◌&&◌, None, Some};
ghost use Rattle.signal.specs.declared.CauseCode.TheVariants.{CallRejected};
ghost use Rattle.signal.specs.declared.Kind.TheVariants.{ReroutingRelease};
ghost use Rattle.signal.specs.declared.SentCause.TheVariants.{Absent};
ghost use Rattle.signal.specs.Signals.{none, release_with};
ghost use Rattle.rows.specs.Cases.{asking_of};
ghost use Rattle.rows.specs.Effects.{is_next, given_in};
ghost use Rattle.rows.specs.Situations.{asks_unrecognized};
ghost use Rattle.rows.specs.States.{phase_of, is_hard_phase};
ghost use Rattle.rows.specs.declared.State.TheVariants.{HardUnderway, SoftInitiated};
ghost use Rattle.destination_rows.specs.Rows.{at_destination, hard_setup_in, soft_setup_in};
ghost use Rattle.destination_setups.specs.Effects.{incumbent_left, both_left, setup_spent, setup_checked, setup_met, destination_setup};

use rows::{Effect, State};
use shared_rows::{released, turned_away};
use signal::{Answer, Kind, ReroutingCause, SentCause, Signal, Soft, Switchover};

// Hard Initiated on the new connection.
fn hard_given(n: u16, first: Signal, second: Signal, third: Signal) -> Effect
    ensures { result ≡ given_in (HardUnderway n) true first second third }
{
    Effect::given(State::HardUnderway(n), true, first, second, third)
}

// 6.3.5.1 case 1: no #21 here
fn incumbent_left(i: u16, n: u16) -> Effect
    ensures { result ≡ incumbent_left i n }
{
    let left = released(Kind::IncumbentRelease, i, SentCause::Absent);
    hard_given(n, Signal::TIMER_START, left, Signal::NONE)
}

// 6.3.5.4 case 1, 6.3.5.7 case 1
fn both_left(i: u16, r: u16, n: u16) -> Effect
    ensures { result ≡ both_left i r n }
{
    let incumbent = turned_away(Kind::IncumbentRelease, i);
    let rerouting = turned_away(Kind::ReroutingRelease, r);
    hard_given(n, Signal::TIMER_START, incumbent, rerouting)
}

// A hard setup that is accepted, by state.
fn hard_taken(n: u16, state: State) -> Effect
    ensures { result ≡ at_destination state (Some n) None (hard_setup_in (phase_of state) true) }
{
    match state {
        State::Null => Effect::refused(Answer::NoMeaning, state),
        State::Idle(i) => incumbent_left(i, n),
        State::HardWaiting => hard_given(n, Signal::NONE, Signal::NONE, Signal::NONE),
        State::HardUnderway(r) => {
            let older = turned_away(Kind::ReroutingRelease, r);
            hard_given(n, older, Signal::NONE, Signal::NONE)
        }
        State::SoftTriggered(i) => incumbent_left(i, n),
        State::SoftProceeding(i, r) => both_left(i, r, n),
        State::SoftInitiated(i, r) => both_left(i, r, n),
        State::Awaiting(i, r) => both_left(i, r, n),
    }
}

// Soft Initiated beside the incumbent; an older rerouting connection is released.
fn soft_given(i: u16, n: u16, sent: Signal) -> Effect
    ensures { result ≡ given_in (SoftInitiated i n) true sent none none }
{
    Effect::given(
        State::SoftInitiated(i, n),
        true,
        sent,
        Signal::NONE,
        Signal::NONE,
    )
}

fn older_left(i: u16, r: u16, n: u16) -> Effect
    ensures { result ≡ given_in (SoftInitiated i n) true (release_with ReroutingRelease r Absent CallRejected) none none }
{
    soft_given(i, n, turned_away(Kind::ReroutingRelease, r))
}

// The same of a soft one; in the Hard states it is a hard one.
fn soft_taken(n: u16, state: State) -> Effect
    ensures { result ≡ at_destination state (Some n) None (soft_setup_in (phase_of state) true) }
{
    match state {
        State::Null => Effect::refused(Answer::NoMeaning, state),
        State::Idle(i) => soft_given(i, n, Signal::NONE),
        State::HardWaiting => hard_taken(n, state),
        State::HardUnderway(_) => hard_taken(n, state),
        State::SoftTriggered(i) => soft_given(i, n, Signal::NONE),
        State::SoftProceeding(i, r) => older_left(i, r, n),
        State::SoftInitiated(i, r) => older_left(i, r, n),
        State::Awaiting(i, r) => older_left(i, r, n),
    }
}

// There is no number for the new connection: nothing is released, started or stored.
fn spent(state: State) -> Effect
    ensures { result ≡ setup_spent state }
{
    if matches!(state, State::Null) {
        return Effect::refused(Answer::NoMeaning, state);
    }
    Effect::refused(Answer::NumbersSpent, state)
}

fn hard_setup(next: Option<u16>, state: State) -> Effect
    ensures { result ≡ at_destination state next None (hard_setup_in (phase_of state) (is_next next)) }
{
    match next {
        Some(n) => hard_taken(n, state),
        None => spent(state),
    }
}

fn soft_setup(next: Option<u16>, state: State) -> Effect
    ensures { result ≡ at_destination state next None (soft_setup_in (phase_of state) (is_next next)) }
{
    match next {
        Some(n) => soft_taken(n, state),
        None => spent(state),
    }
}

// The code is one that 6.3.5 does not know, and is read: in the Hard states it is not.
fn unsupported(code: Switchover, state: State) -> bool
    ensures { result ≡ (asks_unrecognized (asking_of code) && not (is_hard_phase (phase_of state))) }
{
    if code.code <= 1 {
        return false;
    }
    match state {
        State::Null => true,
        State::Idle(_) => true,
        State::HardWaiting => false,
        State::HardUnderway(_) => false,
        State::SoftTriggered(_) => true,
        State::SoftProceeding(_, _) => true,
        State::SoftInitiated(_, _) => true,
        State::Awaiting(_, _) => true,
    }
}

// The code, then the number, then the state.
fn setup_checked(
    code: Switchover,
    number: u32,
    remote: u32,
    next: Option<u16>,
    state: State,
) -> Effect
    ensures { result ≡ setup_checked code number remote next state }
{
    if unsupported(code, state) {
        return Effect::rejected(ReroutingCause::UNSUPPORTED, state);
    }
    if signal::late(number, remote) {
        return Effect::rejected(ReroutingCause::OLD_NUMBER, state);
    }
    if code.clearing() {
        return soft_setup(next, state);
    }
    hard_setup(next, state)
}

// In Null no event has a meaning.
fn setup_met(code: Switchover, number: u32, remote: u32, next: Option<u16>, state: State) -> Effect
    ensures { result ≡ setup_met code number remote next state }
{
    if matches!(state, State::Null) {
        return Effect::refused(Answer::NoMeaning, state);
    }
    setup_checked(code, number, remote, next, state)
}

pub fn setup_row(
    hard: bool,
    soft: Soft,
    code: Switchover,
    number: u32,
    remote: u32,
    next: Option<u16>,
    state: State,
) -> Effect
    ensures { result ≡ destination_setup hard soft code number remote next state }
{
    match soft {
        Soft::NoSoft => {
            if hard {
                return setup_met(code, number, remote, next, state);
            }
            Effect::refused(Answer::NoMeaning, state)
        }
        Soft::Asymmetric => setup_met(code, number, remote, next, state),
        Soft::Symmetric => setup_met(code, number, remote, next, state),
    }
}
