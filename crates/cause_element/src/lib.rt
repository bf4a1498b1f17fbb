// The Rerouting cause element to send with a release (01, "The cause element sent on"): a part of the string that the signal names, never a
// copy.
#![tactic(auto)]

ghost use Rattle.std.specs.Prelude.{◌≡◌};
ghost use Rattle.cause_element.specs.Element.{named_by_cause, named_by, whole_of, element_length, element_of, string_of};

use signal::{Kind, SentCause, Signal};

// Which string a signal names. An enum of three and no `Option`: `named_by` of specs/ has the three by name.
#[derive(Clone, Copy)]
pub enum Names {
    TheReceived,
    TheOwn,
    Neither,
}

fn by_cause(cause: SentCause) -> Names
    ensures { result ≡ named_by_cause cause }
{
    match cause {
        SentCause::Absent => Names::Neither,
        SentCause::Numbered(_) => Names::TheOwn,
        SentCause::AsReceived(_) => Names::TheReceived,
    }
}

// A reject is no release here.
pub fn named(signal: Signal) -> Names
    ensures { result ≡ named_by signal }
{
    match signal.kind {
        Kind::NoSignal
        | Kind::TimerStart
        | Kind::TimerStop
        | Kind::Switch
        | Kind::SetupRequest
        | Kind::ConnectRequest => Names::Neither,
        Kind::Rejection => Names::Neither,
        Kind::CallingRelease
        | Kind::IncumbentRelease
        | Kind::ReroutingRelease
        | Kind::CalledRelease => by_cause(signal.cause),
    }
}

// Four octets of header, and as many more as two octets say, big-endian.
fn whole(high: u8, low: u8) -> usize
    ensures { result ≡ whole_of high low }
{
    4 + usize::from(u16::from_be_bytes([high, low]))
}

// How much of a string is its element: four octets of header, and as many more as the third and fourth say; none where it is too short for
// that.
fn length(string: &[u8]) -> usize
    ensures { result ≡ element_length string.now }
{
    if string.len() < 4 {
        return 0;
    }
    let count = whole(string[2], string[3]);
    if string.len() < count {
        return 0;
    }
    count
}

// The part stands where its string does: no octet is copied.
pub fn element<'a>(received: &'a [u8], own: &'a [u8], signal: Signal) -> &'a [u8]
    ensures { (result.now ≡ element_of received.now own.now signal)
        × (result.ref_ptr ≡ (string_of received.entry own.entry signal).ref_ptr) }
{
    let string = match named(signal) {
        Names::TheReceived => received,
        Names::TheOwn => own,
        Names::Neither => &own[..0],
    };
    &string[..length(string)]
}
