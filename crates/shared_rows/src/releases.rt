// The releases of a connection, or of the node's own party: with the Cause code of section 6.6, or with #21.
ghost use Rattle.std.specs.Prelude.{◌≡◌};
ghost use Rattle.signal.specs.declared.CauseCode.TheVariants.{CallRejected};
ghost use Rattle.signal.specs.declared.SentCause.TheVariants.{Absent};
ghost use Rattle.signal.specs.Signals.{release_of, release_with};

use signal::{CauseCode, Kind, SentCause, Signal};

pub fn released(kind: Kind, connection: u16, cause: SentCause) -> Signal
    ensures { result ≡ release_of kind connection cause }
{
    Signal::release(kind, connection, cause, CauseCode::Section66)
}

// A connection that gives way is released with Cause code #21, and without a Rerouting cause.
pub fn turned_away(kind: Kind, connection: u16) -> Signal
    ensures { result ≡ release_with kind connection Absent CallRejected }
{
    Signal::release(kind, connection, SentCause::Absent, CauseCode::CallRejected)
}
