// The rows of a release from the calling side, by which every call ends (6.2.4). Direct code: each function returns the row of the page,
// carried out.
#![tactic(auto)]

ghost use Rattle.std.specs.Prelude.{◌≡◌};
ghost use Rattle.rows.specs.Cases.{class_of};
ghost use Rattle.rows.specs.Effects.{said};
ghost use Rattle.source_rows.specs.Rows.{soft_triggered_passing};
ghost use Rattle.source_endings.specs.Effects.{calling_effect};

use rows::{Class, Effect, State};
use signal::{ReroutingCause, SentCause};

// Normal call clearing in Soft Triggered reads the cause only to see whether one came (6.2.4.1 case 1).
fn soft_triggered_cause(hard: bool, cause: Option<ReroutingCause>) -> SentCause
    ensures { result ≡ said cause (soft_triggered_passing hard (class_of cause)) }
{
    match rows::class_of(cause) {
        Class::CameNone => {
            if hard {
                return SentCause::Numbered(ReroutingCause::OUTSIDE);
            }
            SentCause::Absent
        }
        Class::CameOutside => SentCause::Absent,
        Class::CameComplete => SentCause::Absent,
        Class::CameOther => SentCause::Absent,
    }
}

pub fn calling_row(hard: bool, cause: Option<ReroutingCause>, state: State) -> Effect
    ensures { result ≡ calling_effect hard cause state }
{
    let triggered = soft_triggered_cause(hard, cause);
    shared_rows::party_row(hard, cause, triggered, state)
}
