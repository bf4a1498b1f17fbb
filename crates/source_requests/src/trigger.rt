// A soft reroute is triggered, 6.2.5.3.
ghost use Rattle.std.specs.Prelude.{◌≡◌};
ghost use Rattle.source_requests.specs.Effects.{trigger_effect};

use events::Node;
use rows::{Effect, State};
use signal::{Answer, Soft};

pub fn trigger_row(soft: Soft, state: State) -> Effect
    ensures { result ≡ trigger_effect soft state }
{
    match soft {
        Soft::NoSoft => Effect::refused(Answer::NoMeaning, state),
        Soft::Asymmetric => shared_rows::trigger_in(Node::Source, state),
        Soft::Symmetric => shared_rows::trigger_in(Node::Source, state),
    }
}
