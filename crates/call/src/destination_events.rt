// The events of the destination node (6.3), as methods on the record. Each is a promise of its own (docs/PROMISES.md), and so stands
// once for either end.
ghost use Rattle.std.specs.Prelude.{◌≡◌};
ghost use Rattle.events.specs.declared.Event.TheVariants.{Trigger, PathFound, NoPath, Connect, Setup};
ghost use Rattle.events.specs.declared.Event.TheVariants.{FromParty, FromDomain, Ready, Expiry};
ghost use Rattle.call.specs.Events.{destination_half, handled_at};

use crate::{Call, Outcome};
use events::{Event, Node};
use signal::{Crankback, ReroutingCause, SentCause, Switchover};

impl Call {
    pub fn destination_trigger(self) -> Outcome
        ensures { result ≡ handled_at destination_half self Trigger }
    {
        self.carried(0, destination_requests::trigger_row(self.soft, self.state))
    }

    pub fn destination_path_found(self) -> Outcome
        ensures { result ≡ handled_at destination_half self PathFound }
    {
        self.carried(
            0,
            destination_requests::path_row(signal::fresh_after(self.last), self.state),
        )
    }

    pub fn destination_no_path(self) -> Outcome
        ensures { result ≡ handled_at destination_half self NoPath }
    {
        self.carried(0, destination_requests::no_path_row(self.state))
    }

    // `agreed` is local policy's yes.
    pub fn destination_connect(self, connection: u16, agreed: bool) -> Outcome
        ensures { result ≡ handled_at destination_half self (Connect connection agreed) }
    {
        self.carried(
            0,
            destination_requests::connect_row(connection, agreed, self.state),
        )
    }

    pub fn destination_setup(self, code: Switchover, number: u32) -> Outcome
        ensures { result ≡ handled_at destination_half self (Setup code number) }
    {
        let next = signal::fresh_after(self.last);
        self.carried(
            number,
            destination_setups::setup_row(
                self.hard,
                self.soft,
                code,
                number,
                self.remote,
                next,
                self.state,
            ),
        )
    }

    pub fn destination_ready(self) -> Outcome
        ensures { result ≡ handled_at destination_half self Ready }
    {
        self.carried(0, destination_setups::ready_row(self.state))
    }

    pub fn destination_expiry(self) -> Outcome
        ensures { result ≡ handled_at destination_half self Expiry }
    {
        self.carried(0, shared_rows::expiry_row(Node::Destination, self.state))
    }

    // In Soft Triggered no Rerouting cause goes on (6.3.4.7, 6.3.4.1).
    pub fn destination_called_release(self, cause: Option<ReroutingCause>) -> Outcome
        ensures { result ≡ handled_at destination_half self (FromParty cause) }
    {
        self.carried(
            0,
            shared_rows::party_row(self.hard, cause, SentCause::Absent, self.state),
        )
    }

    pub fn destination_calling_release(
        self,
        connection: u16,
        cause: Option<ReroutingCause>,
        crankback: Crankback,
    ) -> Outcome
        ensures { result ≡ handled_at destination_half self (FromDomain connection cause crankback) }
    {
        let next = signal::fresh_after(self.last);
        self.carried(
            0,
            destination_releases::calling_row(
                self.hard, connection, cause, crankback, next, self.state,
            ),
        )
    }

    // One event of any kind.
    pub fn at_destination(self, event: Event) -> Outcome
        ensures { result ≡ handled_at destination_half self event }
    {
        match event {
            Event::Trigger => self.destination_trigger(),
            Event::PathFound => self.destination_path_found(),
            Event::NoPath => self.destination_no_path(),
            Event::Connect(connection, agreed) => self.destination_connect(connection, agreed),
            Event::Setup(code, number) => self.destination_setup(code, number),
            Event::FromParty(cause) => self.destination_called_release(cause),
            Event::FromDomain(connection, cause, crankback) => {
                self.destination_calling_release(connection, cause, crankback)
            }
            Event::Ready => self.destination_ready(),
            Event::Expiry => self.destination_expiry(),
        }
    }
}
