// The events of the source node (6.2), as methods on the record. Each is a promise of its own (docs/PROMISES.md), and so stands once for
// either end.
ghost use Rattle.std.specs.Prelude.{◌≡◌};
ghost use Rattle.events.specs.declared.Event.TheVariants.{Trigger, PathFound, NoPath, Connect, Setup};
ghost use Rattle.events.specs.declared.Event.TheVariants.{FromParty, FromDomain, Ready, Expiry};
ghost use Rattle.call.specs.Events.{source_half, handled_at};

use crate::{Call, Outcome};
use events::{Event, Node};
use signal::{Crankback, ReroutingCause, Switchover};

impl Call {
    pub fn trigger(self) -> Outcome
        ensures { result ≡ handled_at source_half self Trigger }
    {
        self.carried(0, source_requests::trigger_row(self.soft, self.state))
    }

    pub fn path_found(self) -> Outcome
        ensures { result ≡ handled_at source_half self PathFound }
    {
        self.carried(
            0,
            source_requests::path_row(signal::fresh_after(self.last), self.state),
        )
    }

    pub fn no_path(self) -> Outcome
        ensures { result ≡ handled_at source_half self NoPath }
    {
        self.carried(0, source_requests::no_path_row(self.state))
    }

    // `agreed` is local policy's yes.
    pub fn connect(self, connection: u16, agreed: bool) -> Outcome
        ensures { result ≡ handled_at source_half self (Connect connection agreed) }
    {
        self.carried(
            0,
            source_connects::connect_row(connection, agreed, self.state),
        )
    }

    pub fn setup(self, code: Switchover, number: u32) -> Outcome
        ensures { result ≡ handled_at source_half self (Setup code number) }
    {
        let next = signal::fresh_after(self.last);
        self.carried(
            number,
            source_setups::setup_row(self.soft, code, number, self.remote, next, self.state),
        )
    }

    pub fn ready(self) -> Outcome
        ensures { result ≡ handled_at source_half self Ready }
    {
        self.carried(0, source_setups::ready_row(self.state))
    }

    pub fn expiry(self) -> Outcome
        ensures { result ≡ handled_at source_half self Expiry }
    {
        self.carried(0, shared_rows::expiry_row(Node::Source, self.state))
    }

    pub fn calling_release(self, cause: Option<ReroutingCause>) -> Outcome
        ensures { result ≡ handled_at source_half self (FromParty cause) }
    {
        self.carried(0, source_endings::calling_row(self.hard, cause, self.state))
    }

    pub fn called_release(
        self,
        connection: u16,
        cause: Option<ReroutingCause>,
        crankback: Crankback,
    ) -> Outcome
        ensures { result ≡ handled_at source_half self (FromDomain connection cause crankback) }
    {
        let next = signal::fresh_after(self.last);
        self.carried(
            0,
            source_releases::called_row(self.hard, connection, cause, crankback, next, self.state),
        )
    }

    // One event of any kind.
    pub fn at_source(self, event: Event) -> Outcome
        ensures { result ≡ handled_at source_half self event }
    {
        match event {
            Event::Trigger => self.trigger(),
            Event::PathFound => self.path_found(),
            Event::NoPath => self.no_path(),
            Event::Connect(connection, agreed) => self.connect(connection, agreed),
            Event::Setup(code, number) => self.setup(code, number),
            Event::FromParty(cause) => self.calling_release(cause),
            Event::FromDomain(connection, cause, crankback) => {
                self.called_release(connection, cause, crankback)
            }
            Event::Ready => self.ready(),
            Event::Expiry => self.expiry(),
        }
    }
}
