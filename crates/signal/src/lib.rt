// What both ends of a call say: causes, signals, answers, services, and the numbering of connections.
//
// Citations in this repository: "01" is the scope document with its heading or row, "02, Ask 1" a request that followed it, a bare section
// number (6.2.4.2) or Annex item (D17-5) is of the standard, af-cs-0173.000, and "decision 7" is a point of docs/DECISIONS.md.
//
// Everything here is plain data by value. The meanings stand in specs/: Causes, Signals, Numbers.
#![tactic(auto)]

ghost use Rattle.std.specs.Prelude.{◌≡◌};
ghost use Rattle.signal.specs.Causes.{as_received, passed};
ghost use Rattle.signal.specs.Signals.{naming, release_with, rejection};
ghost use Rattle.signal.specs.Numbers.{answer_number, soft_number, fresh_after, is_late, is_clearing, services_of};

// A Rerouting cause, 5.3. The numbers that 01 names are constants of the type.
#[derive(Clone, Copy)]
pub struct ReroutingCause {
    pub number: u8,
}

impl ReroutingCause {
    // #1, release received from outside any rerouting domain
    pub const OUTSIDE: ReroutingCause = ReroutingCause { number: 1 };

    // #2, failed to recover the connection
    pub const NOT_RECOVERED: ReroutingCause = ReroutingCause { number: 2 };

    // #4, rerouting operation complete
    pub const COMPLETE: ReroutingCause = ReroutingCause { number: 4 };

    // #5, old incarnation number
    pub const OLD_NUMBER: ReroutingCause = ReroutingCause { number: 5 };

    // #6, rerouting operation already in progress
    pub const IN_PROGRESS: ReroutingCause = ReroutingCause { number: 6 };

    // #8, unsupported switchover behaviour
    pub const UNSUPPORTED: ReroutingCause = ReroutingCause { number: 8 };
}

// The Rerouting cause of a signal (01, "Signals").
#[derive(Clone, Copy)]
pub enum SentCause {
    Absent,
    Numbered(ReroutingCause),
    AsReceived(ReroutingCause),
}

impl SentCause {
    // A cause goes on as it came.
    pub fn as_received(received: Option<ReroutingCause>) -> SentCause
        ensures { result ≡ as_received received }
    {
        received.map_or(SentCause::Absent, SentCause::AsReceived)
    }

    // A cause is passed unmodified; none becomes #1 where hard rerouting is on (6.2.4.2 cases 1 and 2, and the like).
    pub fn passed(received: Option<ReroutingCause>, hard: bool) -> SentCause
        ensures { result ≡ passed hard received }
    {
        match received {
            Some(cause) => SentCause::AsReceived(cause),
            None if hard => SentCause::Numbered(ReroutingCause::OUTSIDE),
            None => SentCause::Absent,
        }
    }
}

// The Cause code of a signal: what section 6.6 asks for, or #21, call rejected.
#[derive(Clone, Copy)]
pub enum CauseCode {
    Section66,
    CallRejected,
}

// The Crankback element of a called-side release, with what the node's own search for an alternate path found.
#[derive(Clone, Copy)]
pub enum Crankback {
    NoCrankback = 0,
    AlternateFound = 1,
    NoAlternate = 2,
}

// The switchover behaviour that a reroute setup asks for, by its code.
#[derive(Clone, Copy)]
pub struct Switchover {
    pub code: u8,
}

impl Switchover {
    // switchover when receiving the call clearing message for the incumbent connection
    pub const CLEARING: Switchover = Switchover { code: 1 };

    // switchover immediately
    pub const IMMEDIATE: Switchover = Switchover { code: 0 };

    // Is it the one behaviour that a soft reroute setup may ask for?
    pub fn clearing(self) -> bool
        ensures { result ≡ is_clearing self }
    {
        self.code == 1
    }
}

#[derive(Clone, Copy)]
pub enum Soft {
    NoSoft = 0,
    Asymmetric = 1,
    Symmetric = 2,
}

impl Soft {
    pub fn number(self) -> u8
        ensures { result ≡ soft_number self }
    {
        self as u8
    }
}

// The rerouting services of a call.
#[derive(Clone, Copy)]
pub struct Services {
    pub hard: bool,
    pub soft: Soft,
}

impl Services {
    // those of a call that is opened without named ones (02, Ask 1)
    pub const DEFAULT: Services = Services {
        hard: true,
        soft: Soft::Asymmetric,
    };

    // The services that an opening takes: those that it names, or the default (02, Ask 1).
    pub fn wanted(named: Option<Services>) -> Services
        ensures { result ≡ services_of named }
    {
        named.unwrap_or(Services::DEFAULT)
    }
}

// The kinds of signal, in the order of decision 16. The called-side release is the destination's (02, Ask 2); among the signals of one
// event it has the place of the calling-side one.
#[derive(Clone, Copy)]
pub enum Kind {
    NoSignal,
    TimerStart,
    TimerStop,
    Switch,
    CallingRelease,
    IncumbentRelease,
    ReroutingRelease,
    SetupRequest,
    ConnectRequest,
    Rejection,
    CalledRelease,
}

#[derive(Clone, Copy)]
pub struct Signal {
    pub kind: Kind,
    pub connection: u16,
    pub cause: SentCause,
    pub code: CauseCode,
}

impl Signal {
    pub const NONE: Signal = Signal {
        kind: Kind::NoSignal,
        connection: 0,
        cause: SentCause::Absent,
        code: CauseCode::Section66,
    };

    pub const TIMER_START: Signal = Signal {
        kind: Kind::TimerStart,
        ..Signal::NONE
    };

    pub const TIMER_STOP: Signal = Signal {
        kind: Kind::TimerStop,
        ..Signal::NONE
    };

    // A switch, setup or connect: it names a connection and carries no Rerouting cause.
    pub fn naming(kind: Kind, connection: u16) -> Signal
        ensures { result ≡ naming kind connection }
    {
        Signal {
            kind,
            connection,
            ..Signal::NONE
        }
    }

    // A release of the node's own party (connection 0), the incumbent or the rerouting connection.
    pub fn release(kind: Kind, connection: u16, cause: SentCause, code: CauseCode) -> Signal
        ensures { result ≡ release_with kind connection cause code }
    {
        Signal {
            kind,
            connection,
            cause,
            code,
        }
    }

    // A setup is rejected to the neighbour (6.2.7, 6.3.5).
    pub fn rejection(cause: ReroutingCause) -> Signal
        ensures { result ≡ rejection cause }
    {
        Signal {
            kind: Kind::Rejection,
            cause: SentCause::Numbered(cause),
            ..Signal::NONE
        }
    }
}

// The answers, in the order of their numbers (01, "Numbers of refusal").
#[derive(Clone, Copy)]
pub enum Answer {
    Done = 0,
    TableUnfit = 101,
    KeyZero = 102,
    KeyOnRecord = 103,
    NoEmptyRecord = 104,
    KeyNotOnRecord = 105,
    NoMeaning = 106,
    NotHeld = 107,
    NumbersSpent = 108,
}

impl Answer {
    pub fn number(self) -> u16
        ensures { result ≡ answer_number self }
    {
        self as u16
    }
}

// The connection number that a call may be given next: the last number plus 1, as long as that is a number (01, "The table and its
// records"; 108).
pub fn fresh_after(last: u16) -> Option<u16>
    ensures { result ≡ fresh_after last }
{
    last.checked_add(1)
}

// Is a setup's incarnation number not greater than the one on record (6.2.7, the number check)?
pub fn late(number: u32, remote: u32) -> bool
    ensures { result ≡ is_late number remote }
{
    number <= remote
}
