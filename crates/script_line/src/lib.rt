// A line of a script read into a key and what is done with it, or into what was expected at the first word that does not fit
// (docs/BENCH.md, "script").
//
// The name of the event is judged first, then the key, then the rest from left to right. A function takes what is left of the line, and the
// key apart from it, as its definition in specs/Script does.
#![tactic(auto)]

ghost use Rattle.std.specs.Prelude.{◌≡◌, ok_or};
ghost use Rattle.line_reader.specs.Words.{first_word, after_word, same_text};
ghost use Rattle.line_reader.specs.Numbers.{number_up_to};
ghost use Rattle.script_line.specs.Script.{plain_name, full_name, name_of, read_end, read_soft, read_open, read_policy};
ghost use Rattle.script_line.specs.Script.{read_connect, read_code, read_incarnation, read_setup, read_calling_cause, read_calling};
ghost use Rattle.script_line.specs.Script.{read_crankback, read_called_cause, read_release, read_called, read_arguments, read_keyed};
ghost use Rattle.script_line.specs.Script.{name_at, parsed_of};

use events::{Act, Event, Node};
use script_words::What;
use signal::{Crankback, ReroutingCause, Services, Soft, Switchover};

// A key and what is done with it; none, where there are no words; or what was expected.
pub type Parsed = Result<Option<(u32, Act)>, What>;

// The event that a word names.
#[derive(Clone, Copy)]
pub enum Name {
    OpenName,
    TriggerName,
    PathName,
    NoPathName,
    ConnectName,
    SetupName,
    CallingName,
    CalledName,
    ReadyName,
    ExpiryName,
}

// Whether the next word is the name; the empty name tells that there is none.
fn is(rest: &[u8], name: &[u8]) -> bool
    ensures { result ≡ same_text (first_word rest.now) name.now }
{
    line_reader::is(rest, 0, name)
}

// What is left behind the next word.
fn behind(rest: &[u8]) -> &[u8]
    ensures { result.now ≡ after_word rest.now }
{
    &rest[line_reader::after(rest, 0)..]
}

// The next word as a number, or what was expected.
fn number(rest: &[u8], limit: u32, what: What) -> Result<u32, What>
    ensures { result ≡ ok_or (number_up_to limit (first_word rest.now)) what }
{
    line_reader::number(rest, 0, limit).ok_or(what)
}

// The same of a number that an octet holds.
#[tactic(auto, using(crate::proofs::Laws::read_at_most))]
fn octet(rest: &[u8], what: What) -> Result<u8, What>
    ensures { result ≡ ok_or (number_up_to 255 (first_word rest.now)) what }
{
    Ok(number(rest, u8::MAX.into(), what)? as u8)
}

#[tactic(auto, using(crate::proofs::Laws::read_at_most))]
fn connection(rest: &[u8]) -> Result<u16, What>
    ensures { result ≡ ok_or (number_up_to 65535 (first_word rest.now)) What.AConnection }
{
    Ok(number(rest, u16::MAX.into(), What::AConnection)? as u16)
}

// Nothing may follow.
#[tactic(auto, unfolding(crate::specs::Script::read_end))]
fn end(rest: &[u8], key: u32, act: Act) -> Parsed
    ensures { result ≡ read_end key act rest.now }
{
    if is(rest, b"") {
        return Ok(Some((key, act)));
    }
    Err(What::NothingMore)
}

#[tactic(auto, unfolding(crate::specs::Script::read_soft))]
fn soft(rest: &[u8], key: u32, hard: bool) -> Parsed
    ensures { result ≡ read_soft key hard rest.now }
{
    let soft = if is(rest, b"none") {
        Soft::NoSoft
    } else if is(rest, b"asymmetric") {
        Soft::Asymmetric
    } else if is(rest, b"symmetric") {
        Soft::Symmetric
    } else {
        return Err(What::ASoftService);
    };
    let services = Services { hard, soft };
    end(behind(rest), key, Act::Opens(Some(services)))
}

#[tactic(auto, unfolding(crate::specs::Script::read_open))]
fn open(rest: &[u8], key: u32) -> Parsed
    ensures { result ≡ read_open key rest.now }
{
    if is(rest, b"") {
        return Ok(Some((key, Act::Opens(None))));
    }
    let hard = if is(rest, b"hard") {
        true
    } else if is(rest, b"nohard") {
        false
    } else {
        return Err(What::HardOrEnd);
    };
    soft(behind(rest), key, hard)
}

#[tactic(auto, unfolding(crate::specs::Script::read_policy))]
fn policy(rest: &[u8], key: u32, connection: u16) -> Parsed
    ensures { result ≡ read_policy key connection rest.now }
{
    let policy = if is(rest, b"yes") {
        true
    } else if is(rest, b"no") {
        false
    } else {
        return Err(What::YesOrNo);
    };
    end(
        behind(rest),
        key,
        Act::Meets(Event::Connect(connection, policy)),
    )
}

#[tactic(auto, unfolding(crate::specs::Script::read_connect))]
fn connect(rest: &[u8], key: u32) -> Parsed
    ensures { result ≡ read_connect key rest.now }
{
    let connection = connection(rest)?;
    policy(behind(rest), key, connection)
}

// A switchover by its name or its number.
#[tactic(auto, unfolding(crate::specs::Script::read_code))]
fn code(rest: &[u8]) -> Result<u8, What>
    ensures { result ≡ ok_or (read_code (first_word rest.now)) What.ASwitchover }
{
    if is(rest, b"clearing") {
        return Ok(1);
    }
    if is(rest, b"immediate") {
        return Ok(0);
    }
    octet(rest, What::ASwitchover)
}

#[tactic(auto, unfolding(crate::specs::Script::read_incarnation))]
fn incarnation(rest: &[u8], key: u32, code: u8) -> Parsed
    ensures { result ≡ read_incarnation key code rest.now }
{
    let number = number(rest, u32::MAX, What::AnIncarnation)?;
    end(
        behind(rest),
        key,
        Act::Meets(Event::Setup(Switchover { code }, number)),
    )
}

#[tactic(auto, unfolding(crate::specs::Script::read_setup))]
fn setup(rest: &[u8], key: u32) -> Parsed
    ensures { result ≡ read_setup key rest.now }
{
    let code = code(rest)?;
    incarnation(behind(rest), key, code)
}

#[tactic(auto, unfolding(crate::specs::Script::read_calling_cause))]
fn calling_cause(rest: &[u8], key: u32) -> Parsed
    ensures { result ≡ read_calling_cause key rest.now }
{
    let number = octet(rest, What::ACause)?;
    let received = Some(ReroutingCause { number });
    end(behind(rest), key, Act::Meets(Event::FromParty(received)))
}

#[tactic(auto, unfolding(crate::specs::Script::read_calling))]
fn calling(rest: &[u8], key: u32) -> Parsed
    ensures { result ≡ read_calling key rest.now }
{
    if is(rest, b"") {
        return Ok(Some((key, Act::Meets(Event::FromParty(None)))));
    }
    if is(rest, b"cause") {
        return calling_cause(behind(rest), key);
    }
    Err(What::CauseOrEnd)
}

// The crankback of a release, or nothing; `what` is told of any other word.
#[tactic(auto, unfolding(crate::specs::Script::read_crankback))]
fn crankback(
    rest: &[u8],
    key: u32,
    connection: u16,
    cause: Option<ReroutingCause>,
    what: What,
) -> Parsed
    ensures { result ≡ read_crankback key connection cause what rest.now }
{
    if is(rest, b"") {
        let act = Act::Meets(Event::FromDomain(connection, cause, Crankback::NoCrankback));
        return Ok(Some((key, act)));
    }
    let back = if is(rest, b"alternate") {
        Crankback::AlternateFound
    } else if is(rest, b"noalternate") {
        Crankback::NoAlternate
    } else {
        return Err(what);
    };
    end(
        behind(rest),
        key,
        Act::Meets(Event::FromDomain(connection, cause, back)),
    )
}

#[tactic(auto, unfolding(crate::specs::Script::read_called_cause))]
fn called_cause(rest: &[u8], key: u32, connection: u16) -> Parsed
    ensures { result ≡ read_called_cause key connection rest.now }
{
    let number = octet(rest, What::ACause)?;
    let received = Some(ReroutingCause { number });
    crankback(
        behind(rest),
        key,
        connection,
        received,
        What::CrankbackOrEnd,
    )
}

#[tactic(auto, unfolding(crate::specs::Script::read_release))]
fn release(rest: &[u8], key: u32, connection: u16) -> Parsed
    ensures { result ≡ read_release key connection rest.now }
{
    if is(rest, b"cause") {
        return called_cause(behind(rest), key, connection);
    }
    crankback(rest, key, connection, None, What::CauseCrankbackOrEnd)
}

#[tactic(auto, unfolding(crate::specs::Script::read_called))]
fn called(rest: &[u8], key: u32) -> Parsed
    ensures { result ≡ read_called key rest.now }
{
    let connection = connection(rest)?;
    release(behind(rest), key, connection)
}

fn arguments(rest: &[u8], name: Name, key: u32) -> Parsed
    ensures { result ≡ read_arguments name key rest.now }
{
    match name {
        Name::OpenName => open(rest, key),
        Name::TriggerName => end(rest, key, Act::Meets(Event::Trigger)),
        Name::PathName => end(rest, key, Act::Meets(Event::PathFound)),
        Name::NoPathName => end(rest, key, Act::Meets(Event::NoPath)),
        Name::ConnectName => connect(rest, key),
        Name::SetupName => setup(rest, key),
        Name::CallingName => calling(rest, key),
        Name::CalledName => called(rest, key),
        Name::ReadyName => end(rest, key, Act::Meets(Event::Ready)),
        Name::ExpiryName => end(rest, key, Act::Meets(Event::Expiry)),
    }
}

#[tactic(auto, unfolding(crate::specs::Script::read_keyed))]
fn keyed(rest: &[u8], name: Name) -> Parsed
    ensures { result ≡ read_keyed name rest.now }
{
    let key = number(rest, u32::MAX, What::AKey)?;
    arguments(behind(rest), name, key)
}

// An event that is only a key.
#[tactic(auto, unfolding(crate::specs::Script::plain_name))]
fn plain_name(line: &[u8]) -> Option<Name>
    ensures { result ≡ plain_name (first_word line.now) }
{
    if is(line, b"trigger") {
        return Some(Name::TriggerName);
    }
    if is(line, b"path") {
        return Some(Name::PathName);
    }
    if is(line, b"nopath") {
        return Some(Name::NoPathName);
    }
    if is(line, b"ready") {
        return Some(Name::ReadyName);
    }
    if is(line, b"expiry") {
        return Some(Name::ExpiryName);
    }
    None
}

// An opening, or an event that may bring more than its key.
#[tactic(auto, unfolding(crate::specs::Script::full_name))]
fn full_name(line: &[u8]) -> Option<Name>
    ensures { result ≡ full_name (first_word line.now) }
{
    if is(line, b"open") {
        return Some(Name::OpenName);
    }
    if is(line, b"connect") {
        return Some(Name::ConnectName);
    }
    if is(line, b"setup") {
        return Some(Name::SetupName);
    }
    if is(line, b"calling") {
        return Some(Name::CallingName);
    }
    if is(line, b"called") {
        return Some(Name::CalledName);
    }
    None
}

#[tactic(auto, unfolding(crate::specs::Script::name_of))]
fn named(line: &[u8]) -> Option<Name>
    ensures { result ≡ name_of (first_word line.now) }
{
    plain_name(line).or_else(|| full_name(line))
}

// The name of a release at an end: at the destination it is the calling side's that names a connection.
fn name_at(name: Name, node: Node) -> Name
    ensures { result ≡ name_at name node }
{
    match (name, node) {
        (Name::CallingName, Node::Destination) => Name::CalledName,
        (Name::CalledName, Node::Destination) => Name::CallingName,
        _ => name,
    }
}

#[tactic(auto, unfolding(crate::specs::Script::parsed_of))]
pub fn parse(node: Node, line: &[u8]) -> Parsed
    ensures { result ≡ parsed_of node line.now }
{
    if is(line, b"") {
        return Ok(None);
    }
    let name = named(line).ok_or(What::AnEvent)?;
    keyed(behind(line), name_at(name, node))
}
