// An event record of the trace, 16 octets, read into a key and what is done with it, and written (01, "The trace").
//
// Whether a value is named is seen from the octets alone; an octet that is not read never makes a record bad.
#![tactic(auto)]

ghost use Rattle.std.specs.Prelude.{◌≡◌, length, ◌+◌, ◌≤◌, ◌%◌};
ghost use Rattle.event_record.specs.Places.{record_at, rest_length, rest_kept};
ghost use Rattle.event_record.specs.Record.{soft_of, crankback_of, cause_of, open_of, connect_of, calling_of, called_of};
ghost use Rattle.event_record.specs.Record.{plain_of, request_of, kind_at, decoded_at};
ghost use Rattle.event_record.specs.Encoded.{flag_number, present_number, cause_number, brought, open_values, event_values, act_values};
ghost use Rattle.event_record.specs.Encoded.{laid_out, values_at, written_at};
ghost use Rattle.signal.specs.Numbers.{crankback_number};
ghost use Rattle.events.specs.declared.Event.TheVariants.{FromParty, FromDomain};

use events::{Act, Event, Node};
use signal::{Crankback, ReroutingCause, Services, Soft, Switchover};

// The key, and what the octets before and behind it ask for; nothing where the record is bad.
#[derive(Clone, Copy)]
pub struct Decoded {
    pub key: u32,
    pub request: Option<Act>,
}

// What is written of an event besides its key: octets 0 to 3, and the number that stands behind the key.
#[derive(Clone, Copy)]
struct Values {
    kind: u8,
    first: u8,
    second: u8,
    third: u8,
    number: u32,
}

// Of any octet, as `soft_of` has it: one above 2 is bad before it comes here. Crankback likewise.
fn soft(number: u8) -> Soft
    ensures { result ≡ soft_of number }
{
    match number {
        0 => Soft::NoSoft,
        1 => Soft::Asymmetric,
        _ => Soft::Symmetric,
    }
}

fn crankback(number: u8) -> Crankback
    ensures { result ≡ crankback_of number }
{
    match number {
        0 => Crankback::NoCrankback,
        1 => Crankback::AlternateFound,
        _ => Crankback::NoAlternate,
    }
}

fn cause(present: u8, number: u8) -> Option<ReroutingCause>
    ensures { result ≡ cause_of present number }
{
    (present != 0).then_some(ReroutingCause { number })
}

fn open(named: u8, hard: u8, kind: u8) -> Option<Act>
    ensures { result ≡ open_of named hard kind }
{
    if named == 0 {
        return Some(Act::Opens(None));
    }
    if 1 < named || 1 < hard || 2 < kind {
        return None;
    }
    let services = Services {
        hard: hard == 1,
        soft: soft(kind),
    };
    Some(Act::Opens(Some(services)))
}

fn connect(policy: u8, connection: u32) -> Option<Act>
    ensures { result ≡ connect_of policy connection }
{
    if 1 < policy || 65535 < connection {
        return None;
    }
    Some(Act::Meets(Event::Connect(connection as u16, policy == 1)))
}

fn calling(present: u8, number: u8, back: u8) -> Option<Act>
    ensures { result ≡ calling_of present number back }
{
    if 1 < present || 2 < back {
        return None;
    }
    Some(Act::Meets(Event::FromParty(cause(present, number))))
}

fn called(present: u8, number: u8, back: u8, connection: u32) -> Option<Act>
    ensures { result ≡ called_of present number back connection }
{
    if 1 < present || 2 < back || 65535 < connection {
        return None;
    }
    let received = cause(present, number);
    let found = crankback(back);
    Some(Act::Meets(Event::FromDomain(connection as u16, received, found)))
}

// The events that are only a key.
fn plain(kind: u8) -> Option<Act>
    ensures { result ≡ plain_of kind }
{
    match kind {
        1 => Some(Act::Meets(Event::Trigger)),
        2 => Some(Act::Meets(Event::PathFound)),
        3 => Some(Act::Meets(Event::NoPath)),
        8 => Some(Act::Meets(Event::Ready)),
        9 => Some(Act::Meets(Event::Expiry)),
        _ => None,
    }
}

fn asked(kind: u8, first: u8, second: u8, third: u8, number: u32) -> Option<Act>
    ensures { result ≡ request_of kind first second third number }
{
    match kind {
        0 => open(first, second, third),
        4 => connect(first, number),
        5 => Some(Act::Meets(Event::Setup(Switchover { code: first }, number))),
        6 => calling(first, second, third),
        7 => called(first, second, third, number),
        _ => plain(kind),
    }
}

// Which release a kind is, by its number (script_line exchanges the two by their names): at the destination the calling side's names the
// connection.
pub fn kind_at(node: Node, kind: u8) -> u8
    ensures { result ≡ kind_at node kind }
{
    match (node, kind) {
        (Node::Destination, 6) => 7,
        (Node::Destination, 7) => 6,
        _ => kind,
    }
}

pub fn decode(node: Node, octets: [u8; 16]) -> Decoded
    ensures { result ≡ decoded_at node octets }
{
    let [kind, first, second, third, k0, k1, k2, k3, ..] = octets;
    let [.., n0, n1, n2, n3, _, _, _, _] = octets;
    let key = u32::from_be_bytes([k0, k1, k2, k3]);
    let number = u32::from_be_bytes([n0, n1, n2, n3]);
    let request = asked(kind_at(node, kind), first, second, third, number);
    Decoded { key, request }
}

fn flag_number(flag: bool) -> u8
    ensures { result ≡ flag_number flag }
{
    flag as u8
}

fn present_number(cause: Option<ReroutingCause>) -> u8
    ensures { result ≡ present_number cause }
{
    cause.is_some() as u8
}

fn cause_number(cause: Option<ReroutingCause>) -> u8
    ensures { result ≡ cause_number cause }
{
    cause.map_or(0, |given| given.number)
}

fn crankback_number(back: Crankback) -> u8
    ensures { result ≡ crankback_number back }
{
    back as u8
}

fn brought(kind: u8, first: u8, second: u8, third: u8, number: u32) -> Values
    ensures { result ≡ brought kind first second third number }
{
    Values {
        kind,
        first,
        second,
        third,
        number,
    }
}

fn open_values(wanted: Option<Services>) -> Values
    ensures { result ≡ open_values wanted }
{
    match wanted {
        None => brought(0, 0, 0, 0, 0),
        Some(services) => { brought(0, 1, flag_number(services.hard), services.soft.number(), 0) }
    }
}

fn calling_values(cause: Option<ReroutingCause>) -> Values
    ensures { result ≡ event_values (FromParty cause) }
{
    brought(6, present_number(cause), cause_number(cause), 0, 0)
}

fn called_values(connection: u16, cause: Option<ReroutingCause>, back: Crankback) -> Values
    ensures { result ≡ event_values (FromDomain connection cause back) }
{
    brought(
        7,
        present_number(cause),
        cause_number(cause),
        crankback_number(back),
        connection as u32,
    )
}

fn event_values(event: Event) -> Values
    ensures { result ≡ event_values event }
{
    match event {
        Event::Trigger => brought(1, 0, 0, 0, 0),
        Event::PathFound => brought(2, 0, 0, 0, 0),
        Event::NoPath => brought(3, 0, 0, 0, 0),
        Event::Connect(connection, policy) => brought(
            4,
            flag_number(policy),
            0,
            0,
            connection as u32,
        ),
        Event::Setup(switchover, number) => brought(5, switchover.code, 0, 0, number),
        Event::FromParty(cause) => calling_values(cause),
        Event::FromDomain(connection, cause, back) => called_values(connection, cause, back),
        Event::Ready => brought(8, 0, 0, 0, 0),
        Event::Expiry => brought(9, 0, 0, 0, 0),
    }
}

fn act_values(act: Act) -> Values
    ensures { result ≡ act_values act }
{
    match act {
        Act::Opens(wanted) => open_values(wanted),
        Act::Meets(event) => event_values(event),
    }
}

fn laid_out(key: u32, values: Values) -> [u8; 16]
    ensures { result ≡ laid_out key values }
{
    let [k0, k1, k2, k3] = key.to_be_bytes();
    let [n0, n1, n2, n3] = values.number.to_be_bytes();
    [
        values.kind,
        values.first,
        values.second,
        values.third,
        k0,
        k1,
        k2,
        k3,
        n0,
        n1,
        n2,
        n3,
        0,
        0,
        0,
        0,
    ]
}

fn values_at(node: Node, values: Values) -> Values
    ensures { result ≡ values_at node values }
{
    Values {
        kind: kind_at(node, values.kind),
        ..values
    }
}

pub fn encode(node: Node, key: u32, act: Act) -> [u8; 16]
    ensures { result ≡ written_at node key act }
{
    laid_out(key, values_at(node, act_values(act)))
}

// The record at a place among octets that were read.
#[tactic(auto, unfolding(crate::specs::Places::record_at))]
pub fn record_at(octets: &[u8], place: usize) -> [u8; 16]
    requires { place + 16 ≤ length octets.now }
    ensures { result ≡ record_at octets.now place }
{
    *octets[place..].first_chunk::<16>().unwrap()
}

// What stands behind the last whole record among the first octets comes to the front; how many octets that is.
pub fn keep_rest(octets: &mut [u8], filled: usize) -> usize
    ensures { (result ≡ rest_length octets.old filled) × (octets.new ≡ rest_kept octets.old filled) }
{
    if octets.len() < filled {
        return 0;
    }
    let kept = filled % 16;
    octets.copy_within(filled - kept..filled, 0);
    kept
}
