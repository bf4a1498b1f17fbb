// What is wrong with an event record that is bad: the first octet that is not named, in the order of octets, and what was expected there;
// and that in words (docs/BENCH.md, "list"). The tests are those of `decode`, which promises another answer (`ExactlyTheBad`).
#![tactic(auto, using(lines::proofs::Lines::texts_put, lines::proofs::Lines::nothing_put))]

ghost use Rattle.std.specs.Prelude.{◌≡◌, cond, ltb, None};
ghost use Rattle.lines.specs.Line.{with_text};
ghost use Rattle.event_fault.specs.Fault.{misses, open_fault, connection_fault, connect_fault, calling_fault, called_fault, kind_fault};
ghost use Rattle.event_fault.specs.Fault.{fault_at};
ghost use Rattle.event_fault.specs.Words.{expected_text, fault_text};

use events::Node;
use lines::Line;

// What an octet is to say.
#[derive(Clone, Copy)]
pub enum Expected {
    SomeEvent,
    NamedOrNot,
    HardFlag,
    SoftService,
    PolicyFlag,
    CausePresent,
    CrankbackFound,
    SmallConnection,
}

// An octet that is not named: its place, its value, and what was expected there.
#[derive(Clone, Copy)]
pub struct Fault {
    pub octet: u8,
    pub value: u8,
    pub expected: Expected,
}

// A fault where the value of an octet is above the highest that is named.
fn above(highest: u8, octet: u8, value: u8, expected: Expected) -> Option<Fault>
    ensures { result ≡ cond (ltb highest value) (misses octet value expected) None }
{
    (highest < value).then_some(Fault {
        octet,
        value,
        expected,
    })
}

fn open(named: u8, hard: u8, soft: u8) -> Option<Fault>
    ensures { result ≡ open_fault named hard soft }
{
    if named == 0 {
        return None;
    }
    above(1, 1, named, Expected::NamedOrNot)
        .or(above(1, 2, hard, Expected::HardFlag))
        .or(above(2, 3, soft, Expected::SoftService))
}

fn connection(highest: u8, high: u8) -> Option<Fault>
    ensures { result ≡ connection_fault highest high }
{
    above(0, 8, highest, Expected::SmallConnection).or(above(0, 9, high, Expected::SmallConnection))
}

fn connect(policy: u8, highest: u8, high: u8) -> Option<Fault>
    ensures { result ≡ connect_fault policy highest high }
{
    above(1, 1, policy, Expected::PolicyFlag).or(connection(highest, high))
}

fn calling(present: u8, back: u8) -> Option<Fault>
    ensures { result ≡ calling_fault present back }
{
    above(1, 1, present, Expected::CausePresent).or(above(2, 3, back, Expected::CrankbackFound))
}

fn called(present: u8, back: u8, highest: u8, high: u8) -> Option<Fault>
    ensures { result ≡ called_fault present back highest high }
{
    above(1, 1, present, Expected::CausePresent)
        .or(above(2, 3, back, Expected::CrankbackFound))
        .or(connection(highest, high))
}

fn of_kind(kind: u8, first: u8, second: u8, third: u8, highest: u8, high: u8) -> Option<Fault>
    ensures { result ≡ kind_fault kind first second third highest high }
{
    match kind {
        0 => open(first, second, third),
        4 => connect(first, highest, high),
        6 => calling(first, third),
        7 => called(first, third, highest, high),
        _ => above(9, 0, kind, Expected::SomeEvent),
    }
}

pub fn find(node: Node, octets: [u8; 16]) -> Option<Fault>
    ensures { result ≡ fault_at node octets }
{
    of_kind(
        event_record::kind_at(node, octets[0]),
        octets[1],
        octets[2],
        octets[3],
        octets[8],
        octets[9],
    )
}

fn put_expected(line: &mut Line, expected: Expected)
    ensures { line.new ≡ with_text line.old (expected_text expected) }
{
    match expected {
        Expected::SomeEvent => line.put_word(b"an event, 0 to 9"),
        Expected::NamedOrNot => line.put_word(b"0 for default services or 1 for named"),
        Expected::HardFlag => line.put_word(b"hard, 0 or 1"),
        Expected::SoftService => line.put_word(b"soft, 0 to 2"),
        Expected::PolicyFlag => line.put_word(b"policy, 1 yes or 0 no"),
        Expected::CausePresent => line.put_word(b"cause present, 0 or 1"),
        Expected::CrankbackFound => line.put_word(b"crankback, 0 to 2"),
        Expected::SmallConnection => line.put_word(b"0, since a connection is 0 to 65535"),
    }
}

// Nothing where there is no fault.
pub fn put_fault(line: &mut Line, fault: Option<Fault>)
    ensures { line.new ≡ with_text line.old (fault_text fault) }
{
    if let Some(fault) = fault {
        line.put_numbered(b"byte ", fault.octet as u64);
        line.put_numbered(b" is ", fault.value as u64);
        line.put_word(b", expected ");
        put_expected(line, fault.expected);
    }
}
