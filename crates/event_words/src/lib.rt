// An event in words: with its key, as a line of `script` has them, for instance `setup 7 clearing 3` (docs/BENCH.md), or without
// (docs/CELLS.md).
//
// Each function puts what it is named after onto a line (crate lines).
#![tactic(auto, using(lines::proofs::Lines::texts_put, lines::proofs::Lines::nothing_put))]

ghost use Rattle.std.specs.Prelude.{◌≡◌};
ghost use Rattle.lines.specs.Line.{with_text};
ghost use Rattle.event_words.specs.Words.{hard_text, soft_text, wanted_text, policy_text, switchover_text};
ghost use Rattle.event_words.specs.Words.{received_cause_text, crankback_text, party_text, domain_text, event_name, name_text};
ghost use Rattle.event_words.specs.Words.{values_text, keyless_text, brought_text, event_text, program_text};
ghost use Rattle.events.specs.declared.Event.TheVariants.{Connect, Setup, FromDomain};

use events::{Act, Event, Node};
use lines::Line;
use signal::{Crankback, ReroutingCause, Services, Soft, Switchover};

fn put_hard(line: &mut Line, hard: bool)
    ensures { line.new ≡ with_text line.old (hard_text hard) }
{
    if hard {
        line.put_word(b" hard");
    } else {
        line.put_word(b" nohard");
    }
}

fn put_soft(line: &mut Line, soft: Soft)
    ensures { line.new ≡ with_text line.old (soft_text soft) }
{
    match soft {
        Soft::NoSoft => line.put_word(b" none"),
        Soft::Asymmetric => line.put_word(b" asymmetric"),
        Soft::Symmetric => line.put_word(b" symmetric"),
    }
}

fn put_wanted(line: &mut Line, wanted: Option<Services>)
    ensures { line.new ≡ with_text line.old (wanted_text wanted) }
{
    match wanted {
        None => {}
        Some(services) => {
            put_hard(line, services.hard);
            put_soft(line, services.soft);
        }
    }
}

fn put_policy(line: &mut Line, policy: bool)
    ensures { line.new ≡ with_text line.old (policy_text policy) }
{
    if policy {
        line.put_word(b" yes");
    } else {
        line.put_word(b" no");
    }
}

fn put_switchover(line: &mut Line, code: u8)
    ensures { line.new ≡ with_text line.old (switchover_text code) }
{
    match code {
        0 => line.put_word(b" immediate"),
        1 => line.put_word(b" clearing"),
        _ => line.put_numbered(b" ", code as u64),
    }
}

fn put_cause(line: &mut Line, cause: Option<ReroutingCause>)
    ensures { line.new ≡ with_text line.old (received_cause_text cause) }
{
    match cause {
        None => {}
        Some(given) => {
            line.put_numbered(b" cause ", given.number as u64);
        }
    }
}

fn put_crankback(line: &mut Line, back: Crankback)
    ensures { line.new ≡ with_text line.old (crankback_text back) }
{
    match back {
        Crankback::NoCrankback => {}
        Crankback::AlternateFound => line.put_word(b" alternate"),
        Crankback::NoAlternate => line.put_word(b" noalternate"),
    }
}

// The side of the node's own party. Two arms here and two below are as plain as one function with a parameter.
fn put_party(line: &mut Line, node: Node)
    ensures { line.new ≡ with_text line.old (party_text node) }
{
    match node {
        Node::Source => line.put_word(b"calling"),
        Node::Destination => line.put_word(b"called"),
    }
}

// The side across the domain.
fn put_domain(line: &mut Line, node: Node)
    ensures { line.new ≡ with_text line.old (domain_text node) }
{
    match node {
        Node::Source => line.put_word(b"called"),
        Node::Destination => line.put_word(b"calling"),
    }
}

fn put_event_name(line: &mut Line, node: Node, event: Event)
    ensures { line.new ≡ with_text line.old (event_name node event) }
{
    match event {
        Event::Trigger => line.put_word(b"trigger"),
        Event::PathFound => line.put_word(b"path"),
        Event::NoPath => line.put_word(b"nopath"),
        Event::Connect(_, _) => line.put_word(b"connect"),
        Event::Setup(_, _) => line.put_word(b"setup"),
        Event::FromParty(_) => put_party(line, node),
        Event::FromDomain(_, _, _) => put_domain(line, node),
        Event::Ready => line.put_word(b"ready"),
        Event::Expiry => line.put_word(b"expiry"),
    }
}

fn put_name(line: &mut Line, node: Node, act: Act)
    ensures { line.new ≡ with_text line.old (name_text node act) }
{
    match act {
        Act::Opens(_) => line.put_word(b"open"),
        Act::Meets(event) => put_event_name(line, node, event),
    }
}

fn put_connect(line: &mut Line, connection: u16, policy: bool)
    ensures { line.new ≡ with_text line.old (values_text (Connect connection policy)) }
{
    line.put_numbered(b" ", connection as u64);
    put_policy(line, policy);
}

fn put_setup(line: &mut Line, switchover: Switchover, number: u32)
    ensures { line.new ≡ with_text line.old (values_text (Setup switchover number)) }
{
    put_switchover(line, switchover.code);
    line.put_numbered(b" ", number as u64);
}

fn put_called(line: &mut Line, connection: u16, cause: Option<ReroutingCause>, back: Crankback)
    ensures { line.new ≡ with_text line.old (values_text (FromDomain connection cause back)) }
{
    line.put_numbered(b" ", connection as u64);
    put_cause(line, cause);
    put_crankback(line, back);
}

fn put_values(line: &mut Line, event: Event)
    ensures { line.new ≡ with_text line.old (values_text event) }
{
    match event {
        Event::Trigger | Event::PathFound | Event::NoPath | Event::Ready | Event::Expiry => {}
        Event::Connect(connection, policy) => put_connect(line, connection, policy),
        Event::Setup(switchover, number) => put_setup(line, switchover, number),
        Event::FromParty(cause) => put_cause(line, cause),
        Event::FromDomain(connection, cause, back) => put_called(line, connection, cause, back),
    }
}

// An event of a call that is known.
pub fn put_keyless(line: &mut Line, node: Node, event: Event)
    ensures { line.new ≡ with_text line.old (keyless_text node event) }
{
    put_event_name(line, node, event);
    put_values(line, event);
}

fn put_brought(line: &mut Line, act: Act)
    ensures { line.new ≡ with_text line.old (brought_text act) }
{
    match act {
        Act::Opens(wanted) => put_wanted(line, wanted),
        Act::Meets(event) => put_values(line, event),
    }
}

// The name of a program, which at the destination node begins with that node's.
pub fn put_program(line: &mut Line, node: Node, name: &[u8])
    ensures { line.new ≡ with_text line.old (program_text node name.now) }
{
    if let Node::Destination = node {
        line.put_word(b"destination_");
    }
    line.put_word(name);
}

// A line of `script`, without its end.
pub fn put_event(line: &mut Line, node: Node, key: u32, act: Act)
    ensures { line.new ≡ with_text line.old (event_text node key act) }
{
    put_name(line, node, act);
    line.put_numbered(b" ", key as u64);
    put_brought(line, act);
}
