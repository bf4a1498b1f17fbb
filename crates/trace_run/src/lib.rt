// The run of the trace, at either end: event records of 16 octets each, over a table of 64 calls by value, and a line for each record.
//
// The keys of the table stand beside it, so that a search reads nothing else. No event is checked for 101: the table that a run is given is
// fit, and stays so.
#![tactic(auto)]

ghost use Rattle.std.specs.Prelude.{◌+◌, ◌≤◌, ◌<◌, ◌^◌, true, ◌≡◌, length, IfSome};
ghost use Rattle.call_table.specs.Fit.{fit_table};
ghost use Rattle.trace_run.specs.Run.{chunk_of};
ghost use Rattle.trace_run.specs.Placed.{keys_in, index_of, place_for, refused_with, carried_on};
ghost use Rattle.trace_run.specs.Placed.{worked_on, unplaced_for, stopped_at, Stops};

use admission::{admit, refusal};
use call::{Call, Outcome};
use event_record::{decode, record_at};
use events::{Act, Node};
use lines::Line;
use signal::{Answer, Signal};
use trace_line::Columns;

// Where a run stops: the table, the place behind the lines, the count of records, and whether none of them was bad.
#[derive(Clone, Copy)]
pub struct Stop {
    pub table: [Call; 64],
    pub at: usize,
    pub count: u64,
    // a flag and no Result: the other fields count where it is false too (`Stops`)
    pub good: bool,
}

fn keys_of(table: [Call; 64]) -> [u32; 64]
    ensures { result ≡ keys_in table }
{
    let mut keys = [0u32; 64];
    // no `map`: a run of one record, as a live feed has them, would take twice the instructions
    for index in 0..64 {
        keys[index] = table[index].key;
    }
    keys
}

// The first place of a key.
fn find(keys: &[u32; 64], key: u32) -> Option<usize>
    ensures at { result ≡ index_of key keys.now }
    ensures within { IfSome result (λ i. i < 64) }
{
    keys.iter().position(|k| *k == key)
}

// The place of the record that an opening or event goes to: where its key was found; else, for an opening, the lowest empty one. An empty
// record is searched for only where the admission depends on it.
fn place_for(keys: &[u32; 64], found: Option<usize>, act: Act) -> Option<usize>
    requires { IfSome found (λ i. i < 64) }
    ensures at { result ≡ place_for keys.now found act }
    ensures within { IfSome result (λ i. i < 64) }
{
    match act {
        Act::Opens(_) if found.is_none() => find(keys, 0),
        _ => found,
    }
}

fn refused(answer: Answer, call: Call) -> Outcome
    ensures { result ≡ refused_with answer call }
{
    Outcome {
        answer,
        call,
        signals: [Signal::NONE; 4],
    }
}

// What comes of an admission at its record, which a refusal leaves as it is.
fn carried(node: Node, call: Call, key: u32, admission: Result<Act, Answer>) -> Outcome
    ensures { result ≡ carried_on node call key admission }
{
    match admission {
        Err(answer) => refused(answer, call),
        Ok(Act::Opens(wanted)) => Call::opened(key, wanted),
        Ok(Act::Meets(event)) => call.handle(node, event),
    }
}

// What comes of an opening or event at the record that it goes to.
fn worked(node: Node, call: Call, key: u32, act: Act, missing: bool) -> Outcome
    ensures { result ≡ worked_on node call key act missing }
{
    carried(node, call, key, admit(key, act, missing, false))
}

// And where it goes to none.
fn unplaced(key: u32, act: Act) -> Outcome
    ensures { result ≡ unplaced_for key act }
{
    refused(refusal(admit(key, act, true, true)), Call::EMPTY)
}

// A bad record ends a run.
fn stopped(table: [Call; 64], at: usize, count: u64, good: bool) -> Stop
    ensures { result ≡ stopped_at table at count good }
{
    Stop {
        table,
        at,
        count,
        good,
    }
}

// Every whole record of the input, in order, to lines at the start of the buffer; a bad one ends the run.
pub fn run(
    node: Node,
    table: [Call; 64],
    input: &[u8],
    out: &mut [u8],
    columns: Columns,
    start: u64,
) -> Stop
    requires { (fit_table table ≡ true) × ((length input.now ≤ 65536) × (start + 4096 < 2 ^ 64)) }
    ensures { Stops (chunk_of node columns input.now table start) result out.old out.new start }
{
    let mut calls = table;
    let mut keys = keys_of(table);
    let mut line = Line { buffer: out, at: 0 };
    let mut count = start;
    for index in 0..input.len() / 16 {
        let decoded = decode(node, record_at(input, index * 16));
        let Some(act) = decoded.request else {
            line.put_word(b"bad\n");
            return stopped(calls, line.at, count, false);
        };
        count += 1;
        let found = find(&keys, decoded.key);
        let outcome = match place_for(&keys, found, act) {
            Some(place) => {
                let outcome = worked(node, calls[place], decoded.key, act, found.is_none());
                calls[place] = outcome.call;
                keys[place] = outcome.call.key;
                outcome
            }
            None => unplaced(decoded.key, act),
        };
        trace_line::put_line(&mut line, columns, count, outcome);
    }
    stopped(calls, line.at, count, true)
}
