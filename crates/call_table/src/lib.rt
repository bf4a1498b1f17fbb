// The table of calls, lent as a row of records, at either end: openings and events by key, with the refusals 101 to 105 before the record's
// own. The two ends have a table each; which end a row of records is of, its caller says with each act.
//
// Few thin functions touch the lent row (survey, put, handle, look, fetch, handle_fit) and one the row by value (handle64). The loops of
// survey and look keep what the crate lent says of a scan. All that they decide, the other functions decide on plain values.
#![tactic(auto)]

ghost use Rattle.std.specs.Prelude.{◌≡◌, ◌&&◌, eqb, not, set};
ghost use Rattle.call.specs.Events.{half_of};
ghost use Rattle.rows.specs.declared.State.TheVariants.{SoftProceeding};
ghost use Rattle.call_table.specs.Fit.{is_emptied, is_within, fit_held, fit_record};
ghost use Rattle.call_table.specs.Table.{place_in, call_in, later_of, sought_of, step_of, seen_of, keys_of};
ghost use Rattle.call_table.specs.Table.{refused_at, placed_at, decide_fit_of, decide_of, ran_of, table_of, ran_fit_of, table_fit_of};
ghost use Rattle.call_table.specs.Reading.{is_enough, places_in, fetched_from, needed_by, unread_at, decide_at_of};

use call::{Call, Outcome};
use events::{Act, NodeAct};
use rows::State;
use signal::{Answer, Signal, Soft};

// What is found of the record with the key, and of the lowest empty one: its place and itself, or its place alone.
#[derive(Clone, Copy)]
pub struct Sought<T> {
    pub found: Option<T>,
    pub free: Option<T>,
}

// What one reading of the row tells: that every record is fit by itself, and what is sought, which counts where one is
// unfit too (`seen_of`).
#[derive(Clone, Copy)]
pub struct Seen {
    pub sound: bool,
    pub sought: Sought<(usize, Call)>,
}

#[derive(Clone, Copy)]
pub struct Done {
    pub answer: Answer,
    pub signals: [Signal; 4],
}

// A table of 64 by value, with what was done.
#[derive(Clone, Copy)]
pub struct SixtyFour {
    pub table: [Call; 64],
    pub done: Done,
}

// What is decided: the answer, and the record to put at a place. A refusal's place is past the end, and no `None`:
// so the new row is one equation for every outcome (decision 34).
#[derive(Clone, Copy)]
pub struct Ran {
    pub done: Done,
    pub at: usize,
    pub call: Call,
}

fn emptied(call: Call) -> bool
    ensures { result ≡ is_emptied call }
{
    matches!(
        call,
        Call {
            hard: false,
            soft: Soft::NoSoft,
            state: State::Null,
            last: 0,
            remote: 0,
            ..
        }
    )
}

fn within(last: u16, number: u16) -> bool
    ensures { result ≡ is_within last number }
{
    number != 0 && number <= last
}

fn both_within(last: u16, incumbent: u16, rerouting: u16) -> bool
    ensures { result ≡ fit_held last (SoftProceeding incumbent rerouting) }
{
    incumbent != rerouting && within(last, incumbent) && within(last, rerouting)
}

// A number that is within is at least 1, and so is the last number then: only where nothing is held is it asked for.
fn held_fit(last: u16, state: State) -> bool
    ensures { result ≡ (not (eqb last 0) && fit_held last state) }
{
    match state {
        State::Null => false,
        State::HardWaiting => last != 0,
        State::Idle(n) | State::HardUnderway(n) | State::SoftTriggered(n) => within(last, n),
        State::SoftProceeding(i, r) | State::SoftInitiated(i, r) | State::Awaiting(i, r) =>
            both_within(last, i, r),
    }
}

fn record_fit(call: Call) -> bool
    ensures { result ≡ fit_record call }
{
    if call.key == 0 {
        emptied(call)
    } else {
        held_fit(call.last, call.state)
    }
}

// What is found stays; else what is at hand is it, where its key, k, is the one. The key is compared first: few records have it. What stays
// is not written anew, so that a record that is passed over costs no copy (docs/SPEED.md).
fn note<T: Copy>(found: &mut Option<T>, key: u32, k: u32, at: T)
    ensures { found.new ≡ later_of found.old key k at }
{
    if k == key && found.is_none() {
        *found = Some(at);
    }
}

fn seek<T: Copy>(s: &mut Sought<T>, key: u32, k: u32, at: T)
    ensures { s.new ≡ sought_of s.old key k at }
{
    note(&mut s.found, key, k, at);
    note(&mut s.free, 0, k, at);
}

fn step(s: &mut Seen, key: u32, i: usize, c: Call)
    ensures { s.new ≡ step_of s.old key i c }
{
    s.sound = s.sound && record_fit(c);
    seek(&mut s.sought, key, c.key, (i, c));
}

// One reading: each record once, its key into the lent array.
fn survey(t: &[Call], key: u32, keys: &mut [u32]) -> Seen
    ensures { (result ≡ seen_of t.now key)
        × (keys.new ≡ keys_of keys.old t.now) }
{
    let mut s = Seen {
        sound: true,
        sought: Sought {
            found: None,
            free: None,
        },
    };
    for (i, &c) in t.iter().enumerate() {
        if i < keys.len() {
            keys[i] = c.key;
        }
        step(&mut s, key, i, c);
    }
    s
}

// Nothing more of the row is needed: key 0 is refused in any case, and once the lowest record with the key is known neither a later one nor
// an empty one is asked for.
fn enough(s: Sought<usize>, key: u32) -> bool
    ensures { result ≡ is_enough s key }
{
    key == 0 || s.found.is_some()
}

// One reading without the check: of each record the key alone, and no further than need be.
fn look(t: &[Call], key: u32) -> Sought<usize>
    ensures { result ≡ places_in t.now key }
{
    let mut s = Sought {
        found: None,
        free: None,
    };
    for (i, c) in t.iter().enumerate() {
        if enough(s, key) {
            return s;
        }
        seek(&mut s, key, c.key, i);
    }
    s
}

// The record at a place; past the end there is none.
fn fetch(t: &[Call], i: usize) -> Option<(usize, Call)>
    ensures { result ≡ fetched_from t.now i }
{
    t.get(i).map(|c| (i, *c))
}

// The record is put back; past the end nothing is.
fn put(t: &mut [Call], i: usize, c: Call)
    ensures { t.new ≡ set t.old i c }
{
    if i < t.len() {
        t[i] = c;
    }
}

fn refused(n: usize, answer: Answer) -> Ran
    ensures { result ≡ refused_at n answer }
{
    Ran {
        done: Done {
            answer,
            signals: [Signal::NONE; 4],
        },
        at: n,
        call: Call::EMPTY,
    }
}

fn placed(i: usize, o: Outcome) -> Ran
    ensures { result ≡ placed_at i o }
{
    // an array that is a field goes into a literal by way of a variable: straight, no proof of it is made
    let signals = o.signals;
    Ran {
        done: Done {
            answer: o.answer,
            signals,
        },
        at: i,
        call: o.call,
    }
}

// What was found; else an empty record past the end of a row of n records.
fn or_past(n: usize, found: Option<(usize, Call)>) -> (usize, Call)
    ensures { result ≡ (place_in n found, call_in found) }
{
    found.unwrap_or((n, Call::EMPTY))
}

// 102 to 105 are decided by admission; else a new call takes the lowest empty record, or the record of the key follows its row.
fn decide_fit(n: usize, s: Sought<(usize, Call)>, key: u32, asked: NodeAct) -> Ran
    ensures { result ≡ decide_fit_of (half_of asked.node) n s key asked.act }
{
    match admission::admit(key, asked.act, s.found.is_none(), s.free.is_none()) {
        Err(answer) => refused(n, answer),
        Ok(Act::Opens(wanted)) => {
            let (at, _) = or_past(n, s.free);
            placed(at, Call::opened(key, wanted))
        }
        Ok(Act::Meets(event)) => {
            let (at, call) = or_past(n, s.found);
            placed(at, call.handle(asked.node, event))
        }
    }
}

// The place of the record that is needed: an event's; an opening needs none.
fn needed(n: usize, s: Sought<usize>, asked: NodeAct) -> usize
    ensures { result ≡ needed_by n s asked.act }
{
    match asked.act {
        Act::Opens(_) => n,
        Act::Meets(_) => s.found.unwrap_or(n),
    }
}

// A place, without its record.
fn unread(place: Option<usize>) -> Option<(usize, Call)>
    ensures { result ≡ unread_at place }
{
    place.map(|i| (i, Call::EMPTY))
}

// Decided of the places and of what was fetched, as of the whole row.
fn decide_at(
    n: usize,
    s: Sought<usize>,
    fetched: Option<(usize, Call)>,
    key: u32,
    asked: NodeAct,
) -> Ran
    ensures { result ≡ decide_at_of (half_of asked.node) n s fetched key asked.act }
{
    let sought = Sought {
        found: fetched.or(unread(s.found)),
        free: unread(s.free),
    };
    decide_fit(n, sought, key, asked)
}

// 101 comes first of all.
fn decide(n: usize, s: Seen, ok: bool, key: u32, asked: NodeAct) -> Ran
    ensures { result ≡ decide_of (half_of asked.node) n s ok key asked.act }
{
    if ok && s.sound {
        decide_fit(n, s.sought, key, asked)
    } else {
        refused(n, Answer::TableUnfit)
    }
}

// One opening or event by key, over any row of records.
#[tactic(auto, using(crate::proofs::Keys::keys_fit))]
pub fn handle(t: &mut [Call], key: u32, asked: NodeAct) -> Done
    ensures { (result ≡ (ran_of (half_of asked.node) t.old key asked.act).done)
        × (t.new ≡ table_of (half_of asked.node) t.old key asked.act) }
{
    let mut keys = [0u32; 1024];
    let s = survey(t, key, &mut keys);
    let n = t.len();
    let ok = distinct::unique(&keys, n);
    let d = decide(n, s, ok, key, asked);
    put(t, d.at, d.call);
    d.done
}

// The same without the check of the table, for a row that is known to be fit: it reads the keys, no further than need be, and for an event
// its record.
#[tactic(auto, using(crate::proofs::Stopped::enough_is_read))]
pub fn handle_fit(t: &mut [Call], key: u32, asked: NodeAct) -> Done
    ensures { (result ≡ (ran_fit_of (half_of asked.node) t.old key asked.act).done)
        × (t.new ≡ table_fit_of (half_of asked.node) t.old key asked.act) }
{
    let s = look(t, key);
    let n = t.len();
    let at = needed(n, s, asked);
    let f = fetch(t, at);
    let d = decide_at(n, s, f, key, asked);
    put(t, d.at, d.call);
    d.done
}

// The checked entry over a table of 64 by value, for callers that lend no row.
pub fn handle64(mut table: [Call; 64], key: u32, asked: NodeAct) -> SixtyFour
    ensures { (result.done ≡ (ran_of (half_of asked.node) table key asked.act).done)
        × (result.table ≡ table_of (half_of asked.node) table key asked.act) }
{
    let done = handle(&mut table, key, asked);
    SixtyFour { table, done }
}
