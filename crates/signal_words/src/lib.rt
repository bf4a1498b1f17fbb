// The four signals of an event in words, as the bench prints them: `-` where none is sent, else for instance `switch 4, release incumbent 3
// #4`.
#![tactic(auto, using(lines::proofs::Lines::texts_put, lines::proofs::Lines::nothing_put))]

ghost use Rattle.std.specs.Prelude.{◌≡◌, ◌||◌};
ghost use Rattle.lines.specs.Line.{with_text};
ghost use Rattle.signal_words.specs.Words.{is_sent, kind_text, sent_cause_text, cause_code_text, signal_text, next_text, signals_text};

use lines::Line;
use signal::{CauseCode, Kind, SentCause, Signal};

fn sent(kind: Kind) -> bool
    ensures { result ≡ is_sent kind }
{
    !matches!(kind, Kind::NoSignal)
}

// Whether one stands before the next.
fn stands(before: bool, kind: Kind) -> bool
    ensures { result ≡ (before || is_sent kind) }
{
    before || sent(kind)
}

fn put_kind(line: &mut Line, kind: Kind, connection: u16)
    ensures { line.new ≡ with_text line.old (kind_text kind connection) }
{
    let number = connection as u64;
    match kind {
        Kind::NoSignal => {}
        Kind::TimerStart => line.put_word(b"timer start"),
        Kind::TimerStop => line.put_word(b"timer stop"),
        Kind::Switch => line.put_numbered(b"switch ", number),
        Kind::CallingRelease => line.put_word(b"release calling"),
        Kind::IncumbentRelease => line.put_numbered(b"release incumbent ", number),
        Kind::ReroutingRelease => line.put_numbered(b"release rerouting ", number),
        Kind::SetupRequest => line.put_numbered(b"setup ", number),
        Kind::ConnectRequest => line.put_numbered(b"connect ", number),
        Kind::Rejection => line.put_word(b"reject"),
        Kind::CalledRelease => line.put_word(b"release called"),
    }
}

// A cause by its number, or as received.
fn put_cause(line: &mut Line, cause: SentCause)
    ensures { line.new ≡ with_text line.old (sent_cause_text cause) }
{
    match cause {
        SentCause::Absent => {}
        SentCause::Numbered(given) => line.put_numbered(b" #", given.number as u64),
        SentCause::AsReceived(given) => line.put_numbered(b" =", given.number as u64),
    }
}

fn put_code(line: &mut Line, code: CauseCode)
    ensures { line.new ≡ with_text line.old (cause_code_text code) }
{
    match code {
        CauseCode::Section66 => {}
        CauseCode::CallRejected => line.put_word(b" cause 21"),
    }
}

fn put_signal(line: &mut Line, signal: Signal)
    ensures { line.new ≡ with_text line.old (signal_text signal) }
{
    put_kind(line, signal.kind, signal.connection);
    put_cause(line, signal.cause);
    put_code(line, signal.code);
}

// A signal that is sent; a comma parts it from one that stands before it.
fn put_next(line: &mut Line, before: bool, signal: Signal)
    ensures { line.new ≡ with_text line.old (next_text before signal) }
{
    if sent(signal.kind) {
        if before {
            line.put_word(b", ");
        }
        put_signal(line, signal);
    }
}

pub fn put_signals(line: &mut Line, signals: [Signal; 4])
    ensures { line.new ≡ with_text line.old (signals_text signals) }
{
    let mut before = false;
    for signal in signals {
        put_next(line, before, signal);
        before = stands(before, signal.kind);
    }
    if !before {
        line.put_byte(b'-');
    }
}
