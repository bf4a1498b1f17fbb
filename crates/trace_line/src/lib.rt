// The lines of the trace and of the watch: what an event record did, in numbers.
#![tactic(auto)]

ghost use Rattle.std.specs.Prelude.{◌≡◌};
ghost use Rattle.lines.specs.Line.{with_text};
ghost use Rattle.trace_line.specs.Line.{first_line, numbers_text, rest_text, line_text};

use call::Outcome;
use fields::{put_count, put_field};
use lines::Line;
use rows::State;
use signal::Answer;

// What a line shows: the six numbers of the trace; or, for the watch, the last number given and the signals too.
#[derive(Clone, Copy)]
pub enum Columns {
    Trace,
    Watch,
}

// The names of the columns.
#[tactic(auto, unfolding(crate::specs::Line::first_line))]
pub fn put_first_line(line: &mut Line, columns: Columns)
    ensures { line.new ≡ with_text line.old (first_line columns) }
{
    match columns {
        Columns::Trace => line.put_word(b"line answer state incumbent rerouting number\n"),
        Columns::Watch => {
            line.put_word(b"line answer state incumbent rerouting number last signals\n")
        }
    }
}

// The answer, the state, and what it holds.
#[tactic(auto, using(lines::proofs::Lines::texts_put), unfolding(crate::specs::Line::numbers_text))]
fn put_numbers(line: &mut Line, answer: Answer, state: State)
    ensures { line.new ≡ with_text line.old (numbers_text answer state) }
{
    put_field(line, answer.number() as u32, b' ');
    put_field(line, state.number() as u32, b' ');
    put_field(line, state.incumbent() as u32, b' ');
    put_field(line, state.rerouting() as u32, b' ');
}

#[tactic(auto, using(lines::proofs::Lines::texts_put, lines::proofs::Lines::byte_put), unfolding(crate::specs::Line::rest_text))]
fn put_rest(line: &mut Line, columns: Columns, outcome: Outcome)
    ensures { line.new ≡ with_text line.old (rest_text columns outcome) }
{
    match columns {
        Columns::Trace => put_field(line, outcome.call.remote, b'\n'),
        Columns::Watch => {
            put_field(line, outcome.call.remote, b' ');
            put_field(line, outcome.call.last as u32, b' ');
            signal_words::put_signals(line, outcome.signals);
            line.put_byte(b'\n');
        }
    }
}

// The line of a record: its count, and what came of it.
#[tactic(auto, using(lines::proofs::Lines::texts_put), unfolding(crate::specs::Line::line_text))]
pub fn put_line(line: &mut Line, columns: Columns, count: u64, outcome: Outcome)
    ensures { line.new ≡ with_text line.old (line_text columns count outcome) }
{
    put_count(line, count, b' ');
    put_numbers(line, outcome.answer, outcome.call.state);
    put_rest(line, columns, outcome);
}
