// A call's record as a line of numbers: key, hard, soft, state, incumbent, rerouting, last, remote; 0 for a connection that the state does
// not hold.
#![tactic(auto, using(lines::proofs::Lines::texts_put, lines::proofs::Lines::nothing_put))]

ghost use Rattle.std.specs.Prelude.{◌≡◌};
ghost use Rattle.lines.specs.Line.{with_text};
ghost use Rattle.call_words.specs.Words.{services_text, connections_text, call_text};

use call::Call;
use lines::Line;
use rows::State;
use signal::Soft;

fn put_services(line: &mut Line, hard: bool, soft: Soft)
    ensures { line.new ≡ with_text line.old (services_text hard soft) }
{
    line.put_numbered(b" ", hard as u64);
    line.put_numbered(b" ", soft.number() as u64);
}

// The state, and what it holds.
fn put_connections(line: &mut Line, state: State)
    ensures { line.new ≡ with_text line.old (connections_text state) }
{
    line.put_numbered(b" ", state.number() as u64);
    line.put_numbered(b" ", state.incumbent() as u64);
    line.put_numbered(b" ", state.rerouting() as u64);
}

pub fn put_call(line: &mut Line, call: Call)
    ensures { line.new ≡ with_text line.old (call_text call) }
{
    line.put_number(call.key as u64);
    put_services(line, call.hard, call.soft);
    put_connections(line, call.state);
    line.put_numbered(b" ", call.last as u64);
    line.put_numbered(b" ", call.remote as u64);
}
