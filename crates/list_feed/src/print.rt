// The line of a record, and what is told of one that is bad or cut short.
ghost use Rattle.std.specs.Prelude.{◌≡◌};
ghost use Rattle.lines.specs.Lines.{ascii};
ghost use Rattle.lines.specs.Line.{with_text};
ghost use Rattle.event_words.specs.Words.{program_text};
ghost use Rattle.list_feed.specs.Line.{listed_text, record_text, bad_record_text, short_record_text};

use event_fault::Fault;
use event_words::put_program;
use events::{Act, Node};
use lines::Line;
use streams::Failure;

pub(crate) fn put_line(line: &mut Line, node: Node, count: u64, key: u32, act: Act)
    ensures { line.new ≡ with_text line.old (listed_text node count key act) }
{
    event_words::put_event(line, node, key, act);
    line.put_numbered(b"  # ", count);
    line.put_word(b"\n");
}

// The program's own name, which begins every line on standard error.
fn put_name(line: &mut Line, node: Node)
    ensures { line.new ≡ with_text line.old (program_text node (ascii "list")) }
{
    put_program(line, node, b"list");
}

// So in script_feed and, with a name that it is given, trace_feed: one public function for the three would save a line in each.
pub(crate) fn put_failure(line: &mut Line, node: Node, failure: Failure) {
    put_name(line, node);
    line.put_word(&failure.told());
}

fn put_record(line: &mut Line, node: Node, count: u64)
    ensures { line.new ≡ with_text line.old (record_text node count) }
{
    put_name(line, node);
    line.put_numbered(b": record ", count);
    line.put_word(b": ");
}

pub(crate) fn put_bad(line: &mut Line, node: Node, count: u64, fault: Option<Fault>)
    ensures { line.new ≡ with_text line.old (bad_record_text node count fault) }
{
    put_record(line, node, count);
    event_fault::put_fault(line, fault);
    line.put_word(b"\n");
}

pub(crate) fn put_short(line: &mut Line, node: Node, count: u64, came: u64)
    ensures { line.new ≡ with_text line.old (short_record_text node count came) }
{
    put_record(line, node, count);
    line.put_numbered(b"byte ", came);
    line.put_word(b" is missing, expected 16 bytes");
    line.put_word(b"\n");
}
