// The line on standard error where a run ends early (docs/BENCH.md, "script").
ghost use Rattle.std.specs.Prelude.{◌≡◌};
ghost use Rattle.lines.specs.Lines.{ascii};
ghost use Rattle.lines.specs.Line.{with_text};
ghost use Rattle.event_words.specs.Words.{program_text};
ghost use Rattle.script_feed.specs.Complaint.{complaint_start, complaint_text, too_long_text};

use event_words::put_program;
use events::Node;
use lines::Line;
use script_words::{What, put_what};
use streams::Failure;

// The program's own name, which begins every line on standard error.
fn put_name(line: &mut Line, node: Node)
    ensures { line.new ≡ with_text line.old (program_text node (ascii "script")) }
{
    put_program(line, node, b"script");
}

// So in list_feed and, with a name that it is given, trace_feed: one public function for the three would save a line in each.
pub(crate) fn put_failure(line: &mut Line, node: Node, failure: Failure) {
    put_name(line, node);
    line.put_word(&failure.told());
}

fn put_start(line: &mut Line, node: Node, number: u64)
    ensures { line.new ≡ with_text line.old (complaint_start node number) }
{
    put_name(line, node);
    line.put_numbered(b": line ", number);
    line.put_word(b": expected ");
}

pub(crate) fn put_expected(line: &mut Line, node: Node, number: u64, what: What)
    ensures { line.new ≡ with_text line.old (complaint_text node number what) }
{
    put_start(line, node, number);
    put_what(line, what);
    line.put_word(b"\n");
}

pub(crate) fn put_too_long(line: &mut Line, node: Node, number: u64)
    ensures { line.new ≡ with_text line.old (too_long_text node number) }
{
    put_start(line, node, number);
    line.put_word(b"at most 4096 octets before a comment or the end of the line");
    line.put_word(b"\n");
}
