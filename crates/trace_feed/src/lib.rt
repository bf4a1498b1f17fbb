// Event records from standard input, and their lines to standard output, as they come: the programs `trace`
// and `watch`, and those of the destination.
//
// What a record does, and every byte of its line, stands in trace_run; here is reading and writing. Each read is answered before the next,
// so that a live feed shows at once.
#![tactic(auto)]

use call::Call;
use events::Node;
use lines::Line;
use std::io::{Stderr, Stdin, Stdout};
use streams::Failure;
use trace_line::Columns;

// Where a program reads and writes, of which end and with which columns, and the name by which it tells what fails.
#[derive(Clone, Copy)]
struct Console<'a> {
    stdin: Stdin,
    stdout: Stdout,
    stderr: Stderr,
    node: Node,
    columns: Columns,
    name: &'a [u8],
}

pub fn serve(rt: HostRuntime, node: Node, columns: Columns, name: &[u8]) {
    let console = Console {
        stdin: rt.stdin(),
        stdout: rt.stdout(),
        stderr: rt.stderr(),
        node,
        columns,
        name,
    };
    // room for the lines of 4,096 records, of 160 octets each; the longest has less
    let mut out: [u8; 655360] = streams::zeros();
    let mut input: [u8; 65536] = streams::zeros();
    if let Err(failure) = console.run(&mut out, &mut input) {
        console.complain(failure);
    }
}

impl Console<'_> {
    // The first line, and then the input as it comes.
    fn run(mut self, out: &mut [u8], input: &mut [u8; 65536]) -> Result<(), Failure> {
        let mut line = Line { buffer: out, at: 0 };
        trace_line::put_first_line(&mut line, self.columns);
        streams::write_line(&mut self.stdout, &line)?;
        self.follow(out, input)
    }

    // Until the input ends or a record is bad. A loop has to end, and nothing says that the input does: so the reads are counted, up to a
    // number that no run reaches.
    // list_feed's `run` reads so too: a reader for both would be three public functions more, and would save three lines in each.
    #[tactic(auto, using(event_record::proofs::Buffer::rest_short))]
    fn follow(mut self, out: &mut [u8], input: &mut [u8; 65536]) -> Result<(), Failure> {
        let mut table = [Call::EMPTY; 64];
        let mut count: u64 = 0;
        let mut kept: usize = 0;
        for _ in 0..281474976710656u64 {
            let came = streams::read_some(&mut self.stdin, &mut input[kept..])?;
            if came == 0 {
                return self.finish(kept);
            }
            let filled = kept + came;
            let ran = trace_run::run(self.node, table, &input[..filled], out, self.columns, count);
            let lines = Line {
                buffer: &mut *out,
                at: ran.at,
            };
            streams::write_line(&mut self.stdout, &lines)?;
            if !ran.good {
                break;
            }
            table = ran.table;
            count = ran.count;
            kept = event_record::keep_rest(input, filled);
        }
        Ok(())
    }

    // The input has ended: a record that is cut short is bad.
    fn finish(mut self, kept: usize) -> Result<(), Failure> {
        if kept == 0 {
            return Ok(());
        }
        streams::write_all(&mut self.stdout, b"bad\n")
    }

    // A line on standard error. Where it cannot be written, nobody can be told.
    fn complain(mut self, failure: Failure) {
        let mut out = [0u8; 64];
        let mut line = Line {
            buffer: &mut out,
            at: 0,
        };
        // as `put_failure` of list_feed and of script_feed: one public function for the three would save a line in each
        line.put_word(self.name);
        line.put_word(&failure.told());
        let _ = streams::write_line(&mut self.stderr, &line);
    }
}
