// Event records of an end of a call from standard input, each printed as its line of `script` with its count (docs/BENCH.md, "list"): the
// programs `list` and `destination_list`.
//
// `event_record` says what a record is, and `print` puts its line, or what is wrong with it, into a buffer. The rest is reading and
// writing: all that has come is printed before more is waited for.
#![tactic(auto, using(lines::proofs::Lines::texts_put, lines::proofs::Lines::nothing_put))]

mod print;

use events::Node;
use lines::Line;
use std::io::{Stderr, Stdin, Stdout};
use streams::{Failure, Stop};

// Where a program reads and writes, and whose records it lists.
#[derive(Clone, Copy)]
struct Console {
    stdin: Stdin,
    stdout: Stdout,
    stderr: Stderr,
    node: Node,
}

pub fn serve(rt: HostRuntime, node: Node) {
    let console = Console {
        stdin: rt.stdin(),
        stdout: rt.stdout(),
        stderr: rt.stderr(),
        node,
    };
    let mut input: [u8; 65536] = streams::zeros();
    let mut output: [u8; 65536] = streams::zeros();
    if let Err(Stop::Fails(failure)) = console.run(&mut input, &mut output) {
        console.complain(failure);
    }
}

impl Console {
    // To the end of the input, or to a bad record, which is told. A loop has to end, and nothing says that the input does: so the reads are
    // counted, up to a number that no run reaches.
    // trace_feed's `follow` reads so too: a reader for both would be three public functions more, and would save three lines in each.
    #[tactic(auto, using(event_record::proofs::Buffer::rest_short))]
    fn run(mut self, input: &mut [u8; 65536], output: &mut [u8]) -> Result<(), Stop> {
        // the records that are listed, and the octets at the front of the buffer that are no whole record yet
        let mut listed = 0;
        let mut kept = 0;
        for _ in 0..u64::MAX {
            let came = streams::read_some(&mut self.stdin, &mut input[kept..])?;
            if came == 0 {
                self.finish(listed, kept);
                break;
            }
            let have = kept + came;
            listed = self.list_whole(&input[..have], output, listed)?;
            kept = event_record::keep_rest(input, have);
        }
        Ok(())
    }

    // The records that are whole among the octets: how many are listed with them. No run counts so far that the last number is met twice.
    fn list_whole(mut self, octets: &[u8], output: &mut [u8], listed: u64) -> Result<u64, Stop> {
        let mut count = listed;
        let mut line = Line {
            buffer: output,
            at: 0,
        };
        for record in octets.as_chunks::<16>().0 {
            let decoded = event_record::decode(self.node, *record);
            count = count.saturating_add(1);
            let Some(act) = decoded.request else {
                streams::write_line(&mut self.stdout, &line)?;
                self.refuse(count, *record);
                return Err(Stop::Bad);
            };
            print::put_line(&mut line, self.node, count, decoded.key, act);
            streams::write_long(&mut self.stdout, &mut line, 65000)?;
        }
        streams::write_line(&mut self.stdout, &line)?;
        Ok(count)
    }

    // What is wrong with a bad record.
    fn refuse(self, count: u64, record: [u8; 16]) {
        let fault = event_fault::find(self.node, record);
        let mut out: [u8; 4096] = streams::zeros();
        let mut line = Line {
            buffer: &mut out,
            at: 0,
        };
        print::put_bad(&mut line, self.node, count, fault);
        self.tell(line);
    }

    // The end of the input, which may cut a record short.
    fn finish(self, listed: u64, kept: usize) {
        if kept != 0 {
            let count = listed.saturating_add(1);
            let mut out: [u8; 4096] = streams::zeros();
            let mut line = Line {
                buffer: &mut out,
                at: 0,
            };
            print::put_short(&mut line, self.node, count, kept as u64);
            self.tell(line);
        }
    }

    fn complain(self, failure: Failure) {
        let mut out: [u8; 4096] = streams::zeros();
        let mut line = Line {
            buffer: &mut out,
            at: 0,
        };
        print::put_failure(&mut line, self.node, failure);
        self.tell(line);
    }

    // A line on standard error. Where it cannot be written, nobody can be told.
    fn tell(mut self, line: Line) {
        let _ = streams::write_line(&mut self.stderr, &line);
    }
}
