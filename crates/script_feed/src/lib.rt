// Lines from standard input, an event of an end of a call each, and their records to standard output (docs/BENCH.md, "script"): the
// programs `script` and `destination_script`.
//
// `script_line::parse` reads a line and `event_record::encode` makes its record; the rest is reading and writing. Of a line its octets in
// front of a comment are kept, 4,096 at most.
#![tactic(auto, using(lines::proofs::Lines::texts_put, lines::proofs::Lines::nothing_put))]

mod buffer;
mod print;

use buffer::Buffer;
use events::Node;
use lines::Line;
use script_words::What;
use std::io::{Stderr, Stdin, Stdout};
use streams::Failure;

// Where a program reads and writes, and of which end its lines are.
#[derive(Clone, Copy)]
struct Console {
    stdin: Stdin,
    stdout: Stdout,
    stderr: Stderr,
    node: Node,
}

// Why a run ends early.
#[derive(Clone, Copy)]
enum Stop {
    Fails(Failure),
    TooLong,
    Expected(What),
}

// How far the reading has come.
#[derive(Drop)]
struct Script {
    console: Console,
    // the number of the line
    number: u64,
    // those of its octets that are kept, and whether a comment has begun
    line: Buffer,
    comment: bool,
    // the records that wait to be written
    records: Buffer,
}

pub fn serve(rt: HostRuntime, node: Node) {
    let mut input: [u8; 65536] = streams::zeros();
    let mut script = Script {
        console: Console {
            stdin: rt.stdin(),
            stdout: rt.stdout(),
            stderr: rt.stderr(),
            node,
        },
        number: 1,
        line: Buffer::new(),
        comment: false,
        records: Buffer::new(),
    };
    if let Err(stop) = script.run(&mut input) {
        script.tell(stop);
    }
}

impl From<Failure> for Stop {
    fn from(failure: Failure) -> Stop {
        Stop::Fails(failure)
    }
}

impl Script {
    // To the end of the input: every line that a read ends is written before the next read. A loop has to end, and nothing says that the
    // input does: so the reads are counted, up to a number that no run reaches.
    fn run(&mut self, input: &mut [u8]) -> Result<(), Stop> {
        for _ in 0..u64::MAX {
            let count = streams::read_some(&mut self.console.stdin, input)?;
            if count == 0 {
                self.end_line()?;
                self.write()?;
                break;
            }
            for octet in &input[..count] {
                self.read(*octet)?;
            }
            self.write()?;
        }
        Ok(())
    }

    fn read(&mut self, octet: u8) -> Result<(), Stop> {
        match octet {
            b'\n' => self.end_line()?,
            _ if self.comment => {}
            b'#' => self.comment = true,
            _ => {
                if !self.line.push(octet) {
                    return self.break_off(Stop::TooLong);
                }
            }
        }
        Ok(())
    }

    // The end of a line, or of the input: the line's record, where it names an event.
    fn end_line(&mut self) -> Result<(), Stop> {
        match script_line::parse(self.console.node, self.line.octets()) {
            Ok(None) => {}
            Ok(Some((key, act))) => {
                let record = event_record::encode(self.console.node, key, act);
                self.records.append(&record);
            }
            Err(what) => return self.break_off(Stop::Expected(what)),
        }
        self.number = self.number.wrapping_add(1);
        self.line.clear();
        self.comment = false;
        // room for a record is left where this does not write
        if 4000 < self.records.octets().len() {
            self.write()?;
        }
        Ok(())
    }

    fn write(&mut self) -> Result<(), Failure> {
        streams::write_all(&mut self.console.stdout, self.records.octets())?;
        self.records.clear();
        Ok(())
    }

    // The records before the line, and an octet that no record starts with.
    fn break_off(&mut self, stop: Stop) -> Result<(), Stop> {
        self.write()?;
        streams::write_all(&mut self.console.stdout, b"\xff")?;
        Err(stop)
    }

    // A line on standard error. Where it cannot be written, nobody can be told.
    fn tell(&mut self, stop: Stop) {
        let node = self.console.node;
        let mut out: [u8; 4096] = streams::zeros();
        let mut line = Line {
            buffer: &mut out,
            at: 0,
        };
        match stop {
            Stop::Fails(failure) => print::put_failure(&mut line, node, failure),
            Stop::TooLong => print::put_too_long(&mut line, node, self.number),
            Stop::Expected(what) => print::put_expected(&mut line, node, self.number, what),
        }
        let _ = streams::write_line(&mut self.console.stderr, &line);
    }
}
