// Cases from standard input, a table of an end's calls and an event each, and what becomes of each, printed (docs/TABLES.md): the programs
// `tables` and `destination_tables`.
//
// An entry of call_table decides each case, on exactly as many records as it has: `handle64` those of 64, `handle` those of any other
// number, and `handle_fit` those that are not to be checked; the rest is reading and printing. `octets` reads a case, `first` gives its
// records to the entry, and `print` says what came of it.
#![tactic(auto)]

mod first;
mod octets;
mod print;

use events::{Node, NodeAct};
use std::io::{Stdin, Stdout};
use streams::Stop;

// Added to the count of a case whose table is not to be checked.
const UNCHECKED: usize = 32768;

// Where a program reads and writes, and whose cases they are.
#[derive(Clone, Copy)]
struct Console {
    stdin: Stdin,
    stdout: Stdout,
    node: Node,
}

pub fn serve(rt: HostRuntime, node: Node) {
    let mut console = Console {
        stdin: rt.stdin(),
        stdout: rt.stdout(),
        node,
    };
    if let Err(Stop::Bad) = console.run() {
        // where this fails too, nothing more was to be written
        let _ = streams::write_all(&mut console.stdout, b"bad\n");
    }
}

impl Console {
    // To the end of the input. A loop has to end, and nothing says that the input does: so the cases are counted, up to a number that no
    // run reaches.
    fn run(mut self) -> Result<(), Stop> {
        let mut body: [u8; 65536] = streams::zeros();
        for number in 1..u64::MAX {
            let mut head = [0u8; 2];
            match streams::read_full(&mut self.stdin, &mut head) {
                0 => break,
                1 => return Err(Stop::Bad),
                _ => self.answer(number, u16::from_be_bytes(head) as usize, &mut body)?,
            }
        }
        Ok(())
    }

    // Reads the rest of a case, and prints what becomes of it.
    fn answer(mut self, number: u64, said: usize, body: &mut [u8; 65536]) -> Result<(), Stop> {
        let count = said % UNCHECKED;
        if 1100 < count {
            return Err(Stop::Bad);
        }
        let size = count * 20 + 16;
        let body = &mut body[..size];
        if streams::read_full(&mut self.stdin, body) < size {
            return Err(Stop::Bad);
        }
        let mut table = octets::records(&body[..count * 20]).ok_or(Stop::Bad)?;
        let event = event_record::decode(self.node, event_record::record_at(body, count * 20));
        let act = event.request.ok_or(Stop::Bad)?;
        let node = self.node;
        let held = &mut table[..count];
        let done = first::handle(said < UNCHECKED, held, event.key, NodeAct { node, act });
        print::table(self.stdout, number, held, done)?;
        Ok(())
    }
}
