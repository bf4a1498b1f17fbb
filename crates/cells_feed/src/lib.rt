// The cells of one call at an end of it, the openings and the bench run, printed by the letters that are read (docs/CELLS.md): the programs
// `cells` and `destination_cells`.
//
// The methods of `call::Call` decide every event; the rest is printing. `line` parts a line and writes it, crate event_words says openings
// and events in words, and `cells` and `bench` go through what a letter names.
#![tactic(auto)]

mod bench;
mod cells;
mod line;

use events::Node;
use rows::State;
use std::io::{Stdin, Stdout};
use streams::Failure;

// Where lines go, and of which end they are. A method that prints fails as soon as a write does, and then nothing more is written.
#[derive(Clone, Copy)]
pub(crate) struct Console {
    pub(crate) stdout: Stdout,
    pub(crate) node: Node,
}

pub fn serve(rt: HostRuntime, node: Node) {
    let stdout = rt.stdout();
    // where reading or writing fails, the run ends, and nothing is told
    let _ = run(rt.stdin(), Console { stdout, node });
}

// To the end of the input: what a read brings is printed before the next. A loop has to end, and nothing says that the input does: so the
// reads are counted, up to a number that no run reaches.
fn run(mut stdin: Stdin, console: Console) -> Result<(), Failure> {
    let mut letters: [u8; 4096] = streams::zeros();
    for _ in 0..u64::MAX {
        let count = streams::read_some(&mut stdin, &mut letters)?;
        if count == 0 {
            break;
        }
        for letter in &letters[..count] {
            console.print_letter(*letter)?;
        }
    }
    Ok(())
}

impl Console {
    // Where a state holds them, 3 is the incumbent and 5 the rerouting connection.
    fn print_letter(self, letter: u8) -> Result<(), Failure> {
        match letter {
            b'0' => self.print_state(State::Null),
            b'1' => self.print_state(State::Idle(3)),
            b'2' => self.print_state(State::HardWaiting),
            b'3' => self.print_state(State::HardUnderway(5)),
            b'4' => self.print_state(State::SoftTriggered(3)),
            b'5' => self.print_state(State::SoftProceeding(3, 5)),
            b'6' => self.print_state(State::SoftInitiated(3, 5)),
            b'7' => self.print_state(State::Awaiting(3, 5)),
            b'o' => self.print_openings(),
            b'b' => self.print_run(),
            _ => Ok(()),
        }
    }
}
