// Reads cases from standard input, a signal and two strings each, and prints the part that is sent on (docs/ELEMENTS.md).
//
// `cause_element::element` decides every case; the rest is reading and printing.
#![tactic(auto)]

mod print;

use signal::{CauseCode, Kind, ReroutingCause, SentCause, Signal};
use std::io::{Stdin, Stdout};
use streams::Stop;

// Where cases come from, and where their lines go.
#[derive(Clone, Copy)]
struct Console {
    stdin: Stdin,
    stdout: Stdout,
}

fn main(rt: HostRuntime) {
    let mut console = Console {
        stdin: rt.stdin(),
        stdout: rt.stdout(),
    };
    if let Err(Stop::Bad) = console.run() {
        // where this fails too, nothing more was to be written
        let _ = streams::write_all(&mut console.stdout, b"bad\n");
    }
}

impl Console {
    // To the end of the input. A loop has to end, and nothing says that the input does: so the cases are counted, up to a number that no
    // run reaches.
    fn run(mut self) -> Result<(), Stop> {
        let mut received: [u8; 65536] = streams::zeros();
        let mut own: [u8; 65536] = streams::zeros();
        for _ in 0..u64::MAX {
            let mut head = [0u8; 5];
            match streams::read_full(&mut self.stdin, &mut head) {
                0 => break,
                1..=4 => return Err(Stop::Bad),
                _ => self.answer(head, &mut received, &mut own)?,
            }
        }
        Ok(())
    }

    // Reads the rest of a case, and prints its line.
    fn answer(mut self, head: [u8; 5], received: &mut [u8], own: &mut [u8]) -> Result<(), Stop> {
        let [number, given, cause, high, low] = head;
        let signal = signal(number, given, cause).ok_or(Stop::Bad)?;
        let received = self.string([high, low], received)?;
        let mut length = [0u8; 2];
        if streams::read_full(&mut self.stdin, &mut length) < 2 {
            return Err(Stop::Bad);
        }
        let own = self.string(length, own)?;
        let part = cause_element::element(received, own, signal);
        print::part(self.stdout, cause_element::named(signal), part)?;
        Ok(())
    }

    // A string of the length that two octets tell, big-endian, whole.
    fn string<'a>(mut self, length: [u8; 2], buffer: &'a mut [u8]) -> Result<&'a [u8], Stop> {
        let length = u16::from_be_bytes(length) as usize;
        if buffer.len() < length {
            return Err(Stop::Bad);
        }
        let string = &mut buffer[..length];
        if streams::read_full(&mut self.stdin, string) < length {
            return Err(Stop::Bad);
        }
        Ok(string)
    }
}

// None, where a number is not named.
fn signal(number: u8, given: u8, cause: u8) -> Option<Signal> {
    Some(Signal {
        kind: kind(number)?,
        connection: 0,
        cause: sent(given, ReroutingCause { number: cause })?,
        code: CauseCode::Section66,
    })
}

fn sent(given: u8, cause: ReroutingCause) -> Option<SentCause> {
    match given {
        0 => Some(SentCause::Absent),
        1 => Some(SentCause::Numbered(cause)),
        2 => Some(SentCause::AsReceived(cause)),
        _ => None,
    }
}

fn kind(number: u8) -> Option<Kind> {
    match number {
        0 => Some(Kind::NoSignal),
        1 => Some(Kind::TimerStart),
        2 => Some(Kind::TimerStop),
        3 => Some(Kind::Switch),
        4 => Some(Kind::CallingRelease),
        5 => Some(Kind::IncumbentRelease),
        6 => Some(Kind::ReroutingRelease),
        7 => Some(Kind::SetupRequest),
        8 => Some(Kind::ConnectRequest),
        9 => Some(Kind::Rejection),
        10 => Some(Kind::CalledRelease),
        _ => None,
    }
}
