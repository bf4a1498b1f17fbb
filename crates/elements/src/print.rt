// A line for a case (docs/ELEMENTS.md, "What is printed").
use cause_element::Names;
use lines::Line;
use std::io::Stdout;
use streams::Failure;

// In lower case.
const DIGITS: [u8; 16] = *b"0123456789abcdef";

// The string that the part is of, its length, and its octets.
pub(crate) fn part(mut stdout: Stdout, string: Names, octets: &[u8]) -> Result<(), Failure> {
    let mut out: [u8; 4096] = streams::zeros();
    let mut line = Line {
        buffer: &mut out,
        at: 0,
    };
    put_name(&mut line, string);
    line.put_number(octets.len() as u64);
    line.put_byte(b' ');
    for octet in octets {
        put_octet(&mut line, *octet);
        streams::write_long(&mut stdout, &mut line, 4000)?;
    }
    line.put_byte(b'\n');
    streams::write_line(&mut stdout, &line)
}

fn put_name(line: &mut Line, string: Names) {
    match string {
        Names::TheReceived => line.put_word(b"received "),
        Names::TheOwn | Names::Neither => line.put_word(b"own "),
    }
}

// Two digits.
fn put_octet(line: &mut Line, octet: u8) {
    line.put_byte(DIGITS[octet as usize / 16]);
    line.put_byte(DIGITS[octet as usize % 16]);
}
