// What became of a case (docs/TABLES.md, "What is printed").
use call::Call;
use call_table::Done;
use lines::Line;
use std::io::Stdout;
use streams::Failure;

// More than a line of a record, or of a case, takes.
const LINE: usize = 256;

// The line of the case, and a line for each record.
pub(crate) fn table(
    mut stdout: Stdout,
    number: u64,
    records: &[Call],
    done: Done,
) -> Result<(), Failure> {
    let mut out: [u8; 4096] = streams::zeros();
    let mut line = Line {
        buffer: &mut out,
        at: 0,
    };
    put_done(&mut line, number, records.len(), done);
    for call in records {
        call_words::put_call(&mut line, *call);
        line.put_byte(b'\n');
        streams::write_long(&mut stdout, &mut line, 4096 - LINE)?;
    }
    streams::write_line(&mut stdout, &line)
}

fn put_done(line: &mut Line, number: u64, count: usize, done: Done) {
    line.put_numbered(b"case ", number);
    line.put_numbered(b" answer ", done.answer.number() as u64);
    line.put_numbered(b" n ", count as u64);
    line.put_byte(b' ');
    signal_words::put_signals(line, done.signals);
    line.put_byte(b'\n');
}
