// A line of output, built in a buffer that the caller lends, and written at once.
use crate::Console;
use lines::Line;
use signal::Answer;
use streams::Failure;

// What stands between two parts of a line.
pub(crate) fn put_bar(line: &mut Line) {
    line.put_word(b" | ");
}

pub(crate) fn put_answer(line: &mut Line, answer: Answer) {
    line.put_number(answer.number() as u64);
}

impl Console {
    // Ends the line and writes it. One that fills the buffer may have been cut: that counts as a failure too.
    pub(crate) fn write_line(mut self, line: &mut Line) -> Result<(), Failure> {
        line.put_byte(b'\n');
        streams::write_line(&mut self.stdout, line)
    }
}
