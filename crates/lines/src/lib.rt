// Lines for people, built in a buffer that the caller lends.
//
// A line is the buffer and the place where its next byte goes. Past the end nothing is stored and the place stays, so that no function asks
// anything of its caller.
#![tactic(auto)]

ghost use Rattle.std.specs.Prelude.{◌≡◌, ◌++◌};
ghost use Rattle.lines.specs.Lines.{page, put_byte, put_text, number_text};
ghost use Rattle.lines.specs.Line.{with_byte, with_text};

#[derive(Drop)]
pub struct Line<'a> {
    pub buffer: &'a mut [u8],
    pub at: usize,
}

impl Line<'_> {
    pub fn put_byte(&mut self, byte: u8)
        ensures { self.new ≡ with_byte self.old byte }
    {
        self.at = put_at(self.buffer, self.at, byte);
    }

    pub fn put_word(&mut self, word: &[u8])
        ensures { self.new ≡ with_text self.old word.now }
    {
        self.at = put_from(self.buffer, self.at, word);
    }

    // In decimal.
    pub fn put_number(&mut self, number: u64)
        ensures { self.new ≡ with_text self.old (number_text number) }
    {
        let mut digits = [0u8; 20];
        let count = io::decimal(number, &mut digits);
        self.put_word(&digits[..count]);
    }

    // A word, and a number behind it.
    #[tactic(auto, using(crate::proofs::Lines::texts_put))]
    pub fn put_numbered(&mut self, word: &[u8], number: u64)
        ensures { self.new ≡ with_text self.old (word.now ++ number_text number) }
    {
        self.put_word(word);
        self.put_number(number);
    }
}

// A byte, put at a place of a buffer: the place behind it. The place is a value here and stands behind no reference with the buffer: there
// it would be read and written anew for each byte of a word.
fn put_at(buffer: &mut [u8], at: usize, byte: u8) -> usize
    ensures { page buffer.new result ≡ put_byte (page buffer.old at) byte }
{
    if at < buffer.len() {
        buffer[at] = byte;
        return at + 1;
    }
    at
}

// A word, put from a place of a buffer on: the place behind it.
fn put_from(buffer: &mut [u8], at: usize, word: &[u8]) -> usize
    ensures { page buffer.new result ≡ put_text (page buffer.old at) word.now }
{
    let mut place = at;
    for &byte in word {
        place = put_at(buffer, place, byte);
    }
    place
}
