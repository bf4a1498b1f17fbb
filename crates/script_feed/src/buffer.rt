// The first octets of a buffer: those of a line, or records that wait to be written.
ghost use Rattle.std.specs.Prelude.{◌≡◌, ◌≤◌, [], ltb, take};
ghost use Rattle.lines.specs.Lines.{page, put_byte, put_text};

use lines::Line;

#[derive(Drop)]
pub(crate) struct Buffer {
    octets: [u8; 4096],
    length: usize,
    ghost within: { length ≤ 4096 },
}

impl Buffer {
    pub(crate) fn new() -> Self
        ensures { take result.length result.octets ≡ [] }
    {
        Buffer {
            octets: streams::zeros(),
            length: 0,
        }
    }

    pub(crate) fn octets(&self) -> &[u8]
        ensures { result.now ≡ take self.now.length self.now.octets }
    {
        &self.octets[..self.length]
    }

    // Whether there was room for it. A bool, since a Result would be no plainer: no value comes of it, and there is one reason for a no.
    #[tactic(auto, using(lines::proofs::Laws::put_in, lines::proofs::Laws::put_past))]
    pub(crate) fn push(&mut self, octet: u8) -> bool
        ensures room { result ≡ ltb self.old.length 4096 }
        ensures held { page self.new.octets self.new.length ≡ put_byte (page self.old.octets self.old.length) octet }
    {
        if self.length < self.octets.len() {
            self.octets[self.length] = octet;
            self.length += 1;
            return true;
        }
        false
    }

    // As many as there is room for.
    pub(crate) fn append(&mut self, octets: &[u8])
        ensures { page self.new.octets self.new.length ≡ put_text (page self.old.octets self.old.length) octets.now }
    {
        let mut line = Line {
            buffer: &mut self.octets,
            at: self.length,
        };
        line.put_word(octets);
        self.length = line.at;
    }

    pub(crate) fn clear(&mut self)
        ensures { take self.new.length self.new.octets ≡ [] }
    {
        self.length = 0;
    }
}
