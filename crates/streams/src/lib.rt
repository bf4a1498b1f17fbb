// Octets in and out, in buffers that the caller lends: one read, reads until a buffer is full, and writes of a whole buffer or of a line.
// Of a stream whose octets are known, as one over memory, the contracts say which of them come and go; of one of the system's they say how
// many came.
#![tactic(auto)]

ghost use Rattle.std.specs.Prelude.{◌≡◌, length, replicate, take, IfOk};
ghost use Rattle.std.specs.Io.KnownBytes.{Consumes};
ghost use Rattle.streams.specs.declared.Stop.TheVariants.{Fails};
ghost use Rattle.streams.specs.Streams.{told_of, IsFrontLen, ReadsSome, WritesAll, WritesLine, WritesLong};

use lines::Line;
use std::io::{Read, Write};

// What fails: a read; or a write, which counts as failed too where nothing is taken, and where the buffer is full and may have been cut.
#[derive(Clone, Copy)]
pub enum Failure {
    Reading,
    Writing,
}

impl Failure {
    // What is told of it, behind the name of a program.
    pub fn told(self) -> [u8; 16]
        ensures { result ≡ told_of self }
    {
        match self {
            Failure::Reading => *b": reading fails\n",
            Failure::Writing => *b": writing fails\n",
        }
    }
}

// Why a program stops before its input ends: what came is bad, or reading or writing fails.
#[derive(Clone, Copy)]
pub enum Stop {
    Bad,
    Fails(Failure),
}

impl From<Failure> for Stop {
    fn from(failure: Failure) -> Stop
        ensures { result ≡ Fails failure }
    {
        Stop::Fails(failure)
    }
}

// A buffer of zeros.
pub fn zeros<const N: usize>() -> [u8; N]
    ensures room { N ≡ length result }
    ensures zeros { result ≡ replicate N 0 }
{
    [0; N]
}

// One read: how many octets it put at the front of the buffer, 0 at the end of the input and where there is no room.
pub fn read_some<R: Read>(input: &mut R, buf: &mut [u8]) -> Result<usize, Failure>
    ensures within { IfOk result (λ n. IsFrontLen n buf.new) }
    ensures octets { ReadsSome (R.remaining input.old) (R.remaining input.new) result buf.new }
{
    input.read(buf).map_err(|_| Failure::Reading)
}

// Reads until the buffer is full, the input ends or a read fails: how many octets are at the front of the buffer. Where it has no room,
// nothing is read.
pub fn read_full<R: Read>(input: &mut R, buf: &mut [u8]) -> usize
    ensures within { IsFrontLen result buf.new }
    ensures octets { Consumes (R.remaining input.old) (R.remaining input.new) (take result buf.new) }
{
    let mut done = 0;
    // no `for`: it goes on by what a read put there, which is not one octet at a time
    while done < buf.len() {
        match read_some(input, &mut buf[done..]) {
            Err(_) | Ok(0) => return done,
            Ok(came) => done += came,
        }
    }
    done
}

// Writes all of the buffer, up to the first write that fails or takes nothing, behind which nothing more is written. Of an empty buffer
// nothing is.
pub fn write_all<W: Write>(output: &mut W, buf: &[u8]) -> Result<(), Failure>
    ensures { WritesAll (W.contents output.old) (W.contents output.new) buf.now result }
{
    let mut done = 0;
    // no `for`: it goes on by what a write took, which is not one octet at a time
    while done < buf.len() {
        match output.write(&buf[done..]) {
            Err(_) | Ok(0) => return Err(Failure::Writing),
            Ok(gone) => done += gone,
        }
    }
    Ok(())
}

// Writes a line. One that fills its buffer may have been cut: that counts as a failure, and nothing is written.
pub fn write_line<W: Write>(output: &mut W, line: &Line) -> Result<(), Failure>
    ensures { WritesLine (W.contents output.old) (W.contents output.new) line.now result }
{
    let at = line.at;
    if at < line.buffer.len() {
        return write_all(output, &line.buffer[..at]);
    }
    Err(Failure::Writing)
}

// Writes a line that is longer than the limit, and begins it anew; any other waits for more.
pub fn write_long<W: Write>(output: &mut W, line: &mut Line, limit: usize) -> Result<(), Failure>
    ensures { WritesLong (W.contents output.old) (W.contents output.new) line.old line.new limit result }
{
    if limit < line.at {
        write_line(output, line)?;
        line.at = 0;
    }
    Ok(())
}
