// Numbers in decimal, each with the byte that ends it, put at the end of a line at speed.
//
// What is put is what crates/lines puts, and the contract says it in the same words. Where there is room for the longest number its digits
// are stored at their places, the last first; near the end of the buffer they go byte by byte.
#![tactic(auto)]

ghost use Rattle.std.specs.Prelude.{true, ◌+◌, ◌≤◌, ◌≡◌, ◌++◌, ◌∷◌, [], length};
ghost use Rattle.io.specs.Digits.{last_digits, IsDigitCount};
ghost use Rattle.lines.specs.Lines.{number_text};
ghost use Rattle.lines.specs.Line.{with_text};
ghost use Rattle.fields.specs.Fields.{spliced};

use lines::Line;

// The most that a field takes: ten digits, and its end.
const MOST: usize = 11;

// How many digits a number has.
fn places(number: u32) -> usize
    ensures { IsDigitCount 10 1 number result × (result ≤ 10) }
{
    if number < 100 {
        if number < 10 {
            return 1;
        }
        return 2;
    }
    if number < 10000 {
        if number < 1000 {
            return 3;
        }
        return 4;
    }
    if number < 1000000 {
        if number < 100000 {
            return 5;
        }
        return 6;
    }
    if number < 100000000 {
        if number < 10000000 {
            return 7;
        }
        return 8;
    }
    if number < 1000000000 {
        return 9;
    }
    10
}

// The last digits of a number, so many, from a place on; two at a time, the last two first, which reads no plainer as a `for` with a step.
fn spell(out: &mut [u8], at: usize, count: usize, number: u32)
    requires { at + count ≤ length out.old }
    ensures { out.new ≡ spliced out.old at (last_digits 10 count number) }
{
    let mut place = count;
    let mut rest = number;
    while 1 < place {
        let tens = rest / 10;
        out[at + place - 1] = 48 + (rest % 10) as u8;
        out[at + place - 2] = 48 + (tens % 10) as u8;
        place -= 2;
        rest = tens / 10;
    }
    if 0 < place {
        out[at] = 48 + (rest % 10) as u8;
    }
}

// A number of any length up to ten digits, where there is room.
fn put_digits(line: &mut Line, number: u32, end: u8)
    requires { line.old.at + 11 ≤ length line.old.buffer.now }
    ensures { line.new ≡ with_text line.old (number_text number ++ (end ∷ [])) }
{
    let count = places(number);
    spell(line.buffer, line.at, count, number);
    line.buffer[line.at + count] = end;
    line.at = line.at + count + 1;
}

// A number and the byte that ends it, where there is room. Most numbers have one digit.
fn put_field_within(line: &mut Line, number: u32, end: u8)
    requires { line.old.at + 11 ≤ length line.old.buffer.now }
    ensures { line.new ≡ with_text line.old (number_text number ++ (end ∷ [])) }
{
    if number < 10 {
        line.buffer[line.at] = 48 + number as u8;
        line.buffer[line.at + 1] = end;
        line.at += 2;
    } else {
        put_digits(line, number, end);
    }
}

// Byte by byte, in any buffer.
#[cold]
#[inline(never)]
#[tactic(auto, using(lines::proofs::Lines::texts_put, lines::proofs::Lines::byte_put))]
fn put_slowly(line: &mut Line, number: u64, end: u8)
    ensures { line.new ≡ with_text line.old (number_text number ++ (end ∷ [])) }
{
    line.put_number(number);
    line.put_byte(end);
}

// There is room for the longest field.
fn roomy(line: &Line) -> bool
    ensures { result ≡ true → line.now.at + 11 ≤ length line.now.buffer.now }
{
    MOST <= line.buffer.len().saturating_sub(line.at)
}

// A number and the byte that ends it, in any buffer.
pub fn put_field(line: &mut Line, number: u32, end: u8)
    ensures { line.new ≡ with_text line.old (number_text number ++ (end ∷ [])) }
{
    if roomy(line) {
        put_field_within(line, number, end);
    } else {
        put_slowly(line, number as u64, end);
    }
}

// A count, which may have more digits than the numbers of a call.
pub fn put_count(line: &mut Line, count: u64, end: u8)
    ensures { line.new ≡ with_text line.old (number_text count ++ (end ∷ [])) }
{
    if count < 4294967296 && roomy(line) {
        put_digits(line, count as u32, end);
    } else {
        put_slowly(line, count, end);
    }
}
