// The words of a line, and numbers in decimal (docs/BENCH.md, "script").
//
// A line is octets without their newline. Blanks part its words, and `#` starts a comment. A function takes the place from which the next
// word is sought; past the end there is none.
#![tactic(auto)]

ghost use Rattle.std.specs.Prelude.{◌≡◌, ◌-◌, ℕ, Bool, cond, drop};
ghost use Rattle.line_reader.specs.Words.{is_blank, is_of_word, past, first_word, same_text, place_after, place_before};
ghost use Rattle.line_reader.specs.Numbers.{is_digit, number_up_to};

fn blank(octet: u8) -> bool
    ensures { result ≡ is_blank octet }
{
    matches!(octet, b' ' | b'\t' | b'\r')
}

fn of_word(octet: u8) -> bool
    ensures { result ≡ is_of_word octet }
{
    !blank(octet) && octet != b'#'
}

// The place behind the octets that stand here and pass a test.
fn past<F: Fn(u8) -> bool>(line: &[u8], at: usize, passes: F) -> usize
    requires { F.IsAlwaysCallable passes }
    ensures { (test : ℕ → Bool) → ((octet : ℕ) (r : Bool) → F.post passes octet r → r ≡ test octet) →
        result ≡ place_before line.now (past test (drop at line.now)) }
{
    for place in at..line.len() {
        if !passes(line[place]) {
            return place;
        }
    }
    line.len()
}

// The place behind the next word. A line and a place, here and below: it is promised for any place, past the end too.
pub fn after(line: &[u8], at: usize) -> usize
    ensures { result ≡ place_after line.now at }
{
    past(line, past(line, at, blank), of_word)
}

// The next word, empty where there is none.
fn word(line: &[u8], at: usize) -> &[u8]
    ensures { result.now ≡ first_word (drop at line.now) }
{
    let from = past(line, at, blank);
    let to = past(line, from, of_word);
    &line[from..to]
}

// Whether the next word is the name; the empty name tells that there is none.
pub fn is(line: &[u8], at: usize, name: &[u8]) -> bool
    ensures { result ≡ same_text (first_word (drop at line.now)) name.now }
{
    word(line, at) == name
}

fn digit(octet: u8) -> Option<u32>
    ensures { result ≡ cond (is_digit octet) (Some (octet - 48)) None }
{
    match octet {
        b'0'..=b'9' => Some(u32::from(octet - b'0')),
        _ => None,
    }
}

// A number too great for its type is above any limit, and stays so with every digit more.
fn value(word: &[u8], limit: u32) -> Option<u32>
    ensures { result ≡ number_up_to limit word.now }
{
    if word.is_empty() {
        return None;
    }
    let mut number: u32 = 0;
    for octet in word {
        let digit = digit(*octet)?;
        number = number.checked_mul(10)?.checked_add(digit)?;
    }
    (number <= limit).then_some(number)
}

// The next word as a number, from 0 to the limit.
pub fn number(line: &[u8], at: usize, limit: u32) -> Option<u32>
    ensures { result ≡ number_up_to limit (first_word (drop at line.now)) }
{
    value(word(line, at), limit)
}
