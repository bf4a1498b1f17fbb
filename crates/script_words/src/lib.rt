// What was expected in a line of a script, at the first word that does not fit, in words (docs/BENCH.md, "script").
#![tactic(auto)]

ghost use Rattle.std.specs.Prelude.{◌≡◌};
ghost use Rattle.lines.specs.Line.{with_text};
ghost use Rattle.script_words.specs.Words.{what_text};

use lines::Line;

#[derive(Clone, Copy)]
pub enum What {
    AnEvent,
    AKey,
    HardOrEnd,
    ASoftService,
    AConnection,
    YesOrNo,
    ASwitchover,
    AnIncarnation,
    CauseOrEnd,
    ACause,
    CauseCrankbackOrEnd,
    CrankbackOrEnd,
    NothingMore,
}

pub fn put_what(line: &mut Line, what: What)
    ensures { line.new ≡ with_text line.old (what_text what) }
{
    match what {
        What::AnEvent => line.put_word(
            b"open, trigger, path, nopath, connect, setup, calling, called, ready or expiry",
        ),
        What::AKey => line.put_word(b"a key, 0 to 4294967295"),
        What::HardOrEnd => line.put_word(b"hard, nohard or nothing more"),
        What::ASoftService => line.put_word(b"none, asymmetric or symmetric"),
        What::AConnection => line.put_word(b"a connection, 0 to 65535"),
        What::YesOrNo => line.put_word(b"yes or no"),
        What::ASwitchover => line.put_word(b"clearing, immediate or a switchover code, 0 to 255"),
        What::AnIncarnation => line.put_word(b"an incarnation number, 0 to 4294967295"),
        What::CauseOrEnd => line.put_word(b"cause or nothing more"),
        What::ACause => line.put_word(b"a cause, 0 to 255"),
        What::CauseCrankbackOrEnd => line.put_word(
            b"cause, alternate, noalternate or nothing more",
        ),
        What::CrankbackOrEnd => line.put_word(b"alternate, noalternate or nothing more"),
        What::NothingMore => line.put_word(b"nothing more"),
    }
}
