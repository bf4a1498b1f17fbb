// What the keys of a table say of an opening or event, at either end of a call: a refusal with 102 to 105, or to which record it goes. It
// is decided here alone and on plain values, for the lent row of records and for the table of a trace.
#![tactic(auto)]

ghost use Rattle.std.specs.Prelude.{◌≡◌};
ghost use Rattle.admission.specs.Admission.{refusal_in, admission_of};

use events::Act;
use signal::Answer;

// The answer of a refusal; 0 where nothing is refused yet.
pub fn refusal(admission: Result<Act, Answer>) -> Answer
    ensures { result ≡ refusal_in admission }
{
    admission.err().unwrap_or(Answer::Done)
}

// What is admitted: an opening takes the lowest empty record, and an event goes to the record of its key. `missing`: the key is not on
// record. `full`: no record is empty; it is read only of an opening whose key is missing. 102 comes first.
pub fn admit(key: u32, act: Act, missing: bool, full: bool) -> Result<Act, Answer>
    ensures { result ≡ admission_of key act missing full }
{
    if key == 0 {
        return Err(Answer::KeyZero);
    }
    match act {
        Act::Opens(_) if !missing => Err(Answer::KeyOnRecord),
        Act::Opens(_) if full => Err(Answer::NoEmptyRecord),
        Act::Meets(_) if missing => Err(Answer::KeyNotOnRecord),
        _ => Ok(act),
    }
}
