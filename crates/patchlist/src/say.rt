// The lines of the listing, each written whole as soon as its call is done. A write that fails is not told, and ends neither the writing nor
// the calls, so that the last record does not hang on the output.
ghost use Rattle.std.specs.Prelude.{◌≤◌};

use std::io::Write;
use table::answer::{Answer, Outcome, Refusal};
use text::line::Text;

// A line that begins with a call and the number of its outcome.
fn begin(call: &[u8], outcome: Outcome) -> Text {
    let mut text = Text::new();
    text.add_bytes(call);
    text.add_bytes(b" ");
    text.add_count(u64::from(u32::from(outcome)));
    text
}

// Ends a line and writes it.
fn end(mut text: Text) {
    text.add_bytes(b"\n");
    let _told = text.flush();
}

// Writes the line of a session that is none.
pub fn refuse_session() {
    let mut text = Text::new();
    text.add_bytes(b"session refused");
    end(text);
}

// Writes the line of a refused call.
pub fn say_refused(call: &[u8], reason: Refusal) {
    end(begin(call, Outcome::Refused(reason)));
}

// Writes the line of the answer to a call of a program of v variables.
pub fn say_answer(call: &[u8], answer: Answer, v: usize)
    requires { v ≤ 32 }
{
    let mut text = begin(call, answer.outcome);
    if let Outcome::Accepted = answer.outcome {
        text.add_counts(answer);
        text.add_words(&answer.values[..v]);
    }
    end(text);
}
