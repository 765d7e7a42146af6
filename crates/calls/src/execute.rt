// Executing a call by the product, and writing its answer.
ghost use Rattle.calls.specs.Stream.{Within};

use crate::stream::{
    Call, CallError, Kind, MOST_BYTES, MOST_ROOM, MOST_WORDS, read_bytes, read_words,
};
use patch::call::patch;
use run::call::run;
use std::io::{Result as Written, Write};
use table::answer::{Answer, Outcome};
use table::check::check;
use text::line::Text;

// What stands in a buffer before a call, so that a word that is not written is seen.
const BEFORE: i64 = 777777777777;

// Writes the line of a table check.
#[inline(never)]
fn write_check(outcome: Outcome) -> Written<()> {
    let mut text = Text::new();
    writeln!(text, "{}", u32::from(outcome))?;
    text.flush()
}

// Writes the line of an answer and its buffer. It is called and not inlined, so that its text takes no stack while a call is executed.
#[inline(never)]
fn write_answer(answer: Answer, buffer: &[i64]) -> Written<()> {
    let mut text = Text::new();
    text.add_count(u64::from(u32::from(answer.outcome)));
    text.add_counts(answer);
    text.add_words(&answer.values);
    text.add_words(&answer.changes);
    text.add_bytes(b" :");
    text.add_words(buffer);
    text.add_bytes(b"\n");
    text.flush()
}

// Reads the rest of a call, executes it and writes its line, before anything behind it is read; a write that fails is not told. What it is
// read into and the buffer are lent, since they serve all calls.
pub fn execute(
    call: Call,
    table: &mut [u8; MOST_BYTES],
    words: &mut [i64; MOST_WORDS],
    buffer: &mut [i64; MOST_ROOM],
) -> Result<(), CallError>
    requires { Within call }
{
    let table = &mut table[..call.bytes];
    read_bytes(table)?;
    let words = &mut words[..call.words];
    read_words(words)?;
    let buffer = &mut buffer[..call.room];
    buffer.fill(BEFORE);
    let _told = match call.kind {
        Kind::Check => write_check(Outcome::from(check(table))),
        Kind::Run => {
            let answer = run(table, &words[1..], words[0], buffer);
            write_answer(answer, buffer)
        }
        Kind::Patch => {
            let (old, changes) = words.split_at(call.old);
            let answer = patch(table, old, changes, buffer);
            write_answer(answer, buffer)
        }
    };
    Ok(())
}
