// Executes the calls that standard input holds, and writes each answer as a line of text.
//
// The calls stand one behind the other. A call is five numbers of 32 bits, then a table's bytes, then words. Numbers and words
// are little-endian, and words are signed, of 64 bits.
//
//     kind     0 a table check, 1 a run, 2 a patch
//     bytes    how many the table has, at most 8,192
//     words    how many there are, at most 4,096
//     old      how many of them are the old record's, no more than there are
//     room     words of the lent buffer, at most 4,096
//
// The words of a run are its limit and then its inputs; those of a patch are the old record's and then the changes. A check
// looks at no word and at no room, and only a patch looks at how many words are old.
//
// A line is what a case has behind its `=`: of a check its number; of a run or a patch the 70 words of its answer, a colon, and
// the whole buffer. Where the input ends inside a call, or a call is of no kind, a run without a limit, or too large, the last
// line says so, and nothing behind it is executed.
//
// Each line is written before the next call is read, and nothing behind a call is read before it is executed. A read that fails counts
// as the end of the input, and a write that fails is not told.
//
// The calls' arrays stand on the stack, since memory that is asked for may fail: 8,192 bytes for a table, 32,768 for words and as many for
// the buffer; 32,768 for the words' bytes while they are read, and 4,096 for the text of a line while it is written.
#![tactic(auto)]

mod execute;
mod stream;

use crate::execute::execute;
use crate::stream::{CallError, MOST_BYTES, MOST_ROOM, MOST_WORDS, next_call};
use std::io::{Result as Written, Write};
use text::line::Text;

// Executes calls until the input ends; a proved loop has to end, so the turns are counted, to a number that no run uses up.
fn execute_all() -> Result<(), CallError> {
    let mut table = [0u8; MOST_BYTES];
    let mut words = [0i64; MOST_WORDS];
    let mut buffer = [0i64; MOST_ROOM];
    for _ in 0..u64::MAX {
        let Some(call) = next_call()? else {
            break;
        };
        execute(call, &mut table, &mut words, &mut buffer)?;
    }
    Ok(())
}

// Writes the line that says why nothing more is executed.
fn write_error(error: CallError) -> Written<()> {
    let mut text = Text::new();
    writeln!(text, "calls: {error}")?;
    text.flush()
}

fn main() {
    if let Err(error) = execute_all() {
        let _told = write_error(error);
    }
}
