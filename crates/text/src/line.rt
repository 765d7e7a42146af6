// Lines of text, gathered in an array and written out. No memory is asked for, and what writes is the kit's `write` alone.
ghost use Rattle.std.specs.Prelude.{◌≤◌, None, Some};
ghost use Rattle.std.specs.Io.{WritesAtMost};
ghost use Rattle.std.specs.Io.KnownBytes.{WriteAppends, Keeps};
ghost use Rattle.text.specs.Lines.{counts_text, words_text};

use std::fmt;
use std::io::{Result as Written, Write};
use table::answer::Answer;

// The most bytes that are gathered before they are written out.
pub const MOST_TEXT: usize = 4096;

// Text that is written out whenever its array is full, and when it is flushed. A write that fails is not told.
#[derive(Drop)]
pub struct Text {
    bytes: [u8; MOST_TEXT],
    at: usize,
    ghost inside: { at ≤ 4096 },
}

impl Text {
    pub fn new() -> Text {
        Text {
            bytes: [0; MOST_TEXT],
            at: 0,
        }
    }

    // Writes out what has been gathered, and begins anew.
    fn write_out(&mut self) {
        let end = self.at;
        let _told = io::write_all(1, &self.bytes[..end]);
        self.at = 0;
    }

    // Adds a byte.
    fn add(&mut self, byte: u8) {
        let at = self.at;
        if at < MOST_TEXT {
            self.bytes[at] = byte;
            self.at = at + 1;
            return;
        }
        self.write_out();
        self.bytes[0] = byte;
        self.at = 1;
    }

    // Adds bytes.
    pub fn add_bytes(&mut self, bytes: &[u8]) {
        for &byte in bytes {
            self.add(byte);
        }
    }

    // Adds a count in decimal, by its digits and not by `Display`, which takes 1.3 times as long where 1,000 words are printed.
    pub fn add_count(&mut self, count: u64) {
        let mut digits = [0u8; 20];
        let n = io::decimal(count, &mut digits);
        self.add_bytes(&digits[..n]);
    }

    // Adds words in decimal, each behind a space.
    pub fn add_words(&mut self, words: &[i64]) {
        for &word in words {
            self.add(b' ');
            if word < 0 {
                self.add(b'-');
            }
            self.add_count(word.unsigned_abs());
        }
    }

    // Adds the five counts of an answer, each behind a space.
    pub fn add_counts(&mut self, answer: Answer) {
        for count in [
            answer.steps,
            answer.walked,
            answer.reused,
            answer.fresh,
            answer.length,
        ] {
            self.add(b' ');
            self.add_count(count as u64);
        }
    }
}

// What else has a `Display` is written by it.
impl Write for Text {
    fn write(&mut self, buffer: &[u8]) -> Written<usize>
        ensures bound { WritesAtMost result buffer.now }
        ensures bytes { WriteAppends None None result buffer.now }
    {
        self.add_bytes(buffer);
        Ok(buffer.len())
    }

    fn flush(&mut self) -> Written<()>
        ensures bytes { Keeps None None }
    {
        self.write_out();
        Ok(())
    }
}

// Words in decimal, each behind a space, for any writer.
#[derive(Clone, Copy, Drop)]
pub struct Words<'a>(pub &'a [i64]);

impl fmt::Display for Words<'_> {
    ghost output = { λ w. Some (words_text w.0.now) };

    fn fmt<W: fmt::Write>(&self, f: &mut fmt::Formatter<W>) -> fmt::Result {
        for word in self.0 {
            write!(f, " {word}")?;
        }
        Ok(())
    }
}

// The five counts of an answer, each behind a space, for any writer.
#[derive(Clone, Copy, Drop)]
pub struct Counts(pub Answer);

impl fmt::Display for Counts {
    ghost output = { λ c. Some (counts_text c.0) };

    fn fmt<W: fmt::Write>(&self, f: &mut fmt::Formatter<W>) -> fmt::Result {
        let answer = self.0;
        write!(
            f,
            " {} {} {} {} {}",
            answer.steps, answer.walked, answer.reused, answer.fresh, answer.length
        )
    }
}

#[cfg(test)]
mod tests {
    use super::*;
    use std::test::Fail;
    use table::answer::{Outcome, Refusal};

    #[test]
    fn words_print_behind_spaces(rt: HostRuntime) -> Result<(), Fail> {
        let words = [0, -1, 2147483647, 9223372036854775807, i64::MIN];
        let text = Words(&words).to_string(rt.alloc())?;
        let want = " 0 -1 2147483647 9223372036854775807 -9223372036854775808";
        assert_eq!(rt; text.as_str(), want);
        let nothing = Words(&words[..0]).to_string(rt.alloc())?;
        assert_eq!(rt; nothing.as_str(), "");
        Ok(())
    }

    #[test]
    fn counts_print_in_their_order(rt: HostRuntime) -> Result<(), Fail> {
        let answer = Answer {
            outcome: Outcome::Refused(Refusal::Fuel),
            steps: 11,
            walked: 2,
            reused: 9,
            fresh: 0,
            length: 1000000,
            values: [7; 32],
            changes: [-7; 32],
        };
        let text = Counts(answer).to_string(rt.alloc())?;
        assert_eq!(rt; text.as_str(), " 11 2 9 0 1000000");
        Ok(())
    }
}
