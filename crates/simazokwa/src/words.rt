// An answer as C sees it: its number, and its 72 words.
ghost use Rattle.std.specs.Prelude.{◌≡◌};
ghost use Rattle.table.specs.Paper.{answer_of, number_of};
ghost use Rattle.simazokwa.specs.Words.{answer_words, Tellable};

use run::words::lay_slice;
use table::answer::Answer;

// Lays an answer's words down; returns its number. Word 1 is kept for the place of a refusal, and word 7 is free.
pub fn tell(words: &mut [i64; 72], made: Answer) -> u32
    requires { Tellable (answer_of made) }
    ensures number { result ≡ number_of made.outcome }
    ensures laid { words.new ≡ answer_words (answer_of made) }
{
    let number = u32::from(made.outcome);
    let head = [
        number as i64,
        0,
        made.steps as i64,
        made.walked as i64,
        made.reused as i64,
        made.fresh as i64,
        made.length as i64,
        0,
    ];
    lay_slice(words, 0, &head);
    lay_slice(words, 8, &made.values);
    lay_slice(words, 40, &made.changes);
    number
}
