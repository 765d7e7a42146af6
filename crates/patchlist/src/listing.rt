// The listing of a session: its tests in turn, the run, and the patches, each from the record that the calls before have left.
ghost use Rattle.std.specs.Prelude.{◌≡◌, ◌+◌, ◌*◌, ◌≤◌, length};
ghost use Rattle.patchlist.specs.Session.{handed, handed_on, calls_end, words_end, table_end, session_end};

use crate::say::{refuse_session, say_answer, say_refused};
use crate::session::{MOST_WORDS, Session, TABLE_AT, opens};
use patch::call::patch;
use run::call::run;
use table::access::pair;
use table::answer::Outcome;
use table::check::check;
use text::word::decode;

// The words of room for each record. A record is an array of them, so that its type says how long it is.
pub const ROOM: usize = 2048;

// Patches the record by a list of changes and writes the line; the new record takes the old one's place where it is accepted.
fn list_patch(session: &Session<'_>, changes: &[i64], old: &mut [i64; ROOM])
    ensures { old.new ≡ handed session.now.table.now old.old changes.now }
{
    let mut new = [0i64; ROOM];
    let answer = patch(session.table, old, changes, &mut new);
    say_answer(b"patch", answer, session.variables);
    if let Outcome::Accepted = answer.outcome {
        *old = new;
    }
}

// Patches the record by each of the lists of changes, and writes the lines.
#[tactic(auto, unfolding(crate::specs::Session::handed_on))]
fn list_patches(session: &Session<'_>, lists: &[i64], old: &mut [i64; ROOM])
    requires { length lists.now ≡ session.now.patches * session.now.variables }
    ensures { old.new ≡ handed_on session.now.table.now session.now.variables lists.now old.old session.now.patches }
{
    let v = session.variables;
    // `chunks_exact` takes no size of 0, and a session does not say that there is a variable.
    for i in 0..session.patches {
        let from = i * v;
        list_patch(session, &lists[from..from + v], old);
    }
}

// Runs the table on the words' limit and inputs and writes the line; a run that is accepted is patched by the lists behind them.
fn list_calls(session: &Session<'_>, words: &[i64], last: &mut [i64; ROOM])
    requires { length words.now ≡ 1 + session.now.variables + session.now.patches * session.now.variables }
    ensures { last.new ≡ calls_end session.now.table.now session.now.variables session.now.patches words.now }
{
    let v = session.variables;
    let answer = run(session.table, &words[1..1 + v], words[0], last);
    say_answer(b"run", answer, v);
    if let Outcome::Accepted = answer.outcome {
        list_patches(session, &words[1 + v..], last);
    }
}

// Lists a session with an accepted table by the bytes behind it, which are to be its words.
fn list_words(session: &Session<'_>, behind: &[u8], last: &mut [i64; ROOM])
    ensures { last.new ≡ words_end session.now.table.now session.now.variables session.now.patches behind.now last.old }
{
    let count = session.word_count();
    if behind.len() != 8 * count {
        refuse_session();
        return;
    }
    // An array, since an allocation may fail, and the contract knows no failure.
    let mut room = [0i64; MOST_WORDS];
    let words = &mut room[..count];
    decode(behind, words);
    list_calls(session, words, last);
}

// Lists a session whose header is right by its table, its count of patches and the bytes behind the table.
fn list_table(table: &[u8], patches: usize, behind: &[u8], last: &mut [i64; ROOM])
    requires { patches ≤ 64 }
    ensures { last.new ≡ table_end table.now patches behind.now last.old }
{
    match check(table) {
        Err(reason) => say_refused(b"run", reason),
        Ok(()) => {
            let session = Session {
                table,
                variables: pair(table, 4),
                patches,
            };
            list_words(&session, behind, last);
        }
    }
}

// Lists a session, and leaves the last record of its calls; where there is none, the words are left as they were.
#[tactic(auto, using(crate::proofs::Sessions::opened))]
pub fn list(s: &[u8], last: &mut [i64; ROOM])
    ensures { last.new ≡ session_end s.now last.old }
{
    if !opens(s) {
        refuse_session();
        return;
    }
    let end = TABLE_AT + pair(s, 2);
    list_table(&s[TABLE_AT..end], pair(s, 6), &s[end..], last);
}
