// The three calls as C sees them: a number, an answer of 72 words, and a record. The crate simazokwa_c exports them.
#![tactic(auto)]

mod words;

ghost use Rattle.rules.specs.Call.{IsCheck};
ghost use Rattle.simazokwa.specs.Words.{RunTold, PatchTold};

use crate::words::tell;
use patch::call::patch;
use run::call::run;
use table::answer::Outcome;
use table::check::check;

// The number of the table check: 0 when accepted, else 1 to 5.
pub fn simazokwa_check(table: &[u8]) -> u32
    ensures { IsCheck table.now result }
{
    u32::from(Outcome::from(check(table)))
}

// The run: its number, its answer's words, and its record in the lent buffer.
pub fn simazokwa_run(
    table: &[u8],
    inputs: &[i64],
    limit: i64,
    answer: &mut [i64; 72],
    out: &mut [i64],
) -> u32
    ensures { RunTold table.now inputs.now limit result answer.new out.new }
{
    let made = run(table, inputs, limit, out);
    tell(answer, made)
}

// The patch: its number, its answer's words, and the new record in the lent buffer.
pub fn simazokwa_patch(
    table: &[u8],
    old: &[i64],
    changes: &[i64],
    answer: &mut [i64; 72],
    out: &mut [i64],
) -> u32
    ensures { PatchTold table.now old.now changes.now result answer.new out.new }
{
    let made = patch(table, old, changes, out);
    tell(answer, made)
}
