// The library for C: the three calls under the names of include/simazokwa.h, which says what a caller owes.
// A slice here is a pointer and a length there, and the answer is 72 words behind one pointer.
#![tactic(auto)]

ghost use Rattle.rules.specs.Call.{IsCheck};
ghost use Rattle.simazokwa.specs.Words.{RunTold, PatchTold};

// The number of the table check: 0 when accepted, else 1 to 5.
#[unsafe(no_mangle)]
pub extern "C" fn simazokwa_check(table: &[u8]) -> u32
    ensures { IsCheck table.now result }
{
    simazokwa::simazokwa_check(table)
}

// The run: its number, its answer's words, and its record in the lent buffer.
#[unsafe(no_mangle)]
pub extern "C" fn simazokwa_run(
    table: &[u8],
    inputs: &[i64],
    limit: i64,
    answer: &mut [i64; 72],
    out: &mut [i64],
) -> u32
    ensures { RunTold table.now inputs.now limit result answer.new out.new }
{
    simazokwa::simazokwa_run(table, inputs, limit, answer, out)
}

// The patch: its number, its answer's words, and the new record in the lent buffer.
#[unsafe(no_mangle)]
pub extern "C" fn simazokwa_patch(
    table: &[u8],
    old: &[i64],
    changes: &[i64],
    answer: &mut [i64; 72],
    out: &mut [i64],
) -> u32
    ensures { PatchTold table.now old.now changes.now result answer.new out.new }
{
    simazokwa::simazokwa_patch(table, old, changes, answer, out)
}
