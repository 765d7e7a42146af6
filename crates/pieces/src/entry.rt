// Entries of the old record: an entry met, and an entry skipped. A place and an end in the record become one reader when the
// record gets one, as document 01 names it for a later request.
ghost use Rattle.std.specs.Prelude.{◌≡◌, ◌+◌, ◌<◌, ◌≤◌};
ghost use Rattle.numbers.specs.Lay.{lay};
ghost use Rattle.rules.specs.Patch;
ghost use Rattle.run.specs.Code.{farthest};
ghost use Rattle.pieces.specs.Old.{part, Inside};
ghost use Rattle.pieces.specs.Entry.{ends_at, MetAs, Sound, SkipsTo, Steppable, Stepped, AdvancedBy, Copied};

use run::input::read_limit;
use table::answer::{Changes, Refusal};

// Where the walk has come to: the changes, the steps that are left, those walked and those reused, the place in the old record and
// the place behind the new words. The changes are taken out before they are lent or one is set: so the compiler copies the array alone,
// and keeps the numbers in registers.
#[derive(Clone, Copy, Drop)]
pub struct Reached {
    pub changes: Changes,
    pub left: usize,
    pub walked: usize,
    pub reused: usize,
    pub from: usize,
    pub at: usize,
}

// An entry that is met: where it stops, and its steps.
#[derive(Clone, Copy, Debug, PartialEq, Eq, Drop)]
pub struct Met {
    pub stop: usize,
    pub steps: usize,
}

// The entry of a node at a place, by its three opening words; one that is a last part ends where its parent ends.
pub fn meet(node: usize, last: bool, old: &[i64], from: usize, end: usize) -> Result<Met, Refusal>
    requires { Inside old.now from end × (node < 512) }
    ensures { MetAs (Patch.meet node last (part old.now from end)) result old.now from end }
{
    if end - from < 3 {
        return Err(Refusal::Broken);
    }
    if old[from] != node as i64 {
        return Err(Refusal::Broken);
    }
    let size = old[from + 1];
    if size < 3 {
        return Err(Refusal::Broken);
    }
    if size > (end - from) as i64 {
        return Err(Refusal::Broken);
    }
    let stop = from + size as usize;
    if !ends(last, stop, end) {
        return Err(Refusal::Broken);
    }
    let steps = read_limit(old[from + 2]).ok_or(Refusal::Broken)?;
    Ok(Met { stop, steps })
}

// Whether an entry that stops here may stand there: a last part stops at the end.
fn ends(last: bool, stop: usize, end: usize) -> bool
    requires { stop ≤ end }
    ensures { result ≡ ends_at last stop end }
{
    !last || stop == end
}

// Lays down the old record's words from a place up to a stop as one run of words; what falls past the buffer's end is only counted.
// A loop, and no `copy_from_slice`: the C library's copy takes a sixth longer where both places lie alike in their pages.
fn copy(old: &[i64], from: usize, stop: usize, out: &mut [i64], at: usize)
    requires { Copied old.now from stop at }
    ensures { out.new ≡ lay out.old at (part old.now from stop) }
{
    if at < out.len() {
        let count = (stop - from).min(out.len() - at);
        for i in 0..count {
            out[at + i] = old[from + i];
        }
    }
}

// The skip rule: the entry is copied, its steps go to reused, the changes pass through.
pub fn skip(old: &[i64], met: Met, reached: Reached, out: &mut [i64]) -> Result<Reached, Refusal>
    requires { Sound old.now met.stop reached }
    ensures { SkipsTo old.now met.stop met.steps reached result out.old out.new }
{
    if reached.left < met.steps {
        return Err(Refusal::Fuel);
    }
    copy(old, reached.from, met.stop, out, reached.at);
    let mut next = reached;
    next.left -= met.steps;
    next.reused += met.steps;
    next.from = met.stop;
    next.at += met.stop - reached.from;
    Ok(next)
}

// The walk a step further, behind the three opening words of an entry.
pub fn stepped(reached: Reached) -> Reached
    requires { Steppable reached }
    ensures { Stepped reached result }
{
    let mut next = reached;
    next.left -= 1;
    next.walked += 1;
    next.from += 3;
    next.at += 3;
    next
}

// The walk behind so many words more, in the old record as in the new one.
pub fn advanced(reached: Reached, count: usize) -> Reached
    requires { (reached.from + count ≤ farthest) × (reached.at + count ≤ farthest) }
    ensures { AdvancedBy count reached result }
{
    let mut next = reached;
    next.from += count;
    next.at += count;
    next
}
