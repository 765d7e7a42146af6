// Lists one session: reads its bytes from standard input, and writes a line for the run and for each patch of it.
//
// A session is four numbers of 16 bits, a table, and signed words of 64 bits, all little-endian:
//
//     offset of the table      8
//     length of the table
//     offset of the words      8 more than the table's length
//     patches K                0 to 64
//
// The words are the limit, an input for each of the table's V variables, and K lists of V changes.
//
// A line is the call, 0, steps, walked, reused, fresh, the record's length and the V output values; or the call and the number of
// its refusal. A session that is none, or whose count of words is wrong, is the line `session refused`.
//
// A read that fails counts as the end of the input, and a write that fails is not told. The arrays stand on the stack, since memory that is
// asked for may fail.
#![tactic(auto)]

mod listing;
mod say;
mod session;

use crate::listing::{ROOM, list};
use crate::session::MOST_INPUT;

// Reads as much as decides what is listed, and lists it. The last record is what the contract of the listing speaks of.
fn main() {
    let mut input = [0u8; MOST_INPUT];
    let got = io::read_full(0, &mut input);
    let mut last = [0i64; ROOM];
    list(&input[..got], &mut last);
}
