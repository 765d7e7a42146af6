// The header of a session, and how many words it has.
ghost use Rattle.std.specs.Prelude.{◌≡◌, ◌+◌, ◌*◌, ◌≤◌};
ghost use Rattle.patchlist.specs.Session.{opens as opens_by};

use table::access::pair;

// More than a header and the largest table that it can name: an input that is cut here is decided before its end.
pub const MOST_INPUT: usize = 65536;

// The offset of the table: the length of the header.
pub const TABLE_AT: usize = 8;

const MOST_PATCHES: usize = 64;

// The most words: the limit, 32 inputs and 64 lists of 32 changes.
pub const MOST_WORDS: usize = 2081;

// Whether the header is right, and the table is there whole.
#[tactic(auto, unfolding(crate::specs::Session::opens))]
pub fn opens(s: &[u8]) -> bool
    ensures { result ≡ opens_by s.now }
{
    TABLE_AT <= s.len()
        && pair(s, 0) == TABLE_AT
        && pair(s, 4) == TABLE_AT + pair(s, 2)
        && pair(s, 6) <= MOST_PATCHES
        && TABLE_AT + pair(s, 2) <= s.len()
}

// The table of a session with a right header, how many variables its program has, and how many patches there are.
#[derive(Clone, Copy, Drop)]
pub struct Session<'a> {
    pub table: &'a [u8],
    pub variables: usize,
    pub patches: usize,
    ghost few_variables: { variables ≤ 32 },
    ghost few_patches: { patches ≤ 64 },
}

impl Session<'_> {
    // How many words it has: the limit, an input for each variable, and a list of changes for each patch.
    pub fn word_count(&self) -> usize
        ensures { (result ≡ 1 + self.now.variables + self.now.patches * self.now.variables) × (result ≤ 2081) }
    {
        1 + self.variables + self.patches * self.variables
    }
}
