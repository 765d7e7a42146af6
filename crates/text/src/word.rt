// Numbers of 32 bits and signed words of 64, from their bytes, little-endian.
ghost use Rattle.std.specs.Prelude.{◌≡◌, ◌+◌, ◌*◌, ◌≤◌, length};
ghost use Rattle.text.specs.Words.{u32, word_at, Decoded};

// The number at a place.
pub fn number_at(s: &[u8], at: usize) -> u32
    requires { at + 4 ≤ length s.now }
    ensures { result ≡ u32 s.now at }
{
    u32::from_le_bytes([s[at], s[at + 1], s[at + 2], s[at + 3]])
}

// The signed word at a place.
fn word_at(s: &[u8], at: usize) -> i64
    requires { at + 8 ≤ length s.now }
    ensures { result ≡ word_at s.now at }
{
    i64::from_le_bytes([
        s[at],
        s[at + 1],
        s[at + 2],
        s[at + 3],
        s[at + 4],
        s[at + 5],
        s[at + 6],
        s[at + 7],
    ])
}

// Sets the words to those of the bytes.
pub fn decode(bytes: &[u8], words: &mut [i64])
    requires { 8 * length words.old ≤ length bytes.now }
    ensures long { length words.new ≡ length words.old }
    ensures decoded { Decoded bytes.now (length words.new) words.new }
{
    for (i, word) in words.iter_mut().enumerate() {
        *word = word_at(bytes, 8 * i);
    }
}
