// Reading calls from standard input, by the kit's `read` alone, and no further than a call goes.
ghost use Rattle.std.specs.Prelude.{◌≡◌, ◌≤◌, IfOk, IfErr, length};
ghost use Rattle.calls.specs.Stream.{Decodes, Within, Opened, Fitting};

use std::fmt;
use text::word::{decode, number_at};

pub const MOST_BYTES: usize = 8192;

pub const MOST_WORDS: usize = 4096;

pub const MOST_ROOM: usize = 4096;

// The bytes of the most words.
const WORD_BYTES: usize = 32768;

// The bytes of the five numbers.
const HEAD_BYTES: usize = 20;

// Why a call is not executed, nor anything behind it.
#[derive(Clone, Copy, Debug, PartialEq, Eq, Drop)]
pub enum CallError {
    Cut,
    Unknown,
}

impl fmt::Display for CallError {
    fn fmt<W: fmt::Write>(&self, f: &mut fmt::Formatter<W>) -> fmt::Result {
        match self {
            CallError::Cut => write!(f, "the input ends inside a call"),
            CallError::Unknown => write!(f, "no such call, or one too large"),
        }
    }
}

// What a call asks for.
#[derive(Clone, Copy, Debug, PartialEq, Eq)]
pub enum Kind {
    Check,
    Run,
    Patch,
}

impl TryFrom<u32> for Kind {
    type Error = CallError;

    ghost try_from_gives = { Decodes };

    fn try_from(code: u32) -> Result<Self, CallError> {
        match code {
            0 => Ok(Kind::Check),
            1 => Ok(Kind::Run),
            2 => Ok(Kind::Patch),
            _ => Err(CallError::Unknown),
        }
    }
}

// The five numbers that open a call.
#[derive(Clone, Copy, Debug)]
pub struct Call {
    pub kind: Kind,
    pub bytes: usize,
    pub words: usize,
    pub old: usize,
    pub room: usize,
}

impl Call {
    // The call that these bytes open.
    fn opening(head: &[u8; HEAD_BYTES]) -> Result<Self, CallError>
        ensures { Opened head.now result }
    {
        Ok(Call {
            kind: Kind::try_from(number_at(head, 0))?,
            bytes: number_at(head, 4) as usize,
            words: number_at(head, 8) as usize,
            old: number_at(head, 12) as usize,
            room: number_at(head, 16) as usize,
        })
    }

    // The call, where its sizes are within their limits.
    fn within(self) -> Result<Self, CallError>
        ensures ok { IfOk result (λ call. (call ≡ self) × Within call) }
        ensures err { IfErr result (λ e. (e ≡ CallError.Unknown) × ¬ (Within self)) }
    {
        if MOST_BYTES < self.bytes
            || MOST_WORDS < self.words
            || self.words < self.old
            || MOST_ROOM < self.room
            || self.kind == Kind::Run && self.words == 0
        {
            return Err(CallError::Unknown);
        }
        Ok(self)
    }
}

// The call that stands next, where the input has not ended.
pub fn next_call() -> Result<Option<Call>, CallError>
    ensures { Fitting result }
{
    let mut head = [0u8; HEAD_BYTES];
    let got = io::read_full(0, &mut head);
    if got == 0 {
        return Ok(None);
    }
    if got < HEAD_BYTES {
        return Err(CallError::Cut);
    }
    let call = Call::opening(&head)?.within()?;
    Ok(Some(call))
}

// Fills the bytes from the input; a read that fails counts as its end.
pub fn read_bytes(bytes: &mut [u8]) -> Result<(), CallError> {
    if io::read_full(0, bytes) < bytes.len() {
        return Err(CallError::Cut);
    }
    Ok(())
}

// Fills the words from the input. It is called and not inlined, so that the bytes are gone when a call is executed.
#[inline(never)]
pub fn read_words(words: &mut [i64]) -> Result<(), CallError>
    requires { length words.old ≤ 4096 }
{
    let mut bytes = [0u8; WORD_BYTES];
    let bytes = &mut bytes[..8 * words.len()];
    read_bytes(bytes)?;
    decode(bytes, words);
    Ok(())
}
