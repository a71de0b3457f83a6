// What every call shares: the refusals with their numbers, and the limits.
//
// The definitions beside this file, in specs/, are the Yellow Paper's Appendix B: item trees and
// their encoding. What is proved of them is stated in specs/Claims.antt.
#![tactic(auto)]

ghost use Rattle.std.specs.Prelude.{◌≡◌};
ghost use Rattle.rlp.specs.Refusals.{number_of};
ghost use Rattle.rlp.specs.Claims.{Claimed};

// A lent byte slice has at most so many bytes.
pub const LIMIT: usize = 1_048_576;

// A strict sheet has at most so many levels of lists.
pub const LEVELS: usize = 16;

// Why a call gave no answer. Names that begin with Rlp are those of the crate rlp 0.6.1.
#[derive(Clone, Copy, Debug, PartialEq, Eq, Hash)]
pub enum Refusal {
    RlpIsTooShort = 1,
    RlpDataLenWithZeroPrefix = 2,
    RlpInvalidIndirection = 3,
    RlpIsTooBig = 4,
    RlpInconsistentLengthAndData = 5,
    RlpInvalidLength = 6,
    RlpExpectedToBeData = 7,
    RlpExpectedToBeList = 8,
    InvalidBoolean = 9,
    TrailingBytes = 10,
    TooDeep = 11,
    TooLarge = 12,
    NoRoom = 13,
    TooManyItems = 14,
    NoOpenList = 15,
    ListTypeMismatch = 16,
    Unfinished = 17,
    CountMismatch = 18,
    NoSuchItem = 19,
    StateMismatch = 20,
}

impl Refusal {
    // The number under which users know the refusal, 1 to 20. From an enum to its number there is no `From`.
    pub fn number(self) -> u8
        ensures { result ≡ number_of self }
    {
        self as u8
    }
}

// What specs/Claims.antt claims is proved.
fn claimed()
    ensures { Claimed }
{}
