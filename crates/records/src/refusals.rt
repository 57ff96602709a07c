// Why a call is refused, by name; each reason has its number. Their meanings and places are in docs/REQUIREMENTS.md; show's, 14, has no answer
// that could carry it.
ghost use Rattle.std.specs.Prelude.{◌≡◌};
ghost use Rattle.records.specs.Reasons.{number_of};

#[derive(Clone, Copy, Debug, PartialEq, Eq)]
pub enum Reason {
    SystemUneven = 1,
    SystemTooLong = 2,
    NoLineFeed = 3,
    NeitherLetterNorStop = 4,
    LetterAfterStop = 5,
    TargetOrProductMalformed = 6,
    LogUneven = 7,
    LogRecordMalformed = 8,
    SlotMissing = 9,
    WordsBufferShort = 10,
    ProductBufferShort = 11,
    WordTooLong = 12,
    LogBufferShort = 13,
    SystemNotReduced = 15,
    TextMalformed = 16,
    NestingTooDeep = 17,
    ExponentOutOfRange = 18,
    NumbersMalformed = 19,
    NumberWithoutLetter = 20,
    EdgeTableShort = 21,
    LengthDiffers = 22,
}

// The number of a refusal.
impl From<Reason> for u8 {
    ghost from_gives = { λ reason number. number ≡ number_of reason };

    fn from(reason: Reason) -> u8 {
        reason as u8
    }
}
