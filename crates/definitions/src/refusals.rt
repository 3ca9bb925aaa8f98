// What turns a file, a list, a range or a call down: a case for each row of the table of refusals, and its number.
ghost use Rattle.std.specs.Prelude.{◌≡◌};
ghost use Rattle.definitions.specs.Refusals.{refusal_number};

// The cases in the order of their numbers, 1 to 14.
#[derive(Clone, Copy, PartialEq, Eq)]
pub enum Refusal {
    BytesRunOut = 1,
    TagNotDue,
    LengthNotOfTag,
    OutsideSpan,
    LowAboveHigh,
    TimeNotLater,
    TooManyRanges,
    SliceTooShort,
    NoFirstRanges,
    LengthsDiffer,
    ReadingNotWhole,
    AddressUnknown,
    PanelFull,
    NotAPanel,
}

// The number that a caller of the library gets.
impl From<Refusal> for u8 {
    ghost from_gives = { λ refusal number. number ≡ refusal_number refusal };

    fn from(refusal: Refusal) -> u8 {
        refusal as u8
    }
}
