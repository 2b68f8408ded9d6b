// Why a call is refused. Each refusal has a number of its own.
ghost use Rattle.std.specs.Prelude.{◌≡◌};
ghost use Rattle.geometry.specs.Refusals.{number as the_number};

use std::fmt;

#[derive(Clone, Copy, PartialEq, Eq, Debug)]
pub enum Refusal {
    EmptySide,
    TooLarge,
    TooManyLevels,
    WrongLength,
    NoSpan,
    BadMark,
    NoHalf,
    AlreadyMarked,
    Outside,
    WrongStage,
    OtherFrame,
    CutShort,
    WrongCount,
    NotRising,
    WrongKind,
    NoRoom,
}

impl Refusal {
    // A match and no discriminants: two refusals with one number are then a fault that the contract finds.
    pub fn number(&self) -> u32
        ensures { result ≡ the_number self.now }
    {
        match self {
            Refusal::EmptySide => 1,
            Refusal::TooLarge => 2,
            Refusal::TooManyLevels => 3,
            Refusal::WrongLength => 4,
            Refusal::NoSpan => 5,
            Refusal::BadMark => 6,
            Refusal::NoHalf => 7,
            Refusal::AlreadyMarked => 8,
            Refusal::Outside => 9,
            Refusal::WrongStage => 10,
            Refusal::OtherFrame => 11,
            Refusal::CutShort => 12,
            Refusal::WrongCount => 13,
            Refusal::NotRising => 14,
            Refusal::WrongKind => 15,
            Refusal::NoRoom => 16,
        }
    }

    // The refusal in words.
    fn words(&self) -> &'static str {
        match self {
            Refusal::EmptySide => "the frame has an empty side",
            Refusal::TooLarge => "the frame has a side over 512 or a corner over 1073741824",
            Refusal::TooManyLevels => "the frame has more than 6 levels",
            Refusal::WrongLength => "a plane, label map or field has the wrong length",
            Refusal::NoSpan => "there is no span there",
            Refusal::BadMark => "the mark is not 2 to 128",
            Refusal::NoHalf => "the half named does not exist",
            Refusal::AlreadyMarked => "the span is already marked",
            Refusal::Outside => "the point is outside the frame",
            Refusal::WrongStage => "there is no such stage here",
            Refusal::OtherFrame => "the source has another frame",
            Refusal::CutShort => "the saved bytes stop early or go on",
            Refusal::WrongCount => "a count of the saved tile is wrong",
            Refusal::NotRising => "a mark's place is not above the one before",
            Refusal::WrongKind => "the saved tile has another sample kind",
            Refusal::NoRoom => "the buffer is too short to save",
        }
    }
}

impl fmt::Display for Refusal {
    fn fmt<W: fmt::Write>(&self, f: &mut fmt::Formatter<W>) -> fmt::Result {
        write!(f, "refused {}: {}", self.number(), self.words())
    }
}
