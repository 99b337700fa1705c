// Why an item is not added to a draft, by which number and in which words.
ghost use Rattle.std.specs.Prelude.{◌≡◌, ◌++◌, Some, codes, decimal};
ghost use Rattle.policy.specs.Refusals.{draft_number, draft_words, mask_passed_on, row_passed_on};

use sets::refusal::{MaskRefusal, RowRefusal, show};
use std::error::Error;
use std::fmt;

#[derive(Clone, Copy, PartialEq, Eq, Debug)]
pub enum DraftRefusal {
    // a number is outside its range, or names a role that has not been added
    OutOfRange = 1,
    // the table has all the items it can hold
    TableFull = 28,
    // the junior of a step does not have the lower number
    NotLower = 29,
    // both members of the pair are the same
    EqualPair = 30,
}

impl DraftRefusal {
    pub fn number(self) -> u8
        ensures { result ≡ draft_number self }
    {
        self as u8
    }

    fn words(self) -> &'static str
        ensures { result.now ≡ draft_words self }
    {
        match self {
            DraftRefusal::OutOfRange => "a number is outside its range or not in the policy",
            DraftRefusal::TableFull => "the table is full",
            DraftRefusal::NotLower => "the junior role is not lower than the senior one",
            DraftRefusal::EqualPair => "both members of the pair are the same",
        }
    }
}

impl fmt::Display for DraftRefusal {
    ghost output = { λ x. Some (decimal (draft_number x) ++ (codes ": " ++ draft_words x)) };

    fn fmt<W: fmt::Write>(&self, f: &mut fmt::Formatter<W>) -> fmt::Result {
        show(self.number(), self.words(), f)
    }
}

impl Error for DraftRefusal {}

impl From<MaskRefusal> for DraftRefusal {
    ghost from_gives = { λ e r. r ≡ mask_passed_on e };

    fn from(e: MaskRefusal) -> DraftRefusal {
        RowRefusal::from(e).into()
    }
}

impl From<RowRefusal> for DraftRefusal {
    ghost from_gives = { λ e r. r ≡ row_passed_on e };

    fn from(e: RowRefusal) -> DraftRefusal {
        match e {
            RowRefusal::OutOfRange => DraftRefusal::OutOfRange,
            RowRefusal::TableFull => DraftRefusal::TableFull,
            RowRefusal::EqualPair => DraftRefusal::EqualPair,
        }
    }
}
