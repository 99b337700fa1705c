// What this crate refuses, by which number and in which words.
ghost use Rattle.std.specs.Prelude.{◌≡◌, ◌++◌, Some, codes, decimal};
ghost use Rattle.std.specs.Fmt.{WritesOnOk};
ghost use Rattle.sets.specs.Refusals.{mask_number, passed_on, row_number, row_words};

use std::error::Error;
use std::fmt;

// Writes a refusal as people read it, here and in the layers above: its number and its words. Each `Display` calls it, and says so in its
// `output`, which no derive does.
pub fn show<W: fmt::Write>(number: u8, words: &str, f: &mut fmt::Formatter<W>) -> fmt::Result
    ensures { WritesOnOk W.write_str_gives f.old result (decimal number ++ (codes ": " ++ words.now)) f.new }
{
    write!(f, "{number}: {words}")
}

// Why a raw mask is no set of its kind.
#[derive(Clone, Copy, PartialEq, Eq, Debug)]
pub enum MaskRefusal {
    // a bit is set outside the kind
    OutsideKind = 1,
}

impl MaskRefusal {
    pub fn number(self) -> u8
        ensures { result ≡ mask_number self }
    {
        self as u8
    }
}

// Why a pair or a limit is not added to its table.
#[derive(Clone, Copy, PartialEq, Eq, Debug)]
pub enum RowRefusal {
    // a member outside the kind, or a most above 31
    OutOfRange = 1,
    // the table has all the rows it can hold
    TableFull = 28,
    // both members of the pair are the same
    EqualPair = 30,
}

impl RowRefusal {
    pub fn number(self) -> u8
        ensures { result ≡ row_number self }
    {
        self as u8
    }

    fn words(self) -> &'static str
        ensures { result.now ≡ row_words self }
    {
        match self {
            RowRefusal::OutOfRange => "a number is outside its range",
            RowRefusal::TableFull => "the table is full",
            RowRefusal::EqualPair => "both members of the pair are the same",
        }
    }
}

impl fmt::Display for RowRefusal {
    ghost output = { λ x. Some (decimal (row_number x) ++ (codes ": " ++ row_words x)) };

    fn fmt<W: fmt::Write>(&self, f: &mut fmt::Formatter<W>) -> fmt::Result {
        show(self.number(), self.words(), f)
    }
}

impl Error for RowRefusal {}

impl From<MaskRefusal> for RowRefusal {
    ghost from_gives = { λ e r. r ≡ passed_on e };

    fn from(e: MaskRefusal) -> RowRefusal {
        match e {
            MaskRefusal::OutsideKind => RowRefusal::OutOfRange,
        }
    }
}

impl fmt::Display for MaskRefusal {
    ghost output = { λ x. Some (decimal (mask_number x) ++ (codes ": " ++ row_words (passed_on x))) };

    fn fmt<W: fmt::Write>(&self, f: &mut fmt::Formatter<W>) -> fmt::Result {
        RowRefusal::from(*self).fmt(f)
    }
}

impl Error for MaskRefusal {}
