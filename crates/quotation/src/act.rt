// The acts on a quotation that the studio's rules speak of.
ghost use Rattle.std.specs.Prelude.{◌≡◌, MatchResult, Some, codes};
ghost use Rattle.quotation.specs.Studio.{NoAct, act_number, act_word};

use std::error::Error;
use std::fmt;
use std::str::FromStr;

#[derive(Clone, Copy, PartialEq, Eq, Debug)]
pub enum Act {
    Price = 0,
    Check = 1,
    Release = 2,
}

// The acts in the order of their numbers.
pub const ACTS: [Act; 3] = [Act::Price, Act::Check, Act::Release];

// The word is for no act.
#[derive(Clone, Copy, PartialEq, Eq, Debug)]
pub struct UnknownAct;

impl Act {
    // The act's number, its place in a set of acts.
    pub fn number(self) -> u32
        ensures { result ≡ act_number self }
    {
        self as u32
    }

    // The word for the act.
    pub fn word(self) -> &'static str
        ensures { result.now ≡ act_word self }
    {
        match self {
            Act::Price => "price",
            Act::Check => "check",
            Act::Release => "release",
        }
    }
}

// The act that a word is for.
impl FromStr for Act {
    type Err = UnknownAct;

    ghost from_str_gives = { λ word r. MatchResult r (λ a. act_word a ≡ word) (λ _. NoAct word) };

    fn from_str(word: &str) -> Result<Act, UnknownAct> {
        match word {
            "price" => Ok(Act::Price),
            "check" => Ok(Act::Check),
            "release" => Ok(Act::Release),
            _ => Err(UnknownAct),
        }
    }
}

impl fmt::Display for UnknownAct {
    ghost output = { λ _. Some (codes "no such act") };

    fn fmt<W: fmt::Write>(&self, f: &mut fmt::Formatter<W>) -> fmt::Result {
        f.write_str("no such act")
    }
}

impl Error for UnknownAct {}

impl fmt::Display for Act {
    ghost output = { λ a. Some (act_word a) };

    fn fmt<W: fmt::Write>(&self, f: &mut fmt::Formatter<W>) -> fmt::Result {
        f.write_str(self.word())
    }
}
