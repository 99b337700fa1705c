// Limits: an exclusion that lets a set have only so many of some members.
ghost use Rattle.std.specs.Prelude.{◌≡◌};
ghost use Rattle.std.proofs.Common.{rules};
ghost use Rattle.sets.specs.LimitRows.{Passes, limit_fault, passes};
ghost use Rattle.sets.specs.LimitRowsLemmas.{limit_decided, limit_empty, limit_around};
ghost use Rattle.sets.specs.Rows.{Checked};
ghost use Rattle.sets.specs.Sets.{mask};

use crate::kind::Kind;
use crate::refusal::RowRefusal;
use crate::row::{Entry, Row, Rows};
use crate::set::{Set, is_below};
use crate::table::Blank;

// How many rows one exclusion can hold.
pub const MOST_LIMITS: usize = 16;

// The highest most that a row can have.
pub const HIGHEST_MOST: u32 = 31;

// Some members, as a raw mask, and how many of them an allowed set has at most.
#[derive(Clone, Copy, Default, PartialEq, Eq, Debug)]
pub struct Limit {
    pub members: u64,
    pub most: u32,
}

// A set is forbidden exactly when it has more members of some row than that row's most.
pub type Limits<K> = Rows<K, Limit, MOST_LIMITS>;

impl Blank for Limit {
    ghost blank = { record { members = 0; most = 0 } };

    ghost alone = { Prim.search rules };
}

impl Entry for Limit {
    ghost fault = { limit_fault };

    fn check(&self, places: u32) -> Result<(), RowRefusal>
        ensures { Checked (limit_fault places self.now) result }
    {
        if !is_below(self.members, places) || self.most > HIGHEST_MOST {
            return Err(RowRefusal::OutOfRange);
        }
        Ok(())
    }
}

impl<K: Kind> Row<K> for Limit {
    ghost forbidden = { λ l s. passes s l };

    ghost Forbids = { λ l s. Passes s l };

    ghost decided = { limit_decided };

    ghost empty = { limit_empty };

    ghost around = { limit_around };

    fn forbids(&self, set: Set<K>) -> bool
        ensures { result ≡ passes (mask K.COUNT set) self.now }
    {
        (set.mask() & self.members).count_ones() > self.most
    }
}
