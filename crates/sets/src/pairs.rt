// Pairs: an exclusion that parts two members from each other.
ghost use Rattle.std.specs.Prelude.{◌≡◌};
ghost use Rattle.std.proofs.Common.{rules};
ghost use Rattle.sets.specs.PairRows.{HasBoth, has_both, pair_fault};
ghost use Rattle.sets.specs.PairRowsLemmas.{pair_decided, pair_empty, pair_around};
ghost use Rattle.sets.specs.Rows.{Checked};
ghost use Rattle.sets.specs.Sets.{mask};

use crate::kind::Kind;
use crate::refusal::RowRefusal;
use crate::row::{Entry, Row, Rows};
use crate::set::Set;
use crate::table::Blank;

// How many pairs one exclusion can hold.
pub const MOST_PAIRS: usize = 128;

// Two members that no allowed set has together.
#[derive(Clone, Copy, Default, PartialEq, Eq, Debug)]
pub struct Pair {
    pub first: u32,
    pub second: u32,
}

// A set is forbidden exactly when it has both members of some pair.
pub type Pairs<K> = Rows<K, Pair, MOST_PAIRS>;

impl Blank for Pair {
    ghost blank = { record { first = 0; second = 0 } };

    ghost alone = { Prim.search rules };
}

impl Entry for Pair {
    ghost fault = { pair_fault };

    fn check(&self, places: u32) -> Result<(), RowRefusal>
        ensures { Checked (pair_fault places self.now) result }
    {
        if self.first >= places || self.second >= places {
            return Err(RowRefusal::OutOfRange);
        }
        if self.first == self.second {
            return Err(RowRefusal::EqualPair);
        }
        Ok(())
    }
}

impl<K: Kind> Row<K> for Pair {
    ghost forbidden = { λ p s. has_both s p };

    ghost Forbids = { λ p s. HasBoth s p };

    ghost decided = { pair_decided };

    ghost empty = { pair_empty };

    ghost around = { pair_around };

    fn forbids(&self, set: Set<K>) -> bool
        ensures { result ≡ has_both (mask K.COUNT set) self.now }
    {
        set.has(self.first) && set.has(self.second)
    }
}
