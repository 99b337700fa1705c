// Two exclusions of one kind taken together.
ghost use Rattle.std.specs.Prelude.{◌≡◌, ◌&&◌};
ghost use Rattle.std.proofs.Common.{rules};
ghost use Rattle.sets.specs.Sets.{mask};

use crate::exclusion::Exclusion;
use crate::kind::Kind;
use crate::limits::Limits;
use crate::pairs::Pairs;
use crate::set::Set;

// Allows what both allow.
#[derive(Clone, Copy)]
pub struct Both<L, R> {
    pub left: L,
    pub right: R,
}

// An exclusion of both kinds of row.
pub type PairsAndLimits<K> = Both<Pairs<K>, Limits<K>>;

impl<K: Kind, L: Exclusion<K>, R: Exclusion<K>> Exclusion<K> for Both<L, R> {
    ghost allowed = { λ x s. L.allowed x.left s && R.allowed x.right s };

    ghost empty = { Prim.search rules };

    ghost inside = { Prim.search rules };

    fn allows(&self, set: Set<K>) -> bool
        ensures { result ≡ (L.allowed self.now.left (mask K.COUNT set) && R.allowed self.now.right (mask K.COUNT set)) }
    {
        self.left.allows(set) && self.right.allows(set)
    }
}
