// What an exclusion is: a fixed yes or no for each set of its kind (separation of duty).
ghost use Rattle.std.specs.Prelude.{◌≡◌, ℕ, Bool, true};
ghost use Rattle.sets.specs.Masks.{Inside};
ghost use Rattle.sets.specs.Sets.{mask};

use crate::kind::Kind;
use crate::set::Set;

// An exclusion over sets of one kind. Code above knows it by its meaning alone, so a host may write its own.
pub trait Exclusion<K: Kind> {
    // the meaning: which sets, as masks, are allowed
    ghost allowed: { Self → ℕ → Bool };

    // Whether the set is allowed.
    fn allows(&self, set: Set<K>) -> bool
        ensures { result ≡ allowed self.now (mask K.COUNT set) };

    // nobody is stopped from having nothing
    ghost empty: { (x : Self) → allowed x 0 ≡ true };

    // giving something up never breaks a rule
    ghost inside: { (x : Self) (s t : ℕ) → Inside s t → allowed x t ≡ true → allowed x s ≡ true };
}
