// Sets of one kind: which members a set has, held as the bits of a word.
// Of a set that comes in only the places of its kind count, and no set that goes out has a bit set outside them. The type cannot promise the
// second: then no impl of `Exclusion` would get a proof.
ghost use Rattle.std.specs.Prelude.{◌≡◌, ℕ, ◌%◌, ◌^◌, ◌<◌, ◌≤◌, false, not, ◌&&◌, ◌||◌, IsTrue, ◌↔◌, MatchResult, ◌==◌, bit_and, bit_or, count_ones, nat_lt};
ghost use Rattle.sets.specs.Masks.{Inside, Next, has, minus, one, tally};
ghost use Rattle.sets.specs.Sets.{mask};
ghost use Rattle.sets.specs.declared.refusal.MaskRefusal.TheVariants.{OutsideKind};
ghost use Rattle.std.specs.Cmp.Rules.{comparing};
ghost use Rattle.std.proofs.Common.{rules};
ghost use Rattle.std.specs.Cmp.{partial_equiv_from_equiv};
ghost use Rattle.std.specs.Ordering.{on};

use crate::kind::Kind;
use crate::refusal::MaskRefusal;
use crate::word;
use std::marker::PhantomData;

// A set of one kind. Copying it copies one word. The default is the set with no member.
#[derive_where(Clone, Copy, Debug, Default)]
pub struct Set<K: Kind> {
    bits: u64,
    kind: PhantomData<K>,
}

// Whether all members of a raw mask are below the place.
#[tactic(auto, using(crate::proofs::Words::all_short, crate::proofs::Words::past_places, crate::proofs::Words::short_of_places))]
pub fn is_below(mask: u64, place: u32) -> bool
    ensures { result ≡ nat_lt mask (2 ^ place) }
{
    place >= 64 || mask >> place == 0
}

// The set of a raw mask, refused where a bit is set outside the kind.
impl<K: Kind> TryFrom<u64> for Set<K> {
    type Error = MaskRefusal;

    ghost try_from_gives = { λ raw r. MatchResult r (λ s. (raw < 2 ^ K.COUNT) × (s.bits ≡ raw) × (mask K.COUNT s ≡ raw)) (λ e. (2 ^ K.COUNT ≤ raw) × (e ≡ OutsideKind)) };

    fn try_from(raw: u64) -> Result<Set<K>, MaskRefusal> {
        if !is_below(raw, K::COUNT) {
            return Err(MaskRefusal::OutsideKind);
        }
        Ok(Set {
            bits: raw,
            kind: PhantomData,
        })
    }
}

impl<K: Kind> Set<K> {
    // The set of those bits that are places of the kind.
    fn of_bits(bits: u64) -> Set<K>
        ensures mask { mask K.COUNT result ≡ bits % 2 ^ K.COUNT }
        ensures within { result.bits < 2 ^ K.COUNT }
    {
        Set {
            bits: word::cut::<K>(bits),
            kind: PhantomData,
        }
    }

    // The set with no member.
    pub fn empty() -> Set<K>
        ensures members { (k : ℕ) → has (mask K.COUNT result) k ≡ false }
        ensures mask { mask K.COUNT result ≡ 0 }
        ensures within { result.bits < 2 ^ K.COUNT }
    {
        Set::of_bits(word::no_places())
    }

    // The set with one member. A place outside the kind is no member, and leaves the set empty.
    pub fn one(place: u32) -> Set<K>
        ensures members { (k : ℕ) → has (mask K.COUNT result) k ≡ (nat_lt place K.COUNT && k == place) }
        ensures mask { mask K.COUNT result ≡ one K.COUNT place }
        ensures within { result.bits < 2 ^ K.COUNT }
    {
        Set::of_bits(word::one_place(place))
    }

    // The members as a mask: bit k for member k.
    pub fn mask(self) -> u64
        ensures value { result ≡ mask K.COUNT self }
        ensures within { result < 2 ^ K.COUNT }
    {
        word::cut::<K>(self.bits)
    }

    // Whether the place is a member. A place outside the kind is none.
    pub fn has(self, place: u32) -> bool
        ensures { result ≡ has (mask K.COUNT self) place }
    {
        word::has_place(self.mask(), place)
    }

    // The set with this member besides. A place outside the kind adds none.
    pub fn with(self, place: u32) -> Set<K>
        ensures members { (k : ℕ) → has (mask K.COUNT result) k ≡ (has (mask K.COUNT self) k || (nat_lt place K.COUNT && k == place)) }
        ensures mask { mask K.COUNT result ≡ bit_or (mask K.COUNT self) (one K.COUNT place) }
        ensures within { result.bits < 2 ^ K.COUNT }
    {
        self.union(Set::one(place))
    }

    // The set without this member.
    pub fn without(self, place: u32) -> Set<K>
        ensures members { (k : ℕ) → has (mask K.COUNT result) k ≡ (has (mask K.COUNT self) k && not (nat_lt place K.COUNT && k == place)) }
        ensures mask { mask K.COUNT result ≡ minus (mask K.COUNT self) (one K.COUNT place) }
        ensures within { result.bits < 2 ^ K.COUNT }
    {
        Set::of_bits(word::except(self.bits, Self::one(place).bits))
    }

    // The members of either set.
    pub fn union(self, other: Set<K>) -> Set<K>
        ensures members { (k : ℕ) → has (mask K.COUNT result) k ≡ (has (mask K.COUNT self) k || has (mask K.COUNT other) k) }
        ensures mask { mask K.COUNT result ≡ bit_or (mask K.COUNT self) (mask K.COUNT other) }
        ensures within { result.bits < 2 ^ K.COUNT }
    {
        Set::of_bits(word::either(self.bits, other.bits))
    }

    // The members of both sets.
    pub fn intersection(self, other: Set<K>) -> Set<K>
        ensures members { (k : ℕ) → has (mask K.COUNT result) k ≡ (has (mask K.COUNT self) k && has (mask K.COUNT other) k) }
        ensures mask { mask K.COUNT result ≡ bit_and (mask K.COUNT self) (mask K.COUNT other) }
        ensures within { result.bits < 2 ^ K.COUNT }
    {
        Set::of_bits(word::common(self.bits, other.bits))
    }

    // Whether every member is a member of the other set.
    pub fn is_inside(self, other: Set<K>) -> bool
        ensures { IsTrue result ↔ Inside (mask K.COUNT self) (mask K.COUNT other) }
    {
        word::inside(self.mask(), other.mask())
    }

    // How many members there are.
    pub fn len(self) -> u32
        ensures members { result ≡ tally K.COUNT (has (mask K.COUNT self)) }
        ensures ones { result ≡ count_ones (mask K.COUNT self) }
    {
        word::count_places(self.mask())
    }

    // The step through the members: the least member not below the place, and the kind's count where there is none, as the rules have it.
    pub fn next_member(self, place: u32) -> u32
        ensures { Next K.COUNT (mask K.COUNT self) place result }
    {
        word::next_place::<K>(self.bits, place)
    }
}

// Sets are equal where they have the same members. By hand, since a derived equality compares the bits outside the kind too.
impl<K: Kind> PartialEq for Set<K> {
    ghost eq = { on (mask K.COUNT) (λ a b. a == b) };

    ghost laws = { partial_equiv_from_equiv (Prim.search (comparing, rules)) };

    fn eq(&self, other: &Set<K>) -> bool
        ensures { IsTrue result ↔ (mask K.COUNT self.now ≡ mask K.COUNT other.now) }
    {
        self.mask() == other.mask()
    }
}

impl<K: Kind> Eq for Set<K> {
    ghost laws = { Prim.search (comparing, rules) };
}
