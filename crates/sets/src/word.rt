// Words of 64 bits, which hold the members of sets: what each operation does to every place, whatever the number of places that count.
// Sets of a kind are cut to its places, so each contract speaks of words cut to n places, or to the places of a kind.
ghost use Rattle.std.specs.Prelude.{◌≡◌, ℕ, ◌-◌, ◌%◌, ◌^◌, ◌<◌, ◌≤◌, false, not, ◌&&◌, ◌||◌, IsTrue, ◌↔◌, ◌==◌, bit_and, bit_or, count_ones, nat_lt};
ghost use Rattle.sets.specs.Masks.{Inside, Next, has, minus, one, tally};

use crate::kind::Kind;

// The mask of all places of a kind.
fn all_places<K: Kind>() -> u64
    ensures { result ≡ 2 ^ K.COUNT - 1 }
{
    ((1u128 << K::COUNT) - 1) as u64
}

// The word cut to the places of a kind.
#[tactic(auto, using(crate::proofs::Words::cut_value))]
pub(crate) fn cut<K: Kind>(word: u64) -> u64
    ensures value { result ≡ word % 2 ^ K.COUNT }
    ensures again { result % 2 ^ K.COUNT ≡ word % 2 ^ K.COUNT }
    ensures within { result < 2 ^ K.COUNT }
{
    word & all_places::<K>()
}

// No place.
#[tactic(auto, using(crate::proofs::Words::none_members))]
pub(crate) fn no_places() -> u64
    ensures members { (n k : ℕ) → has (result % 2 ^ n) k ≡ false }
    ensures mask { (n : ℕ) → result % 2 ^ n ≡ 0 }
{
    0
}

// One place; none where it is past the word.
#[tactic(auto, using(crate::proofs::Words::one_members, crate::proofs::Words::one_mask, crate::proofs::Words::one_past))]
pub(crate) fn one_place(place: u32) -> u64
    ensures members { (n k : ℕ) → n ≤ 64 → has (result % 2 ^ n) k ≡ (nat_lt place n && k == place) }
    ensures mask { (n : ℕ) → n ≤ 64 → result % 2 ^ n ≡ one n place }
{
    if place >= 64 {
        return 0;
    }
    1 << place
}

// Whether the place is in the word.
#[tactic(auto, using(crate::proofs::Words::has_here, crate::proofs::Words::none_past))]
pub(crate) fn has_place(word: u64, place: u32) -> bool
    ensures { result ≡ has word place }
{
    place < 64 && (word >> place) % 2 == 1
}

// The places of either word.
#[tactic(auto, using(crate::proofs::Masks::has_or, std::proofs::lemmas::Nat::or_mod))]
pub(crate) fn either(a: u64, b: u64) -> u64
    ensures members { (n k : ℕ) → has (result % 2 ^ n) k ≡ (has (a % 2 ^ n) k || has (b % 2 ^ n) k) }
    ensures mask { (n : ℕ) → result % 2 ^ n ≡ bit_or (a % 2 ^ n) (b % 2 ^ n) }
{
    a | b
}

// The places of both words.
#[tactic(auto, using(crate::specs::MasksLemmas::has_and, std::proofs::lemmas::Nat::and_mod))]
pub(crate) fn common(a: u64, b: u64) -> u64
    ensures members { (n k : ℕ) → has (result % 2 ^ n) k ≡ (has (a % 2 ^ n) k && has (b % 2 ^ n) k) }
    ensures mask { (n : ℕ) → result % 2 ^ n ≡ bit_and (a % 2 ^ n) (b % 2 ^ n) }
{
    a & b
}

// The places of the first word that the second lacks.
#[tactic(auto, using(crate::proofs::Words::except_members, crate::proofs::Words::except_mask))]
pub(crate) fn except(a: u64, b: u64) -> u64
    ensures members { (n k : ℕ) → has (result % 2 ^ n) k ≡ (has (a % 2 ^ n) k && not (has (b % 2 ^ n) k)) }
    ensures mask { (n : ℕ) → result % 2 ^ n ≡ minus (a % 2 ^ n) (b % 2 ^ n) }
{
    a & !b
}

// Whether every place of the first word is in the second.
#[tactic(auto, using(crate::proofs::Words::inside_decides))]
pub(crate) fn inside(a: u64, b: u64) -> bool
    ensures { IsTrue result ↔ Inside a b }
{
    a & b == a
}

// How many places there are.
#[tactic(auto, using(crate::proofs::Masks::ones_tally))]
pub(crate) fn count_places(word: u64) -> u32
    ensures members { (n : ℕ) → word < 2 ^ n → result ≡ tally n (has word) }
    ensures ones { result ≡ count_ones word }
{
    word.count_ones()
}

// The least place of the word not below the given one, and the kind's count where there is none before it.
pub(crate) fn next_place<K: Kind>(word: u64, place: u32) -> u32
    ensures { Next K.COUNT (word % 2 ^ K.COUNT) place result }
{
    if place >= K::COUNT {
        return K::COUNT;
    }
    let next = place + (word >> place).trailing_zeros();
    next.min(K::COUNT)
}
