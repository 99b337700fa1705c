// Sets and exclusions run at their edges, for roles, acts and a kind that nothing here was written for.
ghost use Rattle.std.specs.Prelude.{refl};
ghost use Rattle.std.proofs.lemmas.Bool.{ltb-false};

use crate::both::Both;
use crate::exclusion::Exclusion;
use crate::kind::{Acts, Kind, Roles};
use crate::limits::{Limit, Limits};
use crate::pairs::{Pair, Pairs};
use crate::refusal::{MaskRefusal, RowRefusal};
use crate::set::Set;
use std::process::Abort;
use std::test::Fail;

// A third kind, to see that one fits without a change elsewhere.
#[derive(Clone, Copy)]
struct Clients;

impl Kind for Clients {
    const COUNT: u32 = 48;

    ghost COUNT = { 48 };

    ghost narrow = { ltb-false 64 48 refl };
}

fn pair(first: u32, second: u32) -> Pair {
    Pair { first, second }
}

fn limit(members: u64, most: u32) -> Limit {
    Limit { members, most }
}

// The highest member is one, and the place behind it is none.
fn highest_member<K: Kind>(rt: &impl Abort, kind: &str, count: u32, highest: u32) {
    let set: Set<K> = Set::one(highest);
    assert_eq!(rt; set.len(), 1, "{kind}");
    assert!(rt; set.has(highest), "{kind}");
    assert_eq!(rt; set.next_member(0), highest, "{kind}");
    assert_eq!(rt; set.next_member(count), count, "{kind}");
    assert_eq!(rt; set.next_member(u32::MAX), count, "{kind}");
    assert_eq!(rt; set.without(highest), Set::empty(), "{kind}");
    let outside: Set<K> = Set::one(count);
    assert_eq!(rt; outside, Set::empty(), "{kind}");
    assert!(rt; !set.has(count), "{kind}");
    assert_eq!(rt; set.with(count), set, "{kind}");
}

#[test]
fn highest_members(rt: HostRuntime) {
    highest_member::<Roles>(&rt, "roles", 32, 31);
    highest_member::<Acts>(&rt, "acts", 16, 15);
    highest_member::<Clients>(&rt, "clients", 48, 47);
}

// A pair and a limit of the two highest members.
fn highest_rows<K: Kind>(
    rt: &impl Abort,
    kind: &str,
    highest: u32,
    below: u32,
) -> Result<(), Fail> {
    let two: Set<K> = Set::one(highest).with(below);
    let mut pairs: Pairs<K> = Pairs::new();
    pairs.add(pair(highest, below))?;
    assert!(rt; !pairs.allows(two), "{kind}");
    assert!(rt; pairs.allows(Set::one(highest)), "{kind}");
    let mut limits: Limits<K> = Limits::new();
    limits.add(limit(two.mask(), 1))?;
    assert!(rt; !limits.allows(two), "{kind}");
    assert!(rt; limits.allows(Set::one(highest)), "{kind}");
    Ok(())
}

#[test]
fn rows_of_the_highest_members(rt: HostRuntime) -> Result<(), Fail> {
    highest_rows::<Roles>(&rt, "roles", 31, 30)?;
    highest_rows::<Acts>(&rt, "acts", 15, 14)?;
    highest_rows::<Clients>(&rt, "clients", 47, 46)
}

#[test]
fn masks_at_the_edge(rt: HostRuntime) -> Result<(), Fail> {
    let roles: Set<Roles> = Set::try_from(0xffff_ffff)?;
    assert_eq!(rt; roles.len(), 32);
    let acts: Set<Acts> = Set::try_from(0xffff)?;
    assert_eq!(rt; acts.len(), 16);
    let refused: Result<Set<Acts>, MaskRefusal> = Set::try_from(0x1_0000);
    assert_eq!(rt; refused, Err(MaskRefusal::OutsideKind));
    Ok(())
}

#[test]
fn members_in_steps(rt: HostRuntime) {
    let set: Set<Acts> = Set::one(3).with(0).with(15);
    assert_eq!(rt; set.next_member(0), 0);
    assert_eq!(rt; set.next_member(1), 3);
    assert_eq!(rt; set.next_member(4), 15);
    assert_eq!(rt; set.next_member(16), 16);
}

#[test]
fn unions_and_insides(rt: HostRuntime) {
    let low: Set<Roles> = Set::one(0).with(5);
    let high: Set<Roles> = Set::one(5).with(31);
    assert_eq!(rt; low.union(high).mask(), 0x8000_0021);
    assert_eq!(rt; low.intersection(high), Set::one(5));
    assert!(rt; low.is_inside(low.union(high)));
    assert!(rt; !low.is_inside(high));
}

// 128 pairs are taken, whatever they are, and the next is refused: by its members first, then as a pair of equals, then for want of room.
#[test]
fn the_last_pair(rt: HostRuntime) -> Result<(), Fail> {
    let mut pairs: Pairs<Acts> = Pairs::new();
    for _ in 0..128 {
        pairs.add(pair(14, 15))?;
    }
    assert_eq!(rt; pairs.rows().len(), 128);
    assert_eq!(rt; pairs.add(pair(14, 15)), Err(RowRefusal::TableFull));
    assert_eq!(rt; pairs.add(pair(15, 15)), Err(RowRefusal::EqualPair));
    assert_eq!(rt; pairs.add(pair(15, 16)), Err(RowRefusal::OutOfRange));
    assert_eq!(rt; pairs.add(pair(16, 16)), Err(RowRefusal::OutOfRange));
    assert!(rt; !pairs.allows(Set::one(14).with(15)));
    assert!(rt; pairs.allows(Set::one(15)));
    Ok(())
}

// 16 rows are taken, and the next is refused: by its members and its most first, then for want of room.
#[test]
fn the_last_limit(rt: HostRuntime) -> Result<(), Fail> {
    let mut limits: Limits<Roles> = Limits::new();
    for _ in 0..16 {
        limits.add(limit(0xffff_ffff, 31))?;
    }
    assert_eq!(rt; limits.rows().len(), 16);
    assert_eq!(rt; limits.add(limit(1, 0)), Err(RowRefusal::TableFull));
    assert_eq!(rt; limits.add(limit(1, 32)), Err(RowRefusal::OutOfRange));
    assert_eq!(rt;
        limits.add(limit(0x1_0000_0000, 0)),
        Err(RowRefusal::OutOfRange)
    );
    let all: Set<Roles> = Set::try_from(0xffff_ffff)?;
    assert!(rt; !limits.allows(all));
    assert!(rt; limits.allows(all.without(31)));
    Ok(())
}

#[test]
fn both_sides_are_asked(rt: HostRuntime) -> Result<(), Fail> {
    let mut left: Pairs<Clients> = Pairs::new();
    left.add(pair(46, 47))?;
    let mut right: Limits<Clients> = Limits::new();
    right.add(limit(1, 0))?;
    let both = Both { left, right };
    assert!(rt; !both.allows(Set::one(46).with(47)));
    assert!(rt; !both.allows(Set::one(0)));
    assert!(rt; both.allows(Set::one(47)));
    Ok(())
}
