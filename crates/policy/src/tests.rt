// Drafts at every bound, the densest hierarchy that fits, and what a sealed policy answers.
use crate::draft::Draft;
use crate::hierarchy::Step;
use crate::refusal::DraftRefusal;
use crate::role::Marks;
use crate::rule::Link;
use crate::scope::Scope;
use crate::sealed::Sealed;
use sets::exclusion::Exclusion;
use sets::limits::Limit;
use sets::pairs::Pair;
use sets::set::Set;
use std::process::Abort;
use std::test::Fail;

const NO_MARKS: Marks = Marks {
    grant_dependent: false,
    grant_independent: false,
};

fn step(senior: u32, junior: u32) -> Step {
    Step { senior, junior }
}

fn pair(first: u32, second: u32) -> Pair {
    Pair { first, second }
}

fn limit(members: u64, most: u32) -> Limit {
    Limit { members, most }
}

// A draft with so many roles, which may do nothing.
fn roles(count: u32) -> Result<Draft, DraftRefusal> {
    let mut draft = Draft::new();
    for _ in 0..count {
        draft.add_role(0, NO_MARKS)?;
    }
    Ok(draft)
}

#[test]
fn the_last_role(rt: HostRuntime) -> Result<(), Fail> {
    let mut draft = roles(31)?;
    let marks = Marks {
        grant_dependent: true,
        grant_independent: false,
    };
    assert_eq!(rt;
        draft.add_role(0x1_0000, marks),
        Err(DraftRefusal::OutOfRange)
    );
    assert_eq!(rt; draft.add_role(0xffff, marks), Ok(31));
    assert_eq!(rt;
        draft.add_role(0x1_0000, marks),
        Err(DraftRefusal::OutOfRange)
    );
    assert_eq!(rt; draft.add_role(0, marks), Err(DraftRefusal::TableFull));
    let policy = draft.seal();
    assert_eq!(rt; policy.role_count(), 32);
    assert_eq!(rt; policy.acts(31).mask(), 0xffff);
    assert_eq!(rt; policy.marks(31), marks);
    assert_eq!(rt; policy.acts(32), Set::empty());
    assert_eq!(rt; policy.marks(32), NO_MARKS);
    assert_eq!(rt; policy.below(32), Set::empty());
    Ok(())
}

// Steps from each role to the next lower one, then to the one after it, and so on, until no more are taken.
fn densest() -> Result<Draft, DraftRefusal> {
    let mut draft = roles(32)?;
    for distance in 1..11 {
        for junior in 0..(32 - distance) {
            match draft.add_step(step(junior + distance, junior)) {
                Ok(()) => {}
                Err(DraftRefusal::TableFull) => return Ok(draft),
                Err(refusal) => return Err(refusal),
            }
        }
    }
    Ok(draft)
}

// Without the finished rows of the lower roles, each role would double the time that this takes.
#[test]
fn the_densest_hierarchy(rt: HostRuntime) -> Result<(), Fail> {
    let policy = densest()?.seal();
    assert_eq!(rt; policy.steps().len(), 256);
    assert_eq!(rt; policy.below(31).len(), 32);
    assert_eq!(rt; policy.below(1).mask(), 0b11);
    assert!(rt; policy.is_below(0, 31));
    assert!(rt; !policy.is_below(31, 0));
    Ok(())
}

#[test]
fn the_last_step(rt: HostRuntime) -> Result<(), Fail> {
    let mut draft = densest()?;
    assert_eq!(rt; draft.add_step(step(31, 0)), Err(DraftRefusal::TableFull));
    assert_eq!(rt; draft.add_step(step(0, 31)), Err(DraftRefusal::NotLower));
    assert_eq!(rt; draft.add_step(step(31, 31)), Err(DraftRefusal::NotLower));
    assert_eq!(rt; draft.add_step(step(32, 0)), Err(DraftRefusal::OutOfRange));
    assert_eq!(rt; draft.add_step(step(0, 32)), Err(DraftRefusal::OutOfRange));
    Ok(())
}

// A step names roles that have been added.
#[test]
fn roles_to_come(rt: HostRuntime) -> Result<(), Fail> {
    let mut draft = roles(2)?;
    assert_eq!(rt; draft.add_step(step(2, 1)), Err(DraftRefusal::OutOfRange));
    assert_eq!(rt;
        draft.add_pair(Scope::Standing, pair(0, 2)),
        Err(DraftRefusal::OutOfRange)
    );
    assert_eq!(rt;
        draft.add_limit(Scope::Session, limit(0b100, 0)),
        Err(DraftRefusal::OutOfRange)
    );
    assert_eq!(rt; draft.add_rule(2, 0, 0), Err(DraftRefusal::OutOfRange));
    assert_eq!(rt; draft.add_rule(1, 0b100, 0), Err(DraftRefusal::OutOfRange));
    assert_eq!(rt; draft.add_role(0, NO_MARKS), Ok(2));
    assert_eq!(rt; draft.add_step(step(2, 1)), Ok(()));
    Ok(())
}

// 128 pairs are taken and no more, by an exclusion whose members are below the place.
fn last_pair(rt: &impl Abort, scope: Scope, place: u32) -> Result<(), Fail> {
    let mut draft = roles(20)?;
    for _ in 0..128 {
        draft.add_pair(scope, pair(0, 1))?;
    }
    assert_eq!(rt;
        draft.add_pair(scope, pair(0, 1)),
        Err(DraftRefusal::TableFull),
        "{scope:?}"
    );
    assert_eq!(rt;
        draft.add_pair(scope, pair(1, 1)),
        Err(DraftRefusal::EqualPair),
        "{scope:?}"
    );
    assert_eq!(rt;
        draft.add_pair(scope, pair(1, place)),
        Err(DraftRefusal::OutOfRange),
        "{scope:?}"
    );
    assert_eq!(rt;
        draft.add_pair(scope, pair(place, place)),
        Err(DraftRefusal::OutOfRange),
        "{scope:?}"
    );
    assert_eq!(rt; draft.seal().pairs(scope).len(), 128, "{scope:?}");
    Ok(())
}

#[test]
fn the_last_pairs(rt: HostRuntime) -> Result<(), Fail> {
    last_pair(&rt, Scope::Standing, 20)?;
    last_pair(&rt, Scope::Session, 20)?;
    last_pair(&rt, Scope::History, 16)
}

// 16 limits are taken and no more, by an exclusion with these members and no more.
fn last_limit(rt: &impl Abort, scope: Scope, members: u64, outside: u64) -> Result<(), Fail> {
    let mut draft = roles(20)?;
    for _ in 0..16 {
        draft.add_limit(scope, limit(members, 31))?;
    }
    assert_eq!(rt;
        draft.add_limit(scope, limit(1, 0)),
        Err(DraftRefusal::TableFull),
        "{scope:?}"
    );
    assert_eq!(rt;
        draft.add_limit(scope, limit(1, 32)),
        Err(DraftRefusal::OutOfRange),
        "{scope:?}"
    );
    assert_eq!(rt;
        draft.add_limit(scope, limit(outside, 0)),
        Err(DraftRefusal::OutOfRange),
        "{scope:?}"
    );
    assert_eq!(rt;
        draft.add_limit(scope, limit(u64::MAX, 0)),
        Err(DraftRefusal::OutOfRange),
        "{scope:?}"
    );
    assert_eq!(rt; draft.seal().limits(scope).len(), 16, "{scope:?}");
    Ok(())
}

#[test]
fn the_last_limits(rt: HostRuntime) -> Result<(), Fail> {
    last_limit(&rt, Scope::Standing, 0xf_ffff, 0x10_0000)?;
    last_limit(&rt, Scope::Session, 0xf_ffff, 0x10_0000)?;
    last_limit(&rt, Scope::History, 0xffff, 0x1_0000)
}

#[test]
fn the_last_rule(rt: HostRuntime) -> Result<(), Fail> {
    let mut draft = roles(32)?;
    assert_eq!(rt;
        draft.add_rule(31, 0xffff_ffff, 16),
        Err(DraftRefusal::OutOfRange)
    );
    for _ in 0..64 {
        draft.add_rule(31, 0xffff_ffff, 15)?;
    }
    assert_eq!(rt; draft.add_rule(31, 0, 0), Err(DraftRefusal::TableFull));
    assert_eq!(rt; draft.add_rule(32, 0, 0), Err(DraftRefusal::OutOfRange));
    assert_eq!(rt;
        draft.add_rule(0, 0x1_0000_0000, 0),
        Err(DraftRefusal::OutOfRange)
    );
    assert_eq!(rt; draft.seal().rules().len(), 64);
    Ok(())
}

// The rows of one exclusion bear on no other.
#[test]
fn three_exclusions(rt: HostRuntime) -> Result<(), Fail> {
    let mut draft = roles(3)?;
    draft.add_pair(Scope::Standing, pair(0, 1))?;
    draft.add_limit(Scope::Session, limit(0b110, 1))?;
    draft.add_pair(Scope::History, pair(14, 15))?;
    let policy = draft.seal();
    assert!(rt; !policy.standing().allows(Set::one(0).with(1)));
    assert!(rt; policy.standing().allows(Set::one(1).with(2)));
    assert!(rt; policy.session().allows(Set::one(0).with(1)));
    assert!(rt; !policy.session().allows(Set::one(1).with(2)));
    assert!(rt; !policy.history().allows(Set::one(14).with(15)));
    assert!(rt; policy.history().allows(Set::one(0).with(1)));
    Ok(())
}

// Role 3 is above 2 and 1, and 1 is above 0. Whoever has 1 below the basis may pass on 1 and 0, by two links, to somebody who has 2.
#[test]
fn rules_fit(rt: HostRuntime) -> Result<(), Fail> {
    let mut draft = roles(4)?;
    draft.add_step(step(3, 2))?;
    draft.add_step(step(3, 1))?;
    draft.add_step(step(1, 0))?;
    draft.add_rule(1, 0b0100, 0)?;
    let policy = draft.seal();
    let own = Set::one(2);
    let link = Link {
        basis: 3,
        role: 0,
        own,
        depth: 2,
    };
    assert!(rt; policy.rule_fits(link));
    assert!(rt;
        policy.rule_fits(Link {
            basis: 1,
            role: 1,
            own: own.with(3),
            depth: 1
        })
    );
    assert!(rt;
        !policy.rule_fits(Link {
            basis: 0,
            depth: 1,
            ..link
        })
    );
    assert!(rt;
        !policy.rule_fits(Link {
            role: 2,
            depth: 1,
            ..link
        })
    );
    assert!(rt;
        !policy.rule_fits(Link {
            own: Set::one(1),
            depth: 1,
            ..link
        })
    );
    assert!(rt; !policy.rule_fits(Link { depth: 3, ..link }));
    Ok(())
}

#[test]
fn an_empty_policy(rt: HostRuntime) {
    let policy = Sealed::empty();
    assert_eq!(rt; policy.role_count(), 0);
    assert_eq!(rt; policy.below(0), Set::empty());
    assert!(rt; !policy.is_below(0, 0));
    assert!(rt;
        !policy.rule_fits(Link {
            basis: 0,
            role: 0,
            own: Set::empty(),
            depth: 0
        })
    );
    assert!(rt; policy.standing().allows(Set::one(0).with(1)));
}
