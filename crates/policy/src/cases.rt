// Worked cases: what comes out of small policies, proved by computing it, and what callers of a sealed policy can rely on. The check fails where
// one does not hold.
ghost use Rattle.std.specs.Prelude.{◌≡◌, ◌≤◌, length, Ok, MatchResult};

use crate::draft::Draft;
use crate::hierarchy::Step;
use crate::refusal::DraftRefusal;
use crate::role::Marks;
use crate::rule::Rule;
use crate::sealed::Sealed;
use sets::set::Set;
use std::alloc::AllocError;

// Steps from role 2 to 1 and from 1 to 0: the roles below 2 are 0, 1 and 2, and below 0 is 0, as masks.
pub fn two_steps_down() -> Result<(u64, u64), DraftRefusal>
    ensures { result ≡ Ok (0b111, 0b001) }
{
    let unmarked = Marks::default();
    let mut draft = Draft::new();
    draft.add_role(0, unmarked)?;
    draft.add_role(0, unmarked)?;
    draft.add_role(0, unmarked)?;
    draft.add_step(Step {
        senior: 2,
        junior: 1,
    })?;
    draft.add_step(Step {
        senior: 1,
        junior: 0,
    })?;
    let policy: Sealed = draft.seal();
    Ok((policy.below(2).mask(), policy.below(0).mask()))
}

// A rule of depth 0 lets a chain have two links.
pub fn usual_depth() -> u32
    ensures { result ≡ 2 }
{
    let rule = Rule {
        role: 0,
        required: Set::empty(),
        depth: 0,
    };
    rule.links()
}

// A clone of a sealed policy says the same, and making it never fails.
pub fn cloned(policy: &Sealed) -> Result<Sealed, AllocError>
    ensures { MatchResult result (λ clone. clone ≡ policy.now) (λ _. ⊥) }
{
    policy.clone()
}

// A reading tells that the policy is sound: whoever lists the roles knows that there are at most 32, and asks nothing else.
pub fn listed(policy: &Sealed) -> usize
    ensures number { result ≡ length policy.now.roles }
    ensures few { result ≤ 32 }
{
    policy.roles().len()
}
