// Sealed policies: what a monitor starts from. Sealing uses a draft up, works out the roles below each role, and never refuses.
ghost use Rattle.std.specs.Prelude.{◌≡◌, ℕ, ◌<◌, IsTrue, ◌↔◌};
ghost use Rattle.policy.specs.Policies.{BelowIn, count, nothing, role_at, rows, rows_in};
ghost use Rattle.policy.specs.Rules.{Fits, SomeRuleFits};
ghost use Rattle.policy.specs.Sound.{IsSound, RuleRoles};
ghost use Rattle.sets.specs.Masks.{has};
ghost use Rattle.sets.specs.Sets.{mask};

use crate::contents::Contents;
use crate::draft::Draft;
use crate::hierarchy::{Step, rows_below};
use crate::role::{MOST_ROLES, Marks, Role};
use crate::rule::{Link, Rule};
use crate::scope::Scope;
use sets::both::PairsAndLimits;
use sets::kind::{Acts, Kind, Roles};
use sets::limits::Limit;
use sets::pairs::Pair;
use sets::set::Set;
use std::marker::Model;

// A policy that is sound by its type.
#[derive(Clone, Drop)]
pub struct Sealed {
    contents: Contents,
    below: [Set<Roles>; MOST_ROLES],
}

// To contracts a sealed policy is what it says. What it says is sound, and the table has, for each role, exactly the roles below it.
impl Model for Sealed {
    ghost use Rattle.policy.specs.Below.{Exact};
    ghost use Rattle.policy.specs.Policies.{Policy, count, policy};
    ghost use Rattle.policy.specs.Sound.{IsSound};

    ghost Value = { Policy };

    ghost view = { λ sealed. policy sealed.contents };

    ghost invariant = { λ sealed. IsSound (policy sealed.contents) × Exact (policy sealed.contents).steps (count (policy sealed.contents)) sealed.below };
}

impl Draft {
    // Uses the draft up.
    pub fn seal(self) -> Sealed
        ensures same { result ≡ self }
        ensures sound { IsSound result }
    {
        let Draft { contents } = self;
        let below = rows_below(contents.steps.as_slice(), contents.role_count());
        Sealed { contents, below }
    }
}

impl Sealed {
    // The policy that says nothing.
    pub fn empty() -> Sealed
        ensures empty { result ≡ nothing }
        ensures sound { IsSound result }
    {
        Draft::new().seal()
    }

    // How many roles there are. They have the numbers below it. This and every reading below also tell that the policy is sound, which its type
    // promises but does not show to callers.
    pub fn role_count(&self) -> u32
        ensures number { result ≡ count self.now }
        ensures sound { IsSound self.now }
    {
        self.contents.role_count()
    }

    // The roles, in the order of their numbers.
    pub fn roles(&self) -> &[Role]
        ensures items { result.now ≡ self.now.roles }
        ensures sound { IsSound self.now }
    {
        self.contents.roles.as_slice()
    }

    // What a role may do by itself: nothing, if it is not in the policy.
    pub fn acts(&self, role: u32) -> Set<Acts>
        ensures answer { result ≡ (role_at self.now role).acts }
        ensures sound { IsSound self.now }
    {
        self.role(role).acts
    }

    // The marks of a role: none, if it is not in the policy.
    pub fn marks(&self, role: u32) -> Marks
        ensures answer { result ≡ (role_at self.now role).marks }
        ensures sound { IsSound self.now }
    {
        self.role(role).marks
    }

    fn role(&self, number: u32) -> Role
        ensures answer { result ≡ role_at self.now number }
        ensures sound { IsSound self.now }
    {
        self.roles()
            .get(number as usize)
            .copied()
            .unwrap_or_default()
    }

    // The roles below a role, itself among them: none, if it is not in the policy.
    pub fn below(&self, role: u32) -> Set<Roles>
        ensures members { (x : ℕ) → IsTrue (has (mask 32 result) x) ↔ BelowIn self.now role x }
        ensures sound { IsSound self.now }
    {
        if role >= self.role_count() {
            return Set::empty();
        }
        self.row(role)
    }

    // Whether a role is below another. A number that is no role has nothing below it, and is below none.
    pub fn is_below(&self, role: u32, senior: u32) -> bool
        ensures answer { IsTrue result ↔ BelowIn self.now senior role }
        ensures sound { IsSound self.now }
    {
        self.below(senior).has(role)
    }

    fn row(&self, role: u32) -> Set<Roles>
        requires { role < count self.now }
        ensures { (x : ℕ) → IsTrue (has (mask 32 result) x) ↔ BelowIn self.now role x }
    {
        self.below[role as usize]
    }

    // The steps, in the order in which they were added.
    pub fn steps(&self) -> &[Step]
        ensures items { result.now ≡ self.now.steps }
        ensures sound { IsSound self.now }
    {
        self.contents.steps.as_slice()
    }

    // The delegation rules, in the order in which they were added.
    pub fn rules(&self) -> &[Rule]
        ensures items { result.now ≡ self.now.rules }
        ensures sound { IsSound self.now }
    {
        self.contents.rules.as_slice()
    }

    // The pairs of an exclusion, in the order in which they were added.
    pub fn pairs(&self, scope: Scope) -> &[Pair]
        ensures items { result.now ≡ (rows_in scope self.now).pairs }
        ensures sound { IsSound self.now }
    {
        self.rows(scope).0
    }

    // The limits of an exclusion, in the order in which they were added.
    pub fn limits(&self, scope: Scope) -> &[Limit]
        ensures items { result.now ≡ (rows_in scope self.now).limits }
        ensures sound { IsSound self.now }
    {
        self.rows(scope).1
    }

    fn rows(&self, scope: Scope) -> (&[Pair], &[Limit])
        ensures pairs { result.0.now ≡ (rows_in scope self.now).pairs }
        ensures limits { result.1.now ≡ (rows_in scope self.now).limits }
        ensures sound { IsSound self.now }
    {
        match scope {
            Scope::Standing => both_rows(&self.contents.standing),
            Scope::Session => both_rows(&self.contents.session),
            Scope::History => both_rows(&self.contents.history),
        }
    }

    // The standing exclusion, ready for a monitor.
    pub fn standing(&self) -> PairsAndLimits<Roles>
        ensures answer { rows result ≡ self.now.standing }
        ensures sound { IsSound self.now }
    {
        self.contents.standing
    }

    // The session exclusion, ready for a monitor.
    pub fn session(&self) -> PairsAndLimits<Roles>
        ensures answer { rows result ≡ self.now.session }
        ensures sound { IsSound self.now }
    {
        self.contents.session
    }

    // The history exclusion, ready for a monitor.
    pub fn history(&self) -> PairsAndLimits<Acts>
        ensures answer { rows result ≡ self.now.history }
        ensures sound { IsSound self.now }
    {
        self.contents.history
    }

    // Whether some rule lets the link be added.
    pub fn rule_fits(&self, link: Link) -> bool
        ensures answer { IsTrue result ↔ SomeRuleFits self.now link }
        ensures sound { IsSound self.now }
    {
        self.contents
            .rules
            .as_slice()
            .iter()
            .any(|rule| self.fits(rule, link))
    }

    fn fits(&self, rule: &Rule, link: Link) -> bool
        requires exist { RuleRoles (count self.now) rule.now }
        ensures { IsTrue result ↔ Fits self.now link rule.now }
    {
        self.is_below(rule.role, link.basis)
            && self.row(rule.role).has(link.role)
            && rule.required.is_inside(link.own)
            && link.depth <= rule.links()
    }
}

fn both_rows<K: Kind>(exclusion: &PairsAndLimits<K>) -> (&[Pair], &[Limit])
    ensures pairs { result.0.now ≡ (rows exclusion.now).pairs }
    ensures limits { result.1.now ≡ (rows exclusion.now).limits }
{
    (exclusion.left.rows(), exclusion.right.rows())
}
