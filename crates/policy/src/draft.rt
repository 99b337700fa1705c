// Drafts: a policy in the making. Each call adds one item, or refuses it by the first check that fails and changes nothing.
ghost use Rattle.std.specs.Prelude.{◌≡◌};
ghost use Rattle.policy.specs.Drafts.{Adds, limit_refusal, pair_refusal, role_refusal, rule_refusal, step_refusal};
ghost use Rattle.policy.specs.Roles.{set_of};
ghost use Rattle.policy.specs.Sound.{IsSound};
ghost use Rattle.policy.specs.Policies.{count, nothing, places, with_limit, with_pair, with_role, with_rule, with_step};

use crate::contents::Contents;
use crate::hierarchy::Step;
use crate::refusal::DraftRefusal;
use crate::role::{Marks, Role};
use crate::rule::{HIGHEST_DEPTH, Rule};
use crate::scope::Scope;
use sets::kind::{Acts, Kind};
use sets::limits::Limit;
use sets::pairs::Pair;
use sets::row::Entry;
use sets::set::{Set, is_below};
use std::marker::Model;

// A policy in the making. What its type promises is what a sealed policy needs, so that sealing has nothing to refuse.
#[derive(Drop)]
pub struct Draft {
    pub(crate) contents: Contents,
}

// To contracts a draft is what it says, and what it says is sound.
impl Model for Draft {
    ghost use Rattle.policy.specs.Policies.{Policy, policy};
    ghost use Rattle.policy.specs.Sound.{IsSound};

    ghost Value = { Policy };

    ghost view = { λ draft. policy draft.contents };

    ghost invariant = { λ draft. IsSound (policy draft.contents) };
}

impl Draft {
    // A draft with nothing in it.
    pub fn new() -> Draft
        ensures empty { result ≡ nothing }
        ensures sound { IsSound result }
    {
        Draft {
            contents: Contents::new(),
        }
    }

    // Adds a role with its acts, given as a raw mask, and its marks. Answers the role's number.
    pub fn add_role(&mut self, acts: u64, marks: Marks) -> Result<u32, DraftRefusal>
        ensures added { Adds (role_refusal self.old acts) (λ number. (number ≡ count self.old) × (self.new ≡ with_role (record { acts = set_of acts; marks = marks }) self.old)) (self.new ≡ self.old) result }
        ensures sound { IsSound self.new }
    {
        let number = self.contents.role_count();
        let acts: Set<Acts> = Set::try_from(acts)?;
        let role = Role { acts, marks };
        self.contents.roles.push_or(role, DraftRefusal::TableFull)?;
        Ok(number)
    }

    // Adds a step from a senior role down to a junior one.
    pub fn add_step(&mut self, step: Step) -> Result<(), DraftRefusal>
        ensures added { Adds (step_refusal self.old step) (λ _. self.new ≡ with_step step self.old) (self.new ≡ self.old) result }
        ensures sound { IsSound self.new }
    {
        let count = self.contents.role_count();
        if step.senior >= count || step.junior >= count {
            return Err(DraftRefusal::OutOfRange);
        }
        if step.junior >= step.senior {
            return Err(DraftRefusal::NotLower);
        }
        self.contents.steps.push_or(step, DraftRefusal::TableFull)
    }

    // Adds a pair to one of the three exclusions.
    pub fn add_pair(&mut self, scope: Scope, pair: Pair) -> Result<(), DraftRefusal>
        ensures added { Adds (pair_refusal scope self.old pair) (λ _. self.new ≡ with_pair scope pair self.old) (self.new ≡ self.old) result }
        ensures sound { IsSound self.new }
    {
        pair.check(self.places(scope))?;
        match scope {
            Scope::Standing => self.contents.standing.left.add(pair)?,
            Scope::Session => self.contents.session.left.add(pair)?,
            Scope::History => self.contents.history.left.add(pair)?,
        }
        Ok(())
    }

    // Adds a limit to one of the three exclusions, with its members as a raw mask.
    #[tactic(auto, using(std::proofs::Common::pow_mono))]
    pub fn add_limit(&mut self, scope: Scope, limit: Limit) -> Result<(), DraftRefusal>
        ensures added { Adds (limit_refusal scope self.old limit) (λ _. self.new ≡ with_limit scope limit self.old) (self.new ≡ self.old) result }
        ensures sound { IsSound self.new }
    {
        // tables of pairs and of limits are of two types: one call for both would need a trait that is longer than this
        limit.check(self.places(scope))?;
        match scope {
            Scope::Standing => self.contents.standing.right.add(limit)?,
            Scope::Session => self.contents.session.right.add(limit)?,
            Scope::History => self.contents.history.right.add(limit)?,
        }
        Ok(())
    }

    // Adds a delegation rule for a role, with the required roles as a raw mask.
    pub fn add_rule(&mut self, role: u32, required: u64, depth: u32) -> Result<(), DraftRefusal>
        ensures added { Adds (rule_refusal self.old role required depth) (λ _. self.new ≡ with_rule (record { role = role; required = set_of required; depth = depth }) self.old) (self.new ≡ self.old) result }
        ensures sound { IsSound self.new }
    {
        let count = self.contents.role_count();
        if role >= count || !is_below(required, count) || depth > HIGHEST_DEPTH {
            return Err(DraftRefusal::OutOfRange);
        }
        let rule = Rule {
            role,
            required: Set::try_from(required)?,
            depth,
        };
        self.contents.rules.push_or(rule, DraftRefusal::TableFull)
    }

    // How many roles have been added. Whoever asks also learns that what the draft says is sound.
    pub fn role_count(&self) -> u32
        ensures number { result ≡ count self.now }
        ensures sound { IsSound self.now }
    {
        self.contents.role_count()
    }

    // How many members the sets of an exclusion can have: the roles added so far, or the acts.
    fn places(&self, scope: Scope) -> u32
        ensures { result ≡ places scope self.now }
    {
        match scope {
            Scope::Standing | Scope::Session => self.contents.role_count(),
            Scope::History => Acts::COUNT,
        }
    }
}
