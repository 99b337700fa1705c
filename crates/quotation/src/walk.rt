// One quotation on its way through the studio: proposals in, verdicts out, and who did what at the end.
ghost use Rattle.std.specs.Prelude.{◌≡◌, [], length, MatchOption, MatchResult};
ghost use Rattle.quotation.specs.People.{Found, Nobody, Proposed};

use crate::act::Act;
use crate::person::Person;
use crate::rules::{StudioRules, Verdict};
use std::alloc::{AllocError, Global};
use std::marker::Model;

// An act that somebody proposes to take.
#[derive(Clone, Copy)]
pub struct Proposal<'a> {
    pub name: &'a str,
    pub act: Act,
}

// Reads a proposal: a name and the word for an act.
pub fn read_proposal(line: &str) -> Option<Proposal<'_>> {
    let mut words = line.split_whitespace();
    let name = words.next()?;
    let act = words.next()?.parse().ok()?;
    if words.next().is_some() {
        return None;
    }
    Some(Proposal { name, act })
}

// Where the person of that name stands among the people, the first if there are several.
fn find(people: &[Person], name: &str) -> Option<usize>
    ensures { MatchOption result (Nobody name.now people.now (length people.now)) (Found name.now people.now) }
{
    people.iter().position(|person| person.name() == name)
}

// The people who have come forward for the quotation, in the order in which they did. To contracts a quotation is the list of them.
#[derive(Drop)]
pub struct Quotation {
    people: Vec<Person>,
}

impl Model for Quotation {
    ghost use Rattle.std.specs.Prelude.{List};
    ghost use Rattle.quotation.specs.declared.person.Person.{Person};

    ghost Value = { List Person };

    ghost view = { λ quotation. quotation.people.items };
}

impl Quotation {
    pub fn new(heap: Global) -> Quotation
        ensures { result ≡ [] }
    {
        Quotation {
            people: Vec::new(heap),
        }
    }

    pub fn people(&self) -> &[Person]
        ensures { result.now ≡ self.now }
    {
        self.people.as_slice()
    }

    // Asks the rules about a proposal, and notes the act where they allow it. Without memory for a new name nothing changes.
    pub fn propose(
        &mut self,
        heap: Global,
        rules: &StudioRules,
        proposal: Proposal<'_>,
    ) -> Result<Verdict, AllocError>
        ensures { MatchResult result (λ v. Proposed proposal.entry.name.now proposal.entry.act self.old v self.new) (λ _. self.new ≡ self.old) }
    {
        if let Some(i) = find(&self.people, proposal.name) {
            return Ok(self.people[i].propose(rules, proposal.act));
        }
        let mut person = Person::new(String::from_str(heap, proposal.name)?);
        let verdict = person.propose(rules, proposal.act);
        self.people.push(person)?;
        Ok(verdict)
    }
}
