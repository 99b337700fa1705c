// Somebody at the studio, and what they have done on the quotation.
ghost use Rattle.std.specs.Prelude.{◌≡◌, ◌^◌, if◌then◌else◌, is_ok, string_bytes, bit_or};
ghost use Rattle.quotation.specs.Studio.{act_number, judged, Lawful};
ghost use Rattle.sets.specs.Sets.{mask};

use crate::act::{ACTS, Act};
use crate::rules::{StudioRules, Verdict};
use sets::kind::Acts;
use sets::set::Set;
use std::fmt;

// The rules hold of what anybody has done, at every moment.
#[derive(Drop)]
pub struct Person {
    name: String,
    done: Set<Acts>,
    ghost lawful: { Lawful (mask 16 done) },
}

impl Person {
    // Somebody who has done nothing yet.
    #[tactic(auto, using(crate::proofs::Studio::nothing_kept))]
    pub fn new(name: String) -> Person
        ensures name { result.name ≡ name }
        ensures done { mask 16 result.done ≡ 0 }
    {
        Person {
            name,
            done: Set::empty(),
        }
    }

    pub fn name(&self) -> &str
        ensures { result.now ≡ string_bytes self.now.name }
    {
        self.name.as_str()
    }

    // Proposes an act: the rules are asked about all that this person would then have done, and the act is done where they allow it.
    pub fn propose(&mut self, rules: &StudioRules, act: Act) -> Verdict
        ensures verdict { result ≡ judged (bit_or (mask 16 self.old.done) (2 ^ act_number act)) }
        ensures done { mask 16 self.new.done ≡ (if is_ok result then bit_or (mask 16 self.old.done) (2 ^ act_number act) else mask 16 self.old.done) }
        ensures name { self.new.name ≡ self.old.name }
    {
        let then = self.done.with(act.number());
        rules.judge(then)?;
        self.done = then;
        Ok(())
    }
}

// The name, and the acts in the order of their numbers.
impl fmt::Display for Person {
    fn fmt<W: fmt::Write>(&self, f: &mut fmt::Formatter<W>) -> fmt::Result {
        let name = self.name.as_str();
        write!(f, "{name}:")?;
        for act in ACTS {
            if self.done.has(act.number()) {
                write!(f, " {act}")?;
            }
        }
        Ok(())
    }
}
