// The studio's two rules for one quotation, and what they say of one person's acts on it.
ghost use Rattle.std.specs.Prelude.{◌≡◌, OnErr};
ghost use Rattle.quotation.specs.Studio.{judged, studio_limits, studio_pairs};
ghost use Rattle.sets.specs.RowTables.{rows_of};
ghost use Rattle.sets.specs.Sets.{mask};
ghost use Rattle.std.proofs.Props.{props};

use crate::act::Act;
use sets::both::{Both, PairsAndLimits};
use sets::exclusion::Exclusion;
use sets::kind::Acts;
use sets::limits::{Limit, Limits};
use sets::pairs::{Pair, Pairs};
use sets::refusal::RowRefusal;
use sets::set::Set;
use thiserror::Error;

// Nobody both prices and checks one quotation, and nobody takes more than two of price, check and release.
#[derive(Drop)]
pub struct StudioRules {
    rules: PairsAndLimits<Acts>,
    ghost apart: { rows_of rules.left ≡ studio_pairs } by { Prim.hlevel props },
    ghost few: { rows_of rules.right ≡ studio_limits } by { Prim.hlevel props },
}

// Why the rules forbid the acts that one person would have done.
#[derive(Clone, Copy, PartialEq, Eq, Debug, Error)]
pub enum Forbidden {
    #[error("forbidden: nobody both prices and checks one quotation")]
    PriceAndCheck,
    #[error("forbidden: nobody takes more than two of price, check and release")]
    MoreThanTwo,
    #[error("forbidden: nobody both prices and checks one quotation, and nobody takes more than two of price, check and release")]
    BothRules,
}

// What the rules say.
pub type Verdict = Result<(), Forbidden>;

impl StudioRules {
    pub fn new() -> Result<StudioRules, RowRefusal>
        ensures { OnErr result ⊥ }
    {
        let mut pairs: Pairs<Acts> = Pairs::new();
        pairs.add(Pair {
            first: Act::Price.number(),
            second: Act::Check.number(),
        })?;
        let mut limits: Limits<Acts> = Limits::new();
        let three: Set<Acts> = Set::one(Act::Price.number())
            .with(Act::Check.number())
            .with(Act::Release.number());
        limits.add(Limit {
            members: three.mask(),
            most: 2,
        })?;
        Ok(StudioRules {
            rules: Both {
                left: pairs,
                right: limits,
            },
        })
    }

    // Asks both rules, and which of them forbids.
    pub fn judge(&self, acts: Set<Acts>) -> Verdict
        ensures { result ≡ judged (mask 16 acts) }
    {
        if self.rules.allows(acts) {
            return Ok(());
        }
        if self.rules.left.allows(acts) {
            return Err(Forbidden::MoreThanTwo);
        }
        if self.rules.right.allows(acts) {
            return Err(Forbidden::PriceAndCheck);
        }
        Err(Forbidden::BothRules)
    }
}
