// What a policy is made of, in drafts and in sealed policies alike. It promises nothing by itself: the types around it do.
ghost use Rattle.std.specs.Prelude.{◌≡◌, ◌≤◌};
ghost use Rattle.policy.specs.Policies.{SayAll, count, no_rows, nothing, policy, rows};

use crate::hierarchy::{MOST_STEPS, Step};
use crate::role::{MOST_ROLES, Role};
use crate::rule::{MOST_RULES, Rule};
use sets::both::{Both, PairsAndLimits};
use sets::kind::{Acts, Kind, Roles};
use sets::limits::Limits;
use sets::pairs::Pairs;
use sets::table::Table;

#[derive(Clone, Copy)]
pub struct Contents {
    pub(crate) roles: Table<Role, MOST_ROLES>,
    pub(crate) steps: Table<Step, MOST_STEPS>,
    pub(crate) standing: PairsAndLimits<Roles>,
    pub(crate) session: PairsAndLimits<Roles>,
    pub(crate) history: PairsAndLimits<Acts>,
    pub(crate) rules: Table<Rule, MOST_RULES>,
}

impl Contents {
    pub(crate) fn new() -> Contents
        ensures { policy result ≡ nothing }
    {
        Contents {
            roles: Table::new(),
            steps: Table::new(),
            standing: nothing_excluded(),
            session: nothing_excluded(),
            history: nothing_excluded(),
            rules: Table::new(),
        }
    }

    // How many roles there are. Whoever asks also learns that contents that say the same are the same value.
    #[tactic(auto, using(crate::proofs::Told::same_contents))]
    pub(crate) fn role_count(&self) -> u32
        ensures number { result ≡ count (policy self.now) }
        ensures few { result ≤ 32 }
        ensures whole { SayAll self.now }
    {
        self.roles.as_slice().len() as u32
    }
}

fn nothing_excluded<K: Kind>() -> PairsAndLimits<K>
    ensures { rows result ≡ no_rows }
{
    Both {
        left: Pairs::new(),
        right: Limits::new(),
    }
}
