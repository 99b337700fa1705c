// Delegation rules: who may pass on which role to whom, and how far.
ghost use Rattle.std.specs.Prelude.{◌≡◌};
ghost use Rattle.std.proofs.Common.{rules};
ghost use Rattle.policy.specs.Roles.{set_of};

use sets::kind::Roles;
use sets::set::Set;
use sets::table::Blank;

// How many rules a policy can hold.
pub const MOST_RULES: usize = 64;

// The highest depth that a rule can be given.
pub const HIGHEST_DEPTH: u32 = 15;

// What a depth of 0 stands for.
pub const USUAL_DEPTH: u32 = 2;

// Whoever has a role above the rule's role may pass on roles below it, to somebody with the required roles, in a chain of so many links.
#[derive(Clone, Copy, Default, PartialEq, Eq, Debug)]
pub struct Rule {
    pub role: u32,
    pub required: Set<Roles>,
    // kept as it was given, as the rules have it: 0 stands for the usual depth
    pub depth: u32,
}

// A link that somebody would add to a chain of delegations: the role of its basis, the role to be passed on, the grantee's own roles, and
// which link of the chain it would be.
#[derive(Clone, Copy, PartialEq, Eq, Debug)]
pub struct Link {
    pub basis: u32,
    pub role: u32,
    pub own: Set<Roles>,
    pub depth: u32,
}

impl Rule {
    ghost use Rattle.policy.specs.Rules.{stands_for};

    // How many links a chain may have under this rule.
    pub fn links(self) -> u32
        ensures { result ≡ stands_for self.depth }
    {
        if self.depth == 0 {
            return USUAL_DEPTH;
        }
        self.depth
    }
}

impl Blank for Rule {
    ghost blank = { record { role = 0; required = set_of 0; depth = 0 } };

    ghost alone = { Prim.search rules };
}
