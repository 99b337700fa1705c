// Roles: what each may do, and the marks that say who may take back a delegation that rests on it.
ghost use Rattle.std.proofs.Common.{rules};
ghost use Rattle.policy.specs.Roles.{no_role};

use sets::kind::Acts;
use sets::set::Set;
use sets::table::Blank;

// How many roles a policy can hold.
pub const MOST_ROLES: usize = 32;

// Who may take back what was delegated on the strength of a role: the grantor if it is grant-dependent (GD), everybody who has the role as
// an own one if it is grant-independent (GI). A role can have either mark, both, or none.
#[derive(Clone, Copy, Default, PartialEq, Eq, Debug)]
pub struct Marks {
    pub grant_dependent: bool,
    pub grant_independent: bool,
}

// A role: the acts that it may do, and its marks.
#[derive(Clone, Copy, Default, PartialEq, Eq, Debug)]
pub struct Role {
    pub acts: Set<Acts>,
    pub marks: Marks,
}

// What stands for a role that is not there: it may do nothing and has no mark.
impl Blank for Role {
    ghost blank = { no_role };

    ghost alone = { Prim.search rules };
}
