// The role hierarchy: steps from senior roles to junior ones, and the roles below a role.
ghost use Rattle.std.specs.Prelude.{◌<◌, ◌≤◌, All};
ghost use Rattle.std.proofs.Common.{rules};
ghost use Rattle.policy.specs.Below.{Exact, Falls, RowOf};

use crate::role::MOST_ROLES;
use sets::kind::Roles;
use sets::set::Set;
use sets::table::Blank;

// How many steps a policy can hold.
pub const MOST_STEPS: usize = 256;

// A step down, from a senior role to a junior one.
#[derive(Clone, Copy, Default, PartialEq, Eq, Debug)]
pub struct Step {
    pub senior: u32,
    pub junior: u32,
}

impl Blank for Step {
    ghost blank = { record { senior = 0; junior = 0 } };

    ghost alone = { Prim.search rules };
}

// The roles below each of the first `count` roles. The rows of the lower roles are finished before a role's own is joined from them, so
// that each role goes through the steps once, however dense they are.
pub(crate) fn rows_below(steps: &[Step], count: u32) -> [Set<Roles>; MOST_ROLES]
    requires few { count ≤ 32 }
    requires lower { All Falls steps.now }
    ensures { Exact steps.now count result }
{
    let mut rows = [Set::empty(); MOST_ROLES];
    for role in 0..count {
        rows[role as usize] = row_below(steps, role, &rows);
    }
    rows
}

// The roles below one role, which are the role itself and those below its juniors, by the finished rows of the lower roles.
fn row_below(steps: &[Step], role: u32, lower_rows: &[Set<Roles>; MOST_ROLES]) -> Set<Roles>
    requires few { role < 32 }
    requires lower { All Falls steps.now }
    requires finished { Exact steps.now role lower_rows.now }
    ensures { RowOf steps.now role result }
{
    let mut row = Set::one(role);
    for step in steps {
        if step.senior == role {
            row = row.union(lower_rows[step.junior as usize]);
        }
    }
    row
}
