// Worked cases, each proved by computing it on the code: the check fails where a case does not come out.
ghost use Rattle.std.specs.Prelude.{◌≡◌, true, false, Ok};

use crate::exclusion::Exclusion;
use crate::kind::Roles;
use crate::limits::{Limit, Limits, MOST_LIMITS};
use crate::pairs::MOST_PAIRS;
use crate::refusal::RowRefusal;
use crate::set::Set;

// At most 2 of {0, 1, 2}: whether {0, 1, 3} passes, and whether {0, 1, 2} does.
pub fn at_most_two_of_three() -> Result<(bool, bool), RowRefusal>
    ensures { result ≡ Ok (true, false) }
{
    let mut limits: Limits<Roles> = Limits::new();
    limits.add(Limit {
        members: 0b0111,
        most: 2,
    })?;
    let two = Set::try_from(0b1011)?;
    let three = Set::try_from(0b0111)?;
    Ok((limits.allows(two), limits.allows(three)))
}

// How many pairs and how many limits one exclusion can hold.
pub fn rooms() -> (usize, usize)
    ensures { result ≡ (128, 16) }
{
    (MOST_PAIRS, MOST_LIMITS)
}
