// The three exclusions of a policy, by what they are asked about.

// Each is both of its pairs and its limits. Standing: all that a user is authorised for. Session: the roles at work in one session. History: a user's acts on one job.
#[derive(Clone, Copy, PartialEq, Eq, Debug)]
pub enum Scope {
    Standing,
    Session,
    History,
}
