// Policies: roles and their hierarchy, rows for three exclusions and delegation rules, drafted by calls and then sealed.
// Start at `draft`, which takes one item a call, and `sealed`, which is what a monitor starts from. `hierarchy` works out the roles below a
// role, `rule` says when a delegation rule fits.
#![tactic(auto)]

pub mod cases;
mod contents;
pub mod draft;
pub mod hierarchy;
pub mod refusal;
pub mod role;
pub mod rule;
pub mod scope;
pub mod sealed;
#[cfg(test)]
mod tests;
