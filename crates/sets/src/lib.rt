// Sets of roles and of acts, and exclusions (separation of duty) over them, known by their meaning.
// Start at `kind` and `set`. `exclusion` has the trait that everything above is proved against. `row` has the tables of rows, which are one
// exclusion for every kind of row; `pairs` and `limits` are the two kinds of row, and `both` takes two exclusions together.
#![tactic(auto)]

pub mod both;
pub mod cases;
pub mod exclusion;
pub mod kind;
pub mod limits;
pub mod pairs;
pub mod refusal;
pub mod row;
pub mod set;
pub mod table;
#[cfg(test)]
mod tests;
mod word;
