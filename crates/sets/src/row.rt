// Rows, and tables of rows as exclusions: written and proved once for every kind of row.
ghost use Rattle.std.specs.Prelude.{◌≡◌, ℕ, Bool, true, false, not, [], ◌∷◌, ◌++◌, length, Option, IsTrue, ◌↔◌};
ghost use Rattle.std.specs.List.{list_any};
ghost use Rattle.sets.specs.Masks.{Inside};
ghost use Rattle.sets.specs.Rows.{Adds, Checked, NoExactly, SomeRow, is_fault, row_refusal};
ghost use Rattle.sets.specs.RowsLemmas.{table_empty, table_inside};
ghost use Rattle.sets.specs.Sets.{mask};
ghost use Rattle.sets.specs.Tables.{items_of};
ghost use Rattle.sets.specs.declared.refusal.RowRefusal.{RowRefusal};

use crate::exclusion::Exclusion;
use crate::kind::Kind;
use crate::refusal::RowRefusal;
use crate::set::Set;
use crate::table::{Blank, Table};
use std::alloc::AllocError;
use std::marker::PhantomData;

// A row of a table over sets of one kind.
pub trait Row<K: Kind> {
    // the meaning: which sets, as masks, the row forbids by itself
    ghost forbidden: { Self → ℕ → Bool };

    // the same as a statement
    ghost Forbids: { Self → ℕ → Type 0 };

    // Whether the row forbids the set.
    fn forbids(&self, set: Set<K>) -> bool
        ensures { result ≡ forbidden self.now (mask K.COUNT set) };

    ghost decided: { (row : Self) (s : ℕ) → IsTrue (forbidden row s) ↔ Forbids row s };

    // the empty set is forbidden by no row
    ghost empty: { (row : Self) → forbidden row 0 ≡ false };

    // a row that forbids a set forbids every set around it
    ghost around: { (row : Self) (s t : ℕ) → Inside s t → forbidden row s ≡ true → forbidden row t ≡ true };
}

// A row as it is handed in, which a table checks before it takes it.
pub trait Entry: Blank {
    // what is wrong with the row in itself, where members are to be below n
    ghost fault: { ℕ → Self → Option RowRefusal };

    // Whether the row can stand in a table whose members are below the number of places.
    fn check(&self, places: u32) -> Result<(), RowRefusal>
        ensures { Checked (fault places self.now) result };
}

// Rows in the order in which they were added, at most N of them. A set is forbidden exactly where some row forbids it.
#[derive_where(Copy)]
pub struct Rows<K: Kind, R: Entry, const N: usize> {
    rows: Table<R, N>,
    kind: PhantomData<K>,
    // nothing is wrong with any row
    ghost sound: { list_any (λ row. is_fault (R.fault K.COUNT row)) (items_of rows) ≡ false },
}

// By hand, since `Clone` is not derived for a generic struct with a ghost field, and field by field, since only the row is known to be `Copy`.
impl<K: Kind, R: Entry, const N: usize> Clone for Rows<K, R, N> {
    ghost is_clone = { λ x y. y ≡ x };

    ghost is_infallible = { λ _. Unit {0} };

    fn clone(&self) -> Result<Rows<K, R, N>, AllocError> {
        Ok(Rows {
            rows: self.rows,
            kind: PhantomData,
        })
    }
}

impl<K: Kind, R: Entry, const N: usize> Rows<K, R, N> {
    ghost use Rattle.sets.specs.RowTables.{rows_of};

    // No rows: every set is allowed.
    pub fn new() -> Rows<K, R, N>
        ensures { rows_of result ≡ [] }
    {
        Rows {
            rows: Table::new(),
            kind: PhantomData,
        }
    }

    // The rows, in the order in which they were added.
    pub fn rows(&self) -> &[R]
        ensures { result.now ≡ rows_of self.now }
    {
        self.rows.as_slice()
    }

    // Adds a row behind the others, or refuses it and changes nothing.
    pub fn add(&mut self, row: R) -> Result<(), RowRefusal>
        ensures { Adds (row_refusal N (length (rows_of self.old)) (R.fault K.COUNT row)) (rows_of self.new ≡ rows_of self.old ++ row ∷ []) (self.new ≡ self.old) result }
    {
        row.check(K::COUNT)?;
        self.rows.push_or(row, RowRefusal::TableFull)
    }
}

impl<K: Kind, R: Row<K> + Entry, const N: usize> Exclusion<K> for Rows<K, R, N> {
    ghost use Rattle.sets.specs.RowTables.{rows_of};

    ghost allowed = { λ rows s. not (list_any (λ row. R.forbidden row s) (rows_of rows)) };

    ghost empty = { λ rows. table_empty R.forbidden R.empty (rows_of rows) };

    ghost inside = { λ rows s t h. table_inside R.forbidden s t (λ row. R.around row s t h) (rows_of rows) };

    fn allows(&self, set: Set<K>) -> bool
        ensures answer { result ≡ not (list_any (λ row. R.forbidden row (mask K.COUNT set)) (rows_of self.now)) }
        ensures exact { NoExactly result (SomeRow (λ row. R.Forbids row (mask K.COUNT set)) (rows_of self.now)) }
    {
        !self.rows().iter().any(|row| row.forbids(set))
    }
}
