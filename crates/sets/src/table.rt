// A table with room for a fixed number of items, in the order in which they were added.
ghost use Rattle.std.specs.Prelude.{◌≡◌, ◌-◌, ◌<◌, ◌≤◌, [], ◌∷◌, ◌++◌, drop, length, replicate, MatchResult};

use std::alloc::AllocError;

// An item that a table can hold. Its default, the blank, stands in the places not in use, so that tables with equal items are equal values.
pub trait Blank: Copy + Default {
    ghost blank: { Self };

    // there is one default
    ghost alone: { (item : Self) → Self.is_default item → item ≡ blank };
}

// The first `count` places are in use. The rules want fixed memory, and a table is copied, which the library's vector of fixed room is not.
#[derive_where(Copy)]
pub struct Table<T: Blank, const N: usize> {
    items: [T; N],
    count: usize,
    ghost few: { count ≤ N },
    ghost whole: { length items ≡ N },
    ghost clean: { ∥ drop count items ≡ replicate (N - count) T.blank ∥₁ },
}

// By hand, since `Clone` is not derived for a generic struct with a ghost field.
impl<T: Blank, const N: usize> Clone for Table<T, N> {
    ghost is_clone = { λ x y. y ≡ x };

    ghost is_infallible = { λ _. Unit {0} };

    fn clone(&self) -> Result<Table<T, N>, AllocError> {
        Ok(*self)
    }
}

impl<T: Blank, const N: usize> Table<T, N> {
    ghost use Rattle.sets.specs.Tables.{items_of};

    // No items.
    pub fn new() -> Table<T, N>
        ensures { items_of result ≡ [] }
    {
        Table {
            items: [T::default(); N],
            count: 0,
        }
    }

    // The items, in the order in which they were added.
    pub fn as_slice(&self) -> &[T]
        ensures items { result.now ≡ items_of self.now }
        ensures few { length result.now ≤ N }
    {
        &self.items[..self.count]
    }

    // Puts an item behind the others, or where there is no room answers the error and changes nothing.
    pub fn push_or<E: Drop>(&mut self, item: T, full: E) -> Result<(), E>
        ensures { MatchResult result (λ _. (length (items_of self.old) < N) × (items_of self.new ≡ items_of self.old ++ item ∷ [])) (λ e. (N ≤ length (items_of self.old)) × (e ≡ full) × (self.new ≡ self.old)) }
    {
        if self.count >= N {
            return Err(full);
        }
        self.items[self.count] = item;
        self.count += 1;
        Ok(())
    }
}
