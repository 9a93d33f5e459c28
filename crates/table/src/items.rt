// The calls of a table.
ghost use Rattle.std.specs.Prelude.{◌≡◌, ◌<◌, ◌≤◌, [], length, replicate, slice_set, OnErr};
ghost use Rattle.table.specs.Items.{Adds, items_of};

use crate::{Full, Table};

impl<T: Copy + Default, const N: usize> Table<T, N> {
    // No item.
    pub fn new() -> Self
        ensures { items_of result ≡ [] }
    {
        Table {
            entries: [T::default(); N],
            count: 0,
        }
    }

    // Some items, at most N.
    pub fn from_slice(items: &[T]) -> Self
        requires { length items.now ≤ N }
        ensures { items_of result ≡ items.now }
    {
        let mut entries = [T::default(); N];
        entries[..items.len()].copy_from_slice(items);
        Table {
            entries,
            count: items.len(),
        }
    }
}

impl<T: Copy + Default, const N: usize> Default for Table<T, N> {
    ghost is_default = { λ t. items_of t ≡ [] };

    fn default() -> Self {
        Self::new()
    }
}

impl<T: Copy, const N: usize> Table<T, N> {
    // So many times the same item.
    pub fn filled(item: T, count: usize) -> Self
        requires { count ≤ N }
        ensures { items_of result ≡ replicate count item }
    {
        Table {
            entries: [item; N],
            count,
        }
    }

    // One item more, where there are fewer than N.
    pub fn push(&mut self, item: T) -> Result<(), Full>
        ensures adds { Adds N (items_of self.old) item result (items_of self.new) }
        ensures full { OnErr result (self.new ≡ self.old) }
    {
        if self.count == N {
            return Err(Full);
        }
        self.entries[self.count] = item;
        self.count += 1;
        Ok(())
    }

    // The items, in order.
    pub fn items(&self) -> &[T]
        ensures are { result.now ≡ items_of self.now }
        ensures few { length result.now ≤ N }
    {
        &self.entries[..self.count]
    }

    // How many there are.
    pub fn len(&self) -> usize
        ensures is { result ≡ length (items_of self.now) }
        ensures few { result ≤ N }
    {
        self.items().len()
    }

    // Replaces an item; the first is at 0.
    pub fn set(&mut self, at: usize, item: T)
        requires { at < length (items_of self.old) }
        ensures { items_of self.new ≡ slice_set (items_of self.old) at item }
    {
        self.entries[at] = item;
    }
}
