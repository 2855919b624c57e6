// A list of at most N items that lie in the value itself: the library has no heap.
#![tactic(auto)]

ghost use Rattle.std.specs.Prelude.{◌≡◌, ◌+◌, ◌<◌, ◌≤◌, ◌↔◌, [], ◌∷◌, ◌++◌, length, take, replicate, slice_get, slice_set, IsOk, IfOk, OnOk, OnErr, drop};
ghost use Rattle.std.specs.Cmp.{on_per, on_equiv};
ghost use Rattle.std.specs.Cmp.Lexicographic.{pointwise, lists_per, lists_equiv};
ghost use Rattle.table.specs.Listed.{cells};

use std::marker::Model;

// There is no room for one more item.
#[derive(Clone, Copy, PartialEq, Eq, Debug)]
pub struct Full;

// The first `len` cells hold the items. The others hold what filled them, the blank of `empty` or the item of `of`:
// the kit's arrayvec fills them by Default, which a flow has not.
#[derive(Clone, Copy)]
pub struct Table<T, const N: usize> {
    cells: [T; N],
    len: usize,
}

impl<T, const N: usize> Model for Table<T, N> {
    ghost use Rattle.std.specs.Prelude.{◌≡◌, ◌≤◌, ◌++◌, length, take, drop};
    ghost use Rattle.std.proofs.Common.{arith, take-append-drop, length-take-le};
    ghost use Rattle.table.specs.Listed.{Listed, listed_code};

    ghost Value = { Listed T };

    ghost coded = { listed_code T.code };

    ghost view = { λ t. record { items = take t.len t.cells; spare = drop t.len t.cells } };

    ghost invariant = { λ t. (t.len ≤ N) × (length t.cells ≡ N) };

    ghost inverse = { λ l. record { cells = l.items ++ l.spare; len = length l.items } };

    ghost inverse_ok = { λ t h i. record {
      cells = take-append-drop t.len t.cells i;
      len = length-take-le t.len t.cells (omega (arith, h.0, h.1)) i;
    } };
}

impl<T, const N: usize> Table<T, N> {
    // The items in their order.
    pub fn as_slice(&self) -> &[T]
        ensures items { result.now ≡ self.now.items }
        ensures few { length result.now ≤ N }
    {
        &self.cells[..self.len]
    }

    // How many items there are.
    pub fn len(&self) -> usize
        ensures value { result ≡ length self.now.items }
        ensures few { result ≤ N }
    {
        self.as_slice().len()
    }
}

impl<T: Copy, const N: usize> Table<T, N> {
    // The list without an item; `blank` fills the cells.
    pub fn empty(blank: T) -> Table<T, N>
        ensures { result.items ≡ [] }
    {
        Table {
            cells: [blank; N],
            len: 0,
        }
    }

    // The list of one item, if it has room for any; the item fills the other cells, too.
    pub fn of(item: T) -> Table<T, N>
        ensures items { result.items ≡ take N (item ∷ []) }
        ensures cells { cells result ≡ replicate N item }
    {
        Table {
            cells: [item; N],
            len: N.min(1),
        }
    }

    // The item at a place, counted from 0; none past the last.
    pub fn get(&self, place: usize) -> Option<T>
        ensures { result ≡ slice_get self.now.items place }
    {
        self.as_slice().get(place).copied()
    }

    // Puts one more item last, into the first cell past the others; refuses it, and changes nothing, where there is no
    // room.
    pub fn push(&mut self, item: T) -> Result<(), Full>
        ensures reply { IsOk result ↔ (length self.old.items < N) }
        ensures ok { OnOk result (self.new.items ≡ self.old.items ++ item ∷ []) }
        ensures cells { OnOk result (cells self.new ≡ slice_set (cells self.old) (length self.old.items) item) }
        ensures err { OnErr result (self.new ≡ self.old) }
    {
        if self.len >= N {
            return Err(Full);
        }
        self.cells[self.len] = item;
        self.len += 1;
        Ok(())
    }

    // Puts these items last, in their order; refuses them, and changes nothing, where there is no room for all.
    pub fn extend(&mut self, items: &[T]) -> Result<(), Full>
        ensures reply { IsOk result ↔ (length self.old.items + length items.now ≤ N) }
        ensures ok { OnOk result (self.new.items ≡ self.old.items ++ items.now) }
        ensures err { OnErr result (self.new ≡ self.old) }
    {
        if items.len() > N - self.len {
            return Err(Full);
        }
        let start = self.len;
        let end = start + items.len();
        let cells = &mut self.cells[..];
        cells[start..end].copy_from_slice(items);
        self.len = end;
        Ok(())
    }

    // Copies the items to the front of a slice, and tells how many there are; refuses a shorter one, and leaves it as it
    // was.
    pub fn copy_to(&self, slice: &mut [T]) -> Result<usize, Full>
        ensures reply { IsOk result ↔ (length self.now.items ≤ length slice.old) }
        ensures told { IfOk result (λ n. n ≡ length self.now.items) }
        ensures ok { OnOk result (slice.new ≡ self.now.items ++ drop (length self.now.items) slice.old) }
        ensures err { OnErr result (slice.new ≡ slice.old) }
    {
        let items = self.as_slice();
        if slice.len() < items.len() {
            return Err(Full);
        }
        slice[..items.len()].copy_from_slice(items);
        Ok(items.len())
    }
}

// Tables are equal that hold equal items in the same order.
impl<T: PartialEq, const N: usize> PartialEq for Table<T, N> {
    ghost eq = { λ a b. pointwise T.eq a.items b.items };

    ghost laws = { on_per (λ t. t.items) (lists_per T.laws) };

    fn eq(&self, other: &Table<T, N>) -> bool {
        self.as_slice() == other.as_slice()
    }
}

impl<T: Eq, const N: usize> Eq for Table<T, N> {
    ghost laws = { on_equiv (λ t. t.items) (lists_equiv T.Eq.laws) };
}
