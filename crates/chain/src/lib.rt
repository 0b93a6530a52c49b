// Chains: lines of linked cells.
#![tactic(auto)]

ghost use Rattle.std.specs.Prelude.{◌≡◌, ℕ, ◌+◌, ◌-◌, ◌<◌, ◌≤◌, [], ◌∷◌, ◌++◌, map, length, None, Ok, ◌==◌, nat_eq, slice_index, slice_set};
ghost use Rattle.lines.specs.Orders.{key_at, taken_out};
ghost use Rattle.lines.specs.Places.{place_of, Different};
ghost use Rattle.chain.specs.Ways.{way, beyond, redirected, moved_back};
ghost use Rattle.chain.specs.Chains.{keys_in, nexts_in, room, chained, Whole};

use keys::{Denial, Key};
use lines::{Line, is_place, limit_for, may_exchange};

// A cell has a key and the number of the next cell.
#[derive(Clone, Copy)]
pub struct Cell<K> {
    pub key: K,
    pub next: usize,
}

// The cell that a walk of `steps` cells from `from` leads to. It follows the cells' links, so no iterator of the slice does it.
fn walk<K: Key>(cells: &[Cell<K>], from: usize, steps: usize) -> usize
    requires { length (way (nexts_in cells.now) from steps) ≡ steps }
    ensures { result ≡ beyond (nexts_in cells.now) from steps }
{
    let mut here = from;
    for _step in 0..steps {
        here = cells[here].next;
    }
    here
}

// Lets the cell `at` point to `to`.
#[tactic(auto, using(crate::proofs::Writes::writes))]
fn point<K: Key>(cells: &mut [Cell<K>], at: usize, to: usize)
    requires { at < length cells.old }
    ensures keys { keys_in cells.new ≡ keys_in cells.old }
    ensures nexts { nexts_in cells.new ≡ slice_set (nexts_in cells.old) at to }
{
    cells[at].next = to;
}

// Writes a key into the cell `at`.
#[tactic(auto, using(crate::proofs::Writes::writes))]
fn put<K: Key>(cells: &mut [Cell<K>], at: usize, key: K)
    requires { at < length cells.old }
    ensures keys { keys_in cells.new ≡ slice_set (keys_in cells.old) at key }
    ensures nexts { nexts_in cells.new ≡ nexts_in cells.old }
{
    cells[at].key = key;
}

// Lets the way from `head` go on to `to` after some cells, and gives its head.
fn redirect<K: Key>(cells: &mut [Cell<K>], head: usize, steps: usize, to: usize) -> usize
    requires { length (way (nexts_in cells.old) head steps) ≡ steps }
    ensures keys { keys_in cells.new ≡ keys_in cells.old }
    ensures nexts { redirected (nexts_in cells.old) head steps to ≡ (nexts_in cells.new, result) }
{
    if steps == 0 {
        return to;
    }
    let before = walk(cells, head, steps - 1);
    point(cells, before, to);
    head
}

// Links the cell at a place of the way in again behind the `by` cells that follow it, and gives the way's head.
fn move_back<K: Key>(cells: &mut [Cell<K>], head: usize, place: usize, by: usize) -> usize
    requires whole { Whole cells.old head }
    requires range { (1 ≤ place) × (place + by ≤ room cells.old) }
    ensures keys { keys_in cells.new ≡ keys_in cells.old }
    ensures way { way (nexts_in cells.new) result (room cells.new) ≡ moved_back place by (way (nexts_in cells.old) head (room cells.old)) }
{
    if by == 0 {
        return head;
    }
    let moved = walk(cells, head, place - 1);
    let after = cells[moved].next;
    let behind = walk(cells, after, by);
    point(cells, moved, behind);
    let after = redirect(cells, after, by, moved);
    redirect(cells, head, place - 1, after)
}

// The place of a key among the first `steps` cells of the way from `from`.
fn find<K: Key>(cells: &[Cell<K>], from: usize, steps: usize, key: &K) -> Option<usize>
    requires whole { Whole cells.now from }
    requires within { steps ≤ room cells.now }
    ensures { result ≡ place_of K.Key.equal (K.Key.value key.now) (map K.Key.value (chained cells.now from steps)) }
{
    let mut here = from;
    for passed in 0..steps {
        let cell = cells[here];
        if *key == cell.key {
            return Some(passed + 1);
        }
        here = cell.next;
    }
    None
}

// Lets each cell point to the one that follows it.
#[tactic(auto, using(crate::proofs::Writes::writes))]
fn link<K: Key>(cells: &mut [Cell<K>])
    ensures keys { keys_in cells.new ≡ keys_in cells.old }
    ensures nexts { (i : ℕ) → i < length cells.old → slice_index (nexts_in cells.new) i ≡ i + 1 }
{
    for (at, cell) in cells.iter_mut().enumerate() {
        cell.next = at + 1;
    }
}

// The cells that a chain uses: 256, or all where they are fewer.
fn used<K: Key>(cells: &[Cell<K>]) -> usize
    ensures { result ≡ room cells.now }
{
    limit_for(cells.len())
}

// A line of linked cells. One way runs from `head` through all cells that the chain uses and meets none twice: first through the `count`
// cells of the keys, which differ, and then through the free ones.
#[derive(Drop)]
pub struct Chain<'a, K: Key> {
    cells: &'a mut [Cell<K>],
    head: usize,
    count: usize,
    ghost runs: { length (way (nexts_in cells.now) head (room cells.now)) ≡ room cells.now },
    ghost apart: { Different nat_eq (way (nexts_in cells.now) head (room cells.now)) },
    ghost within: { count ≤ room cells.now },
    ghost counted: { length (chained cells.now head count) ≡ count },
    ghost differ: { Different K.Key.equal (map K.Key.value (chained cells.now head count)) },
}

impl<'a, K: Key> Chain<'a, K> {
    // An empty chain over the cells, whatever they hold.
    pub fn new(cells: &'a mut [Cell<K>]) -> Chain<'a, K>
        ensures keys { chained result.cells.now result.head result.count ≡ [] }
        ensures limit { room result.cells.now ≡ room cells.old }
    {
        let limit = used(cells);
        link(&mut cells[..limit]);
        Chain {
            cells,
            head: 0,
            count: 0,
        }
    }

    // The cell that follows the first `steps` ones.
    fn cell_after(&self, steps: usize) -> usize
        requires { steps < room self.now.cells.now }
        ensures there { result < length self.now.cells.now }
        ensures beyond { result ≡ beyond (nexts_in self.now.cells.now) self.now.head steps }
    {
        walk(self.cells, self.head, steps)
    }

    // The key at one of the chain's places.
    fn key(&self, place: usize) -> K
        requires { (1 ≤ place) × (place ≤ self.now.count) }
        ensures { Ok result ≡ key_at place (chained self.now.cells.now self.now.head self.now.count) }
    {
        self.cells[self.cell_after(place - 1)].key
    }

    // Writes a key that is new to the chain into its first free cell, which is not counted yet.
    fn write_free(&mut self, key: K)
        requires left { self.old.count < room self.old.cells.now }
        requires new { place_of K.Key.equal (K.Key.value key) (map K.Key.value (chained self.old.cells.now self.old.head self.old.count)) ≡ None }
        ensures room { room self.new.cells.now ≡ room self.old.cells.now }
        ensures count { self.new.count ≡ self.old.count }
        ensures keys { chained self.new.cells.now self.new.head (self.old.count + 1) ≡ chained self.old.cells.now self.old.head self.old.count ++ key ∷ [] }
        ensures differ { Different K.Key.equal (map K.Key.value (chained self.new.cells.now self.new.head (self.old.count + 1))) }
    {
        let count = self.count;
        let free = self.cell_after(count);
        put(self.cells, free, key);
    }

    // Links the cell at a place in again behind the other keys' cells, where it is still counted.
    fn move_last(&mut self, place: usize)
        requires { (1 ≤ place) × (place ≤ self.old.count) }
        ensures room { room self.new.cells.now ≡ room self.old.cells.now }
        ensures count { self.new.count ≡ self.old.count }
        ensures keys { chained self.new.cells.now self.new.head (self.old.count - 1) ≡ taken_out place (chained self.old.cells.now self.old.head self.old.count) }
        ensures counted { length (chained self.new.cells.now self.new.head (self.old.count - 1)) ≡ self.old.count - 1 }
        ensures differ { Different K.Key.equal (map K.Key.value (chained self.new.cells.now self.new.head (self.old.count - 1))) }
    {
        self.head = move_back(self.cells, self.head, place, self.count - place);
    }
}

impl<'a, K: Key> Line<K> for Chain<'a, K> {
    ghost use Rattle.chain.specs.Laws.{keys-within, room-bounded};

    ghost keys = { λ s. chained s.cells.now s.head s.count };

    ghost limit = { λ s. room s.cells.now };

    ghost different = { λ s. s.differ };

    ghost within = { λ s. keys-within s.cells.now s.head s.count s.counted s.within };

    ghost bounded = { λ s. room-bounded s.cells.now };

    fn count(&self) -> usize {
        self.count // free cells do not count
    }

    fn limit(&self) -> usize {
        used(self.cells)
    }

    fn key_at(&self, place: usize) -> Result<K, Denial> {
        if !is_place(place, self.count) {
            return Err(Denial::OutOfRange);
        }
        Ok(self.key(place))
    }

    fn place_of(&self, key: &K) -> Option<usize> {
        find(self.cells, self.head, self.count, key)
    }

    // As a row does it, but for the cell: one body for both would need a call of the trait that writes into a free cell.
    fn append(&mut self, key: K) -> Result<(), Denial> {
        if self.place_of(&key).is_some() {
            return Err(Denial::Present);
        }
        if self.is_full() {
            return Err(Denial::Full);
        }
        self.write_free(key);
        self.count += 1;
        Ok(())
    }

    fn take_out(&mut self, place: usize) -> Result<(), Denial> {
        if !is_place(place, self.count) {
            return Err(Denial::OutOfRange);
        }
        self.move_last(place);
        self.count -= 1;
        Ok(())
    }

    fn exchange(&mut self, place: usize) -> Result<(), Denial> {
        if !may_exchange(place, self.count) {
            return Err(Denial::OutOfRange);
        }
        self.head = move_back(self.cells, self.head, place, 1);
        Ok(())
    }
}
