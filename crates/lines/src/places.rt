// How many keys a line takes over its cells, and which places its calls may name, where it has `count` keys.
ghost use Rattle.std.specs.Prelude.{◌≡◌};
ghost use Rattle.lines.specs.Orders.{is_place, may_exchange, may_bring_forward};
ghost use Rattle.lines.specs.Places.{limit_for};

// The most keys that a line over so many cells takes.
pub fn limit_for(cells: usize) -> usize
    ensures { result ≡ limit_for cells }
{
    cells.min(256)
}

// Whether a place is one of `count`.
pub fn is_place(place: usize, count: usize) -> bool
    ensures { result ≡ is_place place count }
{
    (1..=count).contains(&place)
}

// Whether the keys at a place and at the next one can change places.
pub fn may_exchange(place: usize, count: usize) -> bool
    ensures { result ≡ may_exchange place count }
{
    (1..count).contains(&place)
}

// Whether the key at `from` can be brought to `to`.
pub(crate) fn may_bring_forward(from: usize, to: usize, count: usize) -> bool
    ensures { result ≡ may_bring_forward from to count }
{
    is_place(to, from) && from <= count
}
