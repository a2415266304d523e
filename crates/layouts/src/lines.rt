// A line is a row or a column. These are the places of a line that a layout can answer to `across` and `down`.
ghost use Rattle.std.specs.Prelude.{◌≡◌, ◌+◌, ◌-◌, ◌<◌, ◌≤◌, min, max};
ghost use Rattle.layouts.specs.Layers.{smaller as smaller-of};
ghost use Rattle.layouts.specs.Spans.{half_from, half_to};

use crate::layout::Layout;
use crate::side::Side;
use cells::cell::Places;

// How many rows and columns the largest square at a layout's corner (0, 0) has.
pub(crate) fn smaller<L: Layout>(layout: &L) -> usize
    ensures { result ≡ smaller-of (L.Layout.meaning layout.now) }
{
    layout.rows().min(layout.columns())
}

// All places of a line of n.
pub(crate) fn whole(n: usize) -> Places
    requires { n ≤ 1024 }
    ensures { (result.from ≡ 0) × (result.to ≡ n) }
{
    Places { from: 0, to: n }
}

// Of the places of a line, those from `before` places before one to `after` places after it.
pub(crate) fn near(place: usize, before: usize, after: usize, line: Places) -> Places
    ensures { (result.to ≡ min line.to (place + after + 1)) × (result.from ≡ min result.to (place - before)) }
{
    let to = line.to.min(place.saturating_add(after).saturating_add(1));
    Places {
        from: to.min(place.saturating_sub(before)),
        to,
    }
}

// Of the places of a line, those that are on a side, the one on the diagonal among them; all where the line has none there. The side is
// the matrix's for a row, and the opposite one for a column.
pub(crate) fn half(side: Side, diagonal: usize, line: Places) -> Places
    ensures none { line.to ≤ diagonal → (result.from ≡ line.from) × (result.to ≡ line.to) }
    ensures half { diagonal < line.to → (result.from ≡ half_from side diagonal) × (result.to ≡ half_to side diagonal line.to) }
{
    if diagonal >= line.to {
        return line;
    }
    match side {
        Side::Lower => Places {
            from: 0,
            to: diagonal + 1,
        },
        Side::Upper => Places {
            from: diagonal,
            to: line.to,
        },
    }
}

// The places that are among others too.
pub(crate) fn overlap(places: Places, others: Places) -> Places
    ensures { (result.to ≡ min others.to (max others.from places.to)) × (result.from ≡ min result.to (max others.from places.from)) }
{
    let to = others.to.min(others.from.max(places.to));
    Places {
        from: to.min(others.from.max(places.from)),
        to,
    }
}
