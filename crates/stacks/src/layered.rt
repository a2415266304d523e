// A layer that is chosen while the program runs, over any layout.
ghost use Rattle.std.specs.Prelude.{◌≡◌};
ghost use Rattle.layouts.specs.Layers.{triangle, unit_diagonal};
ghost use Rattle.stacks.specs.declared.layered.Layer.TheVariants.{Unit};
ghost use Rattle.stacks.specs.Stacks.{layered, layered_side, layered_sound};

use cells::cell::{Cell, Places};
use layouts::layout::Layout;
use layouts::side::Side;
use layouts::symmetric::Symmetric;
use layouts::transposed::Transposed;
use layouts::triangle::Triangle;
use layouts::unit_diagonal::UnitDiagonal;

#[derive(Clone, Copy)]
pub enum Layer {
    // the layout as it is
    Plain,
    Transposed,
    Symmetric(Side),
    Triangle(Side),
    Unit(Ones),
}

// A unit diagonal over a layout that is the triangle of a side. Which side it is was found out while the program ran, so it is read
// through the triangle layer, which changes nothing of it.
#[derive(Clone, Copy)]
pub struct Ones {
    pub side: Side,
    pub unit: i64,
}

impl Layer {
    // The side of the layer, if it is triangular: over a layout that is the triangle of a side, if of any.
    pub fn side_over(self, below: Option<Side>) -> Option<Side>
        ensures { result ≡ layered_side self below }
    {
        match self {
            Layer::Plain => below,
            Layer::Transposed => below.map(|side| side.opposite()),
            Layer::Symmetric(_) => None,
            Layer::Triangle(side) => Some(side),
            Layer::Unit(ones) => Some(ones.side),
        }
    }
}

impl Ones {
    fn over<L: Layout>(self, below: &L) -> UnitDiagonal<Triangle<&L>>
        ensures { unit_diagonal result.unit (triangle result.below.side (L.Layout.meaning result.below.below.now)) ≡ layered (Unit self) (L.Layout.meaning below.now) }
    {
        UnitDiagonal {
            below: Triangle {
                below,
                side: self.side,
            },
            unit: self.unit,
        }
    }
}

#[derive(Drop)]
pub struct Layered<L> {
    pub below: L,
    pub layer: Layer,
}

impl<L: Layout> Layout for Layered<L> {
    ghost meaning = { λ t. layered t.layer (L.Layout.meaning t.below) };

    ghost sound = { λ t. layered_sound t.layer (L.Layout.meaning t.below) (L.Layout.sound t.below) };

    fn rows(&self) -> usize {
        let below = &self.below;
        match self.layer {
            Layer::Plain => below.rows(),
            Layer::Transposed => Transposed { below }.rows(),
            Layer::Symmetric(side) => Symmetric { below, side }.rows(),
            Layer::Triangle(side) => Triangle { below, side }.rows(),
            Layer::Unit(ones) => ones.over(below).rows(),
        }
    }

    fn columns(&self) -> usize {
        let below = &self.below;
        match self.layer {
            Layer::Plain => below.columns(),
            Layer::Transposed => Transposed { below }.columns(),
            Layer::Symmetric(side) => Symmetric { below, side }.columns(),
            Layer::Triangle(side) => Triangle { below, side }.columns(),
            Layer::Unit(ones) => ones.over(below).columns(),
        }
    }

    fn entry(&self, row: usize, column: usize) -> Cell {
        let below = &self.below;
        match self.layer {
            Layer::Plain => below.entry(row, column),
            Layer::Transposed => Transposed { below }.entry(row, column),
            Layer::Symmetric(side) => Symmetric { below, side }.entry(row, column),
            Layer::Triangle(side) => Triangle { below, side }.entry(row, column),
            Layer::Unit(ones) => ones.over(below).entry(row, column),
        }
    }

    fn across(&self, row: usize) -> Places {
        let below = &self.below;
        match self.layer {
            Layer::Plain => below.across(row),
            Layer::Transposed => Transposed { below }.across(row),
            Layer::Symmetric(side) => Symmetric { below, side }.across(row),
            Layer::Triangle(side) => Triangle { below, side }.across(row),
            Layer::Unit(ones) => ones.over(below).across(row),
        }
    }

    fn down(&self, column: usize) -> Places {
        let below = &self.below;
        match self.layer {
            Layer::Plain => below.down(column),
            Layer::Transposed => Transposed { below }.down(column),
            Layer::Symmetric(side) => Symmetric { below, side }.down(column),
            Layer::Triangle(side) => Triangle { below, side }.down(column),
            Layer::Unit(ones) => ones.over(below).down(column),
        }
    }
}
