// A storage under four layers, of which any may be plain.
ghost use Rattle.std.specs.Prelude.{◌≡◌};
ghost use Rattle.stacks.specs.Stacks.{stored, stacked};

use crate::layered::{Layer, Layered};
use crate::storage::Storage;
use layouts::layout::Layout;

pub const LAYERS: usize = 4;

pub type Stack<'a> = Layered<Layered<Layered<Layered<Storage<'a>>>>>;

// The first layer lies lowest.
pub fn stack(storage: Storage<'_>, layers: [Layer; LAYERS]) -> Stack<'_>
    ensures { ⟦<Stack<'static> as Layout>⟧.meaning result ≡ stacked layers (stored storage.entry) }
{
    let [first, second, third, fourth] = layers;
    let below = Layered {
        below: storage,
        layer: first,
    };
    let below = Layered {
        below,
        layer: second,
    };
    let below = Layered {
        below,
        layer: third,
    };
    Layered {
        below,
        layer: fourth,
    }
}
