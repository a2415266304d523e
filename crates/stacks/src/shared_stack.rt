// A stack that owns its run, and shares it with the stacks that are made of it.
ghost use Rattle.std.specs.Prelude.{◌≡◌, IfOk, IfSome};
ghost use Rattle.std.specs.Option.{option_map};
ghost use Rattle.std.proofs.Props.{props};
ghost use Rattle.layouts.specs.Sides.{IsTriangle};
ghost use Rattle.stacks.specs.Stacks.{read_by, stacked, layered, stored_side, layered_side, IsAsNamed};

use crate::dense_copy::{DenseCopy, dense_copy};
use crate::layered::Layer;
use crate::stack::{LAYERS, Stack, stack};
use crate::storage::Scheme;
use cells::cell::Record;
use layouts::layout::Layout;
use layouts::side::Side;
use layouts::triangle::Triangle;
use std::alloc::{AllocError, Global};
use std::rc::Rc;

// A storage with its run, under layers. Its side is named where the scheme or a layer makes it triangular; a matrix that merely happens to be
// triangular has none.
#[derive(Drop)]
pub struct SharedStack {
    run: Rc<Vec<Record>>,
    scheme: Scheme,
    layers: [Layer; LAYERS],
    side: Option<Side>,
    ghost named: { IsAsNamed side (stacked layers (read_by scheme run.value.items)) } by { Prim.hlevel props },
}

impl SharedStack {
    ghost use Rattle.stacks.specs.Shared.{meaning_of, side_of};

    // A storage under no layer.
    pub fn new(heap: Global, scheme: Scheme, run: Vec<Record>) -> Result<SharedStack, AllocError>
        ensures means { IfOk result (λ s. meaning_of s ≡ read_by scheme run.items) }
        ensures side { IfOk result (λ s. side_of s ≡ stored_side scheme) }
    {
        Ok(SharedStack {
            run: Rc::new(heap, run)?,
            scheme,
            layers: [Layer::Plain; LAYERS],
            side: scheme.side(),
        })
    }

    pub fn stack(&self) -> Stack<'_>
        ensures { ⟦<Stack<'static> as Layout>⟧.meaning result ≡ meaning_of self.now }
    {
        stack(self.scheme.over(&self.run), self.layers)
    }

    // As a triangular layout, where it is known to be one: it is that triangle, so the layer changes nothing of it.
    pub fn triangle(&self) -> Option<Triangle<Stack<'_>>>
        ensures side { option_map (λ t. t.side) result ≡ side_of self.now }
        ensures is { IfSome result (λ t. IsTriangle t.side (meaning_of self.now)) }
        ensures same { IfSome result (λ t. ⟦<Triangle<Stack<'static>> as Layout>⟧.meaning t ≡ meaning_of self.now) }
    {
        let side = self.side?;
        Some(Triangle {
            below: self.stack(),
            side,
        })
    }

    // This stack under one more layer. Where the lowest layer is plain, the others move down by one, and the run is shared; where none is free,
    // the layer is put over a dense copy.
    pub fn with_layer(&self, heap: Global, layer: Layer) -> Result<SharedStack, AllocError>
        ensures means { IfOk result (λ s. meaning_of s ≡ layered layer (meaning_of self.now)) }
        ensures side { IfOk result (λ s. side_of s ≡ layered_side layer (side_of self.now)) }
    {
        let side = layer.side_over(self.side);
        if let [Layer::Plain, second, third, fourth] = self.layers {
            Ok(SharedStack {
                run: self.run.clone()?,
                scheme: self.scheme,
                layers: [second, third, fourth, layer],
                side,
            })
        } else {
            let DenseCopy {
                run,
                rows,
                columns,
                stride,
            } = dense_copy(heap, &self.stack())?;
            Ok(SharedStack {
                run: Rc::new(heap, run)?,
                scheme: Scheme::Dense {
                    rows,
                    columns,
                    stride,
                },
                layers: [Layer::Plain, Layer::Plain, Layer::Plain, layer],
                side,
            })
        }
    }
}
