//! A layer that refuses one of its calls.
ghost use Rattle.std.specs.Prelude.{◌≡◌};

use layer_api::drawn::Drawn;
use layer_api::format::Format;
use layer_api::layer::Layer;
use layer_api::view::View;
use tile_shape::no_memory::NoMemory;

/// A layer that refuses one call: the one with this number among all calls of `put` and `end`, counted from
/// 1.
#[derive(Drop)]
pub struct Refusing<L: Layer> {
    layer: L,
    calls: u32,
    refused: u32,
}

impl<L: Layer> Refusing<L> {
    /// Wraps a layer so that it refuses the call with this number.
    pub fn new(layer: L, refused: u32) -> Refusing<L> {
        Refusing {
            layer,
            calls: 0,
            refused,
        }
    }

    /// Counts a call, and returns true if it is refused.
    fn refuses(&mut self) -> bool
        ensures { self.new.layer ≡ self.old.layer }
    {
        self.calls = self.calls.saturating_add(1);
        self.calls == self.refused
    }
}

impl<L: Layer> Layer for Refusing<L> {
    ghost form = { λ s. L.form s.layer };

    ghost seen = { λ s. L.seen s.layer };

    ghost begun = { λ s. L.begun s.layer };

    ghost ended = { λ s. L.ended s.layer };

    ghost draws = { λ s. L.draws s.layer };

    fn format(&self) -> Format {
        self.layer.format()
    }

    fn begin(&mut self, view: View) {
        self.layer.begin(view)
    }

    fn put(&mut self, tile: Drawn) -> Result<(), NoMemory> {
        if self.refuses() {
            return Err(NoMemory);
        }
        self.layer.put(tile)
    }

    fn end(&mut self) -> Result<(), NoMemory> {
        if self.refuses() {
            return Err(NoMemory);
        }
        self.layer.end()
    }

    fn bytes(&self) -> &[u8] {
        self.layer.bytes()
    }
}
