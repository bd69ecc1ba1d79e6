//! A layer that is counted.
use layer_api::drawn::Drawn;
use layer_api::format::Format;
use layer_api::layer::Layer;
use layer_api::view::View;
use std::rc::Rc;
use tile_shape::no_memory::NoMemory;

/// A layer with a share of a token. As long as it exists, the token has one more owner.
#[derive(Drop)]
pub struct Counted<L: Layer> {
    layer: L,
    token: Rc<u8>,
}

impl<L: Layer> Counted<L> {
    /// Wraps a layer, counted by this share of a token.
    pub fn new(layer: L, token: Rc<u8>) -> Counted<L> {
        Counted { layer, token }
    }
}

impl<L: Layer> Layer for Counted<L> {
    ghost form = { λ s. L.form s.layer };

    ghost seen = { λ s. L.seen s.layer };

    ghost begun = { λ s. L.begun s.layer };

    ghost ended = { λ s. L.ended s.layer };

    ghost draws = { λ s. L.draws s.layer };

    ghost needs_all = { λ s. L.needs_all s.layer };

    fn format(&self) -> Format {
        self.layer.format()
    }

    fn looks_at_all(&self) -> bool {
        self.layer.looks_at_all()
    }

    fn begin(&mut self, view: View) {
        self.layer.begin(view)
    }

    fn put(&mut self, tile: Drawn) -> Result<(), NoMemory> {
        self.layer.put(tile)
    }

    fn end(&mut self) -> Result<(), NoMemory> {
        self.layer.end()
    }

    fn bytes(&self) -> &[u8] {
        self.layer.bytes()
    }
}
