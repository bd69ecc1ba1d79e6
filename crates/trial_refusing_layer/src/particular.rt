//! A layer that looks at all of its tiles.
use layer_api::drawn::Drawn;
use layer_api::format::Format;
use layer_api::layer::Layer;
use layer_api::view::View;
use tile_shape::no_memory::NoMemory;

/// A layer that refuses a tile whose outline has not this many vertices, or whose address has no digit. It
/// says nothing about what it looks at, so it must get all.
#[derive(Drop)]
pub struct Particular<L: Layer> {
    layer: L,
    vertices: usize,
}

impl<L: Layer> Particular<L> {
    /// Wraps a layer so that it takes only tiles with this many vertices.
    pub fn new(layer: L, vertices: usize) -> Particular<L> {
        Particular { layer, vertices }
    }
}

impl<L: Layer> Layer for Particular<L> {
    ghost form = { λ s. L.form s.layer };

    ghost seen = { λ s. L.seen s.layer };

    ghost begun = { λ s. L.begun s.layer };

    ghost ended = { λ s. L.ended s.layer };

    ghost draws = { λ s. L.draws s.layer };

    fn format(&self) -> Format {
        self.layer.format()
    }

    fn begin(&mut self, view: View) {
        self.layer.begin(view)
    }

    fn put(&mut self, tile: Drawn) -> Result<(), NoMemory> {
        if tile.outline.len() != self.vertices || tile.first.addr.depth() == 0 {
            return Err(NoMemory);
        }
        self.layer.put(tile)
    }

    fn end(&mut self) -> Result<(), NoMemory> {
        self.layer.end()
    }

    fn bytes(&self) -> &[u8] {
        self.layer.bytes()
    }
}
