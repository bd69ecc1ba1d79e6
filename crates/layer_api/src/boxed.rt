//! A boxed layer is a layer.
use crate::drawn::Drawn;
use crate::format::Format;
use crate::layer::Layer;
use crate::view::View;
use tile_shape::no_memory::NoMemory;

impl Layer for Box<dyn Layer> {
    ghost form = { λ b. (Layer-box b).form b.value };

    ghost seen = { λ b. (Layer-box b).seen b.value };

    ghost begun = { λ b. (Layer-box b).begun b.value };

    ghost ended = { λ b. (Layer-box b).ended b.value };

    ghost draws = { λ b. (Layer-box b).draws b.value };

    ghost needs_all = { λ b. (Layer-box b).needs_all b.value };

    fn format(&self) -> Format {
        (**self).format()
    }

    fn looks_at_all(&self) -> bool {
        (**self).looks_at_all()
    }

    fn begin(&mut self, view: View) {
        (**self).begin(view)
    }

    fn put(&mut self, tile: Drawn) -> Result<(), NoMemory> {
        (**self).put(tile)
    }

    fn put_copy(&mut self, tile: &Drawn) -> Result<(), NoMemory> {
        (**self).put_copy(tile)
    }

    fn put_many(&mut self, tile: &Drawn, count: u32) -> Result<(), NoMemory> {
        (**self).put_many(tile, count)
    }

    fn end(&mut self) -> Result<(), NoMemory> {
        (**self).end()
    }

    fn bytes(&self) -> &[u8] {
        (**self).bytes()
    }
}
