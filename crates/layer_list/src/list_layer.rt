//! The list of tiles.
ghost use Rattle.std.specs.Prelude.{◌≡◌, ◌+◌, ◌≤◌, [], ◌∷◌, ◌++◌, length, IsFalse, false};
ghost use Rattle.cyclo_points.specs.Text.{newline};
ghost use Rattle.layer_api.specs.declared.format.Format.TheVariants.{List as Listing};
ghost use Rattle.layer_api.specs.declared.line.TheConstants.{LINE_ROOM};
ghost use Rattle.layer_api.specs.ListText.{part_text, second_text, list_text};

use cyclo_points::order::Order;
use cyclo_points::point::Point;
use layer_api::drawn::Drawn;
use layer_api::format::Format;
use layer_api::layer::Layer;
use layer_api::line::Line;
use layer_api::part::Part;
use layer_api::view::View;
use std::alloc::Global;
use tile_shape::no_memory::NoMemory;

/// Lists the tiles, one per line, as `kind turn shift address`. A whole tile has both halves in its line,
/// with ` + ` between them. The layer keeps only the lines. It writes each line when the tile is put.
#[derive(Drop)]
pub struct ListLayer {
    view: View,
    begun: bool,
    ended: bool,
    text: Vec<u8>,
    /// The line before it is appended.
    line: Line,
}

impl ListLayer {
    /// Makes a layer that has not begun. Needs no memory.
    pub fn new(alloc: Global) -> ListLayer
        ensures not_begun { IsFalse (⟦<ListLayer as Layer>⟧.begun result) }
        ensures not_ended { IsFalse (⟦<ListLayer as Layer>⟧.ended result) }
    {
        ListLayer {
            view: View {
                order: Order::Four,
                centre: Point { c: [0; 4] },
                w: 0,
                h: 0,
                kinds: 0,
            },
            begun: false,
            ended: false,
            text: Vec::new(alloc),
            line: Line::new(),
        }
    }
}

impl Layer for ListLayer {
    ghost form = { λ _. Listing };

    ghost seen = { λ s. s.view };

    ghost begun = { λ s. s.begun };

    ghost ended = { λ s. s.ended };

    ghost draws = { λ s tiles. s.text.items ≡ list_text tiles };

    ghost needs_all = { λ _. false };

    fn format(&self) -> Format {
        Format::List
    }

    fn looks_at_all(&self) -> bool {
        false
    }

    fn begin(&mut self, view: View) {
        self.view = view;
        self.begun = true;
        self.ended = false;
        self.text.clear();
    }

    fn put(&mut self, tile: Drawn) -> Result<(), NoMemory> {
        self.put_copy(&tile)
    }

    fn put_copy(&mut self, tile: &Drawn) -> Result<(), NoMemory> {
        self.line.clear();
        put_line(&mut self.line, &tile.first, &tile.second);
        self.text.extend_from_slice(self.line.as_bytes())?;
        Ok(())
    }

    fn end(&mut self) -> Result<(), NoMemory> {
        self.ended = true;
        Ok(())
    }

    fn bytes(&self) -> &[u8] {
        self.text.as_slice()
    }
}

/// Puts the line of a tile, given by its parts, into an empty line.
fn put_line(line: &mut Line, first: &Part, second: &Option<Part>)
    requires { length line.old ≡ 0 }
    ensures { line.new ≡ part_text first.now ++ second_text second.now ++ newline ∷ [] }
{
    line.put(b'\n');
    if let Some(second) = second {
        put_part(line, second);
        line.put_text(b" + ");
    }
    put_part(line, first);
}

/// Puts a part in front: its kind, its motion and its address.
fn put_part(line: &mut Line, part: &Part)
    requires room { length line.old + 612 ≤ LINE_ROOM }
    ensures part { line.new ≡ part_text part.now ++ line.old }
    ensures at_most { length line.new ≤ length line.old + 612 }
{
    line.put_address(&part.addr);
    line.put(b' ');
    line.put_motion(&part.motion);
    line.put(b' ');
    line.put_small(part.kind);
}
