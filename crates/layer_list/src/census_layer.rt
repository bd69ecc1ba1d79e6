//! The census of tiles.
ghost use Rattle.std.specs.Prelude.{◌≡◌, List, length, IfOk, OnOk, OnErr, IsFalse, false};
ghost use Rattle.layer_api.specs.declared.drawn.Drawn.{Drawn};
ghost use Rattle.layer_api.specs.declared.format.Format.TheVariants.{Census};
ghost use Rattle.layer_api.specs.CensusText.{census_text};
ghost use Rattle.layer_list.specs.Counts.{IsCountOf, IsCensus, counted};

use cyclo_points::order::Order;
use cyclo_points::point::Point;
use layer_api::drawn::Drawn;
use layer_api::format::Format;
use layer_api::layer::Layer;
use layer_api::line::Line;
use layer_api::view::View;
use std::alloc::{AllocError, Global};
use tile_shape::no_memory::NoMemory;

/// The number of classes that there may be.
const CLASSES: usize = 256;

/// Counts the tiles by class, and keeps only the counts. A tile whose count does not fit is refused as out of
/// memory.
#[derive(Drop)]
pub struct CensusLayer {
    view: View,
    begun: bool,
    ended: bool,
    /// The number of tiles of each class so far.
    counts: [u64; CLASSES],
    /// The number of tiles so far.
    all: u64,
    alloc: Global,
    text: Vec<u8>,
}

impl CensusLayer {
    /// Makes a layer that has not begun. Needs no memory.
    pub fn new(alloc: Global) -> CensusLayer
        ensures not_begun { IsFalse (⟦<CensusLayer as Layer>⟧.begun result) }
        ensures not_ended { IsFalse (⟦<CensusLayer as Layer>⟧.ended result) }
    {
        CensusLayer {
            view: View {
                order: Order::Four,
                centre: Point { c: [0; 4] },
                w: 0,
                h: 0,
                kinds: 0,
            },
            begun: false,
            ended: false,
            counts: [0; CLASSES],
            all: 0,
            alloc,
            text: Vec::new(alloc),
        }
    }

    /// Counts a number of tiles of a class. Err if a count would not fit; then nothing changes.
    fn count(&mut self, class: u8, number: u64) -> Result<(), NoMemory>
        ensures counted { OnOk result (self.new ≡ counted self.old class number) }
        ensures same { OnErr result (self.new ≡ self.old) }
    {
        let class = class as usize;
        let Some(count) = self.counts[class].checked_add(number) else {
            return Err(NoMemory);
        };
        let Some(all) = self.all.checked_add(number) else {
            return Err(NoMemory);
        };
        self.counts[class] = count;
        self.all = all;
        Ok(())
    }
}

impl Layer for CensusLayer {
    ghost form = { λ _. Census };

    ghost seen = { λ s. s.view };

    ghost begun = { λ s. s.begun };

    ghost ended = { λ s. s.ended };

    ghost draws = { λ s tiles. IsCensus s.counts s.all s.ended s.text.items s.view.kinds tiles };

    ghost needs_all = { λ _. false };

    fn format(&self) -> Format {
        Format::Census
    }

    fn looks_at_all(&self) -> bool {
        false
    }

    fn begin(&mut self, view: View) {
        self.view = view;
        self.begun = true;
        self.ended = false;
        self.counts = [0; CLASSES];
        self.all = 0;
    }

    fn put(&mut self, tile: Drawn) -> Result<(), NoMemory> {
        self.put_copy(&tile)
    }

    fn put_copy(&mut self, tile: &Drawn) -> Result<(), NoMemory> {
        self.count(tile.class, 1)
    }

    fn put_many(&mut self, tile: &Drawn, count: u32) -> Result<(), NoMemory> {
        self.count(tile.class, u64::from(count))
    }

    fn end(&mut self) -> Result<(), NoMemory> {
        self.text = census(self.alloc, &self.counts, self.all, self.view.kinds)?;
        self.ended = true;
        Ok(())
    }

    fn bytes(&self) -> &[u8] {
        self.text.as_slice()
    }
}

/// Writes the census of these counts.
fn census(
    alloc: Global,
    counts: &[u64; CLASSES],
    all: u64,
    kinds: u8,
) -> Result<Vec<u8>, AllocError>
    ensures { IfOk result (λ text. (tiles : List Drawn) → IsCountOf counts.now all tiles
        → text.items ≡ census_text kinds tiles) }
{
    let mut text = Vec::new(alloc);
    let mut line = Line::new();
    for class in 0..kinds {
        line.clear();
        line.put(b'\n');
        line.put_number(counts[usize::from(class)]);
        line.put(b' ');
        line.put_small(class);
        text.extend_from_slice(line.as_bytes())?;
    }
    line.clear();
    line.put(b'\n');
    line.put_number(all);
    line.put_text(b"all ");
    text.extend_from_slice(line.as_bytes())?;
    Ok(text)
}
