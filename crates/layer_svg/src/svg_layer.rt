//! The layer that draws a picture as SVG.
ghost use Rattle.std.specs.Prelude.{◌≡◌, IsFalse, false};
ghost use Rattle.layer_api.specs.declared.format.Format.TheVariants.{Svg};
ghost use Rattle.layer_svg.specs.Written.{IsPictureWritten};

use crate::head::put_head;
use crate::kept::{Kept, empty_places};
use crate::path::put_path;
use cyclo_points::order::Order;
use cyclo_points::point::Point;
use layer_api::drawn::Drawn;
use layer_api::format::Format;
use layer_api::layer::Layer;
use layer_api::line::Line;
use layer_api::view::View;
use std::alloc::Global;
use std::marker::Model;
use tile_shape::no_memory::NoMemory;

/// The length of a picture, in bytes, from which the texts of vertices are kept. This pays from several
/// thousand tiles on.
const LONG: usize = 131072;

/// Draws the tiles as SVG, with one path and its class for each. It keeps only the text. The head is written
/// with the first path, and the tail at the end.
#[derive(Drop)]
pub struct SvgLayer {
    view: View,
    begun: bool,
    ended: bool,
    alloc: Global,
    text: Vec<u8>,
    /// The line before it is appended.
    line: Line,
    /// The texts of vertices. There are no places while the picture is short.
    kept: Vec<Kept>,
}

impl Model for SvgLayer {
    ghost use Rattle.layer_api.specs.Drawable.{IsView};
    ghost use Rattle.std.specs.Prelude.{All};
    ghost use Rattle.layer_svg.specs.Kept.{IsTextKept};
    ghost use Rattle.layer_svg.specs.Picture.{Picture};

    ghost Value = { Picture };

    ghost view = { λ s. record { view = s.view; begun = s.begun; ended = s.ended; text = s.text.items } };

    ghost invariant = { λ s. IsView s.view × All (IsTextKept s.view) s.kept.items };
}

impl SvgLayer {
    /// Makes a layer that has not begun. Needs no memory.
    pub fn new(alloc: Global) -> SvgLayer
        ensures not_begun { IsFalse (⟦<SvgLayer as Layer>⟧.begun result) }
        ensures not_ended { IsFalse (⟦<SvgLayer as Layer>⟧.ended result) }
    {
        SvgLayer {
            view: View {
                order: Order::Four,
                centre: Point { c: [0; 4] },
                w: 0,
                h: 0,
                kinds: 0,
            },
            begun: false,
            ended: false,
            alloc,
            text: Vec::new(alloc),
            line: Line::new(),
            kept: Vec::new(alloc),
        }
    }

    /// Makes the places for the texts of vertices, if the picture is long, has none yet, and memory allows.
    #[inline]
    fn make_places(&mut self)
        ensures { self.new ≡ self.old }
    {
        if self.kept.is_empty() && self.text.len() >= LONG {
            if let Ok(places) = empty_places(self.alloc) {
                self.kept = places;
            }
        }
    }
}

impl Layer for SvgLayer {
    ghost form = { λ _. Svg };

    ghost seen = { λ s. s.view };

    ghost begun = { λ s. s.begun };

    ghost ended = { λ s. s.ended };

    ghost draws = { λ s tiles. IsPictureWritten s.view s.ended s.text tiles };

    ghost needs_all = { λ _. false };

    fn format(&self) -> Format {
        Format::Svg
    }

    fn looks_at_all(&self) -> bool {
        false
    }

    fn begin(&mut self, view: View) {
        self.kept.clear();
        self.view = view;
        self.begun = true;
        self.ended = false;
        self.text.clear();
    }

    fn put(&mut self, tile: Drawn) -> Result<(), NoMemory> {
        self.put_copy(&tile)
    }

    fn put_copy(&mut self, tile: &Drawn) -> Result<(), NoMemory> {
        self.make_places();
        self.line.clear();
        put_path(
            &mut self.line,
            &self.view,
            tile.class,
            &tile.outline,
            self.kept.as_mut_slice(),
        );
        if self.text.is_empty() {
            put_head(&mut self.line, &self.view);
        }
        self.text.extend_from_slice(self.line.as_bytes())?;
        Ok(())
    }

    fn end(&mut self) -> Result<(), NoMemory> {
        self.line.clear();
        self.line.put_text(b"</g>\n</svg>\n");
        if self.text.is_empty() {
            put_head(&mut self.line, &self.view);
        }
        self.text.extend_from_slice(self.line.as_bytes())?;
        self.ended = true;
        Ok(())
    }

    fn bytes(&self) -> &[u8] {
        self.text.as_slice()
    }
}
