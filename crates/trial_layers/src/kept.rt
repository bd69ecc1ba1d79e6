//! A picture that is long enough to keep the texts of vertices.
ghost use Rattle.std.specs.Prelude.{◌≡◌, IsFalse, IsTrue, OnOk};
ghost use Rattle.layer_api.specs.Drawable.{IsDrawable, IsView};

use crate::tiles::{part, view, whole};
use cyclo_points::order::Order;
use layer_api::drawn::Drawn;
use layer_api::layer::Layer;
use layer_api::view::View;
use layer_svg::svg_layer::SvgLayer;
use std::alloc::{AllocError, Global};
use tile_shape::no_memory::NoMemory;

/// The number of tiles drawn: the texts of vertices are kept from about 2,300 on.
const TILES: u32 = 4000;

/// The vertices of a kite.
const KITE: [[i8; 4]; 4] = [[0, 0, 0, 0], [1, 0, 1, -1], [1, 0, 1, 0], [0, 1, 0, 1]];

const HEAD: &str =
    "<svg xmlns=\"http://www.w3.org/2000/svg\" version=\"1.1\" viewBox=\"-2048.0 -1.763355 4096 3.526710\">
<g transform=\"scale(0.0005 -0.000587785)\" fill=\"none\" stroke=\"black\" stroke-width=\"40\">
";

/// Its path around its third vertex, and around its first.
const ROUND_THE_THIRD: &str = "<path class=\"k0\" d=\"M-2619 -1619L618 -1619L0 0L-1619 1000Z\"/>\n";

const ROUND_THE_FIRST: &str = "<path class=\"k0\" d=\"M0 0L3236 0L2618 1618L1000 2618Z\"/>\n";

const TAIL: &str = "</g>\n</svg>\n";

/// Puts one tile again and again.
fn put_all(layer: &mut SvgLayer, tile: &Drawn) -> Result<(), NoMemory>
    requires begun { IsTrue layer.old.begun }
    requires open { IsFalse layer.old.ended }
    requires drawable { IsDrawable layer.old.view.order tile.now }
    ensures begun { IsTrue layer.new.begun }
    ensures open { IsFalse layer.new.ended }
{
    for _ in 0..TILES {
        layer.put_copy(tile)?;
    }
    Ok(())
}

/// Draws one tile again and again.
fn draw(layer: &mut SvgLayer, seen: View, tile: &Drawn) -> Result<(), NoMemory>
    requires view { IsView seen }
    requires drawable { IsDrawable seen.order tile.now }
    ensures { OnOk result (IsTrue layer.new.ended) }
{
    layer.begin(seen);
    put_all(layer, tile)?;
    layer.end()
}

/// The picture with that path again and again.
fn wanted(alloc: Global, path: &str) -> Result<Vec<u8>, AllocError> {
    let mut text = Vec::new(alloc);
    text.extend_from_slice(HEAD.as_bytes())?;
    for _ in 0..TILES {
        text.extend_from_slice(path.as_bytes())?;
    }
    text.extend_from_slice(TAIL.as_bytes())?;
    Ok(text)
}

/// Returns true if the picture around a centre has that path for each tile.
fn has_paths(
    alloc: Global,
    layer: &mut SvgLayer,
    centre: &[i8; 4],
    path: &str,
) -> Result<bool, NoMemory> {
    let tile = whole(Order::Ten, &KITE, part(0, 0, [0; 4], &[(2, 0)]));
    draw(layer, view(Order::Ten, centre, (4096, 3), 4), &tile)?;
    Ok(layer.bytes() == wanted(alloc, path)?.as_slice())
}

/// Returns true if texts that are kept are those of the view: the same tile round two centres, by one layer.
pub(crate) fn are_kept(alloc: Global) -> Result<bool, NoMemory> {
    let mut layer = SvgLayer::new(alloc);
    Ok(
        has_paths(alloc, &mut layer, &KITE[2], ROUND_THE_THIRD)?
            && has_paths(alloc, &mut layer, &KITE[0], ROUND_THE_FIRST)?,
    )
}
