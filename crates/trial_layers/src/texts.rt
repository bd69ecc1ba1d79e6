//! The three texts.
ghost use Rattle.layer_api.specs.Drawable.{IsDrawable, IsView};

use crate::boxed::note_boxes;
use crate::kept::are_kept;
use crate::lines::note_lines;
use crate::refusing::note_refused;
use crate::tiles::{drawn, joined, part, view, whole};
use crate::wrong::{NONE, Wrong};
use cyclo_points::order::Order;
use layer_api::drawn::Drawn;
use layer_api::layer::Layer;
use layer_api::view::View;
use layer_list::census_layer::CensusLayer;
use layer_list::list_layer::ListLayer;
use layer_svg::svg_layer::SvgLayer;
use std::alloc::Global;
use tile_shape::no_memory::NoMemory;

/// The picture of two chairs.
pub(crate) const CHAIRS_SVG: &str =
    "<svg xmlns=\"http://www.w3.org/2000/svg\" version=\"1.1\" viewBox=\"-1.0 -1.000000 2 2.000000\">
<g transform=\"scale(0.0005 -0.001)\" fill=\"none\" stroke=\"black\" stroke-width=\"40\">
<path class=\"k0\" d=\"M0 0L0 1000L-2000 1000L-2000 0L-2000 -1000L0 -1000L2000 -1000L2000 0Z\"/>
<path class=\"k0\" d=\"M2000 1000L0 1000L0 0L2000 0L4000 0L4000 1000L4000 2000L2000 2000Z\"/>
</g>
</svg>
";

/// Their list.
pub(crate) const CHAIRS_LIST: &str = "0 0 0,0,0,0 0:3/0\n0 1 3,1,0,0 0:1/0\n";

/// Their census.
pub(crate) const CHAIRS_CENSUS: &str = "0 2\nall 2\n";

/// Returns true if two chairs are drawn twice by a layer as this text.
fn draws_chairs<L: Layer>(layer: &mut L, wanted: &str) -> bool {
    drawn(layer, wanted) == Some(true) && drawn(layer, wanted) == Some(true)
}

/// Returns true if a layer draws one tile as this text.
fn draws<L: Layer>(layer: &mut L, view: View, tile: Drawn, wanted: &str) -> Result<bool, NoMemory>
    requires view { IsView view }
    requires drawable { IsDrawable view.order tile }
{
    layer.begin(view);
    layer.put(tile)?;
    layer.end()?;
    Ok(layer.bytes() == wanted.as_bytes())
}

/// Returns true if the picture of one tile is this.
fn is_svg(alloc: Global, view: View, tile: Drawn, wanted: &str) -> Result<bool, NoMemory>
    requires view { IsView view }
    requires drawable { IsDrawable view.order tile }
{
    draws(&mut SvgLayer::new(alloc), view, tile, wanted)
}

/// Returns true if the list of one tile is this.
fn is_list(alloc: Global, view: View, tile: Drawn, wanted: &str) -> Result<bool, NoMemory>
    requires view { IsView view }
    requires drawable { IsDrawable view.order tile }
{
    draws(&mut ListLayer::new(alloc), view, tile, wanted)
}

/// Returns true if the text of a view without a tile is this.
fn is_empty<L: Layer>(layer: &mut L, view: View, wanted: &str) -> Result<bool, NoMemory>
    requires view { IsView view }
{
    layer.begin(view);
    layer.end()?;
    Ok(layer.bytes() == wanted.as_bytes())
}

/// The vertices of a kite of order ten.
const KITE: [[i8; 4]; 4] = [[0, 0, 0, 0], [1, 0, 1, -1], [1, 0, 1, 0], [0, 1, 0, 1]];

const KITE_LIST: &str = "0 0 0,0,0,0 0:2/0 + 1 1 0,0,0,0 1:1/0\n";

const KITE_SVG: &str =
    "<svg xmlns=\"http://www.w3.org/2000/svg\" version=\"1.1\" viewBox=\"-2048.0 -1.763355 4096 3.526710\">
<g transform=\"scale(0.0005 -0.000587785)\" fill=\"none\" stroke=\"black\" stroke-width=\"40\">
<path class=\"k0\" d=\"M-2619 -1619L618 -1619L0 0L-1619 1000Z\"/>
</g>
</svg>
";

/// A kite of two halves: coordinates of either sign, rounded down.
fn is_kite(alloc: Global) -> Result<bool, NoMemory> {
    let kite = joined(
        Order::Ten,
        &KITE,
        part(0, 0, [0; 4], &[(2, 0)]),
        part(1, 1, [0; 4], &[(1, 0)]),
    );
    let near = view(Order::Ten, &[0; 4], (1, 1), 4);
    let far = view(Order::Ten, &[1, 0, 1, 0], (4096, 3), 4);
    Ok(is_list(alloc, near, kite.copy(), KITE_LIST)? && is_svg(alloc, far, kite, KITE_SVG)?)
}

/// The vertices of a triangle of order eight.
const TRIANGLE: [[i8; 4]; 3] = [[0, 0, 0, 0], [0, 1, 0, -1], [0, 1, 0, 0]];

const TRIANGLE_LIST: &str =
    "1 255 -9223372036854775808,9223372036854775807,10,-1 1:255/100,9/10,0/0\n";

const TRIANGLE_SVG: &str =
    "<svg xmlns=\"http://www.w3.org/2000/svg\" version=\"1.1\" viewBox=\"-3.5 -2896.310272 7 5792.620544\">
<g transform=\"scale(0.0005 -0.000707107)\" fill=\"none\" stroke=\"black\" stroke-width=\"40\">
<path class=\"k1\" d=\"M6727 -12072L9556 -12072L8142 -11072Z\"/>
</g>
</svg>
";

/// A triangle of order eight, and an address of numbers with three figures.
fn is_triangle(alloc: Global) -> Result<bool, NoMemory> {
    let far = part(
        1,
        255,
        [-9223372036854775808, 9223372036854775807, 10, -1],
        &[(255, 100), (9, 10), (0, 0)],
    );
    let triangle = whole(Order::Eight, &TRIANGLE, far);
    let seen = view(Order::Eight, &[3, -2, 5, 7], (7, 4096), 3);
    Ok(
        is_list(alloc, seen, triangle.copy(), TRIANGLE_LIST)?
            && is_svg(alloc, seen, triangle, TRIANGLE_SVG)?,
    )
}

/// The vertices of a half hexagon.
const HALF_HEX: [[i8; 4]; 5] = [
    [1, 0, 0, 0],
    [2, 0, 0, 0],
    [1, 1, 0, 0],
    [0, 1, 0, 0],
    [0, 0, 0, 0],
];

const HALF_HEX_LIST: &str =
    "0 0 0,0,0,0 0:1/0,1/0,1/0,1/0,1/0,1/0,1/0,1/0,1/0,1/0,1/0,1/0,1/0,1/0,1/0,1/0,1/0,1/0,1/0,1/0,1/0,1/0,1/0,1/0,1/0,1/0,1/0,1/0,1/0,1/0,1/0,1/0,1/0,1/0,1/0,1/0,1/0,1/0,1/0,1/0,1/0,1/0,1/0,1/0,1/0,1/0,1/0,1/0,1/0,1/0,1/0,1/0,1/0,1/0,1/0,1/0,1/0,1/0,1/0,1/0,1/0,1/0,1/0,1/0\n";

const HALF_HEX_SVG: &str =
    "<svg xmlns=\"http://www.w3.org/2000/svg\" version=\"1.1\" viewBox=\"-0.5 -0.866025 1 1.732050\">
<g transform=\"scale(0.0005 -0.000866025)\" fill=\"none\" stroke=\"black\" stroke-width=\"40\">
<path class=\"k0\" d=\"M-1000 -1000L1000 -1000L0 0L-2000 0L-3000 -1000Z\"/>
</g>
</svg>
";

/// A half hexagon of order six, and an address of 64 digits.
fn is_half_hexagon(alloc: Global) -> Result<bool, NoMemory> {
    let half = whole(Order::Six, &HALF_HEX, part(0, 0, [0; 4], &[(1, 0); 64]));
    let seen = view(Order::Six, &[1, 1, 0, 0], (1, 1), 1);
    Ok(
        is_svg(alloc, seen, half.copy(), HALF_HEX_SVG)?
            && is_list(alloc, seen, half, HALF_HEX_LIST)?,
    )
}

const NO_TILE_SVG: &str =
    "<svg xmlns=\"http://www.w3.org/2000/svg\" version=\"1.1\" viewBox=\"-32767.5 -1.000000 65535 2.000000\">
<g transform=\"scale(0.0005 -0.001)\" fill=\"none\" stroke=\"black\" stroke-width=\"40\">
</g>
</svg>
";

/// Views without a tile: a head and a tail, no line, and a census of nothing.
fn are_empty(alloc: Global) -> Result<bool, NoMemory> {
    let seen = view(Order::Four, &[0; 4], (65535, 1), 2);
    Ok(
        is_empty(&mut SvgLayer::new(alloc), seen, NO_TILE_SVG)?
            && is_empty(&mut ListLayer::new(alloc), seen, "")?
            && is_empty(&mut CensusLayer::new(alloc), seen, "0 0\n1 0\nall 0\n")?,
    )
}

/// Returns true if the census of three tiles, two of kind 1 and one of a class that is no kind, is this.
fn is_census(alloc: Global, wanted: &str) -> Result<bool, NoMemory> {
    let mut census = CensusLayer::new(alloc);
    let one = whole(Order::Ten, &KITE, part(1, 0, [0; 4], &[]));
    census.begin(view(Order::Ten, &[0; 4], (1, 1), 2));
    census.put(one.copy())?;
    census.put(whole(Order::Ten, &KITE, part(255, 0, [0; 4], &[])))?;
    census.put(one)?;
    census.end()?;
    Ok(census.bytes() == wanted.as_bytes())
}

/// Notes the first text that is another.
fn note_texts(alloc: Global, wrong: &mut Wrong) {
    wrong.note(
        "svg of chairs",
        0,
        draws_chairs(&mut SvgLayer::new(alloc), CHAIRS_SVG),
    );
    wrong.note(
        "list of chairs",
        0,
        draws_chairs(&mut ListLayer::new(alloc), CHAIRS_LIST),
    );
    let is_census_drawn = draws_chairs(&mut CensusLayer::new(alloc), CHAIRS_CENSUS);
    wrong.note("census of chairs", 0, is_census_drawn);
    wrong.note("kite", 0, is_kite(alloc).unwrap_or(false));
    wrong.note("triangle", 0, is_triangle(alloc).unwrap_or(false));
    wrong.note("half hexagon", 0, is_half_hexagon(alloc).unwrap_or(false));
    wrong.note("no tile", 0, are_empty(alloc).unwrap_or(false));
    // a class that is no kind is counted among all alone
    let counts = is_census(alloc, "0 0\n1 2\nall 3\n");
    wrong.note("class that is no kind", 0, counts.unwrap_or(false));
}

/// The first row that comes out otherwise.
fn first_wrong(alloc: Global) -> Wrong {
    let mut wrong = NONE;
    note_texts(alloc, &mut wrong);
    note_lines(alloc, &mut wrong);
    note_boxes(alloc, &mut wrong);
    note_refused(alloc, &mut wrong);
    wrong.note("kept texts", 0, are_kept(alloc).unwrap_or(false));
    wrong
}

#[test]
fn texts(rt: HostRuntime) {
    first_wrong(rt.alloc()).assert_none(&rt);
}
