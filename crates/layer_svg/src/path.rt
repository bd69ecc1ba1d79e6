//! The path of a tile.
ghost use Rattle.std.specs.Prelude.{◌≡◌, ◌+◌, ◌≤◌, [], ◌++◌, All, codes, decimal, length, map};
ghost use Rattle.std.specs.List.{join_with_byte};
ghost use Rattle.layer_api.specs.declared.line.TheConstants.{LINE_ROOM};
ghost use Rattle.layer_api.specs.Drawable.{IsNear, IsView};
ghost use Rattle.layer_api.specs.SvgText.{vertex_text};
ghost use Rattle.layer_svg.specs.Kept.{IsTextKept};

use crate::kept::{Kept, place_of};
use arrayvec::ArrayVec;
use cyclo_points::arithmetic::sub;
use cyclo_points::coordinates::{x, y};
use cyclo_points::point::Point;
use cyclo_points::thousandths::floor_thousandths;
use layer_api::drawn::MOST_VERTICES;
use layer_api::line::Line;
use layer_api::view::View;

/// Puts a vertex in front: its coordinates X and Y relative to the view's centre, in thousandths, rounded
/// down.
fn put_vertex(line: &mut Line, view: &View, vertex: &Point)
    requires room { length line.old + 43 ≤ LINE_ROOM }
    requires centre { IsView view.now }
    requires near { IsNear view.now.order vertex.now }
    ensures vertex { line.new ≡ vertex_text view.now vertex.now ++ line.old }
    ensures at_most { length line.new ≤ length line.old + 43 }
{
    let offset = sub(vertex, &view.centre);
    let across = floor_thousandths(view.order, &x(view.order, &offset));
    let up = floor_thousandths(view.order, &y(view.order, &offset));
    line.put_signed(up as i64);
    line.put(b' ');
    line.put_signed(across as i64);
}

/// Puts a vertex in front, and keeps its text in a place.
#[inline(never)]
fn put_and_keep(line: &mut Line, view: &View, vertex: &Point, place: &mut Kept)
    requires room { length line.old + 43 ≤ LINE_ROOM }
    requires centre { IsView view.now }
    requires near { IsNear view.now.order vertex.now }
    requires kept { IsTextKept view.now place.old }
    ensures kept { IsTextKept view.now place.new }
    ensures vertex { line.new ≡ vertex_text view.now vertex.now ++ line.old }
    ensures at_most { length line.new ≤ length line.old + 43 }
{
    let before = line.as_bytes().len();
    put_vertex(line, view, vertex);
    let after = line.as_bytes();
    place.keep(vertex, &after[..after.len() - before]);
}

/// Puts a vertex in front, from its kept text if there is one.
#[inline(always)]
fn put_kept_vertex(line: &mut Line, view: &View, vertex: &Point, kept: &mut [Kept])
    requires room { length line.old + 43 ≤ LINE_ROOM }
    requires centre { IsView view.now }
    requires near { IsNear view.now.order vertex.now }
    requires kept { All (IsTextKept view.now) kept.old }
    ensures kept { All (IsTextKept view.now) kept.new }
    ensures vertex { line.new ≡ vertex_text view.now vertex.now ++ line.old }
    ensures at_most { length line.new ≤ length line.old + 43 }
{
    let place = place_of(vertex);
    if place >= kept.len() {
        put_vertex(line, view, vertex);
    } else if let Some((text, count)) = kept[place].text_of(vertex) {
        line.put_last(text, count);
    } else {
        put_and_keep(line, view, vertex, &mut kept[place]);
    }
}

/// Puts the path of a tile, given by its class and outline, into an empty line.
pub(crate) fn put_path(
    line: &mut Line,
    view: &View,
    class: u8,
    outline: &ArrayVec<Point, MOST_VERTICES>,
    kept: &mut [Kept],
)
    requires empty { line.old ≡ [] }
    requires centre { IsView view.now }
    requires three { 3 ≤ length outline.now.items }
    requires near { All (IsNear view.now.order) outline.now.items }
    requires kept { All (IsTextKept view.now) kept.old }
    ensures kept { All (IsTextKept view.now) kept.new }
    ensures path { line.new ≡ codes "<path class=\"k" ++ decimal class ++ codes "\" d=\"M"
        ++ join_with_byte 76 (map (vertex_text view.now) outline.now.items) ++ codes "Z\"/>\n" }
    ensures at_most { length line.new ≤ 1100 }
{
    line.put_text(b"Z\"/>\n");
    let outline = outline.as_slice();
    let mut number = outline.len() - 1;
    put_kept_vertex(line, view, &outline[number], kept);
    while number > 0 {
        line.put(b'L');
        number -= 1;
        put_kept_vertex(line, view, &outline[number], kept);
    }
    line.put_text(b"\" d=\"M");
    line.put_small(class);
    line.put_text(b"<path class=\"k");
}
