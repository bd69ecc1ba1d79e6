//! Kinds as plain numbers.
ghost use Rattle.std.specs.Prelude.{◌≡◌, ◌≤◌, length, map};
ghost use Rattle.rule_model.specs.Views.{as_child, as_kind};
ghost use Rattle.c_values.specs.Rules.{child_as, kind_as, no_kind, padded, HasRoom};
ghost use Rattle.c_values.specs.Tiles.{refused_as};

use crate::numbers::put_numbers;
use crate::plain_outline::PlainOutline;
use crate::plain_tile::PlainTile;
use cyclo_points::motion::Motion;
use rule_model::child::Child;
use rule_model::kind_row::KindRow;

/// A kind of a rule.
///
/// - `prototile`: its corners, counterclockwise.
/// - `children`: the tiles that fill the inflated prototile, each at its place there. There are
///   `child_count` of them.
/// - `edges`: the type of each edge, as many as corners.
///
/// The numbers after the corners, the children and the edges are 0.
#[repr(C)]
#[derive(Clone, Copy)]
pub struct PlainKind {
    pub prototile: PlainOutline,
    pub children: [PlainTile; 16],
    pub edges: [u8; 12],
    pub child_count: u8,
}

/// Puts children into an array, and blank tiles after them.
fn put_children(children: &[Child], tiles: &mut [PlainTile])
    requires room { length children.now ≤ length tiles.old }
    ensures { tiles.new
        ≡ padded (length tiles.old) (refused_as 0) (map child_as (map as_child children.now)) }
{
    tiles.fill(PlainTile::refused(0));
    for i in 0..children.len() {
        let motion = Motion {
            turn: children[i].turn,
            shift: children[i].shift,
        };
        tiles[i] = PlainTile::placed(children[i].kind, &motion, 0);
    }
}

impl PlainKind {
    /// Makes a kind with all numbers 0.
    pub fn blank() -> PlainKind
        ensures { result ≡ no_kind }
    {
        PlainKind {
            prototile: PlainOutline::blank(),
            children: [PlainTile::refused(0); 16],
            edges: [0; 12],
            child_count: 0,
        }
    }

    /// Returns the numbers of a kind. It has at most 12 edges and 16 children.
    pub fn of(row: &KindRow) -> PlainKind
        requires room { HasRoom row.now }
        ensures { result ≡ kind_as (as_kind row.now) }
    {
        let mut kind = PlainKind::blank();
        kind.prototile.write(&row.vertices);
        put_children(&row.children, &mut kind.children);
        put_numbers(&row.edges, &mut kind.edges);
        kind.child_count = row.children.len() as u8;
        kind
    }
}
