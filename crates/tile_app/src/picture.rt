//! The tiles that are drawn of a window.
ghost use Rattle.std.specs.Prelude.{◌≡◌, ◌<◌, Some, length, slice_get, IfSome, IsTrue};
ghost use Rattle.std.specs.Option.{is_some, option_map};
ghost use Rattle.layer_api.specs.Drawable.{IsDrawable};
ghost use Rattle.rule_model.specs.Tiling.{Tiling, tiling_of};
ghost use Rattle.tile_app.specs.DrawnTile.{tile_drawn, whole_by, tile_place, whole_place};
ghost use Rattle.tile_app.specs.Looks.{AreSameTo, HaveSamePath, HaveSameParts};
ghost use Rattle.tile_app.specs.Pictured.{picture_of, CanBePictured};

use crate::drawn_tile::{blank_part, fill, fill_whole};
use crate::glue_edges::GlueEdges;
use crate::looks::Looks;
use half_glue::glued_tiles::GluedTiles;
use layer_api::drawn::Drawn;
use layer_api::part::Part;
use tile_place::machine::Machine;
use tile_shape::address::Address;
use window_cover::covered_tiles::CoveredTiles;

/// The tiles that are drawn of a window.
#[derive(Drop)]
pub enum Picture {
    /// Its tiles, each alone.
    Tiles(CoveredTiles),
    /// The whole tiles of its tiles, and the glue edges of the rule's kinds.
    Wholes(GluedTiles, GlueEdges),
}

impl Picture {
    /// Returns the number of tiles or whole tiles.
    pub fn len(&self) -> usize
        ensures { (t : Tiling) → result ≡ length (picture_of t self.now) }
    {
        match self {
            Picture::Tiles(tiles) => tiles.len(),
            Picture::Wholes(wholes, _) => wholes.len(),
        }
    }

    /// Changes `drawn` into the tile at a place, as far as a layer looks at it. This is a function of its own
    /// so that the caller's tile is made only once.
    #[inline(never)]
    pub fn put(&self, drawn: &mut Drawn, looks: Looks, machine: &Machine, place: usize)
        requires can { CanBePictured (tiling_of machine.now) self.now }
        requires below { place < length (picture_of (tiling_of machine.now) self.now) }
        requires drawable { IsDrawable machine.now.order drawn.old }
        ensures same { IfSome (slice_get (picture_of (tiling_of machine.now) self.now) place)
            (AreSameTo looks drawn.new) }
        ensures drawable { IsDrawable machine.now.order drawn.new }
    {
        match looks {
            Looks::All => self.fill(drawn, machine, place),
            Looks::Paths => self.put_path(drawn, machine, place),
            Looks::Parts => self.put_parts(drawn, machine, place),
            Looks::Classes => drawn.class = self.class(machine, place),
        }
    }

    /// Replaces `drawn` by the tile at a place.
    fn fill(&self, drawn: &mut Drawn, machine: &Machine, place: usize)
        requires can { CanBePictured (tiling_of machine.now) self.now }
        requires below { place < length (picture_of (tiling_of machine.now) self.now) }
        ensures tile { slice_get (picture_of (tiling_of machine.now) self.now) place ≡ Some drawn.new }
        ensures drawable { IsDrawable machine.now.order drawn.new }
    {
        match self {
            Picture::Tiles(tiles) => {
                let first = &mut drawn.first;
                tiles.put(place, &mut first.kind, &mut first.motion, &mut first.addr);
                fill(drawn, machine);
            }
            Picture::Wholes(wholes, edges) => {
                put_parts(drawn, wholes, place);
                fill_whole(drawn, machine, edges);
            }
        }
    }

    /// Replaces the class and the outline of `drawn` by those of the tile at a place.
    fn put_path(&self, drawn: &mut Drawn, machine: &Machine, place: usize)
        requires can { CanBePictured (tiling_of machine.now) self.now }
        requires below { place < length (picture_of (tiling_of machine.now) self.now) }
        ensures path { IfSome (slice_get (picture_of (tiling_of machine.now) self.now) place)
            (HaveSamePath drawn.new) }
        ensures drawable { IsDrawable machine.now.order drawn.new }
    {
        match self {
            Picture::Tiles(tiles) => {
                drawn.first.motion = tiles.motion(place);
                drawn.first.kind = tiles.kind(place);
                fill(drawn, machine);
            }
            Picture::Wholes(wholes, edges) => {
                put_places(drawn, wholes, place);
                fill_whole(drawn, machine, edges);
            }
        }
    }

    /// Replaces the parts of `drawn` by those of the tile at a place.
    fn put_parts(&self, drawn: &mut Drawn, machine: &Machine, place: usize)
        requires below { place < length (picture_of (tiling_of machine.now) self.now) }
        ensures parts { IfSome (slice_get (picture_of (tiling_of machine.now) self.now) place)
            (HaveSameParts drawn.new) }
        ensures same_outline { drawn.new.outline ≡ drawn.old.outline }
    {
        match self {
            Picture::Tiles(tiles) => {
                let first = &mut drawn.first;
                tiles.put(place, &mut first.kind, &mut first.motion, &mut first.addr);
                if drawn.second.is_some() {
                    drawn.second = None;
                }
            }
            Picture::Wholes(wholes, _) => put_parts(drawn, wholes, place),
        }
    }

    /// Returns the class of the tile at a place.
    #[inline]
    fn class(&self, machine: &Machine, place: usize) -> u8
        requires below { place < length (picture_of (tiling_of machine.now) self.now) }
        ensures { IfSome (slice_get (picture_of (tiling_of machine.now) self.now) place)
            (λ d. result ≡ d.class) }
    {
        match self {
            Picture::Tiles(tiles) => tiles.kind(place),
            Picture::Wholes(wholes, _) => wholes.first_kind(place),
        }
    }
}

/// Replaces the parts of `drawn` by those of the whole tile at a place.
fn put_parts(drawn: &mut Drawn, wholes: &GluedTiles, place: usize)
    requires below { place < length wholes.now }
    ensures parts { slice_get wholes.now place ≡ Some (whole_by drawn.new.first drawn.new.second) }
    ensures same_outline { drawn.new.outline ≡ drawn.old.outline }
{
    let first = &mut drawn.first;
    wholes.put_first(place, &mut first.kind, &mut first.motion, &mut first.addr);
    if wholes.is_pair(place) {
        put_second(&mut drawn.second, wholes, place);
    } else {
        drawn.second = None;
    }
}

/// Replaces a second part by that of the whole tile at a place, which must have one. A part that is there is
/// overwritten.
fn put_second(second: &mut Option<Part>, wholes: &GluedTiles, place: usize)
    requires below { place < length wholes.now }
    requires is_pair { IfSome (slice_get wholes.now place) (λ w. IsTrue (is_some w.second)) }
    ensures { IfSome (slice_get wholes.now place) (λ w. w.second ≡ option_map tile_drawn second.new) }
{
    match second {
        Some(part) => wholes.put_second(place, &mut part.kind, &mut part.motion, &mut part.addr),
        None => {
            let mut part = blank_part();
            wholes.put_second(place, &mut part.kind, &mut part.motion, &mut part.addr);
            *second = Some(part);
        }
    }
}

/// Replaces the kinds and motions of the parts of `drawn` by those of the whole tile at a place, which has
/// as many parts. Their addresses may be anything.
fn put_places(drawn: &mut Drawn, wholes: &GluedTiles, place: usize)
    requires below { place < length wholes.now }
    ensures { IfSome (slice_get wholes.now place)
        (λ w. whole_place (whole_by drawn.new.first drawn.new.second) ≡ whole_place w) }
{
    let (motion, kind) = wholes.first_place(place);
    drawn.first.motion = motion;
    drawn.first.kind = kind;
    if wholes.is_pair(place) {
        put_second_place(&mut drawn.second, wholes, place);
    } else {
        drawn.second = None;
    }
}

/// Replaces the kind and the motion of a second part by those of the whole tile at a place, which must have
/// one.
fn put_second_place(second: &mut Option<Part>, wholes: &GluedTiles, place: usize)
    requires below { place < length wholes.now }
    requires is_pair { IfSome (slice_get wholes.now place) (λ w. IsTrue (is_some w.second)) }
    ensures { IfSome (slice_get wholes.now place)
        (λ w. option_map tile_place (option_map tile_drawn second.new) ≡ option_map tile_place w.second) }
{
    let (motion, kind) = wholes.second_place(place);
    match second {
        Some(part) => {
            part.motion = motion;
            part.kind = kind;
        }
        None => {
            *second = Some(Part {
                kind,
                motion,
                addr: Address::new(0),
            });
        }
    }
}
