//! The texts of vertices, kept for other tiles with the same vertex.
ghost use Rattle.std.specs.Prelude.{◌≡◌, ◌-◌, ◌≤◌, All, IfOk, IfSome, drop};
ghost use Rattle.layer_api.specs.declared.view.View.{View};
ghost use Rattle.layer_api.specs.SvgText.{vertex_text};
ghost use Rattle.layer_svg.specs.Kept.{IsTextKept};

use cyclo_points::point::Point;
use std::alloc::{AllocError, Global};

/// The number of places: enough for the vertices of about three columns of the largest windows.
const PLACES: usize = 8192;

/// A vertex with its text, at the end of 32 bytes. If the length is 0, there is none.
#[derive(Clone, Copy, Drop)]
pub(crate) struct Kept {
    vertex: Point,
    text: [u8; 32],
    length: usize,
}

impl Kept {
    /// Makes an empty place.
    fn none() -> Kept
        ensures { (v : View) → IsTextKept v result }
    {
        Kept {
            vertex: Point { c: [0; 4] },
            text: [0; 32],
            length: 0,
        }
    }

    /// Returns the text of a vertex and its length, if it is kept here. The text is at the end of 32 bytes.
    #[inline]
    pub(crate) fn text_of(&self, vertex: &Point) -> Option<(&[u8; 32], usize)>
        ensures { (v : View) → IsTextKept v self.now
            → IfSome result (λ found. (found.1 ≤ 32)
            × (drop (32 - found.1) found.0.now ≡ vertex_text v vertex.now)) }
    {
        if self.length == 0 || self.vertex != *vertex {
            return None;
        }
        Some((&self.text, self.length))
    }

    /// Keeps the text of this vertex instead, unless it is too long.
    #[inline(never)]
    pub(crate) fn keep(&mut self, vertex: &Point, text: &[u8])
        ensures { (v : View) → IsTextKept v self.old → text.now ≡ vertex_text v vertex.now
            → IsTextKept v self.new }
    {
        if text.len() <= 32 {
            self.vertex = *vertex;
            self.length = text.len();
            self.text[32 - text.len()..].copy_from_slice(text);
        }
    }
}

/// Makes places that are all empty.
pub(crate) fn empty_places(alloc: Global) -> Result<Vec<Kept>, AllocError>
    ensures { (v : View) → IfOk result (λ places. All (IsTextKept v) places.items) }
{
    let mut places = Vec::with_capacity(alloc, PLACES)?;
    for _ in 0..PLACES {
        places.push(Kept::none())?;
    }
    Ok(places)
}

/// Returns the number of the place for a vertex.
#[inline]
pub(crate) fn place_of(vertex: &Point) -> usize {
    let sum = vertex.c[0]
        .wrapping_mul(0x9e37_79b1)
        .wrapping_add(vertex.c[1].wrapping_mul(0x85eb_ca6b))
        .wrapping_add(vertex.c[2].wrapping_mul(0xc2b2_ae35))
        .wrapping_add(vertex.c[3].wrapping_mul(0x27d4_eb2f));
    (sum.cast_unsigned() >> 16) as usize % PLACES
}
