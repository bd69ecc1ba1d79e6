//! The border of the tiles found: the open edges.
ghost use Rattle.std.specs.Prelude.{◌≡◌, ◌≤◌, ◌++◌, [], ◌∷◌, length, take, not, Bool, false, OnOk};
ghost use Rattle.std.specs.Result.{OnErr};
ghost use Rattle.std.specs.List.{filter, slice_get};
ghost use Rattle.std.specs.Option.{option_map};
ghost use Rattle.window_cover.specs.Border.{Waiting, have_same_ends, has_ends, first_waiting, open_of};

use crate::ends::Ends;
use crate::open_edge::OpenEdge;
use std::alloc::Global;
use std::collections::HashMap;
use std::marker::Model;
use tile_shape::no_memory::NoMemory;

/// An edge that was opened, and true if it is still open.
#[derive(Clone, Copy)]
pub(crate) struct Listed {
    ends: Ends,
    edge: OpenEdge,
    is_open: bool,
}

/// The open edges, in the order in which they were opened. Each is looked up by its two ends, which no other
/// one has.
#[derive(Drop)]
pub(crate) struct Border {
    /// All edges opened so far, in order.
    listed: Vec<Listed>,
    /// The place of each open edge in this list, by its ends.
    places: HashMap<Ends, usize>,
    /// No edge before this place is open.
    next: usize,
}

impl Model for Border {
    ghost use Rattle.std.specs.Prelude.{List};
    ghost use Rattle.std.specs.HashMap as hash;
    ghost use Rattle.window_cover.specs.Border.{Waiting, have_same_ends, open_of, IsBorder};

    ghost Value = { List Waiting };

    ghost view = { λ b. open_of b.listed.items };

    ghost invariant = { λ b. IsBorder b.listed.items (hash.get have_same_ends b.places)
        (hash.hash_map_len b.places) b.next };
}

impl Border {
    /// Makes a border without open edges.
    pub(crate) fn new(alloc: Global) -> Border
        ensures { result ≡ [] }
    {
        Border {
            listed: Vec::new(alloc),
            places: HashMap::new(alloc),
            next: 0,
        }
    }

    /// Returns the number of open edges.
    pub(crate) fn count(&self) -> usize
        ensures { result ≡ length self.now }
    {
        self.places.len()
    }

    /// Returns the first open edge. Before it, only edges that were closed in front since the last `pass` are
    /// visited.
    pub(crate) fn first(&self) -> Option<OpenEdge>
        ensures { result ≡ first_waiting self.now }
    {
        let listed = self.listed.as_slice();
        let place = first_open(listed, self.next);
        if place < listed.len() {
            Some(listed[place].edge)
        } else {
            None
        }
    }

    /// Passes over the closed edges in front, so that `first` does not visit them again.
    pub(crate) fn pass(&mut self)
        ensures { self.new ≡ self.old }
    {
        self.next = first_open(self.listed.as_slice(), self.next);
    }

    /// Closes the open edge with these ends. Returns true if there was one.
    pub(crate) fn close(&mut self, ends: &Ends) -> bool
        ensures found { result ≡ has_ends ends.now self.old }
        ensures closed { self.new ≡ filter (λ o. not (have_same_ends ends.now o.ends)) self.old }
    {
        match self.places.remove(ends) {
            Some(place) => {
                self.listed[place].is_open = false;
                true
            }
            None => false,
        }
    }

    /// Opens an edge with these ends. No open edge may have them yet. Err if memory runs out; then the border
    /// stays as it was.
    pub(crate) fn add(&mut self, ends: Ends, edge: OpenEdge) -> Result<(), NoMemory>
        requires fresh { has_ends ends self.old ≡ false }
        ensures added { OnOk result (self.new ≡ self.old ++ record { ends = ends; edge = edge } ∷ []) }
        ensures kept { OnErr result (self.new ≡ self.old) }
    {
        let place = self.listed.len();
        self.listed.push(Listed {
            ends,
            edge,
            is_open: false,
        })?;
        self.places.insert(ends, place)?;
        self.listed[place].is_open = true;
        Ok(())
    }
}

/// Returns the place of the first open edge, or the length if there is none. No edge before `from` may be
/// open.
fn first_open(listed: &[Listed], from: usize) -> usize
    requires from_within { from ≤ length listed.now }
    requires none_before { open_of (take from listed.now) ≡ [] }
    ensures within { result ≤ length listed.now }
    ensures none_before { open_of (take result listed.now) ≡ [] }
    ensures first { first_waiting (open_of listed.now) ≡ option_map (λ l. l.edge)
        (slice_get listed.now result) }
{
    for place in from..listed.len() {
        if listed[place].is_open {
            return place;
        }
    }
    listed.len()
}
