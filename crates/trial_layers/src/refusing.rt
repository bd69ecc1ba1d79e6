//! A layer that refuses at one of its calls: the drawing ends there.
use crate::texts::CHAIRS_LIST;
use crate::tiles::drawn;
use crate::wrong::Wrong;
use layer_list::list_layer::ListLayer;
use std::alloc::Global;
use trial_refusing_layer::refusing::Refusing;

/// The number of the call that is refused, and whether two chairs are drawn: each call refused in turn, and
/// none.
static CALLS: [(u32, Option<bool>); 4] = [(1, None), (2, None), (3, None), (4, Some(true))];

/// Notes the first refused call at which the drawing doesn't end.
pub(crate) fn note_refused(alloc: Global, wrong: &mut Wrong) {
    for (row, (refused, wanted)) in CALLS.iter().enumerate() {
        let mut layer = Refusing::new(ListLayer::new(alloc), *refused);
        wrong.note("refused", row, drawn(&mut layer, CHAIRS_LIST) == *wanted);
    }
}
