//! The command `draw`: the tiles of a window, through the layers of the caller.
ghost use Rattle.std.specs.Prelude.{◌≡◌, ℕ, List, [], All, map, None, IfOk, IfErr, OnOk, IsTrue, IsFalse};
ghost use Rattle.call_words.specs.FormatWords.{is_among, first_lacking};
ghost use Rattle.call_words.specs.Views.{IsWindowAsked, window_of};
ghost use Rattle.layer_api.specs.Drawable.{IsView};
ghost use Rattle.layer_api.specs.declared.format.Format.{Format};
ghost use Rattle.theory_walks.specs.Frames.{IsFrameOf};
ghost use Rattle.rule_model.specs.Tiling.{tiling_of};
ghost use Rattle.window_cover.specs.Windows.{IsWindow};
ghost use Rattle.tile_app.specs.BaseFrame.{IsBegun};
ghost use Rattle.tile_app.specs.Draw.{view_of, Pictures, PrintsDraw, DrawRefuses};
ghost use Rattle.tile_app.specs.LayerTexts.{HasDrawn, FirstHasDrawn, IsTextOf};
ghost use Rattle.tile_app.specs.Drawings.{tiles_drawn, CanBeShown};
ghost use Rattle.call_notes.specs.Status.{OrNoMemory};
ghost use Rattle.tile_app.specs.Windows.{window_asked};

use crate::drawing::Drawing;
use crate::glue_edges::GlueEdges;
use crate::layers::place_of;
use crate::looks::Looks;
use crate::picture::Picture;
use crate::put_drawing::put_drawing;
use crate::whole_answer::WholeAnswer;
use crate::window::window_in;
use arrayvec::ArrayVec;
use call_notes::status::Status;
use call_words::format_words::MOST_FORMATS;
use call_words::window_words::WindowWords;
use half_glue::given_law::given_law;
use half_glue::glue_covered::glue_covered;
use half_glue::parts_law::parts_law;
use half_glue::whole_laws::whole_tiles_law;
use layer_api::format::Format;
use layer_api::layer::Layer;
use layer_api::view::View;
use lazy_walk::frame::Frame;
use plane_geom::window::Window;
use std::alloc::Global;
use tile_place::machine::Machine;
use tile_shape::no_memory::NoMemory;
use window_cover::find_tiles::find_tiles;
use window_cover::tiles_of_window::covered_tiles;

/// Returns what is drawn of a window in the frame of a base: its tiles, or with glue their whole tiles.
fn pictured(
    alloc: Global,
    machine: &Machine,
    whole: bool,
    frame: &mut Frame,
    window: &Window,
) -> Result<Drawing, Status>
    requires frame { IsFrameOf (tiling_of machine.now) frame.old }
    requires begun { IsBegun frame.old }
    requires fits { IsWindow window.now }
    ensures can { IfOk result (CanBeShown (tiling_of machine.now)) }
    ensures pictures { IfOk result (λ drawing. Pictures whole (tiling_of machine.now) frame.old window.now
        (tiles_drawn (tiling_of machine.now) drawing)) }
    ensures refused { IfErr result
        (OrNoMemory (DrawRefuses whole (tiling_of machine.now) frame.old window.now)) }
{
    if whole {
        given_law();
        parts_law(machine);
        whole_tiles_law(machine);
        let tiles = covered_tiles(alloc, machine, frame, window)?;
        let wholes = glue_covered(alloc, machine, frame, tiles)?;
        let picture = Picture::Wholes(wholes, GlueEdges::new(machine));
        Ok(Drawing::InOrder(picture))
    } else {
        Ok(Drawing::Found(find_tiles(alloc, machine, frame, window)?))
    }
}

/// Returns the view of the machine's tiling in a window.
fn view_of(machine: &Machine, window: &Window) -> View
    ensures { result ≡ view_of (tiling_of machine.now) window.now }
{
    let checked = machine.checked();
    View {
        order: checked.order(),
        centre: window.centre,
        w: window.w,
        h: window.h,
        kinds: checked.rule().kind_count() as u8,
    }
}

/// Draws a window's tiles through a layer, from beginning to end. The layer gets all that the tiles have if
/// it needs all, and otherwise at least what the text of its format depends on. Returns the drawing, put in
/// order if that layer needs it.
fn draw<D: Layer>(
    layer: &mut D,
    machine: &Machine,
    view: View,
    drawing: Drawing,
) -> Result<Drawing, NoMemory>
    requires view { IsView view }
    requires its_order { view.order ≡ machine.now.order }
    requires can { CanBeShown (tiling_of machine.now) drawing }
    ensures drawn { OnOk result (HasDrawn D.form D.seen D.ended D.draws view
        (tiles_drawn (tiling_of machine.now) drawing) layer.new) }
    ensures whole { OnOk result (IsTrue (D.needs_all layer.old)
        → D.draws layer.new (tiles_drawn (tiling_of machine.now) drawing)) }
    ensures form { D.form layer.new ≡ D.form layer.old }
    ensures can { IfOk result (CanBeShown (tiling_of machine.now)) }
    ensures same { IfOk result (λ later. tiles_drawn (tiling_of machine.now) later
        ≡ tiles_drawn (tiling_of machine.now) drawing) }
{
    let looks = Looks::of(layer.looks_at_all(), layer.format());
    let suited = drawing.suited(looks)?;
    layer.begin(view);
    put_drawing(layer, looks, machine, &suited)?;
    layer.end()?;
    Ok(suited)
}

/// Draws a window's tiles through the first layer with a format.
fn draw_format<D: Layer>(
    layers: &mut [D],
    format: Format,
    machine: &Machine,
    view: View,
    drawing: Drawing,
) -> Result<Drawing, NoMemory>
    requires has_layer { IsTrue (is_among format (map D.form layers.old)) }
    requires view { IsView view }
    requires its_order { view.order ≡ machine.now.order }
    requires can { CanBeShown (tiling_of machine.now) drawing }
    ensures drawn { OnOk result (FirstHasDrawn D.form D.seen D.ended D.draws view
        (tiles_drawn (tiling_of machine.now) drawing) layers.new format) }
    ensures others { OnOk result ((other : Format)
        → FirstHasDrawn D.form D.seen D.ended D.draws view
        (tiles_drawn (tiling_of machine.now) drawing) layers.old other
        → FirstHasDrawn D.form D.seen D.ended D.draws view
        (tiles_drawn (tiling_of machine.now) drawing) layers.new other) }
    ensures same_forms { OnOk result (map D.form layers.new ≡ map D.form layers.old) }
    ensures can { IfOk result (CanBeShown (tiling_of machine.now)) }
    ensures same { IfOk result (λ later. tiles_drawn (tiling_of machine.now) later
        ≡ tiles_drawn (tiling_of machine.now) drawing) }
{
    let place = place_of(layers, format).unwrap();
    draw(&mut layers[place], machine, view, drawing)
}

/// Draws a window's tiles through the first layer with each of several formats.
fn draw_formats<D: Layer>(
    layers: &mut [D],
    formats: &[Format],
    machine: &Machine,
    view: View,
    drawing: Drawing,
) -> Result<(), NoMemory>
    requires have_layers { first_lacking (map D.form layers.old) formats.now ≡ None }
    requires view { IsView view }
    requires its_order { view.order ≡ machine.now.order }
    requires can { CanBeShown (tiling_of machine.now) drawing }
    ensures drawn { OnOk result (All (FirstHasDrawn D.form D.seen D.ended D.draws view
        (tiles_drawn (tiling_of machine.now) drawing) layers.new) formats.now) }
    ensures same_forms { OnOk result (map D.form layers.new ≡ map D.form layers.old) }
{
    let mut later = drawing;
    for format in formats {
        later = draw_format(layers, *format, machine, view, later)?;
    }
    Ok(())
}

/// Draws a window in the frame of a base. Returns the answer, whose texts stay in the layers, or the refusal.
/// Each format must have a layer, and the first layer with the format draws it. If a layer refuses, the
/// refusal is out of memory.
pub fn draw_text<D: Layer>(
    alloc: Global,
    machine: &Machine,
    frame: &mut Frame,
    asked: &WindowWords,
    formats: &ArrayVec<Format, MOST_FORMATS>,
    whole: bool,
    layers: &mut [D],
) -> Result<WholeAnswer, Status>
    requires frame { IsFrameOf (tiling_of machine.now) frame.old }
    requires begun { IsBegun frame.old }
    requires asked { IsWindowAsked asked.now }
    requires have_layers { first_lacking (map D.form layers.old) formats.now.items ≡ None }
    ensures printed { IfOk result (λ answer. (text : List ℕ)
        × PrintsDraw whole formats.now.items (tiling_of machine.now) frame.old
        (window_asked machine.now.order (window_of asked.now)) text
        × IsTextOf D.form D.seen D.ended D.draws layers.new answer text) }
    ensures refused { IfErr result (OrNoMemory (DrawRefuses whole (tiling_of machine.now) frame.old
        (window_asked machine.now.order (window_of asked.now)))) }
{
    let window = window_in(machine.checked().order(), asked);
    let drawing = pictured(alloc, machine, whole, frame, &window)?;
    let view = view_of(machine, &window);
    draw_formats(layers, formats.as_slice(), machine, view, drawing)?;
    Ok(WholeAnswer::of_layers(formats))
}
