//! What a layer looks at of its tiles.
ghost use Rattle.std.specs.Prelude.{◌≡◌};
ghost use Rattle.tile_app.specs.Looks.{looks_in};

use layer_api::format::Format;

/// What a layer looks at of its tiles.
#[derive(Clone, Copy)]
pub enum Looks {
    /// All that they have.
    All,
    /// Their classes and outlines.
    Paths,
    /// Their parts.
    Parts,
    /// Their classes.
    Classes,
}

impl Looks {
    /// Returns what a layer with a format looks at, if it looks at `all` or only at what its text depends on.
    pub fn of(all: bool, format: Format) -> Looks
        ensures { result ≡ looks_in all format }
    {
        if all {
            return Looks::All;
        }
        match format {
            Format::Svg => Looks::Paths,
            Format::List => Looks::Parts,
            Format::Census => Looks::Classes,
        }
    }
}
