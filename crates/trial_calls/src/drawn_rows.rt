//! Lines of words with what is drawn and noted.
use crate::calls::{first_field, spelled};
use crate::drawings::{comes_to, layers_of};
use crate::wrong::Wrong;
use std::alloc::{AllocError, Global};
use tile_shape::no_memory::NoMemory;

/// The picture of two chairs.
const CHAIRS_SVG: &str =
    "<svg xmlns=\"http://www.w3.org/2000/svg\" version=\"1.1\" viewBox=\"-1.0 -1.000000 2 2.000000\">
<g transform=\"scale(0.0005 -0.001)\" fill=\"none\" stroke=\"black\" stroke-width=\"40\">
<path class=\"k0\" d=\"M0 0L0 1000L-2000 1000L-2000 0L-2000 -1000L0 -1000L2000 -1000L2000 0Z\"/>
<path class=\"k0\" d=\"M2000 1000L0 1000L0 0L2000 0L4000 0L4000 1000L4000 2000L2000 2000Z\"/>
</g>
</svg>
";

/// Their list.
pub const CHAIRS_LIST: &str = "0 0 0,0,0,0 0:3/0\n0 1 3,1,0,0 0:1/0\n";

/// The picture of three half hexagons.
const HALF_HEXES_SVG: &str =
    "<svg xmlns=\"http://www.w3.org/2000/svg\" version=\"1.1\" viewBox=\"-0.5 -0.866025 1 1.732050\">
<g transform=\"scale(0.0005 -0.000866025)\" fill=\"none\" stroke=\"black\" stroke-width=\"40\">
<path class=\"k0\" d=\"M-1000 -1000L1000 -1000L0 0L-2000 0L-3000 -1000Z\"/>
<path class=\"k0\" d=\"M-1000 1000L-3000 1000L-2000 0L0 0L1000 1000Z\"/>
<path class=\"k0\" d=\"M2000 0L1000 1000L0 0L1000 -1000L3000 -1000Z\"/>
</g>
</svg>
";

/// Their list.
const HALF_HEXES_LIST: &str = "0 0 0,0,0,0 0:0/0\n0 3 1,2,0,0 0:2/0\n0 2 3,0,0,0 0:1/0\n";

/// The census of the chairs.
const CHAIRS_CENSUS: &str = "0 2\nall 2\n";

/// The texts that rows name.
static TEXTS: [(&str, &str); 5] = [
    ("{chairs.svg}", CHAIRS_SVG),
    ("{chairs}", CHAIRS_LIST),
    ("{chairs.census}", CHAIRS_CENSUS),
    ("{hexes.svg}", HALF_HEXES_SVG),
    ("{hexes}", HALF_HEXES_LIST),
];

/// Calls with layers. A row is a line: the formats of the layers, the words, and the outcome: the exit code, what
/// is printed, and after a bar what is noted. Texts are named in braces.
const ROWS: &str = "\
svg,list,census | draw rule=chair seed=42 addr=0: at=1,1,0,0 half=2,1 layers=list | 0 {chairs}|
svg,list,census | draw rule=chair seed=42 addr=0: at=1,1,0,0 half=2,1 layers=census | 0 {chairs.census}|
svg,list,census | draw layers=svg half=2,1 at=1,1,0,0 addr=0: seed=42 rule=chair | 0 {chairs.svg}|
svg,list,census | draw rule=halfhex addr=0:0/0 at=1,1,0,0 half=1,1 layers=list | 0 {hexes}|
svg,list,census | draw rule=halfhex addr=0:0/0 at=1,1,0,0 half=1,1 layers=svg | 0 {hexes.svg}|
# the same centres, of which the last two coefficients are reduced
svg,list,census | draw rule=chair seed=42 addr=0: at=-4,1048576,-5,1048575 half=2,1 layers=list | 0 {chairs}|
svg,list,census | draw rule=halfhex addr=0:0/0 at=7,-3,4,2 half=1,1 layers=list | 0 {hexes}|
# sides along the border of the supertile, which only touch it
svg,list,census | draw rule=chair addr=0:0/0 at=1,1,0,0 half=2,1 layers=list | 0 0 0 0,0,0,0 0:0/0¶0 0 1,1,0,0 0:1/0¶|
# the largest window
svg,list,census | draw rule=chair addr=0: at=0,0,0,0 half=4096,4096 layers=svg,list,census | 7 |7 TooManyTiles¶
svg,list,census | draw rule=p3 addr=0: at=0,0,0,0 half=4096,4096 layers=census | 7 |7 TooManyTiles¶
svg,list,census | draw rule=chair addr=0: at=1,1,0,0 half=1,4097 layers=census | 2 |2 BadWords 4¶
svg,list,census | draw rule=chair addr=0: at=1,1,0,1048577 half=1,1 layers=census | 2 |2 BadWords 3¶
svg,list,census | draw rule=chair addr=0:0/0,0/0,0/0,0/0,0/0,0/0,0/0,0/0,0/0,0/0,0/0,0/0,0/0,0/0,0/0,0/0,0/0,0/0,0/0,0/0,1/0,0/0 at=0,0,0,0 half=4000,4000 layers=census | 7 |7 TooManyTiles¶
svg,list,census | draw rule=chair addr=0: at=1,1,0,0 half=2,1 layers=list,svg,list | 2 |2 BadWords 5¶
svg,list,census | draw rule=chair addr=0: at=1,1,0 half=2,1 layers=list | 2 |2 BadWords 3¶
svg,list,census | draw rule=chair addr=0: at=1,1,0,0 half=0,1 layers=list | 2 |2 BadWords 4¶
svg,list,census | draw rule=chair addr=0: at=1,-0,0,0 half=2,1 layers=list | 2 |2 BadWords 3¶
# three texts, one after another, in the order named, whatever the order of the layers
svg,list,census | draw rule=chair seed=42 addr=0: at=1,1,0,0 half=2,1 layers=svg,list,census | 0 {chairs.svg}{chairs}{chairs.census}|
census,list,svg,list | draw rule=chair seed=42 addr=0: at=1,1,0,0 half=2,1 layers=svg,list,census | 0 {chairs.svg}{chairs}{chairs.census}|
# no layer has a format that is named: the first such format is reported, and the rule is not read
svg,census | draw rule=chair seed=42 addr=0: at=1,1,0,0 half=2,1 layers=list | 14 |14 NoLayer list¶
svg,census | draw rule=- seed=42 addr=0: at=1,1,0,0 half=2,1 layers=svg,list,census | 14 |14 NoLayer list¶
- | draw rule=- seed=42 addr=0: at=1,1,0,0 half=2,1 layers=list,census,svg | 14 |14 NoLayer list¶
- | place rule=chair addr=0: | 0 0 0 0,0,0,0¶|
# the chair has no halves: the same text, whether glued or not; and what glue may be
svg,list,census | draw rule=chair seed=42 addr=0: at=1,1,0,0 half=2,1 layers=list glue=no | 0 {chairs}|
svg,list,census | draw rule=chair seed=42 addr=0: at=1,1,0,0 half=2,1 layers=list glue=yes | 0 {chairs}|
svg,list,census | draw rule=p2 addr=0: at=0,0,0,0 half=1,1 layers=list glue=maybe | 2 |2 BadWords 6¶
# in frames of depth 64 a window at the corner of the supertile, one whose centre no tile holds, and one far inside
list | draw rule=chair addr=0:0/0«,0/0×63» at=0,0,0,0 half=2,1 layers=list | 5 |5 DepthLimit 0:0/0«,0/0×63» 3¶
list | draw rule=chair addr=0:0/0«,0/0×63» at=-1,0,0,0 half=1,1 layers=list | 6 |6 CoordLimit 16777216,33554432,0,0¶
list | draw rule=chair addr=0:3/0«,0/0×63» at=1,1,0,0 half=2,1 layers=list | 0 0 0 0,0,0,0 0:3/0«,0/0×63»¶0 1 3,1,0,0 0:1/0«,0/0×63»¶|";

/// Returns a field in full, with the texts that it names.
fn filled(alloc: Global, field: &str) -> Result<String, AllocError> {
    let mut text = spelled(alloc, field)?;
    for (name, named) in &TEXTS {
        text = text.as_str().replace(alloc, name, named)?;
    }
    Ok(text)
}

/// Returns true if a call comes to what its row says.
fn is_right(alloc: Global, row: &str) -> Result<bool, NoMemory> {
    let (formats, rest) = first_field(row);
    let (words, outcome) = first_field(rest);
    let line = spelled(alloc, words)?;
    let wanted = filled(alloc, outcome)?;
    Ok(comes_to(
        alloc,
        line.as_str(),
        layers_of(alloc, formats)?,
        wanted.as_str(),
    ))
}

/// Notes the first row that comes out otherwise. A line that begins with `#` is a comment.
pub fn note_drawings(alloc: Global, wrong: &mut Wrong) {
    for (number, row) in ROWS.split('\n').enumerate() {
        if !row.starts_with("#") {
            wrong.note(row, number, is_right(alloc, row).unwrap_or(false));
        }
    }
}
