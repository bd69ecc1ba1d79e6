//! Paths as arguments.
ghost use Rattle.std.specs.Prelude.{◌≡◌, ◌≤◌, ◌∷◌, ℕ, List, None, true, false, length};
ghost use Rattle.std.specs.Option.{option_map};
ghost use Rattle.call_words.specs.PathWords.{put, numbers, unless_long, longest_path, path_in};

use crate::number::small_number;
use arrayvec::ArrayVec;

/// The greatest number of edges of a path.
pub const LONGEST_PATH: usize = 1000;

/// The numbers of the edges of a path.
pub type Path = ArrayVec<u8, LONGEST_PATH>;

/// Reads the number of an edge and appends it to a path. Returns true if the text is one and there is room.
fn put_edge(path: &mut Path, piece: &[u8]) -> bool
    requires room { length path.old.items ≤ longest_path }
    ensures room { length path.new.items ≤ longest_path }
    ensures read { result ≡ true → (rest : List (List ℕ))
        → put path.new.items (numbers rest) ≡ put path.old.items (numbers (piece.now ∷ rest)) }
    ensures refused { result ≡ false → (rest : List (List ℕ))
        → unless_long (put path.old.items (numbers (piece.now ∷ rest))) ≡ None }
{
    match small_number(piece, 255) {
        Some(edge) => path.try_push(edge).is_ok(),
        None => false,
    }
}

/// Reads a path: numbers of edges, with commas between them.
pub fn path_in(text: &str) -> Option<Path>
    ensures { option_map (λ path. path.items) result ≡ path_in text.now }
{
    let bytes = text.as_bytes();
    let mut path = ArrayVec::new();
    let mut begin = 0;
    for place in 0..bytes.len() {
        if bytes[place] == b',' {
            if !put_edge(&mut path, &bytes[begin..place]) {
                return None;
            }
            begin = place + 1;
        }
    }
    if !put_edge(&mut path, &bytes[begin..]) {
        return None;
    }
    Some(path)
}
