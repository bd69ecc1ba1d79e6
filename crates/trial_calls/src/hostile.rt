//! Rule files that strain the check: the chair with a part repeated, turned round or left out.
use crate::calls::comes_to;
use crate::told::SOUND;
use crate::wrong::Wrong;
use std::alloc::{AllocError, Global};

/// The text in front of the types.
const HEAD: &str = "format = 1\norder = 4\nlambda = [2, 0, 0, 0]\nglue = []\n";

/// The type.
const TYPE: &str = "[[type]]\nmate = 0\nparts = [0, 0]\n";

/// A type that is no mate of its mate, where there are two of it.
const UNPAIRED: &str = "[[type]]\nmate = 1\nparts = [0, 0]\n";

/// The kind without its children.
const KIND: &str =
    "[[kind]]\nvertices = [[1,1,0,0],[1,2,0,0],[0,2,0,0],[0,1,0,0],[0,0,0,0],[1,0,0,0],[2,0,0,0],[2,1,0,0]]\nedges = [0, 0, 0, 0, 0, 0, 0, 0]\n";

/// The same with its vertices from the last to the first.
const REVERSED: &str =
    "[[kind]]\nvertices = [[2,1,0,0],[2,0,0,0],[1,0,0,0],[0,0,0,0],[0,1,0,0],[0,2,0,0],[1,2,0,0],[1,1,0,0]]\nedges = [0, 0, 0, 0, 0, 0, 0, 0]\n";

/// A square that is slit along a half of its diagonal, without its children.
const SLIT: &str =
    "[[kind]]\nvertices = [[0,0,0,0],[1,0,0,0],[0,1,0,0],[-1,0,0,0],[0,-1,0,0],[1,0,0,0]]\nedges = [0, 0, 0, 0, 0, 0]\n";

/// The children of the kind, up to the last bracket.
const CHILDREN: &str = "children = [[0,0, 0,0,0,0],[0,0, 1,1,0,0],[0,1, 4,0,0,0],[0,3, 0,4,0,0]";

/// The first child once more, and all of them.
const FIRST: &str = ",[0,0, 0,0,0,0]";

const AGAIN: &str = ",[0,0, 0,0,0,0],[0,0, 1,1,0,0],[0,1, 4,0,0,0],[0,3, 0,4,0,0]";

/// The end of the children.
const END: &str = "]\n";

/// A whole chair.
const CHAIR: &str =
    "[[kind]]\nvertices = [[1,1,0,0],[1,2,0,0],[0,2,0,0],[0,1,0,0],[0,0,0,0],[1,0,0,0],[2,0,0,0],[2,1,0,0]]\nedges = [0, 0, 0, 0, 0, 0, 0, 0]\nchildren = [[0,0, 0,0,0,0],[0,0, 1,1,0,0],[0,1, 4,0,0,0],[0,3, 0,4,0,0]]\n";

/// Pieces of a file, and how often each is repeated.
type Pieces = &'static [(&'static str, usize)];

/// Files, and what `check` comes to.
static FILES: [(Pieces, &str); 9] = [
    (
        &[
            (HEAD, 1),
            (TYPE, 1),
            (KIND, 1),
            (CHILDREN, 1),
            (FIRST, 13),
            (END, 1),
        ],
        "3 |3 RuleRefused TooMany child 0\n",
    ),
    (
        &[(HEAD, 1), (TYPE, 1), (REVERSED, 1), (CHILDREN, 1), (END, 1)],
        "3 |3 RuleRefused NotStar 0\n",
    ),
    (
        &[(HEAD, 1), (TYPE, 1), (SLIT, 1), (CHILDREN, 1), (END, 1)],
        "3 |3 RuleRefused NotStar 0\n",
    ),
    (
        &[
            (HEAD, 1),
            (TYPE, 1),
            (KIND, 1),
            (CHILDREN, 1),
            (AGAIN, 1),
            (END, 1),
        ],
        "3 |3 RuleRefused ChildEdgeLoose 0 0 0\n",
    ),
    (
        &[(HEAD, 1), ("kind = []\n", 1), (TYPE, 1)],
        "3 |3 RuleRefused TooMany kinds\n",
    ),
    (
        &[(HEAD, 1), (UNPAIRED, 2), (CHAIR, 1)],
        "3 |3 RuleRefused BadMate 0\n",
    ),
    (
        &[(HEAD, 1), (TYPE, 1), (CHAIR, 2)],
        "3 |3 RuleRefused Unused 1\n",
    ),
    (
        &[(HEAD, 1), (TYPE, 1), (CHAIR, 17)],
        "3 |3 RuleRefused TooMany kinds\n",
    ),
    // sixteen kinds like the chair, each with children of the next one, and the last with children of kind 0
    (
        &[
            (HEAD, 1),
            (TYPE, 1),
            (KIND, 1),
            (
                "children = [[1,0, 0,0,0,0],[1,0, 1,1,0,0],[1,1, 4,0,0,0],[1,3, 0,4,0,0]]\n",
                1,
            ),
            (KIND, 1),
            (
                "children = [[2,0, 0,0,0,0],[2,0, 1,1,0,0],[2,1, 4,0,0,0],[2,3, 0,4,0,0]]\n",
                1,
            ),
            (KIND, 1),
            (
                "children = [[3,0, 0,0,0,0],[3,0, 1,1,0,0],[3,1, 4,0,0,0],[3,3, 0,4,0,0]]\n",
                1,
            ),
            (KIND, 1),
            (
                "children = [[4,0, 0,0,0,0],[4,0, 1,1,0,0],[4,1, 4,0,0,0],[4,3, 0,4,0,0]]\n",
                1,
            ),
            (KIND, 1),
            (
                "children = [[5,0, 0,0,0,0],[5,0, 1,1,0,0],[5,1, 4,0,0,0],[5,3, 0,4,0,0]]\n",
                1,
            ),
            (KIND, 1),
            (
                "children = [[6,0, 0,0,0,0],[6,0, 1,1,0,0],[6,1, 4,0,0,0],[6,3, 0,4,0,0]]\n",
                1,
            ),
            (KIND, 1),
            (
                "children = [[7,0, 0,0,0,0],[7,0, 1,1,0,0],[7,1, 4,0,0,0],[7,3, 0,4,0,0]]\n",
                1,
            ),
            (KIND, 1),
            (
                "children = [[8,0, 0,0,0,0],[8,0, 1,1,0,0],[8,1, 4,0,0,0],[8,3, 0,4,0,0]]\n",
                1,
            ),
            (KIND, 1),
            (
                "children = [[9,0, 0,0,0,0],[9,0, 1,1,0,0],[9,1, 4,0,0,0],[9,3, 0,4,0,0]]\n",
                1,
            ),
            (KIND, 1),
            (
                "children = [[10,0, 0,0,0,0],[10,0, 1,1,0,0],[10,1, 4,0,0,0],[10,3, 0,4,0,0]]\n",
                1,
            ),
            (KIND, 1),
            (
                "children = [[11,0, 0,0,0,0],[11,0, 1,1,0,0],[11,1, 4,0,0,0],[11,3, 0,4,0,0]]\n",
                1,
            ),
            (KIND, 1),
            (
                "children = [[12,0, 0,0,0,0],[12,0, 1,1,0,0],[12,1, 4,0,0,0],[12,3, 0,4,0,0]]\n",
                1,
            ),
            (KIND, 1),
            (
                "children = [[13,0, 0,0,0,0],[13,0, 1,1,0,0],[13,1, 4,0,0,0],[13,3, 0,4,0,0]]\n",
                1,
            ),
            (KIND, 1),
            (
                "children = [[14,0, 0,0,0,0],[14,0, 1,1,0,0],[14,1, 4,0,0,0],[14,3, 0,4,0,0]]\n",
                1,
            ),
            (KIND, 1),
            (
                "children = [[15,0, 0,0,0,0],[15,0, 1,1,0,0],[15,1, 4,0,0,0],[15,3, 0,4,0,0]]\n",
                1,
            ),
            (CHAIR, 1),
        ],
        "0 accepted order 4 kinds 16 types 1\n|",
    ),
];

/// Returns the file of these pieces, each repeated.
fn file_of(alloc: Global, pieces: Pieces) -> Result<String, AllocError> {
    let mut file = String::new(alloc);
    for (piece, times) in pieces {
        for _ in 0..*times {
            file.push_str(piece)?;
        }
    }
    Ok(file)
}

/// Notes the first file of which `check` comes to something else.
pub fn note_files(alloc: Global, wrong: &mut Wrong) {
    for (row, (pieces, wanted)) in FILES.iter().enumerate() {
        let is_right = match file_of(alloc, pieces) {
            Ok(file) => comes_to(alloc, "check rule=-", file.as_str(), &SOUND, wanted),
            Err(_) => false,
        };
        wrong.note("hostile files", row, is_right);
    }
}
