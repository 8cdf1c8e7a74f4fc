//! The name that was probably meant.

ghost use Rattle.std.specs.Prelude.{◌≡◌, ◌<◌, ℕ, IfOk, IfSome, length};

use std::alloc::{AllocError, Global};
use strsim::levenshtein;
use sw_participant::Text;

/// The greatest number of letters in which a name differs from the nearest one.
const MOST_EDITS: usize = 2;

/// The index of the name that is nearest to one that is not among the names, by how many letters have to be put in, taken
/// out or replaced: of the first, if several are. None is near that takes more than two, or as many as the name has.
pub fn nearest(alloc: Global, name: &str, names: &[&str]) -> Result<Option<usize>, AllocError>
    ensures { IfOk result (λ near. IfSome near (λ i. i < length names.now)) }
{
    let mut near = None;
    let mut fewest = if name.len() <= MOST_EDITS {
        name.len()
    } else {
        MOST_EDITS + 1
    };
    for (index, other) in names.iter().enumerate() {
        let edits = levenshtein(alloc, name, other)?;
        if edits < fewest {
            near = Some(index);
            fewest = edits;
        }
    }
    Ok(near)
}
