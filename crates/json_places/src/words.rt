//! The nearest right word to a wrong one.
ghost use Rattle.std.specs.Prelude.{IfOk, IfSome, Contains};

use std::alloc::{AllocError, Global};
use strsim::osa_distance;

/// The length of the longest word that may have a near one, in bytes.
const LONGEST: usize = 64;

/// Returns the choice that needs the fewest edits of this word, if one is near. An edit adds, removes or replaces a
/// letter, or swaps two neighbours. A choice is near if its edits are at most a third of the letters of the longer of
/// the two words, or one edit if that has two letters. The choices have no capital letters, and those of the word count
/// as small ones.
///
/// # Errors
/// `AllocError`: out of memory.
pub fn nearest<'a>(
    alloc: Global,
    word: &str,
    choices: &[&'a str],
) -> Result<Option<&'a str>, AllocError>
    ensures chosen { IfOk result (λ near. IfSome near (Contains choices.now)) }
{
    if word.len() > LONGEST {
        return Ok(None);
    }
    let word = word.to_ascii_lowercase(alloc)?;
    let mut best = None;
    let mut fewest = usize::MAX;
    for choice in choices {
        let edits = osa_distance(alloc, word.as_str(), choice)?;
        let length = word.len().max(choice.len());
        if edits < fewest && edits < length && edits <= (length / 3).max(1) {
            fewest = edits;
            best = Some(*choice);
        }
    }
    Ok(best)
}
