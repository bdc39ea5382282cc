// The number of cards of a store, from the length of its slice.
#![tactic(auto)]

ghost use Rattle.std.specs.Prelude.{◌≡◌};
ghost use Rattle.image_laws.specs.Size.{extent_of};

use image::word::Word;

// The words behind those that each card has.
const BEHIND: usize = 1384;

pub fn cards<W: Word>(n: usize) -> Option<usize>
    ensures { result ≡ extent_of W.BITS n }
{
    let per_card = 258 + 2 * W::CARD_BITS;
    if n < per_card + BEHIND {
        return None;
    }
    let k = (n - BEHIND) / per_card;
    if W::MOST_CARDS < k {
        return None;
    }
    if per_card * k + BEHIND != n {
        return None;
    }
    Some(k)
}
