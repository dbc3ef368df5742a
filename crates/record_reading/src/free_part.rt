//! What one turn of a freelist's lock did, read from the front of a text.

ghost use Rattle.std.specs.Prelude.{◌≡◌, MatchOption, None, Some};
ghost use Rattle.record_reading.specs.BucketReaders.{free_part};

use crate::numbers::element_behind;
use crate::words::behind;
use map_types::Shape;
use place_words::FreePart;

/// What one turn of a freelist's lock did.
#[tactic(auto, unfolding(crate::specs::BucketReaders::free_part, crate::specs::Readers::or_else))]
pub(crate) fn free_part<'a>(shape: &Shape, text: &'a [u8]) -> Option<(FreePart, &'a [u8])>
    ensures { MatchOption result (free_part shape.now text.now ≡ None)
        (λ f. free_part shape.now text.now ≡ Some (f.0, f.1.now)) }
{
    if let Some((element, rest)) = element_behind(shape, text, b"push") {
        return Some((FreePart::Pushed(element), rest));
    }
    if let Some((element, rest)) = element_behind(shape, text, b"pop") {
        return Some((FreePart::Popped(element), rest));
    }
    let rest = behind(text, b"empty")?;
    Some((FreePart::FoundEmpty, rest))
}
