//! Words, read from the front of a text.

ghost use Rattle.std.specs.Prelude.{◌≡◌, MatchOption, None, Some};
ghost use Rattle.record_reading.specs.BucketReaders.{side_word};
ghost use Rattle.record_reading.specs.Readers.{behind, bit};

use map_types::Side;

/// What stands behind a word.
#[tactic(auto, using(crate::proofs::LeafLemmas::behind_is, crate::proofs::LeafLemmas::behind_not, crate::proofs::LeafLemmas::behind_short))]
pub(crate) fn behind<'a>(text: &'a [u8], word: &[u8]) -> Option<&'a [u8]>
    ensures { MatchOption result (behind word.now text.now ≡ None)
        (λ rest. behind word.now text.now ≡ Some rest.now) }
{
    if text.len() < word.len() {
        return None;
    }
    let (front, rest) = text.split_at(word.len());
    if front != word {
        return None;
    }
    Some(rest)
}

/// A bit.
#[tactic(auto, unfolding(crate::specs::Readers::or_else))]
pub(crate) fn bit(text: &[u8]) -> Option<(bool, &[u8])>
    ensures { MatchOption result (bit text.now ≡ None) (λ f. bit text.now ≡ Some (f.0, f.1.now)) }
{
    if let Some(rest) = behind(text, b"1") {
        return Some((true, rest));
    }
    let rest = behind(text, b"0")?;
    Some((false, rest))
}

/// The side of a call.
#[tactic(auto, unfolding(crate::specs::BucketReaders::side_word, crate::specs::Readers::or_else))]
pub(crate) fn side_word(text: &[u8]) -> Option<(Side, &[u8])>
    ensures { MatchOption result (side_word text.now ≡ None)
        (λ f. side_word text.now ≡ Some (f.0, f.1.now)) }
{
    if let Some(rest) = behind(text, b"prog") {
        return Some((Side::Prog, rest));
    }
    let rest = behind(text, b"sys")?;
    Some((Side::Sys, rest))
}
