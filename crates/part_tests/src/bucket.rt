//! Tests of what a turn of a bucket's lock tells.

use crate::Same;
use crate::same::same_told;
use place_words::{BucketPart, NextFound, PackedBucket, Walked};

impl Same for NextFound {
    fn same(&self, other: &NextFound) -> bool {
        match (self, other) {
            (NextFound::Absent, NextFound::Absent) => true,
            (NextFound::Last, NextFound::Last) => true,
            (NextFound::Key(key), NextFound::Key(another)) => key.same(another),
            _ => false,
        }
    }
}

impl Same for Walked {
    fn same(&self, other: &Walked) -> bool {
        match (self, other) {
            (Walked::Over(count), Walked::Over(another)) => count.same(another),
            (Walked::Taken(elements), Walked::Taken(others)) => elements.same(others),
            _ => false,
        }
    }
}

impl Same for BucketPart {
    fn same(&self, other: &BucketPart) -> bool {
        match self {
            BucketPart::Lookup { side, key, got } => match other {
                BucketPart::Lookup {
                    side: other_side,
                    key: other_key,
                    got: other_got,
                } => side.same(other_side) && key.same(other_key) && got.same(other_got),
                _ => false,
            },
            BucketPart::Update {
                side,
                flags,
                key,
                value,
                offer,
                put,
            } => match other {
                BucketPart::Update {
                    side: other_side,
                    flags: other_flags,
                    key: other_key,
                    value: other_value,
                    offer: other_offer,
                    put: other_put,
                } => {
                    side.same(other_side)
                        && flags.same(other_flags)
                        && key.same(other_key)
                        && value.same(other_value)
                        && offer.same(other_offer)
                        && put.same(other_put)
                }
                _ => false,
            },
            BucketPart::Delete { key, gone } => match other {
                BucketPart::Delete {
                    key: other_key,
                    gone: other_gone,
                } => key.same(other_key) && gone.same(other_gone),
                _ => false,
            },
            BucketPart::Take { key, gone } => match other {
                BucketPart::Take {
                    key: other_key,
                    gone: other_gone,
                } => key.same(other_key) && gone.same(other_gone),
                _ => false,
            },
            BucketPart::Next { key, found } => match other {
                BucketPart::Next {
                    key: other_key,
                    found: other_found,
                } => key.same(other_key) && found.same(other_found),
                _ => false,
            },
            BucketPart::First { key } => match other {
                BucketPart::First { key: other_key } => key.same(other_key),
                _ => false,
            },
            BucketPart::Walk {
                remove,
                room,
                result,
            } => match other {
                BucketPart::Walk {
                    remove: other_remove,
                    room: other_room,
                    result: other_result,
                } => {
                    remove.same(other_remove) && room.same(other_room) && result.same(other_result)
                }
                _ => false,
            },
            BucketPart::Evict { element, probed } => match other {
                BucketPart::Evict {
                    element: other_element,
                    probed: other_probed,
                } => element.same(other_element) && probed.same(other_probed),
                _ => false,
            },
        }
    }
}

impl Same for PackedBucket {
    fn same(&self, other: &PackedBucket) -> bool {
        same_told(self.part(), other.part())
    }
}
