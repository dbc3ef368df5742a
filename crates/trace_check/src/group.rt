//! A bucket's turn, with the turns of freelists before it.

ghost use Rattle.std.specs.Prelude.{◌≡◌, MatchOption, None, Some};
ghost use Rattle.place_words.specs.Entries.{part_read};
ghost use Rattle.trace_check.specs.Reading as reading;

use crate::parts::is_free;
use crate::strand::{Turn, Turns};
use map_types::DomainId;
use place_words::{PackedBucket, PartAt};
use std::marker::Model;

/// What a turn of a bucket did, the turns of freelists before it, and the turns behind it.
#[derive(Drop)]
pub(crate) struct Group<'a> {
    pub(crate) before: Turns<'a>,
    pub(crate) part: &'a PackedBucket,
    pub(crate) rest: Turns<'a>,
}

impl<'a> Model for Group<'a> {
    ghost use Rattle.std.specs.Prelude.{List};
    ghost use Rattle.place_words.specs.Turns.{Turn};
    ghost use Rattle.trace_check.specs.Reading as reading;

    ghost Value = { reading.Group × List Turn };

    ghost view = { λ g. ((g.before, g.part.now), g.rest) };
}

/// The first turn that isn't a freelist's, if it is this bucket's.
pub(crate) fn bucket_group<'a>(bucket: u32, turns: &Turns<'a>) -> Option<Group<'a>>
    ensures { result ≡ reading.bucket_group bucket turns.now }
{
    let mut rest = turns.again();
    for count in 0..turns.len() {
        let (turn, behind) = rest.split_first()?;
        if !is_free(turn.part) {
            let part = at_bucket(bucket, &turn)?;
            return Some(Group {
                before: turns.first(count),
                part,
                rest: behind,
            });
        }
        rest = behind;
    }
    None
}

/// What a turn did, if it is this bucket's.
fn at_bucket<'a>(bucket: u32, turn: &Turn<'a>) -> Option<&'a PackedBucket>
    ensures { MatchOption result (reading.at_bucket bucket Some turn.now ≡ None)
        (λ part. reading.at_bucket bucket Some turn.now ≡ Some part.now) }
{
    match turn.lock {
        DomainId::Bucket(number) if number == bucket => bucket_part(turn.part),
        _ => None,
    }
}

/// What was done under a bucket's lock.
fn bucket_part<'a>(part: PartAt<'a>) -> Option<&'a PackedBucket>
    ensures { MatchOption result (reading.of_bucket Some (part_read part.entry) ≡ None)
        (λ done. reading.of_bucket Some (part_read part.entry) ≡ Some done.now) }
{
    match part {
        PartAt::Bucket(done) => Some(done),
        _ => None,
    }
}
