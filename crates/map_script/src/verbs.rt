//! What a call line does, behind its CPU.

ghost use Rattle.std.specs.Prelude.{◌≡◌};
ghost use Rattle.map_types.specs.Creation.{IsShape};
ghost use Rattle.map_script.specs.Parsed.{IsParsedAs};
ghost use Rattle.map_script.specs.Grammar.{lookup_places, update_places, delete_places, take_places, next_places, batch_read_places, pairs_to_end, keys_to_end, batch_update_places, batch_delete_places, verb_line, each_places, each_line, names_each, named_line};

use crate::line_error::LineError;
use crate::refusal::Cause;
use crate::tokens::Tokens;
use map_types::{Bytes, List, PairBlock, Pairs, Shape, Side, Verb, value_len};
use std::alloc::Global;

/// Reads the name of any verb of a version, and its places.
#[tactic(auto, unfolding(crate::specs::Grammar::named_line))]
pub(crate) fn named_line(
    alloc: Global,
    version: u32,
    shape: &Shape,
    tokens: Tokens,
) -> Result<Verb, LineError>
    requires { IsShape shape.now }
    ensures { IsParsedAs (λ verb. verb) result (named_line version shape.now tokens.entry) }
{
    if names_each(version, &tokens) {
        each_line(alloc, shape, tokens)
    } else {
        verb_line(alloc, shape, tokens)
    }
}

/// Whether the verb is `each`, which version 2 has.
fn names_each(version: u32, tokens: &Tokens) -> bool
    ensures { result ≡ names_each version tokens.now }
{
    version == 2 && tokens.is_next(b"each")
}

/// Reads the verb `each`, and its places.
#[tactic(auto, unfolding(crate::specs::Grammar::each_line))]
fn each_line(alloc: Global, shape: &Shape, mut tokens: Tokens) -> Result<Verb, LineError>
    ensures { IsParsedAs (λ verb. verb) result (each_line shape.now tokens.entry) }
{
    tokens.token()?;
    each_places(alloc, shape, tokens)
}

/// Reads `FLAGS STOP`, of a walk over all elements.
#[tactic(auto, unfolding(crate::specs::Grammar::each_places))]
fn each_places(alloc: Global, shape: &Shape, mut places: Tokens) -> Result<Verb, LineError>
    ensures { IsParsedAs (λ verb. verb) result (each_places shape.now places.entry) }
{
    let flags = places.number()?;
    let stop = places.stop(alloc, shape.key_size)?;
    Ok(places.at_end(Verb::Each { flags, stop })?)
}

/// Reads the name of a verb that both versions have, and its places.
#[tactic(auto, unfolding(crate::specs::Grammar::verb_line))]
fn verb_line(alloc: Global, shape: &Shape, mut tokens: Tokens) -> Result<Verb, LineError>
    requires { IsShape shape.now }
    ensures { IsParsedAs (λ verb. verb) result (verb_line shape.now tokens.entry) }
{
    let name = tokens.token()?;
    if name == b"lookup".as_slice() {
        lookup_places(alloc, shape, Side::Prog, tokens)
    } else if name == b"syslookup".as_slice() {
        lookup_places(alloc, shape, Side::Sys, tokens)
    } else if name == b"update".as_slice() {
        update_places(alloc, shape, Side::Prog, tokens)
    } else if name == b"sysupdate".as_slice() {
        update_places(alloc, shape, Side::Sys, tokens)
    } else if name == b"delete".as_slice() {
        delete_places(alloc, shape, tokens)
    } else if name == b"take".as_slice() {
        take_places(alloc, shape, tokens)
    } else if name == b"next".as_slice() {
        next_places(alloc, shape, tokens)
    } else if name == b"batch_lookup".as_slice() {
        batch_read_places(false, tokens)
    } else if name == b"batch_take".as_slice() {
        batch_read_places(true, tokens)
    } else if name == b"batch_update".as_slice() {
        batch_update_places(alloc, shape, tokens)
    } else if name == b"batch_delete".as_slice() {
        batch_delete_places(alloc, shape, tokens)
    } else {
        Err(LineError::Fault(Cause::Verb))
    }
}

/// Reads `KEY`, of a lookup.
#[tactic(auto, unfolding(crate::specs::Grammar::lookup_places))]
fn lookup_places(
    alloc: Global,
    shape: &Shape,
    side: Side,
    mut places: Tokens,
) -> Result<Verb, LineError>
    ensures { IsParsedAs (λ verb. verb) result (lookup_places shape.now side places.entry) }
{
    let key = places.bytes(alloc, shape.key_size)?;
    Ok(places.at_end(Verb::Lookup { side, key })?)
}

/// Reads `FLAG KEY VALUE`, of an update.
#[tactic(auto, unfolding(crate::specs::Grammar::update_places))]
fn update_places(
    alloc: Global,
    shape: &Shape,
    side: Side,
    mut places: Tokens,
) -> Result<Verb, LineError>
    requires { IsShape shape.now }
    ensures { IsParsedAs (λ verb. verb) result (update_places shape.now side places.entry) }
{
    let flags = places.flag()?;
    let key = places.bytes(alloc, shape.key_size)?;
    let value = places.bytes(alloc, value_len(shape, side))?;
    Ok(places.at_end(Verb::Update {
        side,
        flags,
        key,
        value,
    })?)
}

/// Reads `KEY`, of a delete.
#[tactic(auto, unfolding(crate::specs::Grammar::delete_places))]
fn delete_places(alloc: Global, shape: &Shape, mut places: Tokens) -> Result<Verb, LineError>
    ensures { IsParsedAs (λ verb. verb) result (delete_places shape.now places.entry) }
{
    let key = places.bytes(alloc, shape.key_size)?;
    Ok(places.at_end(Verb::Delete { key })?)
}

/// Reads `KEY`, of a lookup that deletes.
#[tactic(auto, unfolding(crate::specs::Grammar::take_places))]
fn take_places(alloc: Global, shape: &Shape, mut places: Tokens) -> Result<Verb, LineError>
    ensures { IsParsedAs (λ verb. verb) result (take_places shape.now places.entry) }
{
    let key = places.bytes(alloc, shape.key_size)?;
    Ok(places.at_end(Verb::Take { key })?)
}

/// Reads `KEY` or nothing, of a step to the next key.
#[tactic(auto, unfolding(crate::specs::Grammar::next_places))]
fn next_places(alloc: Global, shape: &Shape, mut places: Tokens) -> Result<Verb, LineError>
    ensures { IsParsedAs (λ verb. verb) result (next_places shape.now places.entry) }
{
    if places.is_empty() {
        return Ok(Verb::Next { key: None });
    }
    let key = places.bytes(alloc, shape.key_size)?;
    Ok(places.at_end(Verb::Next { key: Some(key) })?)
}

/// Reads `COUNT START`, and `FLAGS` or not, of a batch that is read.
#[tactic(auto, unfolding(crate::specs::Grammar::batch_read_places))]
fn batch_read_places(remove: bool, mut places: Tokens) -> Result<Verb, LineError>
    ensures { IsParsedAs (λ verb. verb) result (batch_read_places remove places.entry) }
{
    let count = places.number()?;
    let start = places.start()?;
    let flags = places.number_or_end()?;
    Ok(places.at_end(Verb::BatchRead {
        remove,
        count,
        start,
        flags,
    })?)
}

/// Reads `FLAGS` and pairs, of a batch that is updated.
#[tactic(auto, unfolding(crate::specs::Grammar::batch_update_places))]
fn batch_update_places(alloc: Global, shape: &Shape, mut places: Tokens) -> Result<Verb, LineError>
    requires { IsShape shape.now }
    ensures { IsParsedAs (λ verb. verb) result (batch_update_places shape.now places.entry) }
{
    let flags = places.number()?;
    let pairs = pairs_to_end(alloc, shape, places)?;
    Ok(Verb::BatchUpdate { flags, pairs })
}

/// Reads any number of `KEY VALUE`, to the end.
fn pairs_to_end(alloc: Global, shape: &Shape, mut places: Tokens) -> Result<Pairs, LineError>
    requires { IsShape shape.now }
    ensures { IsParsedAs (λ pairs. pairs) result (pairs_to_end shape.now places.entry) }
{
    let value_size = value_len(shape, Side::Sys);
    let mut keys = Vec::new(alloc);
    let mut values = Vec::new(alloc);
    let mut count = 0;
    while !places.is_empty() {
        let key = places.bytes(alloc, shape.key_size)?;
        let value = places.bytes(alloc, value_size)?;
        keys.extend_from_slice(key.as_slice())?;
        values.extend_from_slice(value.as_slice())?;
        count += 1;
    }
    let block = match PairBlock::new(alloc) {
        Ok(block) => block,
        Err(_) => return Err(LineError::NoMemory),
    };
    Ok(Pairs::of(
        block,
        count,
        shape.key_size as usize,
        value_size as usize,
        keys,
        values,
    ))
}

/// Reads `FLAGS` and keys, of a batch that is deleted.
#[tactic(auto, unfolding(crate::specs::Grammar::batch_delete_places))]
fn batch_delete_places(alloc: Global, shape: &Shape, mut places: Tokens) -> Result<Verb, LineError>
    ensures { IsParsedAs (λ verb. verb) result (batch_delete_places shape.now places.entry) }
{
    let flags = places.number()?;
    let keys = keys_to_end(alloc, shape, places)?;
    Ok(Verb::BatchDelete { flags, keys })
}

/// Reads any number of `KEY`, to the end.
fn keys_to_end(alloc: Global, shape: &Shape, mut places: Tokens) -> Result<List<Bytes>, LineError>
    ensures { IsParsedAs (λ keys. keys) result (keys_to_end shape.now places.entry) }
{
    let mut keys = Vec::new(alloc);
    while !places.is_empty() {
        let key = places.bytes(alloc, shape.key_size)?;
        keys.push(key)?;
    }
    Ok(List::of(keys))
}
