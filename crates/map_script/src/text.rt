//! The canonical text of a script.

ghost use Rattle.std.specs.Prelude.{◌≡◌, [], ◌∷◌, ◌++◌, map, take, drop, IfOk, OnOk, decimal, codes};
ghost use Rattle.std.specs.List.{flat_map};
ghost use Rattle.hex.specs.Hex.{encode_lower};
ghost use Rattle.map_script.specs.Canonical.{canonical, behind_space, spaced, line_text, label_and_number, unless_zero, map_tokens, target_tokens, target_text, spec_tokens, body_text, phased_text, call_text, verb_tokens, pair_tokens, kind_name, lookup_name, update_name, batch_name, flag_token, start_token, stop_token};

use crate::{GenSpec, Script, Target};
use map_types::{Bytes, Call, CreateAttr, List, MapKind, NoMemory, Numbers, Pairs, Side, Verb};
use std::alloc::{AllocError, Global};
use std::io::Write;

/// The canonical text of a script. It fails only where memory does.
#[tactic(auto, unfolding(crate::specs::Canonical::canonical))]
pub(crate) fn text_of(alloc: Global, script: &Script) -> Result<Vec<u8>, NoMemory>
    ensures { IfOk result (λ text. text.items ≡ canonical script.now) }
{
    let mut text = Vec::new(alloc);
    push_version(&mut text, script.version)?;
    push_map(&mut text, &script.attr)?;
    push_target(&mut text, script.target)?;
    push_body(&mut text, script.spec, &script.cuts, &script.calls)?;
    Ok(text)
}

/// Adds `bpfmap N`.
fn push_version(text: &mut Vec<u8>, version: u32) -> Result<(), AllocError>
    ensures { OnOk result (text.new.items
        ≡ text.old.items ++ line_text (codes "bpfmap") (decimal version ∷ [])) }
{
    text.extend_from_slice(b"bpfmap")?;
    push_number(text, version)?;
    text.extend_from_slice(b"\n")
}

/// Adds `map KIND key N value N max N cpus N`, and `flags N` and `seed N` where they aren't 0.
fn push_map(text: &mut Vec<u8>, attr: &CreateAttr) -> Result<(), AllocError>
    ensures { OnOk result (text.new.items
        ≡ text.old.items ++ line_text (codes "map") (map_tokens attr.now)) }
{
    text.extend_from_slice(b"map")?;
    push_token(text, kind_name(attr.kind).as_bytes())?;
    push_sizes(text, attr)?;
    push_options(text, attr)?;
    text.extend_from_slice(b"\n")
}

/// Adds ` key N value N max N cpus N`.
fn push_sizes(text: &mut Vec<u8>, attr: &CreateAttr) -> Result<(), AllocError>
    ensures { OnOk result (text.new.items
        ≡ text.old.items ++ spaced (label_and_number (codes "key") attr.now.key_size
        ++ label_and_number (codes "value") attr.now.value_size
        ++ label_and_number (codes "max") attr.now.max_entries
        ++ label_and_number (codes "cpus") attr.now.cpus)) }
{
    push_labelled(text, b"key", attr.key_size)?;
    push_labelled(text, b"value", attr.value_size)?;
    push_labelled(text, b"max", attr.max_entries)?;
    push_labelled(text, b"cpus", attr.cpus)
}

/// Adds ` flags N` and ` seed N`, each where it isn't 0.
fn push_options(text: &mut Vec<u8>, attr: &CreateAttr) -> Result<(), AllocError>
    ensures { OnOk result (text.new.items
        ≡ text.old.items
        ++ spaced (unless_zero attr.now.flags (label_and_number (codes "flags") attr.now.flags)
        ++ unless_zero attr.now.seed (label_and_number (codes "seed") attr.now.seed))) }
{
    push_unless_zero(text, b"flags", attr.flags)?;
    push_unless_zero(text, b"seed", attr.seed)
}

/// Adds the target line of a script that has one.
fn push_target(text: &mut Vec<u8>, target: Option<Target>) -> Result<(), AllocError>
    ensures { OnOk result (text.new.items ≡ text.old.items ++ target_text target) }
{
    match target {
        None => Ok(()),
        Some(target) => push_target_line(text, &target),
    }
}

/// Adds `target KIND max N count N`, and `flags N` and `seed N` where they aren't 0.
fn push_target_line(text: &mut Vec<u8>, target: &Target) -> Result<(), AllocError>
    ensures { OnOk result (text.new.items
        ≡ text.old.items ++ line_text (codes "target") (target_tokens target.now)) }
{
    text.extend_from_slice(b"target")?;
    push_token(text, kind_name(target.attr.kind).as_bytes())?;
    push_labelled(text, b"max", target.attr.max_entries)?;
    push_labelled(text, b"count", target.count)?;
    push_options(text, &target.attr)?;
    text.extend_from_slice(b"\n")
}

/// Adds the generator line of a script that has one, and else a line for each call and each further phase.
fn push_body(
    text: &mut Vec<u8>,
    spec: Option<GenSpec>,
    cuts: &Numbers,
    calls: &List<Call>,
) -> Result<(), AllocError>
    ensures { OnOk result (text.new.items ≡ text.old.items ++ body_text spec cuts.now calls.now) }
{
    match spec {
        None => push_phases(text, cuts.as_slice(), calls.as_slice()),
        Some(spec) => push_spec(text, spec),
    }
}

/// Adds `gen seed N calls N keys N mix N`.
fn push_spec(text: &mut Vec<u8>, spec: GenSpec) -> Result<(), AllocError>
    ensures { OnOk result (text.new.items
        ≡ text.old.items ++ line_text (codes "gen") (spec_tokens spec)) }
{
    text.extend_from_slice(b"gen")?;
    push_labelled(text, b"seed", spec.seed)?;
    push_labelled(text, b"calls", spec.calls)?;
    push_labelled(text, b"keys", spec.keys)?;
    push_labelled(text, b"mix", spec.mix)?;
    text.extend_from_slice(b"\n")
}

/// Adds a line for each call, and a `phase` line where each cut is.
fn push_phases(text: &mut Vec<u8>, cuts: &[u32], calls: &[Call]) -> Result<(), AllocError>
    ensures { OnOk result (text.new.items ≡ text.old.items ++ phased_text 0 cuts.now calls.now) }
{
    let mut before = 0;
    let mut rest = calls;
    for cut in cuts {
        let (phase, behind) = cut_calls(rest, cut.saturating_sub(before));
        push_calls(text, phase)?;
        text.extend_from_slice(b"phase\n")?;
        rest = behind;
        before = *cut;
    }
    push_calls(text, rest)
}

/// The first calls, so many or all that there are, and those behind them.
fn cut_calls(calls: &[Call], count: u32) -> (&[Call], &[Call])
    ensures first { result.0.now ≡ take count calls.now }
    ensures behind { result.1.now ≡ drop count calls.now }
{
    calls.split_at(calls.len().min(count as usize))
}

/// Adds a line for each call.
fn push_calls(text: &mut Vec<u8>, calls: &[Call]) -> Result<(), AllocError>
    ensures { OnOk result (text.new.items ≡ text.old.items ++ flat_map call_text calls.now) }
{
    for call in calls {
        push_call(text, call)?;
    }
    Ok(())
}

/// Adds a call's line.
fn push_call(text: &mut Vec<u8>, call: &Call) -> Result<(), AllocError>
    ensures { OnOk result (text.new.items ≡ text.old.items ++ call_text call.now) }
{
    push_digits(text, call.cpu)?;
    push_verb(text, &call.verb)?;
    text.extend_from_slice(b"\n")
}

/// Adds the name of a verb, and its places.
fn push_verb(text: &mut Vec<u8>, verb: &Verb) -> Result<(), AllocError>
    ensures { OnOk result (text.new.items ≡ text.old.items ++ spaced (verb_tokens verb.now)) }
{
    match verb {
        Verb::Lookup { side, key } => push_named_bytes(text, lookup_name(*side), key),
        Verb::Update {
            side,
            flags,
            key,
            value,
        } => push_update(text, *side, *flags, key, value),
        Verb::Delete { key } => push_named_bytes(text, "delete", key),
        Verb::Take { key } => push_named_bytes(text, "take", key),
        Verb::Next { key: None } => push_token(text, b"next"),
        Verb::Next { key: Some(key) } => push_named_bytes(text, "next", key),
        Verb::BatchRead {
            remove,
            count,
            start,
            flags,
        } => push_batch_read(text, *remove, *count, *start, *flags),
        Verb::BatchUpdate { flags, pairs } => push_batch_update(text, *flags, pairs),
        Verb::BatchDelete { flags, keys } => push_batch_delete(text, *flags, keys.as_slice()),
        Verb::Each { flags, stop } => push_each(text, *flags, stop),
    }
}

/// Adds a name, and bytes.
fn push_named_bytes(text: &mut Vec<u8>, name: &str, bytes: &Bytes) -> Result<(), AllocError>
    ensures { OnOk result (text.new.items
        ≡ text.old.items ++ spaced (name.now ∷ encode_lower bytes.now ∷ [])) }
{
    push_token(text, name.as_bytes())?;
    push_bytes(text, bytes.as_slice())
}

/// Adds `update FLAG KEY VALUE`, or the same of the system call.
fn push_update(
    text: &mut Vec<u8>,
    side: Side,
    flags: u32,
    key: &Bytes,
    value: &Bytes,
) -> Result<(), AllocError>
    ensures { OnOk result (text.new.items
        ≡ text.old.items
        ++ spaced (update_name side ∷ flag_token flags ∷ encode_lower key.now
        ∷ encode_lower value.now ∷ [])) }
{
    push_token(text, update_name(side).as_bytes())?;
    push_flag(text, flags)?;
    push_bytes(text, key.as_slice())?;
    push_bytes(text, value.as_slice())
}

/// Adds `batch_lookup COUNT START` or `batch_take COUNT START`, and the flags where they aren't 0.
fn push_batch_read(
    text: &mut Vec<u8>,
    remove: bool,
    count: u32,
    start: Option<u32>,
    flags: u32,
) -> Result<(), AllocError>
    ensures { OnOk result (text.new.items
        ≡ text.old.items
        ++ spaced (batch_name remove ∷ decimal count ∷ start_token start
        ∷ unless_zero flags (decimal flags ∷ []))) }
{
    push_token(text, batch_name(remove).as_bytes())?;
    push_number(text, count)?;
    push_start(text, start)?;
    push_batch_flags(text, flags)
}

/// Adds the flags of a batch read, where they aren't 0.
fn push_batch_flags(text: &mut Vec<u8>, flags: u32) -> Result<(), AllocError>
    ensures { OnOk result (text.new.items
        ≡ text.old.items ++ spaced (unless_zero flags (decimal flags ∷ []))) }
{
    if flags == 0 {
        return Ok(());
    }
    push_number(text, flags)
}

/// Adds `batch_update FLAGS`, and each key with its value.
fn push_batch_update(text: &mut Vec<u8>, flags: u32, pairs: &Pairs) -> Result<(), AllocError>
    ensures { OnOk result (text.new.items
        ≡ text.old.items
        ++ spaced (codes "batch_update" ∷ decimal flags ∷ flat_map pair_tokens pairs.now)) }
{
    push_labelled(text, b"batch_update", flags)?;
    push_pairs(text, pairs)
}

/// Adds each key with its value.
fn push_pairs(text: &mut Vec<u8>, pairs: &Pairs) -> Result<(), AllocError>
    ensures { OnOk result (text.new.items
        ≡ text.old.items ++ spaced (flat_map pair_tokens pairs.now)) }
{
    for i in 0..pairs.len() {
        push_bytes(text, pairs.key(i))?;
        push_bytes(text, pairs.value(i))?;
    }
    Ok(())
}

/// Adds `batch_delete FLAGS`, and each key.
fn push_batch_delete(text: &mut Vec<u8>, flags: u32, keys: &[Bytes]) -> Result<(), AllocError>
    ensures { OnOk result (text.new.items
        ≡ text.old.items
        ++ spaced (codes "batch_delete" ∷ decimal flags ∷ map encode_lower keys.now)) }
{
    push_labelled(text, b"batch_delete", flags)?;
    push_keys(text, keys)
}

/// Adds `each FLAGS`, and the key at which the walk stops, or `-`.
fn push_each(text: &mut Vec<u8>, flags: u32, stop: &Option<Bytes>) -> Result<(), AllocError>
    ensures { OnOk result (text.new.items
        ≡ text.old.items ++ spaced (codes "each" ∷ decimal flags ∷ stop_token stop.now ∷ [])) }
{
    push_labelled(text, b"each", flags)?;
    match stop {
        None => push_token(text, b"-"),
        Some(key) => push_bytes(text, key.as_slice()),
    }
}

/// Adds each key.
fn push_keys(text: &mut Vec<u8>, keys: &[Bytes]) -> Result<(), AllocError>
    ensures { OnOk result (text.new.items ≡ text.old.items ++ spaced (map encode_lower keys.now)) }
{
    for key in keys {
        push_bytes(text, key.as_slice())?;
    }
    Ok(())
}

/// Adds the flags of an update: 0, 1 and 2 by name.
fn push_flag(text: &mut Vec<u8>, flags: u32) -> Result<(), AllocError>
    ensures { OnOk result (text.new.items ≡ text.old.items ++ behind_space (flag_token flags)) }
{
    match flags {
        0 => push_token(text, b"any"),
        1 => push_token(text, b"noexist"),
        2 => push_token(text, b"exist"),
        _ => push_number(text, flags),
    }
}

/// Adds the bucket at which a batch read starts, or `-`.
fn push_start(text: &mut Vec<u8>, start: Option<u32>) -> Result<(), AllocError>
    ensures { OnOk result (text.new.items ≡ text.old.items ++ behind_space (start_token start)) }
{
    match start {
        None => push_token(text, b"-"),
        Some(start) => push_number(text, start),
    }
}

/// Adds a label and a number, where the number isn't 0.
fn push_unless_zero(text: &mut Vec<u8>, label: &[u8], number: u32) -> Result<(), AllocError>
    ensures { OnOk result (text.new.items
        ≡ text.old.items ++ spaced (unless_zero number (label_and_number label.now number))) }
{
    if number == 0 {
        return Ok(());
    }
    push_labelled(text, label, number)
}

/// Adds a label and a number.
fn push_labelled(text: &mut Vec<u8>, label: &[u8], number: u32) -> Result<(), AllocError>
    ensures { OnOk result (text.new.items
        ≡ text.old.items ++ spaced (label_and_number label.now number)) }
{
    push_token(text, label)?;
    push_number(text, number)
}

/// Adds a number behind a space.
fn push_number(text: &mut Vec<u8>, number: u32) -> Result<(), AllocError>
    ensures { OnOk result (text.new.items ≡ text.old.items ++ behind_space (decimal number)) }
{
    text.extend_from_slice(b" ")?;
    push_digits(text, number)
}

/// Adds a token behind a space.
fn push_token(text: &mut Vec<u8>, token: &[u8]) -> Result<(), AllocError>
    ensures { OnOk result (text.new.items ≡ text.old.items ++ behind_space token.now) }
{
    text.extend_from_slice(b" ")?;
    text.extend_from_slice(token)
}

/// Adds a number in decimal digits.
fn push_digits(text: &mut Vec<u8>, number: u32) -> Result<(), AllocError>
    ensures { OnOk result (text.new.items ≡ text.old.items ++ decimal number) }
{
    match write!(text, "{number}") {
        Ok(()) => Ok(()),
        Err(_) => Err(AllocError),
    }
}

/// Adds bytes behind a space.
fn push_bytes(text: &mut Vec<u8>, bytes: &[u8]) -> Result<(), AllocError>
    ensures { OnOk result (text.new.items
        ≡ text.old.items ++ behind_space (encode_lower bytes.now)) }
{
    text.extend_from_slice(b" ")?;
    push_hex(text, bytes)
}

/// Adds bytes as two hexadecimal digits each, in lower case.
fn push_hex(text: &mut Vec<u8>, bytes: &[u8]) -> Result<(), AllocError>
    ensures { OnOk result (text.new.items ≡ text.old.items ++ encode_lower bytes.now) }
{
    let start = text.len();
    let len = start.checked_add(2 * bytes.len()).ok_or(AllocError)?;
    text.resize(len, 0)?;
    hex::encode_to_slice(bytes, &mut text[start..]).unwrap();
    Ok(())
}

/// The name of a kind of map, in scripts and in reports.
pub fn kind_name(kind: MapKind) -> &'static str
    ensures { result.now ≡ kind_name kind }
{
    match kind {
        MapKind::Hash => "hash",
        MapKind::PercpuHash => "percpu_hash",
        MapKind::LruHash => "lru_hash",
        MapKind::LruPercpuHash => "lru_percpu_hash",
    }
}

/// The name of a look-up.
fn lookup_name(side: Side) -> &'static str
    ensures { result.now ≡ lookup_name side }
{
    match side {
        Side::Prog => "lookup",
        Side::Sys => "syslookup",
    }
}

/// The name of an update.
fn update_name(side: Side) -> &'static str
    ensures { result.now ≡ update_name side }
{
    match side {
        Side::Prog => "update",
        Side::Sys => "sysupdate",
    }
}

/// The name of a batch read.
fn batch_name(remove: bool) -> &'static str
    ensures { result.now ≡ batch_name remove }
{
    if remove { "batch_take" } else { "batch_lookup" }
}
