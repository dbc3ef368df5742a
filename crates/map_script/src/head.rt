//! The lines of a script that are no calls: the version line, the map line, the target line and the generator line.

ghost use Rattle.std.specs.Prelude.{◌≡◌, ◌≤◌, ◌^◌, nat_lt, Err};
ghost use Rattle.map_script.specs.Grammar.{version_named, version_places, version_line, kind_of, map_places, map_line, is_target, are_alike, target_places, target_line, is_spec, gen_places, gen_line};
ghost use Rattle.map_script.specs.Places.{instead};
ghost use Rattle.map_script.specs.declared.script.Script.{Script};
ghost use Rattle.map_script.specs.Reading.{of_line, at_line};

use crate::lines::TextLine;
use crate::refusal::{Cause, ScriptRefusal};
use crate::script::{Form, GenSpec};
use crate::tokens::Tokens;
use map_types::{CreateAttr, MapKind, Shape};

/// How many calls may be generated.
const MAX_CALLS: u32 = 200_000;

/// How many keys they may have.
const MAX_KEYS: u32 = 1_000_000;

/// How many pairs the first read of a copy may ask for.
const MAX_COUNT: u32 = 65_536;

/// How many bytes of values they may have.
const MAX_VALUES: u64 = 67_108_864;

/// Reads `bpfmap 1` in form Generator, `bpfmap 2` in form Copy, and either in form Calls.
#[tactic(auto, unfolding(crate::specs::Grammar::version_line))]
pub(crate) fn version_line(form: Form, line: &TextLine) -> Result<u32, Cause>
    ensures { result ≡ of_line line.now (version_line form) }
{
    let tokens = line.tokens()?;
    instead(Cause::Version, version_places(form, tokens))
}

fn version_places(form: Form, mut tokens: Tokens) -> Result<u32, Cause>
    ensures { result ≡ version_places form tokens.entry }
{
    tokens.word(Cause::Version, b"bpfmap")?;
    let version = version_named(form, tokens.token()?).ok_or(Cause::Version)?;
    tokens.at_end(version)
}

/// The version that a word names in a form.
fn version_named(form: Form, name: &[u8]) -> Option<u32>
    ensures { result ≡ version_named form name.now }
{
    match form {
        Form::Calls => {
            if name == b"1".as_slice() {
                Some(1)
            } else if name == b"2".as_slice() {
                Some(2)
            } else {
                None
            }
        }
        Form::Generator => {
            if name == b"1".as_slice() {
                Some(1)
            } else {
                None
            }
        }
        Form::Copy => {
            if name == b"2".as_slice() {
                Some(2)
            } else {
                None
            }
        }
    }
}

/// Reads `map KIND key N value N max N cpus N`, and then `flags N` or not, and then `seed N` or not.
#[tactic(auto, unfolding(crate::specs::Grammar::map_line))]
pub(crate) fn map_line(line: &TextLine) -> Result<CreateAttr, Cause>
    ensures { result ≡ of_line line.now map_line }
{
    let tokens = line.tokens()?;
    instead(Cause::Map, map_places(tokens))
}

fn map_places(mut tokens: Tokens) -> Result<CreateAttr, Cause>
    ensures { result ≡ map_places tokens.entry }
{
    tokens.word(Cause::Map, b"map")?;
    let kind = kind_of(tokens.token()?).ok_or(Cause::Map)?;
    let key_size = tokens.labelled(b"key")?;
    let value_size = tokens.labelled(b"value")?;
    let max_entries = tokens.labelled(b"max")?;
    let cpus = tokens.labelled(b"cpus")?;
    let flags = tokens.if_labelled(b"flags")?;
    let seed = tokens.if_labelled(b"seed")?;
    tokens.at_end(CreateAttr {
        kind,
        key_size,
        value_size,
        max_entries,
        flags,
        seed,
        cpus,
    })
}

/// The kind of this name.
fn kind_of(name: &[u8]) -> Option<MapKind>
    ensures { result ≡ kind_of name.now }
{
    if name == b"hash".as_slice() {
        Some(MapKind::Hash)
    } else if name == b"percpu_hash".as_slice() {
        Some(MapKind::PercpuHash)
    } else if name == b"lru_hash".as_slice() {
        Some(MapKind::LruHash)
    } else if name == b"lru_percpu_hash".as_slice() {
        Some(MapKind::LruPercpuHash)
    } else {
        None
    }
}

/// Reads `target KIND max N count N`, and then `flags N` or not, and then `seed N` or not. It gives the target's attributes, of
/// which the others are the source's, and how many pairs the first read asks for.
#[tactic(auto, unfolding(crate::specs::Grammar::target_line))]
pub(crate) fn target_line(source: &CreateAttr, line: &TextLine) -> Result<(CreateAttr, u32), Cause>
    ensures { result ≡ of_line line.now (target_line source.now) }
{
    let tokens = line.tokens()?;
    instead(Cause::Target, target_places(source, tokens))
}

fn target_places(source: &CreateAttr, mut tokens: Tokens) -> Result<(CreateAttr, u32), Cause>
    ensures { result ≡ target_places source.now tokens.entry }
{
    tokens.word(Cause::Target, b"target")?;
    let kind = kind_of(tokens.token()?).ok_or(Cause::Target)?;
    let max_entries = tokens.labelled(b"max")?;
    let count = tokens.labelled(b"count")?;
    let flags = tokens.if_labelled(b"flags")?;
    let seed = tokens.if_labelled(b"seed")?;
    let attr = CreateAttr {
        kind,
        key_size: source.key_size,
        value_size: source.value_size,
        max_entries,
        flags,
        seed,
        cpus: source.cpus,
    };
    let asked = tokens.at_end((attr, count))?;
    if is_target(source, &asked) {
        Ok(asked)
    } else {
        Err(Cause::Target)
    }
}

/// Whether a map may be copied into one of these attributes, and the first read may ask for so many pairs.
fn is_target(source: &CreateAttr, asked: &(CreateAttr, u32)) -> bool
    ensures { result ≡ is_target source.now asked.now }
{
    let (attr, count) = asked;
    are_alike(source.kind, attr.kind) && 1 <= *count && *count <= MAX_COUNT
}

/// Whether both kinds have a value for each CPU, or neither.
fn are_alike(kind: MapKind, other: MapKind) -> bool
    ensures { result ≡ are_alike kind other }
{
    if kind.is_percpu() {
        other.is_percpu()
    } else {
        !other.is_percpu()
    }
}

/// Reads `gen seed N calls N keys N mix N`.
#[tactic(auto, unfolding(crate::specs::Grammar::gen_line))]
pub(crate) fn gen_line(shape: &Shape, line: &TextLine) -> Result<GenSpec, Cause>
    ensures { result ≡ of_line line.now (gen_line shape.now) }
{
    let tokens = line.tokens()?;
    instead(Cause::Gen, gen_places(shape, tokens))
}

/// What is wrong with a line behind the generator line, where none may stand.
pub(crate) fn no_line(line: &TextLine) -> ScriptRefusal
    ensures { at_line {A = Script} line.now (λ tokens. Err Cause.Gen) ≡ Err result }
{
    // A fault of the line itself comes first.
    let cause = match line.tokens() {
        Ok(_) => Cause::Gen,
        Err(cause) => cause,
    };
    ScriptRefusal::Fault {
        line: line.number(),
        cause,
    }
}

fn gen_places(shape: &Shape, mut tokens: Tokens) -> Result<GenSpec, Cause>
    ensures { result ≡ gen_places shape.now tokens.entry }
{
    tokens.word(Cause::Gen, b"gen")?;
    let seed = tokens.labelled(b"seed")?;
    let calls = tokens.labelled(b"calls")?;
    let keys = tokens.labelled(b"keys")?;
    let mix = tokens.labelled(b"mix")?;
    let spec = tokens.at_end(GenSpec {
        seed,
        calls,
        keys,
        mix,
    })?;
    if is_spec(shape, &spec) {
        Ok(spec)
    } else {
        Err(Cause::Gen)
    }
}

/// Whether calls on a map of this shape may be generated so.
fn is_spec(shape: &Shape, spec: &GenSpec) -> bool
    ensures { result ≡ is_spec shape.now spec.now }
{
    1 <= spec.calls
        && spec.calls <= MAX_CALLS
        && 1 <= spec.keys
        && spec.keys <= MAX_KEYS
        && is_below_all_keys(spec.keys, shape.key_size)
        && spec.mix <= 1
        && u64::from(spec.calls) * u64::from(shape.value_size) <= MAX_VALUES
}

/// Whether a number is below that of the keys of a size.
fn is_below_all_keys(number: u32, key_size: u32) -> bool
    requires { number ≤ 1000000 }
    ensures { result ≡ nat_lt number (256 ^ key_size) }
{
    key_size > 2 || number < 256_u32.pow(key_size)
}

/// One cause for all that may be wrong.
fn instead<T: Drop>(cause: Cause, read: Result<T, Cause>) -> Result<T, Cause>
    ensures { result ≡ instead cause read }
{
    match read {
        Ok(found) => Ok(found),
        Err(_) => Err(cause),
    }
}
