//! A report as JSON.

ghost use Rattle.std.specs.Prelude.{◌≡◌, IfOk, OnOk, codes, map, string_bytes, if◌then◌else◌};
ghost use Rattle.serde_json.specs.Data.{put as with_member, string, member, no_members};
ghost use Rattle.serde_json.specs.View.{members_view, view};
ghost use Rattle.map_report.specs.Dump.{dump_lines};
ghost use Rattle.map_report.specs.History.{history_lines};
ghost use Rattle.map_report.specs.Json.{answers, json, json_object, texts};
ghost use Rattle.map_report.specs.Summary.{summary_lines};
ghost use Rattle.map_report.specs.Text.{map_line, reply_text};

use crate::dump::add_dump;
use crate::history::add_history;
use crate::lines::add_each;
use crate::piece::Piece;
use crate::summary::add_summary;
use crate::{Options, RunRecord};
use map_script::Script;
use map_types::{NoMemory, Reply, Shape};
use place_words::Finals;
use serde_json::{Map, Value};
use std::alloc::{AllocError, Global};

/// A run as one JSON object in compact text and a line feed. Its members are `dump`, what the map holds at the end, and
/// `history`, what happened under each lock, where they are asked for, then `map` and `replies`, or `summary` in place of
/// the replies where the script has a spec. Dump and history are arrays of the lines of the text, the map is its first
/// line, the replies are an array of the replies without their numbers, and the summary is one of its lines from `calls` to
/// `present`. `options.json` is not looked at. It fails only where memory does, or a number of the summary would pass
/// 2^64 - 1, which no memory holds.
#[tactic(auto, unfolding(crate::specs::Json::json), using(crate::proofs::JsonLemmas::object_without))]
pub fn json_of(
    alloc: Global,
    script: &Script,
    kept: &RunRecord,
    options: Options,
) -> Result<Vec<u8>, NoMemory>
    ensures { IfOk result (λ text. text.items ≡ json script.now kept.now options) }
{
    let object = object_of(alloc, script, kept, options)?;
    let mut text = object.to_vec(alloc)?;
    text.extend_from_slice(b"\n")?;
    Ok(text)
}

/// The object.
#[tactic(auto, using(crate::proofs::JsonLemmas::map_is_first))]
fn object_of(
    alloc: Global,
    script: &Script,
    kept: &RunRecord,
    options: Options,
) -> Result<Value, AllocError>
    ensures { IfOk result (λ object. view object ≡ json_object script.now kept.now options) }
{
    let mut members = answers_of(alloc, script, kept)?;
    serde_json::put(&mut members, alloc, "map", map_of(alloc, &script.shape)?)?;
    put_history(&mut members, alloc, script.version, kept, options.history)?;
    put_dump(
        &mut members,
        alloc,
        &script.shape,
        &kept.finals,
        options.dump,
    )?;
    Ok(Value::Object(members))
}

/// The replies, or their summary where the script has a spec.
fn answers_of(
    alloc: Global,
    script: &Script,
    kept: &RunRecord,
) -> Result<Map<String, Value>, AllocError>
    ensures { IfOk result (λ members. members_view members.entries
        ≡ answers script.now kept.now script.now.spec) }
{
    match script.spec {
        None => member_of(
            alloc,
            "replies",
            replies_of(alloc, kept.replies.as_slice())?,
        ),
        Some(_) => member_of(alloc, "summary", lines_of_summary(alloc, script, kept)?),
    }
}

/// One member.
fn member_of(alloc: Global, name: &str, value: Value) -> Result<Map<String, Value>, AllocError>
    ensures { IfOk result (λ members. members_view members.entries
        ≡ member name.now (view value) no_members) }
{
    let mut members = Map::new(alloc);
    serde_json::put(&mut members, alloc, name, value)?;
    Ok(members)
}

/// The summary as texts.
#[tactic(auto, using(crate::proofs::JsonLemmas::each_line))]
fn lines_of_summary(alloc: Global, script: &Script, kept: &RunRecord) -> Result<Value, AllocError>
    ensures { IfOk result (λ value. view value ≡ texts (summary_lines script.now kept.now)) }
{
    let mut lines = Vec::new(alloc);
    add_summary(&mut lines, script, kept)?;
    array_of(alloc, lines)
}

/// The replies as texts.
#[tactic(auto, using(crate::proofs::JsonLemmas::each_line))]
fn replies_of(alloc: Global, replies: &[Reply]) -> Result<Value, AllocError>
    ensures { IfOk result (λ value. view value ≡ texts (map reply_text replies.now)) }
{
    let mut lines = Vec::new(alloc);
    add_each(&mut lines, replies)?;
    array_of(alloc, lines)
}

/// The line of the map.
fn map_of(alloc: Global, shape: &Shape) -> Result<Value, AllocError>
    ensures { IfOk result (λ value. view value ≡ string (map_line shape.now)) }
{
    let mut line = String::new(alloc);
    shape.push_to(&mut line)?;
    Ok(Value::String(line))
}

/// Puts what happened under each lock, as lines, if that is asked for.
#[tactic(auto, using(crate::proofs::JsonLemmas::each_line))]
fn put_history(
    members: &mut Map<String, Value>,
    alloc: Global,
    version: u32,
    kept: &RunRecord,
    asked: bool,
) -> Result<(), AllocError>
    ensures { OnOk result (members_view members.new.entries ≡ (if asked
        then with_member (codes "history") (texts (history_lines version kept.now))
        (members_view members.old.entries)
        else members_view members.old.entries)) }
{
    if !asked {
        return Ok(());
    }
    let mut lines = Vec::new(alloc);
    add_history(&mut lines, version, kept)?;
    serde_json::put(members, alloc, "history", array_of(alloc, lines)?)
}

/// Puts what the map holds, as lines, if that is asked for.
#[tactic(auto, using(crate::proofs::JsonLemmas::each_line))]
fn put_dump(
    members: &mut Map<String, Value>,
    alloc: Global,
    shape: &Shape,
    finals: &Finals,
    asked: bool,
) -> Result<(), AllocError>
    ensures { OnOk result (members_view members.new.entries ≡ (if asked
        then with_member (codes "dump") (texts (dump_lines shape.now finals.now))
        (members_view members.old.entries)
        else members_view members.old.entries)) }
{
    if !asked {
        return Ok(());
    }
    let mut lines = Vec::new(alloc);
    add_dump(&mut lines, shape, finals)?;
    serde_json::put(members, alloc, "dump", array_of(alloc, lines)?)
}

/// An array of texts.
fn array_of(alloc: Global, lines: Vec<String>) -> Result<Value, AllocError>
    ensures { IfOk result (λ value. view value ≡ texts (map string_bytes lines.items)) }
{
    let mut values = Vec::with_capacity(alloc, lines.len())?;
    for line in lines {
        values.push(Value::String(line))?;
    }
    Ok(Value::Array(values))
}
