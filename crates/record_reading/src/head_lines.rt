//! The lines of a report that are known beforehand.

ghost use Rattle.std.specs.Prelude.{◌≡◌, ◌+◌, ◌<◌, ◌^◌, ◌++◌, MatchOption, None, Some, codes, suc};
ghost use Rattle.map_script.specs.Canonical.{kind_name};
ghost use Rattle.map_report.specs.History.{record_line};
ghost use Rattle.map_report.specs.Text.{map_line};
ghost use Rattle.map_report.specs.Words.{number_text};
ghost use Rattle.record_reading.specs.Readers.{behind, the_line};

use crate::lock_names::behind_numbered;
use crate::words::behind;
use map_types::{MapKind, Shape};

/// `map KIND capacity N elements N buckets N`.
#[tactic(auto, using(crate::proofs::NameLemmas::line_not, crate::proofs::NameLemmas::line_is, crate::proofs::NameLemmas::line_longer))]
pub(crate) fn map_line(shape: &Shape, line: &[u8]) -> Option<()>
    ensures { result ≡ the_line (map_line shape.now) line.now }
{
    let Some(rest) = behind_map(shape, line) else {
        return None;
    };
    if rest.is_empty() { Some(()) } else { None }
}

/// What stands behind the map's kind and numbers.
#[tactic(auto, using(crate::proofs::NameLemmas::behind_neither, crate::proofs::NameLemmas::behind_then))]
fn behind_map<'a>(shape: &Shape, text: &'a [u8]) -> Option<&'a [u8]>
    ensures { MatchOption result (behind (map_line shape.now) text.now ≡ None)
        (λ rest. behind (map_line shape.now) text.now ≡ Some rest.now) }
{
    let Some(rest) = behind_elements(shape, text) else {
        return None;
    };
    behind_numbered(rest, b" buckets", shape.buckets)
}

/// What stands behind the map's kind, its capacity and its elements.
#[tactic(auto, using(crate::proofs::NameLemmas::behind_neither, crate::proofs::NameLemmas::behind_then))]
fn behind_elements<'a>(shape: &Shape, text: &'a [u8]) -> Option<&'a [u8]>
    ensures { MatchOption result
        (behind (codes "map " ++ kind_name shape.now.kind ++ (codes " capacity" ++ number_text shape.now.capacity) ++ (codes " elements" ++ number_text shape.now.elements)) text.now ≡ None)
        (λ rest. behind (codes "map " ++ kind_name shape.now.kind ++ (codes " capacity" ++ number_text shape.now.capacity) ++ (codes " elements" ++ number_text shape.now.elements)) text.now ≡ Some rest.now) }
{
    let Some(rest) = behind_capacity(shape, text) else {
        return None;
    };
    behind_numbered(rest, b" elements", shape.elements)
}

/// What stands behind the map's kind and its capacity.
#[tactic(auto, using(crate::proofs::NameLemmas::behind_neither, crate::proofs::NameLemmas::behind_then))]
fn behind_capacity<'a>(shape: &Shape, text: &'a [u8]) -> Option<&'a [u8]>
    ensures { MatchOption result
        (behind (codes "map " ++ kind_name shape.now.kind ++ (codes " capacity" ++ number_text shape.now.capacity)) text.now ≡ None)
        (λ rest. behind (codes "map " ++ kind_name shape.now.kind ++ (codes " capacity" ++ number_text shape.now.capacity)) text.now ≡ Some rest.now) }
{
    let Some(rest) = behind_kind(shape.kind, text) else {
        return None;
    };
    behind_numbered(rest, b" capacity", shape.capacity)
}

/// What stands behind the map's kind.
fn behind_kind(kind: MapKind, text: &[u8]) -> Option<&[u8]>
    ensures { MatchOption result (behind (codes "map " ++ kind_name kind) text.now ≡ None)
        (λ rest. behind (codes "map " ++ kind_name kind) text.now ≡ Some rest.now) }
{
    match kind {
        MapKind::Hash => behind(text, b"map hash"),
        MapKind::PercpuHash => behind(text, b"map percpu_hash"),
        MapKind::LruHash => behind(text, b"map lru_hash"),
        MapKind::LruPercpuHash => behind(text, b"map lru_percpu_hash"),
    }
}

/// `record 2`, and `record 3` where the script is of version 2.
#[tactic(auto, using(crate::proofs::NameLemmas::line_not, crate::proofs::NameLemmas::line_is, crate::proofs::NameLemmas::line_longer))]
pub(crate) fn record_line(version: u32, line: &[u8]) -> Option<()>
    requires { version + 1 < 2 ^ 32 }
    ensures { result ≡ the_line (record_line (record { number = suc version })) line.now }
{
    let Some(rest) = behind_numbered(line, b"record", version + 1) else {
        return None;
    };
    if rest.is_empty() { Some(()) } else { None }
}
