//! Scripts against texts that are written out.

use map_script::{Cause, Form, GenSpec, Script, ScriptRefusal, read_script};
use map_types::{Call, CreateRefusal, Limit, MapKind, Side, Verb};
use std::alloc::Global;
use std::test::Fail;

/// A script with each verb, in a text that is not canonical.
const EACH_VERB: &str =
    "# caf\u{e9}\n\nbpfmap\t2 # two\r\n map lru_hash key 02 value 1 max 0000000001 cpus 1 flags 0 seed 4294967295\r\n\n0 lookup aBcD\n0 syslookup 0102\n0 update exist 0102 ff\n0 sysupdate 7 0102 ff\n0 delete 0102\n0 take 0102\n0 next\n0 next 0102\n0 batch_lookup 1 -\n0 batch_take 4294967295 0000000002 5\n0 batch_update 0 0102 ff 0304 ee\n0 batch_delete 0 0102\n0 each 00 -\n0 each 7 aBcD # last";

/// A script of form Generator.
const GENERATED: &str =
    "bpfmap 1\nmap hash key 1 value 1 max 1 cpus 1\ngen seed 7 calls 16 keys 255 mix 1\n";

/// A form, a text that is read in it, and the text that is then written.
pub(crate) static TEXTS: [(Form, &str, &str); 8] = [
    (
        Form::Calls,
        "bpfmap 1\nmap hash key 1 value 2 max 2 cpus 1\n0 update 0 01 1122\n0 lookup 01\n0 delete 01\n0 lookup 01\n",
        "bpfmap 1\nmap hash key 1 value 2 max 2 cpus 1\n0 update any 01 1122\n0 lookup 01\n0 delete 01\n0 lookup 01\n",
    ),
    (
        Form::Calls,
        "bpfmap 1\nmap lru_hash key 1 value 2 max 2 cpus 1 flags 2 seed 7\n0 syslookup ab\n0 sysupdate 0 ab 00ff\n0 sysupdate 1 ab 00ff\n0 sysupdate 2 ab 00ff\n0 sysupdate 3 ab 00ff\n0 take ab\n0 next\n0 next ab\n0 batch_lookup 10 -\n0 batch_take 10 0\n0 batch_lookup 10 3 5\n",
        "bpfmap 1\nmap lru_hash key 1 value 2 max 2 cpus 1 flags 2 seed 7\n0 syslookup ab\n0 sysupdate any ab 00ff\n0 sysupdate noexist ab 00ff\n0 sysupdate exist ab 00ff\n0 sysupdate 3 ab 00ff\n0 take ab\n0 next\n0 next ab\n0 batch_lookup 10 -\n0 batch_take 10 0\n0 batch_lookup 10 3 5\n",
    ),
    (
        Form::Calls,
        "bpfmap 1\nmap hash key 1 value 2 max 2 cpus 1\n0 batch_update 0 01 0304 02 0506\n",
        "bpfmap 1\nmap hash key 1 value 2 max 2 cpus 1\n0 batch_update 0 01 0304 02 0506\n",
    ),
    (
        Form::Calls,
        "bpfmap 1\nmap percpu_hash key 1 value 2 max 2 cpus 1\n0 batch_delete 4294967295 01 02\n",
        "bpfmap 1\nmap percpu_hash key 1 value 2 max 2 cpus 1\n0 batch_delete 4294967295 01 02\n",
    ),
    (
        Form::Calls,
        EACH_VERB,
        "bpfmap 2\nmap lru_hash key 2 value 1 max 1 cpus 1 seed 4294967295\n0 lookup abcd\n0 syslookup 0102\n0 update exist 0102 ff\n0 sysupdate 7 0102 ff\n0 delete 0102\n0 take 0102\n0 next\n0 next 0102\n0 batch_lookup 1 -\n0 batch_take 4294967295 2 5\n0 batch_update 0 0102 ff 0304 ee\n0 batch_delete 0 0102\n0 each 0 -\n0 each 7 abcd\n",
    ),
    (
        Form::Generator,
        "bpfmap 1\nmap lru_percpu_hash key 1 value 2 max 2 cpus 1\ngen seed 0 calls 3 keys 3 mix 1\n",
        "bpfmap 1\nmap lru_percpu_hash key 1 value 2 max 2 cpus 1\ngen seed 0 calls 3 keys 3 mix 1\n",
    ),
    (
        Form::Copy,
        "bpfmap 2\nmap hash key 1 value 1 max 4 cpus 1\n\ntarget\tlru_hash max 04 count 65536 flags 0 seed 007 # into\n0 next\nphase",
        "bpfmap 2\nmap hash key 1 value 1 max 4 cpus 1\ntarget lru_hash max 4 count 65536 seed 7\n0 next\nphase\n",
    ),
    (
        Form::Copy,
        "bpfmap 2\nmap lru_percpu_hash key 1 value 1 max 4 cpus 2 flags 2\ntarget lru_percpu_hash max 2 count 1 flags 2\nphase\n0 next\n1 next\nphase\n1 next\n1 delete Ab\n",
        "bpfmap 2\nmap lru_percpu_hash key 1 value 1 max 4 cpus 2 flags 2\ntarget lru_percpu_hash max 2 count 1 flags 2\nphase\n0 next\n1 next\nphase\n1 next\n1 delete ab\n",
    ),
];

/// A text that is short enough to be read.
fn read(alloc: Global, text: &str, form: Form) -> Result<Script, ScriptRefusal> {
    let bytes = text.as_bytes();
    if bytes.len() > 16_777_216 {
        return Err(ScriptRefusal::NoMemory);
    }
    read_script(alloc, bytes, form)
}

/// The canonical text of a text in a form.
fn rewritten(alloc: Global, text: &str, form: Form) -> Option<Vec<u8>> {
    let Ok(script) = read(alloc, text, form) else {
        return None;
    };
    script.text(alloc).ok()
}

/// The first row whose text is not read, or written otherwise.
fn wrong_text(alloc: Global, rows: &[(Form, &str, &str)]) -> Option<usize> {
    for row in 0..rows.len() {
        let (form, text, canonical) = rows[row];
        match rewritten(alloc, text, form) {
            Some(found) if found.as_slice() == canonical.as_bytes() => {}
            _ => return Some(row),
        }
    }
    None
}

#[test]
fn canonical_texts(rt: HostRuntime) {
    assert_eq!(rt; wrong_text(rt.alloc(), &TEXTS), None);
}

/// The line on which such a call stands in the script with each verb.
fn line_of(verb: &Verb) -> usize {
    match verb {
        Verb::Lookup {
            side: Side::Prog,
            ..
        } => 0,
        Verb::Lookup {
            side: Side::Sys,
            ..
        } => 1,
        Verb::Update {
            side: Side::Prog,
            ..
        } => 2,
        Verb::Update {
            side: Side::Sys,
            ..
        } => 3,
        Verb::Delete { .. } => 4,
        Verb::Take { .. } => 5,
        Verb::Next { key: None } => 6,
        Verb::Next { key: Some(_) } => 7,
        Verb::BatchRead { remove: false, .. } => 8,
        Verb::BatchRead { remove: true, .. } => 9,
        Verb::BatchUpdate { .. } => 10,
        Verb::BatchDelete { .. } => 11,
        Verb::Each { stop: None, .. } => 12,
        Verb::Each { stop: Some(_), .. } => 13,
    }
}

/// Whether a call looks up this key.
fn looks_up(call: &Call, wanted: &[u8]) -> bool {
    match &call.verb {
        Verb::Lookup { key, .. } => key.as_slice() == wanted,
        _ => false,
    }
}

/// Whether these are the calls of the script with each verb.
fn are_each(calls: &[Call]) -> bool {
    for line in 0..calls.len() {
        if line_of(&calls[line].verb) != line {
            return false;
        }
    }
    calls.len() == 14 && looks_up(&calls[0], &[0xab, 0xcd])
}

#[test]
fn each_verb(rt: HostRuntime) -> Result<(), Fail> {
    let script = read(rt.alloc(), EACH_VERB, Form::Calls)?;
    assert!(rt; script.attr.kind == MapKind::LruHash);
    assert!(rt; are_each(script.calls.as_slice()));
    Ok(())
}

/// What the calls of a text in form Generator are generated from.
fn spec_of(alloc: Global, text: &str) -> Option<GenSpec> {
    read(alloc, text, Form::Generator).ok()?.spec
}

#[test]
fn a_generator_line(rt: HostRuntime) {
    let spec = GenSpec {
        seed: 7,
        calls: 16,
        keys: 255,
        mix: 1,
    };
    assert!(rt; spec_of(rt.alloc(), GENERATED) == Some(spec));
}

/// The canonical text of a text in form Calls, where its calls are generated from this.
fn rewritten_with(alloc: Global, text: &str, spec: GenSpec) -> Option<Vec<u8>> {
    let Ok(mut script) = read(alloc, text, Form::Calls) else {
        return None;
    };
    script.spec = Some(spec);
    script.text(alloc).ok()
}

#[test]
fn a_spec_stands_for_its_calls(rt: HostRuntime) -> Result<(), Fail> {
    let spec = GenSpec {
        seed: 0,
        calls: 3,
        keys: 3,
        mix: 1,
    };
    let text = "bpfmap 1\nmap lru_percpu_hash key 1 value 2 max 2 cpus 1\n0 next\n";
    let found = rewritten_with(rt.alloc(), text, spec).ok_or("no text")?;
    let canonical =
        b"bpfmap 1\nmap lru_percpu_hash key 1 value 2 max 2 cpus 1\ngen seed 0 calls 3 keys 3 mix 1\n";
    assert!(rt; found.as_slice() == canonical.as_slice());
    Ok(())
}

/// Texts that are refused in a form, and why.
pub(crate) static REFUSED: [(Form, &str, ScriptRefusal); 18] = [
    (
        Form::Generator,
        "bpfmap 1\nmap hash key 1 value 1 max 1 cpus 1\ngen seed 7 calls 16 keys 255 mix 1\ngen seed 7 calls 16 keys 255 mix 1\n",
        ScriptRefusal::Fault {
            line: 4,
            cause: Cause::Gen,
        },
    ),
    (
        Form::Generator,
        "bpfmap 1\nmap hash key 1 value 1 max 1 cpus 1\n",
        ScriptRefusal::Fault {
            line: 3,
            cause: Cause::Gen,
        },
    ),
    (
        Form::Generator,
        "bpfmap 1\nmap hash key 1 value 1 max 1 cpus 1\ngen seed 7 calls 16 keys 256 mix 1\n",
        ScriptRefusal::Fault {
            line: 3,
            cause: Cause::Gen,
        },
    ),
    (
        Form::Generator,
        "bpfmap 1\nmap hash key 0 value 1 max 1 cpus 1\nfrob\n",
        ScriptRefusal::Create(CreateRefusal::Einval),
    ),
    (
        Form::Copy,
        "bpfmap 2\nmap hash key 1 value 1 max 4 cpus 1\ntarget hash max 4 count 1\n0 update any 01 a1\n0 update any 02 a2\n",
        ScriptRefusal::Fault {
            line: 4,
            cause: Cause::Copier,
        },
    ),
    (
        Form::Copy,
        "bpfmap 2\nmap hash key 1 value 1 max 4 cpus 1\ntarget hash max 4 count 1\n0 next\nphase\n0 next\nfrob\n",
        ScriptRefusal::Fault {
            line: 6,
            cause: Cause::Copier,
        },
    ),
    (
        Form::Copy,
        "bpfmap 2\nmap hash key 1 value 1 max 4 cpus 1\ntarget hash max 4 count 1\n0 next\nphase\n0 next\nfrob\n\nphase x\n",
        ScriptRefusal::Fault {
            line: 7,
            cause: Cause::Number,
        },
    ),
    (
        Form::Copy,
        "bpfmap 2\nmap hash key 1 value 1 max 4 cpus 1\ntarget hash max 4 count 1\n0 next\nphase \u{1}\n0 next\n",
        ScriptRefusal::Fault {
            line: 5,
            cause: Cause::Byte,
        },
    ),
    (
        Form::Copy,
        "bpfmap 2\nmap hash key 1 value 1 max 4 cpus 1\ntarget hash max 4 count 1\n0 next\nphase\u{1}\n",
        ScriptRefusal::Fault {
            line: 4,
            cause: Cause::Copier,
        },
    ),
    (
        Form::Copy,
        "bpfmap 2\nmap hash key 1 value 1 max 4 cpus 1\ntarget hash max 4 count 1\n0 next 0102\n0 next",
        ScriptRefusal::Fault {
            line: 4,
            cause: Cause::Length,
        },
    ),
    (
        Form::Copy,
        "bpfmap 1\nmap hash key 1 value 1 max 4 cpus 1\ntarget hash max 4 count 1\n",
        ScriptRefusal::Fault {
            line: 1,
            cause: Cause::Version,
        },
    ),
    (
        Form::Copy,
        "bpfmap 2\nmap hash key 1 value 1 max 4 cpus 1\n\n",
        ScriptRefusal::Fault {
            line: 4,
            cause: Cause::Target,
        },
    ),
    (
        Form::Copy,
        "bpfmap 2\nmap hash key 1 value 1 max 4 cpus 1\ntarget percpu_hash max 4 count 1\n",
        ScriptRefusal::Fault {
            line: 3,
            cause: Cause::Target,
        },
    ),
    (
        Form::Copy,
        "bpfmap 2\nmap hash key 1 value 1 max 4 cpus 1\ntarget hash max 4 count 0\n",
        ScriptRefusal::Fault {
            line: 3,
            cause: Cause::Target,
        },
    ),
    (
        Form::Copy,
        "bpfmap 2\nmap hash key 1 value 1 max 4 cpus 1\ntarget hash max 0 count 65537\n",
        ScriptRefusal::Fault {
            line: 3,
            cause: Cause::Target,
        },
    ),
    (
        Form::Copy,
        "bpfmap 2\nmap hash key 1 value 1 max 4 cpus 1\ntarget hash max 4 count 1 \u{7f}\n",
        ScriptRefusal::Fault {
            line: 3,
            cause: Cause::Byte,
        },
    ),
    (
        Form::Copy,
        "bpfmap 2\nmap hash key 1 value 1 max 4 cpus 1\ntarget hash max 0 count 1\nfrob\n",
        ScriptRefusal::Create(CreateRefusal::Einval),
    ),
    (
        Form::Copy,
        "bpfmap 2\nmap hash key 1 value 1 max 4 cpus 0\nfrob\n",
        ScriptRefusal::Create(CreateRefusal::Limit(Limit::Cpus)),
    ),
];

/// The first row whose text is refused otherwise, or not.
fn wrong_refusal(alloc: Global, rows: &[(Form, &str, ScriptRefusal)]) -> Option<usize> {
    for row in 0..rows.len() {
        let (form, text, refusal) = rows[row];
        match read(alloc, text, form) {
            Err(found) if found == refusal => {}
            _ => return Some(row),
        }
    }
    None
}

#[test]
fn faults(rt: HostRuntime) {
    assert_eq!(rt; wrong_refusal(rt.alloc(), &REFUSED), None);
}

#[test]
fn a_cause_is_printed(rt: HostRuntime) -> Result<(), Fail> {
    let cause = Cause::Digits;
    let text = format!(in rt.alloc(); "{cause}")?;
    assert_eq!(rt; text.as_str(), "digits");
    Ok(())
}
