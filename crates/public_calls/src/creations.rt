//! Which maps are created, with which shape, and which are refused.

use map_types::{CreateAttr, CreateRefusal, Limit, MapKind, Side, check_attr, value_len};

/// The least attributes of each kind.
const PLAIN: CreateAttr = CreateAttr {
    kind: MapKind::Hash,
    key_size: 1,
    value_size: 1,
    max_entries: 1,
    flags: 0,
    seed: 0,
    cpus: 1,
};

const LRU: CreateAttr = CreateAttr {
    kind: MapKind::LruHash,
    ..PLAIN
};

/// Attributes, and why they are refused.
static REFUSED: [(CreateAttr, CreateRefusal); 13] = [
    (CreateAttr { flags: 1, ..LRU }, CreateRefusal::Enotsupp),
    (CreateAttr { flags: 1, ..PLAIN }, CreateRefusal::Einval),
    (CreateAttr { flags: 2, ..PLAIN }, CreateRefusal::Einval),
    (
        CreateAttr {
            key_size: 0,
            ..PLAIN
        },
        CreateRefusal::Einval,
    ),
    (
        CreateAttr {
            flags: 64,
            seed: 5,
            ..PLAIN
        },
        CreateRefusal::Einval,
    ),
    (CreateAttr { flags: 4, ..PLAIN }, CreateRefusal::Einval),
    (
        CreateAttr { cpus: 17, ..PLAIN },
        CreateRefusal::Limit(Limit::Cpus),
    ),
    (
        CreateAttr { cpus: 0, ..PLAIN },
        CreateRefusal::Limit(Limit::Cpus),
    ),
    (
        CreateAttr {
            max_entries: 65_537,
            ..PLAIN
        },
        CreateRefusal::Limit(Limit::Max),
    ),
    (
        CreateAttr {
            key_size: 513,
            ..PLAIN
        },
        CreateRefusal::Limit(Limit::Key),
    ),
    (
        CreateAttr {
            value_size: 4_097,
            ..PLAIN
        },
        CreateRefusal::Limit(Limit::Value),
    ),
    (
        CreateAttr {
            key_size: 8,
            value_size: 4_096,
            max_entries: 65_536,
            ..PLAIN
        },
        CreateRefusal::Limit(Limit::Pool),
    ),
    (
        CreateAttr {
            max_entries: 0,
            cpus: 0,
            ..PLAIN
        },
        CreateRefusal::Einval,
    ),
];

/// The first row whose attributes are accepted, or refused otherwise.
fn wrong_refusal(rows: &[(CreateAttr, CreateRefusal)]) -> Option<usize> {
    for row in 0..rows.len() {
        let (attr, refusal) = rows[row];
        match check_attr(&attr) {
            Err(found) if found == refusal => {}
            _ => return Some(row),
        }
    }
    None
}

#[test]
fn refuses(rt: HostRuntime) {
    assert_eq!(rt; wrong_refusal(&REFUSED), None);
}

/// Attributes, and of the shape the capacity, the elements and the buckets, and whether the lists are shared.
static ACCEPTED: [(CreateAttr, (u32, u32, u32), bool); 3] = [
    (
        CreateAttr {
            max_entries: 65_536,
            ..LRU
        },
        (65_536, 65_536, 65_536),
        true,
    ),
    (
        CreateAttr {
            max_entries: 2,
            ..PLAIN
        },
        (2, 3, 2),
        false,
    ),
    (
        CreateAttr {
            max_entries: 5,
            flags: 2,
            cpus: 2,
            ..LRU
        },
        (6, 6, 8),
        false,
    ),
];

/// The first row whose attributes are refused, or give another shape.
fn wrong_shape(rows: &[(CreateAttr, (u32, u32, u32), bool)]) -> Option<usize> {
    for row in 0..rows.len() {
        let (attr, counts, common) = rows[row];
        match check_attr(&attr) {
            Ok(shape)
                if (shape.capacity, shape.elements, shape.buckets) == counts
                    && shape.common == common => {}
            _ => return Some(row),
        }
    }
    None
}

#[test]
fn accepts(rt: HostRuntime) {
    assert_eq!(rt; wrong_shape(&ACCEPTED), None);
}

/// A kind, and how long its values of 5 bytes on three CPUs are in a program and in a call.
static LENGTHS: [(MapKind, u32, u32); 2] = [(MapKind::PercpuHash, 5, 24), (MapKind::Hash, 5, 5)];

/// The first row whose kind gives these values another length.
fn wrong_length(rows: &[(MapKind, u32, u32)]) -> Option<usize> {
    for row in 0..rows.len() {
        let (kind, in_program, in_call) = rows[row];
        let attr = CreateAttr {
            kind,
            value_size: 5,
            cpus: 3,
            ..PLAIN
        };
        match check_attr(&attr) {
            Ok(shape)
                if value_len(&shape, Side::Prog) == in_program
                    && value_len(&shape, Side::Sys) == in_call => {}
            _ => return Some(row),
        }
    }
    None
}

#[test]
fn value_lengths(rt: HostRuntime) {
    assert_eq!(rt; wrong_length(&LENGTHS), None);
}
