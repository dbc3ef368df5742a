//! Steps of one CPU on the core of a small map, and the free lists of a core at its opening.

use map_types::{CreateAttr, DomainId, MapKind, NoMemory, Numbers, check_attr};
use place_core::{Core, CoreRefusal, Lists, Step};
use place_words::Home;
use std::alloc::Global;

/// The least map.
const PLAIN: CreateAttr = CreateAttr {
    kind: MapKind::Hash,
    key_size: 1,
    value_size: 1,
    max_entries: 1,
    flags: 0,
    seed: 0,
    cpus: 1,
};

/// The least map of a kind that evicts.
const LRU: CreateAttr = CreateAttr {
    kind: MapKind::LruHash,
    ..PLAIN
};

const BUCKET: DomainId = DomainId::Bucket(0);

const FREELIST: DomainId = DomainId::Freelist(0);

const LOCAL: DomainId = DomainId::Local(0);

const GLOBAL: DomainId = DomainId::Global;

/// A step of CPU 0, and of bucket 0 where it is one of a bucket.
#[derive(Clone, Copy)]
enum Move {
    Take(DomainId),
    /// Element 0 is given back so often free, so often in the first list, and under the cursor or not.
    Give(DomainId, usize, usize, Option<u32>),
    Claim(u32, DomainId),
    Settle(u32, DomainId),
    Attach(u32),
    Detach(u32),
    Rehome(u32, Home),
    Mark(u32),
    Clear(u32),
    Glance(u32),
    /// A glance of CPU 1.
    GlanceOfAnother(u32),
}

/// An element is added.
static ADDING: [(Move, bool); 6] = [
    (Move::Take(BUCKET), true),
    (Move::Take(FREELIST), true),
    (Move::Claim(0, FREELIST), true),
    (Move::Give(FREELIST, 0, 0, None), true),
    (Move::Attach(0), true),
    (Move::Give(BUCKET, 0, 1, None), true),
];

/// Each kind of step is done.
static EACH_KIND: [(Move, bool); 16] = [
    (Move::Take(LOCAL), true),
    (Move::Take(GLOBAL), true),
    (Move::Rehome(0, Home::In(LOCAL)), true),
    (Move::Give(GLOBAL, 0, 0, None), true),
    (Move::Claim(0, LOCAL), true),
    (Move::Clear(0), true),
    (Move::Give(LOCAL, 0, 1, None), true),
    (Move::Take(BUCKET), true),
    (Move::Attach(0), true),
    (Move::Mark(0), true),
    (Move::Glance(0), true),
    (Move::Detach(0), true),
    (Move::Give(BUCKET, 0, 0, None), true),
    (Move::Take(LOCAL), true),
    (Move::Settle(0, LOCAL), true),
    (Move::Give(LOCAL, 1, 0, None), true),
];

/// Without the lock nothing is done. Element 0 is free, and element 1 is the spare.
static WITHOUT_THE_LOCK: [(Move, bool); 12] = [
    (Move::Give(FREELIST, 1, 0, None), false),
    (Move::Claim(0, FREELIST), false),
    (Move::Settle(1, FREELIST), false),
    (Move::Attach(1), false),
    (Move::Take(BUCKET), true),
    (Move::Settle(1, BUCKET), false),
    (Move::Take(FREELIST), true),
    (Move::Claim(0, FREELIST), true),
    (Move::Attach(0), true),
    (Move::Give(BUCKET, 0, 1, None), true),
    (Move::Mark(0), false),
    (Move::Detach(0), false),
];

/// Other lists are not given back.
static OTHER_LISTS: [(Move, bool); 4] = [
    (Move::Take(FREELIST), true),
    (Move::Give(FREELIST, 2, 0, None), false),
    (Move::Give(FREELIST, 1, 1, None), false),
    (Move::Give(FREELIST, 1, 0, Some(0)), false),
];

/// Homes forbid what is not done.
static HOMES: [(Move, bool); 16] = [
    (Move::Take(LOCAL), true),
    (Move::Rehome(0, Home::In(LOCAL)), false),
    (Move::Clear(0), false),
    (Move::Take(GLOBAL), true),
    (Move::Rehome(0, Home::Hand(0)), false),
    (Move::Rehome(0, Home::In(DomainId::CpuLru(0))), false),
    (Move::Rehome(0, Home::Unlisted), false),
    (Move::Claim(0, GLOBAL), true),
    (Move::Settle(0, LOCAL), false),
    (Move::Rehome(0, Home::Hand(0)), true),
    (Move::Take(BUCKET), true),
    (Move::Attach(0), false),
    (Move::Rehome(0, Home::In(GLOBAL)), true),
    (Move::Attach(0), true),
    (Move::Rehome(0, Home::In(LOCAL)), false),
    (Move::Rehome(0, Home::Hand(0)), false),
];

/// No lock of a lower rank is taken.
static LOWER_RANK: [(Move, bool); 2] = [(Move::Take(FREELIST), true), (Move::Take(BUCKET), false)];

/// Each kind of step is refused.
static REFUSED: [(Move, bool); 14] = [
    (Move::Take(BUCKET), true),
    (Move::Take(FREELIST), true),
    (Move::Take(BUCKET), false),
    (Move::Take(GLOBAL), false),
    (Move::Give(FREELIST, 0, 0, None), false),
    (Move::Claim(1, FREELIST), false),
    (Move::Settle(0, FREELIST), false),
    (Move::Attach(0), false),
    (Move::Detach(1), false),
    (Move::Rehome(1, Home::Hand(0)), false),
    (Move::Mark(1), false),
    (Move::Clear(0), false),
    (Move::Glance(2), false),
    (Move::GlanceOfAnother(0), false),
];

/// Element 0, so often.
fn zeros(alloc: Global, count: usize) -> Result<Numbers, NoMemory> {
    Ok(Numbers::of(vec![in alloc; 0; count]?))
}

/// The step of a move.
fn step_of(alloc: Global, it: Move) -> Result<Step, NoMemory> {
    let (cpu, bucket) = (0, 0);
    Ok(match it {
        Move::Take(lock) => Step::Take { cpu, lock },
        Move::Give(lock, free, first, cursor) => Step::Give {
            cpu,
            lock,
            lists: Lists {
                free: zeros(alloc, free)?,
                first: zeros(alloc, first)?,
                second: zeros(alloc, 0)?,
                cursor,
            },
        },
        Move::Claim(element, lock) => Step::Claim { cpu, element, lock },
        Move::Settle(element, lock) => Step::Settle { cpu, element, lock },
        Move::Attach(element) => Step::Attach {
            cpu,
            element,
            bucket,
        },
        Move::Detach(element) => Step::Detach {
            cpu,
            element,
            bucket,
        },
        Move::Rehome(element, to) => Step::Rehome { cpu, element, to },
        Move::Mark(element) => Step::Mark {
            cpu,
            element,
            bucket,
        },
        Move::Clear(element) => Step::Clear { cpu, element },
        Move::Glance(element) => Step::Glance { cpu, element },
        Move::GlanceOfAnother(element) => Step::Glance { cpu: 1, element },
    })
}

/// The core of a map at its opening.
fn core_of(alloc: Global, attr: &CreateAttr) -> Option<Core> {
    let Ok(shape) = check_attr(attr) else {
        return None;
    };
    Core::start(alloc, &shape).ok()
}

/// Whether the step of a move is done where it is to be, and else refused.
fn goes(alloc: Global, core: &mut Core, (it, is_done): (Move, bool)) -> bool {
    let Ok(step) = step_of(alloc, it) else {
        return false;
    };
    let answer = core.step(alloc, &step);
    if is_done {
        answer == Ok(())
    } else {
        answer == Err(CoreRefusal::NotEnabled)
    }
}

/// The first row whose step is not done where it is to be, or not refused, each on what those before it leave.
fn wrong_step(alloc: Global, attr: &CreateAttr, rows: &[(Move, bool)]) -> Option<usize> {
    match core_of(alloc, attr) {
        Some(mut core) => first_wrong(alloc, &mut core, rows),
        None => Some(0),
    }
}

/// The first row whose step does not go as it says.
fn first_wrong(alloc: Global, core: &mut Core, rows: &[(Move, bool)]) -> Option<usize> {
    for row in 0..rows.len() {
        if !goes(alloc, core, rows[row]) {
            return Some(row);
        }
    }
    None
}

#[test]
fn steps(rt: HostRuntime) {
    assert_eq!(rt; wrong_step(rt.alloc(), &PLAIN, &ADDING), None);
    assert_eq!(rt; wrong_step(rt.alloc(), &LRU, &EACH_KIND), None);
    assert_eq!(rt; wrong_step(rt.alloc(), &PLAIN, &WITHOUT_THE_LOCK), None);
    assert_eq!(rt; wrong_step(rt.alloc(), &PLAIN, &OTHER_LISTS), None);
    assert_eq!(rt; wrong_step(rt.alloc(), &LRU, &HOMES), None);
    assert_eq!(rt; wrong_step(rt.alloc(), &PLAIN, &LOWER_RANK), None);
    assert_eq!(rt; wrong_step(rt.alloc(), &PLAIN, &REFUSED), None);
}

/// Claims under a lock the one element that can be claimed, where there is one.
fn claimed(alloc: Global, core: &mut Core, elements: u32, lock: DomainId) -> Option<u32> {
    for element in 0..elements {
        let step = Step::Claim {
            cpu: 0,
            element,
            lock,
        };
        if core.step(alloc, &step).is_ok() {
            return Some(element);
        }
    }
    None
}

/// Claims under a lock until nothing is left, and answers the first element, or 9 where there is none, and how many there are.
fn all_claimed(alloc: Global, core: &mut Core, elements: u32, lock: DomainId) -> (u32, u32) {
    let mut head = 9;
    for count in 0..elements {
        match claimed(alloc, core, elements, lock) {
            Some(element) if count == 0 => head = element,
            Some(_) => {}
            None => return (head, count),
        }
    }
    (head, elements)
}

/// The head of what is free under a lock at the opening, and how many elements that is.
fn free_list(alloc: Global, attr: &CreateAttr, lock: DomainId) -> Option<(u32, u32)> {
    let Ok(shape) = check_attr(attr) else {
        return None;
    };
    let Ok(mut core) = Core::start(alloc, &shape) else {
        return None;
    };
    match core.step(alloc, &Step::Take { cpu: 0, lock }) {
        Ok(()) => Some(all_claimed(alloc, &mut core, shape.elements, lock)),
        Err(_) => None,
    }
}

/// A kind, the flags, CPUs and entries of its map, a lock, the head of its free list, or 9 where that is empty, and how
/// many elements it has.
type Opening = (MapKind, u32, u32, u32, DomainId, u32, u32);

static OPENINGS: [Opening; 22] = [
    (MapKind::Hash, 0, 1, 1, FREELIST, 0, 1),
    (MapKind::Hash, 0, 3, 4, FREELIST, 9, 0),
    (MapKind::Hash, 0, 3, 4, DomainId::Freelist(2), 6, 2),
    (MapKind::Hash, 0, 16, 1, DomainId::Freelist(14), 9, 0),
    (MapKind::Hash, 0, 16, 1, DomainId::Freelist(15), 16, 1),
    (MapKind::PercpuHash, 0, 1, 2, FREELIST, 1, 2),
    (MapKind::PercpuHash, 0, 3, 4, FREELIST, 1, 2),
    (MapKind::PercpuHash, 0, 3, 4, DomainId::Freelist(2), 3, 1),
    (
        MapKind::PercpuHash,
        0,
        16,
        17,
        DomainId::Freelist(15),
        16,
        1,
    ),
    (MapKind::LruHash, 0, 1, 2, GLOBAL, 1, 2),
    (MapKind::LruHash, 0, 3, 3, DomainId::Local(2), 9, 0),
    (MapKind::LruHash, 0, 16, 3, GLOBAL, 2, 3),
    (MapKind::LruPercpuHash, 0, 1, 1, GLOBAL, 0, 1),
    (MapKind::LruPercpuHash, 0, 3, 2, GLOBAL, 1, 2),
    (MapKind::LruPercpuHash, 0, 16, 2, GLOBAL, 1, 2),
    (MapKind::LruPercpuHash, 0, 16, 2, DomainId::Local(15), 9, 0),
    (MapKind::LruHash, 2, 16, 16, DomainId::CpuLru(8), 8, 1),
    (MapKind::LruPercpuHash, 2, 1, 4, DomainId::CpuLru(0), 3, 4),
    (MapKind::LruHash, 2, 1, 2, DomainId::CpuLru(0), 1, 2),
    (MapKind::LruHash, 2, 3, 5, DomainId::CpuLru(1), 3, 2),
    (MapKind::LruPercpuHash, 2, 3, 5, DomainId::CpuLru(2), 5, 2),
    (
        MapKind::LruPercpuHash,
        2,
        16,
        17,
        DomainId::CpuLru(15),
        31,
        2,
    ),
];

/// The attributes of a row.
fn attr_of(row: &Opening) -> CreateAttr {
    let (kind, flags, cpus, max_entries, _, _, _) = *row;
    CreateAttr {
        kind,
        flags,
        cpus,
        max_entries,
        ..PLAIN
    }
}

/// The first row whose free list is another.
fn wrong_opening(alloc: Global, rows: &[Opening]) -> Option<usize> {
    for row in 0..rows.len() {
        let (_, _, _, _, lock, head, count) = rows[row];
        if free_list(alloc, &attr_of(&rows[row]), lock) != Some((head, count)) {
            return Some(row);
        }
    }
    None
}

#[test]
fn openings(rt: HostRuntime) {
    assert_eq!(rt; wrong_opening(rt.alloc(), &OPENINGS), None);
}
