//! The numbers by which owners and homes are kept.

use map_types::DomainId;
use place_words::{Home, Owner, home_code, home_of_code, owner_code, owner_of_code};

/// A number, and the owner that it stands for, where there is one.
static OWNERS: [(u64, Option<Owner>); 8] = [
    (0, Some(Owner::Free)),
    (16, Some(Owner::Hand(15))),
    (32, Some(Owner::Bucket(0))),
    (131_103, Some(Owner::Bucket(131_071))),
    (17, None),
    (31, None),
    (131_104, None),
    (18_446_744_073_709_551_615, None),
];

/// The first row whose number is not its owner's, or stands for one where it has none.
fn wrong_owner(rows: &[(u64, Option<Owner>)]) -> Option<usize> {
    for row in 0..rows.len() {
        let (code, owner) = rows[row];
        let found = owner_of_code(code);
        if found != owner {
            return Some(row);
        }
        if let Some(owner) = found
            && owner_code(owner) != code
        {
            return Some(row);
        }
    }
    None
}

#[test]
fn owners(rt: HostRuntime) {
    assert_eq!(rt; wrong_owner(&OWNERS), None);
}

/// A number, and the home that it stands for, where there is one.
static HOMES: [(u64, Option<Home>); 12] = [
    (0, Some(Home::Unlisted)),
    (1, Some(Home::Hand(0))),
    (35, Some(Home::In(DomainId::Local(3)))),
    (64, Some(Home::In(DomainId::Global))),
    (98, Some(Home::In(DomainId::CpuLru(2)))),
    (17, None),
    (31, None),
    (48, None),
    (63, None),
    (65, None),
    (95, None),
    (112, None),
];

/// The first row whose number is not its home's, or stands for one where it has none.
fn wrong_home(rows: &[(u64, Option<Home>)]) -> Option<usize> {
    for row in 0..rows.len() {
        let (code, home) = rows[row];
        let found = home_of_code(code);
        if found != home {
            return Some(row);
        }
        if let Some(home) = found
            && home_code(home) != code
        {
            return Some(row);
        }
    }
    None
}

#[test]
fn homes(rt: HostRuntime) {
    assert_eq!(rt; wrong_home(&HOMES), None);
}
