//! The hashes of keys, and the buckets of hashes, as the kernel computes them.

use key_hash::{bucket_of, jhash};

/// A key, a seed and a hash.
static HASHES: [(&[u8], u32, u32); 12] = [
    (&[1], 0, 0x04ec_883b),
    (&[2], 0, 0xdf8e_b2bb),
    (&[3], 0, 0xbb60_a9ce),
    (&[4], 0, 0x1d78_dbc2),
    (&[5], 0, 0x3499_4c6b),
    (&[1], u32::MAX, 0x0adc_5da1),
    (b"Four score and seven years ago", 0, 0x1777_0551),
    (b"Four score and seven years ago", 1, 0xcd62_8161),
    (b"abcdefghijkl", 0, 0x4012_f87b),
    (b"abcdefghijklm", 0, 0x9281_28f9),
    (b"abcdefghijklmnopqrstuvwx", 0, 0x1b63_1fea),
    (b"abcdefghijklmnopqrstuvwxy", 0, 0x6c29_c5e2),
];

/// The hashes of the first bytes of a text, of one byte and of one more each, under the seed 7.
static BEGINNINGS: [u32; 40] = [
    0x9f84_d9b3,
    0x367d_4d26,
    0x14b3_d2d0,
    0xc55b_2ad5,
    0x35d3_db76,
    0xcb64_3258,
    0x9e5c_c3fb,
    0x7642_bc7d,
    0x50fc_ae6a,
    0x6373_fe3a,
    0x4b20_fbae,
    0x6646_9bfe,
    0x4a04_fabf,
    0x63c4_6cb0,
    0xc814_51b6,
    0x508f_f468,
    0x2d36_881d,
    0xea03_d655,
    0xf7ad_139d,
    0x2a1f_c398,
    0xb412_26f2,
    0xd022_61ef,
    0x205f_d9e9,
    0x49c9_a203,
    0x051f_6048,
    0xbf56_0f0e,
    0xa40c_8c9f,
    0xcd85_e4f0,
    0x24ec_78d4,
    0x763d_219b,
    0x7927_7093,
    0x97c7_50d5,
    0x8aac_5ed0,
    0x13ea_eb2d,
    0x54cd_7727,
    0x9923_233b,
    0x621e_8811,
    0x8c73_1d14,
    0x5c14_eebb,
    0xbba2_2899,
];

/// A hash, and its bucket of 2, of 4 and of 8.
static BUCKETS: [(u32, u32, u32, u32); 5] = [
    (0x04ec_883b, 1, 3, 3),
    (0xdf8e_b2bb, 1, 3, 3),
    (0xbb60_a9ce, 0, 2, 6),
    (0x1d78_dbc2, 0, 2, 2),
    (0x3499_4c6b, 1, 3, 3),
];

/// The first row whose key, of 1 to 512 bytes, has another hash under its seed.
fn wrong_hash(rows: &[(&[u8], u32, u32)]) -> Option<usize> {
    for row in 0..rows.len() {
        let (key, seed, hash) = rows[row];
        if key.is_empty() || key.len() > 512 || jhash(key, seed) != hash {
            return Some(row);
        }
    }
    None
}

#[test]
fn hashes(rt: HostRuntime) {
    assert_eq!(rt; wrong_hash(&HASHES), None);
}

/// The first row that isn't the hash of as many bytes of a text and one more, under the seed 7.
fn wrong_beginning(text: &[u8], hashes: &[u32]) -> Option<usize> {
    for row in 0..hashes.len() {
        if row >= text.len() || row >= 512 || jhash(&text[..row + 1], 7) != hashes[row] {
            return Some(row);
        }
    }
    None
}

#[test]
fn hashes_of_beginnings(rt: HostRuntime) {
    let text = b"The quick brown fox jumps over the lazy dog";
    assert_eq!(rt; wrong_beginning(text, &BEGINNINGS), None);
}

/// The first row whose hash is in another bucket of 2, of 4 or of 8.
fn wrong_bucket(rows: &[(u32, u32, u32, u32)]) -> Option<usize> {
    for row in 0..rows.len() {
        let (hash, of_two, of_four, of_eight) = rows[row];
        if bucket_of(hash, 2) != of_two
            || bucket_of(hash, 4) != of_four
            || bucket_of(hash, 8) != of_eight
        {
            return Some(row);
        }
    }
    None
}

#[test]
fn buckets(rt: HostRuntime) {
    assert_eq!(rt; wrong_bucket(&BUCKETS), None);
}
