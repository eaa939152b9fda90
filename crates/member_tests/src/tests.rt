//! The rules beside what memberlist's own functions return.

ghost use Rattle.std.specs.Prelude.{◌<◌, IfOk, length};
ghost use Rattle.std.specs.List.{All};

mod meeting;

use memberlist_member::{
    Awareness, Queue, Suspicion, datagram, milli_log, push_pull_scale, retransmit_limit,
    suspicion_timeout,
};
use std::alloc::{AllocError, Global};

/// Numbers of members, and what memberlist 0.2.2 (Debian) returns for each:
/// `suspicionTimeout(4, n, time.Second)` in milliseconds, `retransmitLimit(4, n)`, and
/// `pushPullScale(time.Second, n)` in seconds.
const ROWS: [(u32, u64, u32, u32); 46] = [
    (0, 4000, 0, 1),
    (1, 4000, 4, 1),
    (2, 4000, 4, 1),
    (3, 4000, 4, 1),
    (9, 4000, 4, 1),
    (10, 4000, 8, 1),
    (11, 4164, 8, 1),
    (12, 4316, 8, 1),
    (15, 4704, 8, 1),
    (16, 4816, 8, 1),
    (17, 4920, 8, 1),
    (31, 5964, 8, 1),
    (32, 6020, 8, 1),
    (33, 6072, 8, 2),
    (63, 7196, 8, 2),
    (64, 7224, 8, 2),
    (65, 7248, 8, 3),
    (99, 7980, 8, 3),
    (100, 8000, 12, 3),
    (101, 8016, 12, 3),
    (128, 8428, 12, 3),
    (129, 8440, 12, 4),
    (150, 8704, 12, 4),
    (256, 9632, 12, 4),
    (257, 9636, 12, 5),
    (500, 10_792, 12, 5),
    (512, 10_836, 12, 5),
    (513, 10_840, 12, 6),
    (999, 11_996, 12, 6),
    (1000, 12_000, 16, 6),
    (1001, 12_000, 16, 6),
    (1024, 12_040, 16, 6),
    (1025, 12_040, 16, 7),
    (2048, 13_244, 16, 7),
    (2049, 13_244, 16, 8),
    (5000, 14_792, 16, 9),
    (9999, 15_996, 16, 10),
    (10_000, 16_000, 20, 10),
    (10_001, 16_000, 20, 10),
    (16_384, 16_856, 20, 10),
    (16_385, 16_856, 20, 11),
    (50_000, 18_792, 20, 12),
    (65_536, 19_264, 20, 12),
    (65_537, 19_264, 20, 13),
    (99_999, 19_996, 20, 13),
    (100_000, 20_000, 24, 13),
];

#[test]
fn members_are_suspected_and_told_of_as_memberlist_computes(rt: HostRuntime) {
    for (members, timeout, limit, scale) in ROWS {
        assert_eq!(rt; suspicion_timeout(4, members, 1000) / 1000, timeout);
        assert_eq!(rt; retransmit_limit(4, members), limit);
        assert_eq!(rt; push_pull_scale(members), scale);
    }
}

#[test]
fn a_logarithm_has_thousandths(rt: HostRuntime) {
    for (n, log) in [
        (1, 0),
        (2, 301),
        (10, 1000),
        (999, 2999),
        (1000, 3000),
        (u32::MAX, 9632),
    ] {
        assert_eq!(rt; milli_log(n), log);
    }
}

#[test]
fn a_member_is_well_or_up_to_seven_worse(rt: HostRuntime) {
    let mut health = Awareness::new(8);
    health.improve();
    assert_eq!(rt; health.scaled(1000), 1000);
    health.worsen(3);
    assert_eq!(rt; health.scaled(1000), 4000);
    health.worsen(u32::MAX);
    assert_eq!(rt; health.score(), 7);
    health.improve();
    assert_eq!(rt; health.score(), 6);
}

/// Adds a broadcast about the member with this name.
fn push(alloc: Global, queue: &mut Queue, name: &str, text: &str) -> Result<(), AllocError> {
    let name = name.as_bytes().to_vec(alloc)?;
    queue.push(name, text.as_bytes().to_vec(alloc)?)
}

/// Takes the broadcasts for a datagram with 17 bytes of room, of which each takes two besides its
/// own, until each was sent twice. Where memory is refused, it tries again.
fn take(alloc: Global, queue: &mut Queue, most: usize) -> Result<Vec<Vec<u8>>, AllocError> {
    match queue.take(alloc, 2, 17, most, 2) {
        Ok(parts) => Ok(parts),
        Err(AllocError) => queue.take(alloc, 2, 17, most, 2),
    }
}

/// The parts, each with a space after it.
fn joined(alloc: Global, parts: &[Vec<u8>]) -> Result<Vec<u8>, AllocError> {
    let mut text = Vec::new(alloc);
    for part in parts {
        text.extend_from_slice(part)?;
        text.push(b' ')?;
    }
    Ok(text)
}

/// What GetBroadcasts does by hand: the most that are picked, the picks, and how many wait then.
const TAKES: [(usize, &str, usize); 5] = [
    (0, "", 5),
    (255, "eeeeee cccc d ", 5),
    (255, "bbbb aaa cccc ", 4),
    (1, "eeeeee ", 3),
    (255, "bbbb aaa d ", 0),
];

#[test]
fn the_least_sent_go_first_then_the_longest_that_fit_then_the_newest(
    rt: HostRuntime,
) -> Result<(), AllocError> {
    let alloc = rt.alloc();
    let mut queue = Queue::new(alloc);
    for text in ["aaa", "bbbb", "cccc", "d", "eeeeee"] {
        push(alloc, &mut queue, text, text)?;
    }
    for (most, picks, left) in TAKES {
        let parts = take(alloc, &mut queue, most)?;
        assert_eq!(rt; joined(alloc, &parts)?.as_slice(), picks.as_bytes());
        assert_eq!(rt; queue.len(), left);
    }
    Ok(())
}

#[test]
fn a_broadcast_takes_the_place_of_the_one_about_the_same_member(
    rt: HostRuntime,
) -> Result<(), AllocError> {
    let alloc = rt.alloc();
    let mut queue = Queue::new(alloc);
    for (name, text) in [("a", "old"), ("b", "other"), ("a", "new")] {
        push(alloc, &mut queue, name, text)?;
    }
    let parts = take(alloc, &mut queue, 255)?;
    assert_eq!(rt; joined(alloc, &parts)?.as_slice(), b"other new ".as_slice());
    Ok(())
}

/// Parts of these lengths.
fn parts_of(alloc: Global, lens: &[u16]) -> Result<Vec<Vec<u8>>, AllocError>
    requires { length lens.now < 256 }
    ensures few { IfOk result (λ parts. length parts.items < 256) }
    ensures short { IfOk result (λ parts. All (λ p. length p.items < 65536) parts.items) }
{
    let mut parts = Vec::new(alloc);
    for len in lens {
        parts.push(vec![in alloc; b'x'; usize::from(*len)]?)?;
    }
    Ok(parts)
}

#[test]
fn one_message_is_sent_as_it_is_and_others_with_their_lengths(
    rt: HostRuntime,
) -> Result<(), AllocError> {
    let rows: [(&[u16], &[u8], usize); 4] = [
        (&[], &[7, 0], 2),
        (&[3], b"xxx", 3),
        (&[2, 1], b"\x07\x02\x00\x02\x00\x01xxx", 9),
        (&[300, 0], b"\x07\x02\x01\x2c\x00\x00x", 306),
    ];
    for (lens, head, len) in rows {
        let message = datagram(rt.alloc(), parts_of(rt.alloc(), lens)?)?;
        assert!(rt; message.starts_with(head));
        assert_eq!(rt; message.len(), len);
    }
    Ok(())
}

/// `SuspicionMult`, the probe interval in milliseconds, the number of members, and when a suspicion
/// ends that began at 0, in microseconds, with one to five accusers, where
/// `SuspicionMaxTimeoutMult` is 6: `suspectNode`, `suspicionTimeout` and `remainingSuspicionTime`
/// with their floating point, computed in Python.
const SUSPICIONS: [(u16, u32, u32, [u64; 5]); 18] = [
    (
        4,
        1000,
        3,
        [4_000_000, 4_000_000, 4_000_000, 4_000_000, 4_000_000],
    ),
    (
        4,
        1000,
        4,
        [24_000_000, 11_381_000, 4_000_000, 4_000_000, 4_000_000],
    ),
    (
        4,
        1000,
        5,
        [24_000_000, 11_381_000, 4_000_000, 4_000_000, 4_000_000],
    ),
    (
        4,
        1000,
        10,
        [24_000_000, 11_381_000, 4_000_000, 4_000_000, 4_000_000],
    ),
    (
        4,
        1000,
        25,
        [33_528_000, 15_899_000, 5_588_000, 5_588_000, 5_588_000],
    ),
    (
        4,
        1000,
        100,
        [48_000_000, 22_762_000, 8_000_000, 8_000_000, 8_000_000],
    ),
    (
        4,
        1000,
        1000,
        [72_000_000, 34_144_000, 12_000_000, 12_000_000, 12_000_000],
    ),
    (
        4,
        1000,
        100_000,
        [120_000_000, 56_907_000, 20_000_000, 20_000_000, 20_000_000],
    ),
    (
        6,
        5000,
        5,
        [30_000_000, 30_000_000, 30_000_000, 30_000_000, 30_000_000],
    ),
    (
        6,
        5000,
        6,
        [180_000_000, 115_398_000, 77_609_000, 50_797_000, 30_000_000],
    ),
    (
        6,
        5000,
        40,
        [
            288_360_000,
            184_868_000,
            124_329_000,
            81_376_000,
            48_060_000,
        ],
    ),
    (
        6,
        5000,
        2500,
        [
            611_460_000,
            392_008_000,
            263_638_000,
            172_557_000,
            101_910_000,
        ],
    ),
    (
        6,
        5000,
        100_000,
        [
            900_000_000,
            576_992_000,
            388_045_000,
            253_985_000,
            150_000_000,
        ],
    ),
    (
        3,
        1000,
        2,
        [3_000_000, 3_000_000, 3_000_000, 3_000_000, 3_000_000],
    ),
    (
        3,
        1000,
        3,
        [18_000_000, 3_000_000, 3_000_000, 3_000_000, 3_000_000],
    ),
    (
        3,
        1000,
        50,
        [30_564_000, 5_094_000, 5_094_000, 5_094_000, 5_094_000],
    ),
    (
        5,
        1000,
        12,
        [32_370_000, 18_882_000, 10_992_000, 5_395_000, 5_395_000],
    ),
    (
        2,
        1000,
        30,
        [2_954_000, 2_954_000, 2_954_000, 2_954_000, 2_954_000],
    ),
];

#[test]
fn a_suspicion_ends_as_memberlist_computes(rt: HostRuntime) {
    for (mult, interval, members, ends) in SUSPICIONS {
        assert!(rt; mult <= 6);
        let suspicion = Suspicion::begun(mult, 6, interval, members);
        let dues = [1, 2, 3, 4, 5].map(|accusers| suspicion.due(0, accusers));
        assert_eq!(rt; dues, ends);
    }
}
