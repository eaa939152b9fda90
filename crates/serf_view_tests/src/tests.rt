use serf_message::Coordinate;
use serf_view::{Intent, Intents, Standing, left_time, round_trip};
use std::alloc::{AllocError, Global};
use std::test::Fail;

/// What is taken in, about the member of this name.
#[derive(Clone, Copy)]
enum Step {
    Leave(&'static [u8], u64),
    Join(&'static [u8], u64, Standing),
    Returned(&'static [u8]),
}

/// Takes in one step, and returns whether it is news and what is believed of the name then.
fn take(intents: &mut Intents, step: Step) -> Result<(bool, Option<Intent>), AllocError> {
    let (news, name) = match step {
        Step::Leave(name, time) => (intents.leave(name, time)?, name),
        Step::Join(name, time, standing) => (intents.join(name, time, standing)?, name),
        Step::Returned(name) => {
            intents.returned(name);
            (false, name)
        }
    };
    Ok((news, intents.get(name)))
}

/// Steps that the handlers of Debian's Serf 0.9.4 were taken through, in Go, with what they
/// answered, and the status time then, and whether the member is leaving or left.
#[test]
fn intents_follow_serf(rt: HostRuntime) -> Result<(), Fail> {
    let (unknown, up, down) = (Standing::Unknown, Standing::Up, Standing::Down);
    let rows: [(Step, bool, u64, bool); 24] = [
        (Step::Join(b"web-2", 2, unknown), true, 2, false),
        (Step::Leave(b"web-2", 4), true, 4, true),
        (Step::Join(b"web-2", 2, unknown), false, 4, true),
        (Step::Leave(b"web-2", 1), false, 4, true),
        (Step::Leave(b"web-1", 3), true, 3, true),
        (Step::Leave(b"web-1", 3), false, 3, true),
        (Step::Leave(b"web-2", 5), true, 5, true),
        (Step::Join(b"web-1", 4, down), true, 4, true),
        (Step::Leave(b"web-1", 5), true, 5, true),
        (Step::Returned(b"web-1"), false, 5, false),
        (Step::Leave(b"web-2", 3), false, 5, true),
        (Step::Leave(b"web-2", 4), false, 5, true),
        (Step::Join(b"web-2", 9, up), true, 9, false),
        (Step::Leave(b"web-1", 0), false, 5, false),
        (Step::Join(b"web-2", 1, up), false, 9, false),
        (Step::Leave(b"web-2", 3), false, 9, false),
        (Step::Leave(b"web-2", 0), false, 9, false),
        (Step::Returned(b"web-1"), false, 5, false),
        (Step::Join(b"web-1", 8, up), true, 8, false),
        (Step::Leave(b"web-1", 9), true, 9, true),
        (Step::Leave(b"web-1", 10), true, 10, true),
        (Step::Leave(b"web-1", 8), false, 10, true),
        (Step::Join(b"web-1", 15, up), true, 15, false),
        (Step::Leave(b"web-2", 12), true, 12, true),
    ];
    let mut intents = Intents::new(rt.alloc());
    for (step, news, time, leaving) in rows {
        let expected = (news, Some(Intent { time, leaving }));
        assert_eq!(rt; take(&mut intents, step)?, expected);
    }
    assert_eq!(rt; intents.is_leaving(b"web-2"), true);
    Ok(())
}

/// By hand, from `serf.go` and `delegate.go`: nothing is news at time 0, and nothing comes of a
/// name that returns unheard of.
#[test]
fn nothing_comes_of_nothing(rt: HostRuntime) -> Result<(), Fail> {
    let steps = [
        Step::Join(b"web-1", 0, Standing::Unknown),
        Step::Leave(b"web-1", left_time(u64::MAX)),
        Step::Returned(b"web-1"),
    ];
    let mut intents = Intents::new(rt.alloc());
    for step in steps {
        assert_eq!(rt; take(&mut intents, step)?, (false, None));
    }
    Ok(())
}

/// The bits of 1.5.
const ERROR: u64 = 0x3ff8_0000_0000_0000;

/// The bits of an infinity, and of a NaN.
const INFINITE: u64 = 0x7ff0_0000_0000_0000;

const NAN: u64 = 0xfff8_0000_0000_0000;

/// A place, an adjustment and a height.
type Place = (&'static [u64], u64, u64);

fn coordinate(alloc: Global, place: Place) -> Result<Coordinate, AllocError> {
    Ok(Coordinate {
        vec: place.0.to_vec(alloc)?,
        error: ERROR,
        adjustment: place.1,
        height: place.2,
    })
}

/// What Serf's `DistanceTo` says in Go, on amd64: of members in one place, of a triangle of 3, 4
/// and 5, with adjustments, with such that leave less, less than nothing and nothing, of half a
/// nanosecond below nothing, without dimensions, of 285 years, there and back with different
/// heights, and of 8 dimensions. For the last four Go has no good answer: of 317 and 634 years it
/// makes a time below nothing, half a second below nothing stays so, and at different dimensions it
/// panics.
#[test]
fn round_trips_are_serfs(rt: HostRuntime) -> Result<(), Fail> {
    let rows: [(Place, Place, Option<u64>); 16] = [
        (
            (&[0, 0, 0], 0, 0x3ee4_f8b5_88e3_68f1),
            (&[0, 0, 0], 0, 0x3ee4_f8b5_88e3_68f1),
            Some(20_000),
        ),
        (
            (&[0, 0], 0, 0x3f50_624d_d2f1_a9fc),
            (
                &[0x3f68_9374_bc6a_7efa, 0x3f70_624d_d2f1_a9fc],
                0,
                0x3f60_624d_d2f1_a9fc,
            ),
            Some(8_000_000),
        ),
        (
            (
                &[
                    0x3f84_7ae1_47ae_147b,
                    0x3f94_7ae1_47ae_147b,
                    0x3f9e_b851_eb85_1eb8,
                ],
                0x3f40_624d_d2f1_a9fc,
                0x3f50_624d_d2f1_a9fc,
            ),
            (
                &[
                    0xbf84_7ae1_47ae_147b,
                    0x3f99_9999_9999_999a,
                    0x3f9f_be76_c8b4_3958,
                ],
                0xbf2a_36e2_eb1c_432d,
                0x3f58_9374_bc6a_7efa,
            ),
            Some(23_439_767),
        ),
        (
            (
                &[0x3f84_7ae1_47ae_147b],
                0xbf60_624d_d2f1_a9fc,
                0x3f50_624d_d2f1_a9fc,
            ),
            (
                &[0x3f94_7ae1_47ae_147b],
                0xbf50_624d_d2f1_a9fc,
                0x3f50_624d_d2f1_a9fc,
            ),
            Some(9_000_000),
        ),
        (
            (
                &[0x3f84_7ae1_47ae_147b],
                0xbfe0_0000_0000_0000,
                0x3f50_624d_d2f1_a9fc,
            ),
            (
                &[0x3f94_7ae1_47ae_147b],
                0xbfe0_0000_0000_0000,
                0x3f50_624d_d2f1_a9fc,
            ),
            Some(12_000_000),
        ),
        (
            (&[0x3ff0_0000_0000_0000], 0xbfe0_0000_0000_0000, 0),
            (&[0x4000_0000_0000_0000], 0xbfe0_0000_0000_0000, 0),
            Some(1_000_000_000),
        ),
        ((&[0], 0, 0xbe01_2e0b_e826_d695), (&[0], 0, 0), Some(0)),
        (
            (&[], 0, 0x3fd0_0000_0000_0000),
            (&[], 0x3fe0_0000_0000_0000, 0x3fc0_0000_0000_0000),
            Some(875_000_000),
        ),
        (
            (&[0], 0, 0x41cd_cd65_0000_0000),
            (&[0], 0, 0x41fd_cd65_0000_0000),
            Some(9_000_000_000_000_000_000),
        ),
        (
            (&[0], 0, 0x41cd_cd65_0000_0000),
            (&[0x3e65_798e_e230_8c3a], 0, 0x3e65_798e_e230_8c3a),
            Some(1_000_000_000_000_000_000),
        ),
        (
            (&[0x3e65_798e_e230_8c3a], 0, 0x3e65_798e_e230_8c3a),
            (&[0], 0, 0x41cd_cd65_0000_0000),
            Some(1_000_000_000_000_000_128),
        ),
        (
            (
                &[
                    0x3fb9_9999_9999_999a,
                    0x3fc9_9999_9999_999a,
                    0xbfd3_3333_3333_3333,
                    0x3fd9_9999_9999_999a,
                    0x3fe0_0000_0000_0000,
                    0x3fe3_3333_3333_3333,
                    0x3fe6_6666_6666_6666,
                    0x3fe9_9999_9999_999a,
                ],
                0x3f3c_ff80_e8f4_77df,
                0x3f84_31e1_7cc6_9035,
            ),
            (
                &[
                    0x3fbc_28f5_c28f_5c29,
                    0xbfc9_9999_9999_999a,
                    0x3fd3_3333_3333_3333,
                    0x3fd9_9999_9999_999a,
                    0x3fe1_9999_9999_999a,
                    0x3fc4_7ae1_47ae_147b,
                    0xbfe6_6666_6666_6666,
                    0x3fe9_eb85_1eb8_51ec,
                ],
                0x3f30_4983_5e9e_23fd,
                0x3f7f_d337_26a0_d89b,
            ),
            Some(1_654_261_649),
        ),
        (
            (&[0], 0, 0x4202_a05f_2000_0000),
            (&[0], 0, 0),
            Some(10_000_000_000_000_000_000),
        ),
        ((&[0], 0, 0x4212_a05f_2000_0000), (&[0], 0, 0), None),
        ((&[0], 0, 0xbfe0_0000_0000_0000), (&[0], 0, 0), None),
        ((&[0, 0], 0, 0), (&[0], 0, 0), None),
    ];
    let alloc = rt.alloc();
    for (one, other, expected) in rows {
        let estimate = round_trip(&coordinate(alloc, one)?, &coordinate(alloc, other)?);
        assert_eq!(rt; estimate, expected);
    }
    Ok(())
}

/// No estimate comes of a number that is not finite (`IsValid`).
#[test]
fn each_number_is_finite(rt: HostRuntime) -> Result<(), Fail> {
    let places: [Place; 6] = [
        (&[0, NAN], 0, 0),
        (&[INFINITE, 0], 0, 0),
        (&[0, 0], NAN, 0),
        (&[0, 0], INFINITE, 0),
        (&[0, 0], 0, NAN),
        (&[0, 0], 0, INFINITE),
    ];
    let alloc = rt.alloc();
    let origin = coordinate(alloc, (&[0, 0], 0, 0))?;
    let mut unsure = coordinate(alloc, (&[0, 0], 0, 0))?;
    unsure.error = NAN;
    let mut estimates = [round_trip(&origin, &unsure), round_trip(&unsure, &origin)];
    for place in places {
        let odd = coordinate(alloc, place)?;
        estimates[0] = estimates[0].or(round_trip(&origin, &odd));
        estimates[1] = estimates[1].or(round_trip(&odd, &origin));
    }
    assert_eq!(rt; estimates, [None, None]);
    assert_eq!(rt; round_trip(&origin, &origin), Some(0));
    Ok(())
}
