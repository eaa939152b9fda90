//! What a member does on its own, and what another one recalls.

use memberlist_member::{Config, Cover, Identity, Input, Member, Output, Settings, StepFault};
use rand_pcg::Pcg32;
use std::alloc::{AllocError, Global};
use std::net::{IpAddr, Ipv4Addr, SocketAddr};
use swim_claim::{Details, Name};

/// A ping with the number 7, to whoever is there.
const PING: &[u8] = b"\x00\x82\xa4Node\xa0\xa5SeqNo\x07";

/// The ack with that number, and the own Alive of a member that is named 1.
const ACK_AND_ALIVE: &[u8] = b"\x07\x02\x00\x12\x00\x39\
    \x02\x82\xa7Payload\xa0\xa5SeqNo\x07\
    \x04\x86\xa4Addr\xa4\x0a\x00\x00\x01\xabIncarnation\x01\xa4Meta\xa0\xa4Node\xa1\x01\
    \xa4Port\xcd\x1f\x0a\xa3Vsn\xa6\x01\x05\x02\x02\x05\x04";

/// Where the member whose address ends so is.
fn place(last: u8) -> SocketAddr {
    SocketAddr::new(IpAddr::from(Ipv4Addr::new(10, 0, 0, last)), 7946)
}

/// Who has this name, and an address that ends so; nobody if memory is refused.
fn identity(alloc: Global, name: u8) -> Result<Option<Identity>, AllocError> {
    let Ok(details) = Details::of(
        &[10, 0, 0, name],
        7946,
        Vec::new(alloc),
        &[1, 5, 2, 2, 5, 4],
    ) else {
        return Ok(None);
    };
    match Name::copied(alloc, &[name])? {
        Ok(name) => Ok(Some(Identity {
            name,
            inc: 1,
            details,
        })),
        Err(_) => Ok(None),
    }
}

/// A member with this name, and an address that ends so.
fn member(alloc: Global, name: u8, rng: &mut Pcg32) -> Result<Option<Member>, AllocError> {
    let Ok(settings) = Settings::new(Config::lan()) else {
        return Ok(None);
    };
    match identity(alloc, name)? {
        Some(identity) => {
            let cover = Cover::none(alloc);
            Ok(Some(Member::new(alloc, settings, cover, identity, 0, rng)?))
        }
        None => Ok(None),
    }
}

/// The only datagram that it puts out when this one comes.
fn answer(
    alloc: Global,
    member: &mut Member,
    ping: &[u8],
    rng: &mut Pcg32,
) -> Result<Vec<u8>, StepFault> {
    let _ = member.take_outputs();
    let from = place(2);
    member.step(1000, Input::Datagram { from, bytes: ping }, rng)?;
    match member.take_outputs().all() {
        [Output::Send { bytes, .. }] => Ok(bytes.to_vec(alloc)?),
        _ => Err(StepFault::TooLong),
    }
}

#[test]
fn a_ping_is_answered_with_news(rt: HostRuntime) -> Result<(), StepFault> {
    let mut rng = Pcg32::new(42, 54);
    let Some(mut member) = member(rt.alloc(), 1, &mut rng)? else {
        return Ok(());
    };
    let answer = answer(rt.alloc(), &mut member, PING, &mut rng)?;
    assert_eq!(rt; answer.as_slice(), ACK_AND_ALIVE);
    assert_eq!(rt;
        (member.inc(), member.health(), member.refused()),
        (1, 0, 0)
    );
    Ok(())
}

#[test]
fn a_member_recalls_the_table_of_another_one(rt: HostRuntime) -> Result<(), StepFault> {
    let mut rng = Pcg32::new(42, 54);
    let (Some(one), Some(mut other)) = (
        member(rt.alloc(), 1, &mut rng)?,
        member(rt.alloc(), 2, &mut rng)?,
    ) else {
        return Ok(());
    };
    assert!(rt; other.recall(&one.table(false)?, &mut rng)?);
    assert_eq!(rt; other.view().len(), 2);
    assert!(rt; 0 < other.wake());
    Ok(())
}
