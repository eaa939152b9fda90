use memberlist_message::{Message, Nack, Parts, decode_message, encode_nack};
use std::alloc::AllocError;
use std::test::Fail;
use swim_wire::WireFault;

/// A refused message gives its fault, whatever counts and lengths it claims.
#[test]
fn a_refused_message_asks_for_little(rt: HostRuntime) -> Result<(), Fail> {
    let rows: [(&[u8], WireFault); 9] = [
        (b"", WireFault::Ended),
        (b"\x07\x00", WireFault::WrongType { found: 7 }),
        (b"\x00\xa0", WireFault::NotMap),
        (b"\x00\x81\xc4\x00\x00", WireFault::NotRaw),
        (b"\x00\xdf\xff\xff\xff\xff", WireFault::Ended),
        (b"\x02\x81\xa7Payload\xdb\xff\xff\xff\xff", WireFault::Ended),
        (
            b"\x02\x81\xa7Payload\xdd\xff\xff\xff\xff\x01",
            WireFault::Ended,
        ),
        (b"\x02\x81\xa1x\xdd\xff\xff\xff\xff\x01", WireFault::Ended),
        (b"\x03\x81\xa4Node\xa0", WireFault::NameEmpty),
    ];
    for (message, fault) in rows {
        let found = decode_message(rt.alloc(), message).err();
        if found == Some(WireFault::Memory) {
            return Err(Fail::from(AllocError));
        }
        assert_eq!(rt; found, Some(fault));
    }
    Ok(())
}

/// A nack as memberlist writes it, read and written anew.
#[test]
fn a_nack_is_read_and_written(rt: HostRuntime) -> Result<(), Fail> {
    let bytes = b"\x0b\x81\xa5SeqNo\xcd\x01\x2c";
    let nack = match decode_message(rt.alloc(), bytes)? {
        Message::Nack(nack) => nack,
        _ => Nack { seq_no: 0 },
    };
    assert_eq!(rt; nack.seq_no, 300);
    assert_eq!(rt;
        encode_nack(rt.alloc(), &nack)?.as_slice(),
        bytes.as_slice()
    );
    Ok(())
}

/// The second of two parts is truncated.
#[test]
fn a_truncated_part_is_counted(rt: HostRuntime) -> Result<(), Fail> {
    let mut parts = Parts::of(b"\x07\x02\x00\x03\x00\x01\x0b\x80\x02").ok_or("a compound")?;
    assert_eq!(rt;
        parts.next_part().ok_or("a part")?,
        b"\x0b\x80\x02".as_slice()
    );
    assert_eq!(rt; parts.next_part().is_none(), true);
    assert_eq!(rt; parts.untaken(), 1);
    Ok(())
}
