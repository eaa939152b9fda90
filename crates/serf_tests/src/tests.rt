use serf_message::{
    Coordinate, Join, KeyRequest, KeyResponse, Leave, Message, Query, Relay, SerfFault, State, Tag,
    UserEvent, decode_coordinate, decode_key_request, decode_key_response, decode_message,
    decode_state, decode_tags, encode_coordinate, encode_key_request, encode_key_response,
    encode_message, encode_state, encode_tags,
};
use std::alloc::AllocError;
use std::test::Fail;

/// A state of a writer in Go.
const STATE: &[u8] =
    b"\x02\x86\xaaEventLTime\x03\xa6Events\x93\xc0\x82\xa6Events\x92\x82\xa4Name\xa6deploy\xa7Payload\xa2v1\x82\xa4Name\xa1x\xa7Payload\xc0\xa5LTime\x01\xc0\xa5LTime\x09\xabLeftMembers\x91\xa5web-3\xaaQueryLTime\x02\xacStatusLTimes\x81\xa5web-1\x04";

/// The payload of a captured ack.
const COORDINATE: &[u8] =
    b"\x01\x84\xaaAdjustment\xcb?\x13\x94\x9f\x9d\x0fs\x83\xa5Error\xcb?\xe7\x17\xf0M+\x15\xb2\xa6Height\xcb?&\xca\x7f2jn\xd6\xa3Vec\x98\xcb?-y\xa0|\x7f\x1a\x1f\xcb?$j\xe4|f\xbb\xfc\xcb\xbf\x1dI\xbaU\xe0'0\xcb?#\xcb\xc1\xf7\xbd\"\xab\xcb\xbf*C\x14\x96N{\xbe\xcb?\x16\xc6\xd2\x04\x85\x80J\xcb\xbf\x07\xcfH\x0c\xcb\xdf\xb8\xcb?*>B\"\x95\xc7\xab";

/// A key request of a writer in Go.
const KEY_REQUEST: &[u8] = b"\x07\x81\xa3Key\xb00123456789abcdef";

/// Messages of a captured cluster and of a writer in Go, with Serf's structs and go-msgpack 0.5.5, and
/// their fields as a reader in Python gives them.
#[test]
fn messages_are_read(rt: HostRuntime) -> Result<(), Fail> {
    let rows: [(&[u8], &str); 17] = [
        (
            b"\x01\x82\xa5LTime\x01\xa4Node\xa5web-2",
            "Join(Join { time: 1, node: [119, 101, 98, 45, 50] })",
        ),
        (
            b"\x00\x83\xa5LTime\x05\xa4Node\xa5web-5\xa5Prune\xc2",
            "Leave(Leave { time: 5, node: [119, 101, 98, 45, 53], prune: false })",
        ),
        (
            b"\x03\x84\xa2CC\xc3\xa5LTime\x01\xa4Name\xa6deploy\xa7Payload\xa2v1",
            "Event(UserEvent { time: 1, name: [100, 101, 112, 108, 111, 121], payload: [118, 49], coalesce: true })",
        ),
        (
            b"\x04\x8b\xa4Addr\xa4\x0aM3\x0e\xa7Filters\xc0\xa5Flags\x01\xa2ID\xceM=0|\xa5LTime\x01\xa4Name\xa4load\xa7Payload\xa1?\xa4Port\xcd\x1f\x0a\xabRelayFactor\x00\xaaSourceNode\xa5web-4\xa7Timeout\xcew5\x94\x00",
            "Query(Query { time: 1, id: 1295855740, addr: [10, 77, 51, 14], port: 7946, source_node: [119, 101, 98, 45, 52], filters: [], flags: 1, relay_factor: 0, timeout: 2000000000, name: [108, 111, 97, 100], payload: [63] })",
        ),
        (
            b"\x05\x85\xa5Flags\x01\xa4From\xa5web-1\xa2ID\xceA\xa6aH\xa5LTime\x03\xa7Payload\xc0",
            "Response(QueryResponse { time: 3, id: 1101422920, from: [119, 101, 98, 45, 49], flags: 1, payload: [] })",
        ),
        (
            b"\x09\x82\xa8DestAddr\x83\xa2IP\xa4\x0aM3\x0b\xa4Port\xcd\x1f\x0a\xa4Zone\xa0\xa8DestName\xa5web-1\x05\x85\xa5Flags\x01\xa4From\xa5web-1\xa2ID\xceA\xa6aH\xa5LTime\x03\xa7Payload\xc0",
            "Relay(Relay { addr: [10, 77, 51, 11], port: 7946, zone: [], name: [119, 101, 98, 45, 49], message: [5, 133, 165, 70, 108, 97, 103, 115, 1, 164, 70, 114, 111, 109, 165, 119, 101, 98, 45, 49, 162, 73, 68, 206, 65, 166, 97, 72, 165, 76, 84, 105, 109, 101, 3, 167, 80, 97, 121, 108, 111, 97, 100, 192] })",
        ),
        (
            b"\x04\x8b\xa4Addr\xa4\x0aM3\x0b\xa7Filters\xc0\xa5Flags\x01\xa2ID\xce\x14M\xc4\x9a\xa5LTime\x02\xa4Name\xaa_serf_ping\xa7Payload\xc0\xa4Port\xcd\x1f\x0a\xabRelayFactor\x00\xaaSourceNode\xa5web-1\xa7Timeout\xce\xbe\xbc \x00",
            "Query(Query { time: 2, id: 340640922, addr: [10, 77, 51, 11], port: 7946, source_node: [119, 101, 98, 45, 49], filters: [], flags: 1, relay_factor: 0, timeout: 3200000000, name: [95, 115, 101, 114, 102, 95, 112, 105, 110, 103], payload: [] })",
        ),
        (
            b"\x01\x82\xa5LTime\xcf\x80\x00\x00\x00\x00\x00\x00\x00\xa4Node\xda\x00(nnnnnnnnnnnnnnnnnnnnnnnnnnnnnnnnnnnnnnnn",
            "Join(Join { time: 9223372036854775808, node: [110, 110, 110, 110, 110, 110, 110, 110, 110, 110, 110, 110, 110, 110, 110, 110, 110, 110, 110, 110, 110, 110, 110, 110, 110, 110, 110, 110, 110, 110, 110, 110, 110, 110, 110, 110, 110, 110, 110, 110] })",
        ),
        (
            b"\x00\x83\xa5LTime\xcd\x01,\xa4Node\xa1a\xa5Prune\xc3",
            "Leave(Leave { time: 300, node: [97], prune: true })",
        ),
        (
            b"\x03\x84\xa2CC\xc2\xa5LTime\x00\xa4Name\xa0\xa7Payload\xc0",
            "Event(UserEvent { time: 0, name: [], payload: [], coalesce: false })",
        ),
        (
            b"\x04\x8b\xa4Addr\xa4\x0a\x00\x00\x01\xa7Filters\x92\xa8\x00\x91\xa5web-1\xb6\x01\x82\xa4Expr\xa5web.*\xa3Tag\xa4role\xa5Flags\x03\xa2ID\xce\x80\x00\x00\x00\xa5LTime\x05\xa4Name\xa4load\xa7Payload\xa1?\xa4Port\xcd\x1f\x0a\xabRelayFactor\x02\xaaSourceNode\xa5web-1\xa7Timeout\xfb",
            "Query(Query { time: 5, id: 2147483648, addr: [10, 0, 0, 1], port: 7946, source_node: [119, 101, 98, 45, 49], filters: [[0, 145, 165, 119, 101, 98, 45, 49], [1, 130, 164, 69, 120, 112, 114, 165, 119, 101, 98, 46, 42, 163, 84, 97, 103, 164, 114, 111, 108, 101]], flags: 3, relay_factor: 2, timeout: -5, name: [108, 111, 97, 100], payload: [63] })",
        ),
        (
            b"\x04\x8b\xa4Addr\xc0\xa7Filters\xc0\xa5Flags\x00\xa2ID\x00\xa5LTime\x00\xa4Name\xa0\xa7Payload\xc0\xa4Port\x00\xabRelayFactor\x00\xaaSourceNode\xa0\xa7Timeout\xff",
            "Query(Query { time: 0, id: 0, addr: [], port: 0, source_node: [], filters: [], flags: 0, relay_factor: 0, timeout: -1, name: [], payload: [] })",
        ),
        (
            b"\x04\x8b\xa4Addr\xc0\xa7Filters\xc0\xa5Flags\x00\xa2ID\x00\xa5LTime\x00\xa4Name\xa0\xa7Payload\xc0\xa4Port\x00\xabRelayFactor\x00\xaaSourceNode\xa0\xa7Timeout\xd0\xdf",
            "Query(Query { time: 0, id: 0, addr: [], port: 0, source_node: [], filters: [], flags: 0, relay_factor: 0, timeout: -33, name: [], payload: [] })",
        ),
        (
            b"\x04\x8b\xa4Addr\xc0\xa7Filters\xc0\xa5Flags\x00\xa2ID\x00\xa5LTime\x00\xa4Name\xa0\xa7Payload\xc0\xa4Port\x00\xabRelayFactor\x00\xaaSourceNode\xa0\xa7Timeout\xd1\xff\x7f",
            "Query(Query { time: 0, id: 0, addr: [], port: 0, source_node: [], filters: [], flags: 0, relay_factor: 0, timeout: -129, name: [], payload: [] })",
        ),
        (
            b"\x04\x8b\xa4Addr\xc0\xa7Filters\xc0\xa5Flags\x00\xa2ID\x00\xa5LTime\x00\xa4Name\xa0\xa7Payload\xc0\xa4Port\x00\xabRelayFactor\x00\xaaSourceNode\xa0\xa7Timeout\xd2\xff\xff\x7f\xff",
            "Query(Query { time: 0, id: 0, addr: [], port: 0, source_node: [], filters: [], flags: 0, relay_factor: 0, timeout: -32769, name: [], payload: [] })",
        ),
        (
            b"\x04\x8b\xa4Addr\xc0\xa7Filters\xc0\xa5Flags\x00\xa2ID\x00\xa5LTime\x00\xa4Name\xa0\xa7Payload\xc0\xa4Port\x00\xabRelayFactor\x00\xaaSourceNode\xa0\xa7Timeout\xd3\xff\xff\xff\xff\x7f\xff\xff\xff",
            "Query(Query { time: 0, id: 0, addr: [], port: 0, source_node: [], filters: [], flags: 0, relay_factor: 0, timeout: -2147483649, name: [], payload: [] })",
        ),
        (
            b"\x04\x8b\xa4Addr\xc0\xa7Filters\xc0\xa5Flags\x00\xa2ID\x00\xa5LTime\x00\xa4Name\xa0\xa7Payload\xc0\xa4Port\x00\xabRelayFactor\x00\xaaSourceNode\xa0\xa7Timeout\xcf\x7f\xff\xff\xff\xff\xff\xff\xff",
            "Query(Query { time: 0, id: 0, addr: [], port: 0, source_node: [], filters: [], flags: 0, relay_factor: 0, timeout: 9223372036854775807, name: [], payload: [] })",
        ),
    ];
    for (bytes, fields) in rows {
        let message = decode_message(rt.alloc(), bytes)?;
        let text = format!(in rt.alloc(); "{message:?}")?;
        assert_eq!(rt; text.as_str(), fields);
    }
    Ok(())
}

/// A state, a coordinate, tags and the messages about keys, of the same writers.
#[test]
fn other_parts_are_read(rt: HostRuntime) -> Result<(), Fail> {
    let alloc = rt.alloc();
    let state = decode_state(alloc, STATE)?;
    let text = format!(in alloc; "{state:?}")?;
    assert_eq!(rt;
        text.as_str(),
        "State { time: 9, status_times: [StatusTime { node: [119, 101, 98, 45, 49], time: 4 }], left_members: [[119, 101, 98, 45, 51]], event_time: 3, events: [None, Some(EventGroup { time: 1, events: [GroupedEvent { name: [100, 101, 112, 108, 111, 121], payload: [118, 49] }, GroupedEvent { name: [120], payload: [] }] }), None], query_time: 2 }"
    );
    let coordinate = decode_coordinate(alloc, COORDINATE)?;
    let text = format!(in alloc; "{coordinate:?}")?;
    assert_eq!(rt;
        text.as_str(),
        "Coordinate { vec: [4552428528531872287, 4549879053123238908, 13771244300222342960, 4549704082519827115, 13774896165966216126, 4546039479198384202, 13765198694440492984, 4551518827180312491], error: 4604675464863880626, adjustment: 4545139862202708867, height: 4550547121159958230 }"
    );
    let tags = decode_tags(alloc, b"\xff\x81\xa4role\xa2db")?;
    let text = format!(in alloc; "{tags:?}")?;
    assert_eq!(rt;
        text.as_str(),
        "[Tag { name: [114, 111, 108, 101], value: [100, 98] }]"
    );
    let role = decode_tags(alloc, b"web")?;
    let text = format!(in alloc; "{role:?}")?;
    assert_eq!(rt;
        text.as_str(),
        "[Tag { name: [114, 111, 108, 101], value: [119, 101, 98] }]"
    );
    let request = decode_key_request(alloc, KEY_REQUEST)?;
    let text = format!(in alloc; "{request:?}")?;
    assert_eq!(rt;
        text.as_str(),
        "KeyRequest { key: [48, 49, 50, 51, 52, 53, 54, 55, 56, 57, 97, 98, 99, 100, 101, 102] }"
    );
    let response = decode_key_response(
        alloc,
        b"\x08\x84\xa4Keys\x92\xa4MDEy\xa0\xa7Message\xa0\xaaPrimaryKey\xa4MDEy\xa6Result\xc3",
    )?;
    let text = format!(in alloc; "{response:?}")?;
    assert_eq!(rt;
        text.as_str(),
        "KeyResponse { result: true, message: [], keys: [[77, 68, 69, 121], []], primary_key: [77, 68, 69, 121] }"
    );
    Ok(())
}

/// Messages as Serf writes them: a payload and filters without bytes are nil.
#[test]
fn messages_are_written(rt: HostRuntime) -> Result<(), Fail> {
    let alloc = rt.alloc();
    let node = b"web-4".to_vec(alloc)?;
    let leave = Message::Leave(Leave {
        time: 6,
        node,
        prune: false,
    });
    assert_eq!(rt;
        encode_message(alloc, &leave)?.as_slice(),
        b"\x00\x83\xa5LTime\x06\xa4Node\xa5web-4\xa5Prune\xc2".as_slice()
    );
    let join = Message::Join(Join {
        time: 5,
        node: b"web-6".to_vec(alloc)?,
    });
    assert_eq!(rt;
        encode_message(alloc, &join)?.as_slice(),
        b"\x01\x82\xa5LTime\x05\xa4Node\xa5web-6".as_slice()
    );
    let event = Message::Event(UserEvent {
        time: 1,
        name: b"deploy".to_vec(alloc)?,
        payload: b"v1".to_vec(alloc)?,
        coalesce: true,
    });
    assert_eq!(rt;
        encode_message(alloc, &event)?.as_slice(),
        b"\x03\x84\xa2CC\xc3\xa5LTime\x01\xa4Name\xa6deploy\xa7Payload\xa2v1".as_slice()
    );
    let query = Message::Query(Query {
        time: 0,
        id: 0,
        addr: Vec::new(alloc),
        port: 0,
        source_node: Vec::new(alloc),
        filters: Vec::new(alloc),
        flags: 0,
        relay_factor: 0,
        timeout: -129,
        name: Vec::new(alloc),
        payload: Vec::new(alloc),
    });
    assert_eq!(rt;
        encode_message(alloc, &query)?.as_slice(),
        b"\x04\x8b\xa4Addr\xc0\xa7Filters\xc0\xa5Flags\x00\xa2ID\x00\xa5LTime\x00\xa4Name\xa0\xa7Payload\xc0\xa4Port\x00\xabRelayFactor\x00\xaaSourceNode\xa0\xa7Timeout\xd1\xff\x7f".as_slice()
    );
    Ok(())
}

/// The same of the other parts.
#[test]
fn other_parts_are_written(rt: HostRuntime) -> Result<(), Fail> {
    let alloc = rt.alloc();
    let relay = Message::Relay(Relay {
        addr: b"\x0a\x00\x00\x01".to_vec(alloc)?,
        port: 7946,
        zone: b"eth0".to_vec(alloc)?,
        name: b"web-1".to_vec(alloc)?,
        message: b"\x05\x80".to_vec(alloc)?,
    });
    assert_eq!(rt;
        encode_message(alloc, &relay)?.as_slice(),
        b"\x09\x82\xa8DestAddr\x83\xa2IP\xa4\x0a\x00\x00\x01\xa4Port\xcd\x1f\x0a\xa4Zone\xa4eth0\xa8DestName\xa5web-1\x05\x80".as_slice()
    );
    let request = KeyRequest {
        key: b"0123456789abcdef".to_vec(alloc)?,
    };
    assert_eq!(rt;
        encode_key_request(alloc, &request)?.as_slice(),
        KEY_REQUEST
    );
    let state = State {
        time: 0,
        status_times: Vec::new(alloc),
        left_members: Vec::new(alloc),
        event_time: 0,
        events: Vec::new(alloc),
        query_time: 0,
    };
    assert_eq!(rt;
        encode_state(alloc, &state)?.as_slice(),
        b"\x02\x86\xaaEventLTime\x00\xa6Events\x90\xa5LTime\x00\xabLeftMembers\x90\xaaQueryLTime\x00\xacStatusLTimes\x80".as_slice()
    );
    Ok(())
}

/// Coordinates, tags and key responses as the writer in Go has them.
#[test]
fn small_parts_are_written(rt: HostRuntime) -> Result<(), Fail> {
    let alloc = rt.alloc();
    let mut vec = Vec::new(alloc);
    vec.push(0x3fe0_0000_0000_0000)?;
    vec.push(0xbff0_0000_0000_0000)?;
    let coordinate = Coordinate {
        vec,
        error: 0x3ff8_0000_0000_0000,
        adjustment: 0,
        height: 0x3ee4_f8b5_88e3_68f1,
    };
    assert_eq!(rt;
        encode_coordinate(alloc, &coordinate)?.as_slice(),
        b"\x01\x84\xaaAdjustment\xcb\x00\x00\x00\x00\x00\x00\x00\x00\xa5Error\xcb?\xf8\x00\x00\x00\x00\x00\x00\xa6Height\xcb>\xe4\xf8\xb5\x88\xe3h\xf1\xa3Vec\x92\xcb?\xe0\x00\x00\x00\x00\x00\x00\xcb\xbf\xf0\x00\x00\x00\x00\x00\x00".as_slice()
    );
    let mut tags = Vec::new(alloc);
    tags.push(Tag {
        name: b"role".to_vec(alloc)?,
        value: b"web".to_vec(alloc)?,
    })?;
    assert_eq!(rt;
        encode_tags(alloc, &tags)?.as_slice(),
        b"\xff\x81\xa4role\xa3web".as_slice()
    );
    let response = KeyResponse {
        result: false,
        message: b"no".to_vec(alloc)?,
        keys: Vec::new(alloc),
        primary_key: Vec::new(alloc),
    };
    assert_eq!(rt;
        encode_key_response(alloc, &response)?.as_slice(),
        b"\x08\x84\xa4Keys\xc0\xa7Message\xa2no\xaaPrimaryKey\xa0\xa6Result\xc2".as_slice()
    );
    Ok(())
}

/// A map with a count in two bytes.
#[test]
fn seventeen_tags_are_read(rt: HostRuntime) -> Result<(), Fail> {
    let tags = decode_tags(
        rt.alloc(),
        b"\xff\xde\x00\x11\xa3t14\xa1v\xa3t15\xa1v\xa2t0\xa1v\xa2t1\xa1v\xa2t4\xa1v\xa2t7\xa1v\xa2t9\xa1v\xa3t11\xa1v\xa3t13\xa1v\xa2t3\xa1v\xa2t5\xa1v\xa2t8\xa1v\xa3t12\xa1v\xa2t2\xa1v\xa2t6\xa1v\xa3t10\xa1v\xa3t16\xa1v",
    )?;
    assert_eq!(rt; tags.len(), 17);
    Ok(())
}

/// Refused bytes give their fault, whatever counts and lengths they claim.
#[test]
fn refused_bytes_ask_for_little(rt: HostRuntime) -> Result<(), Fail> {
    let rows: [(&[u8], SerfFault); 16] = [
        (b"", SerfFault::Ended),
        (b"\x02\x80", SerfFault::WrongType { found: 2 }),
        (b"\x0a\x80", SerfFault::WrongType { found: 10 }),
        (b"\x01\xa0", SerfFault::NotMap),
        (b"\x01\x80\x00", SerfFault::Trailing),
        (b"\x01\x81\xc4\x00\x00", SerfFault::NotRaw),
        (b"\x01\x81\xa5LTime\xff", SerfFault::NotNumber),
        (b"\x01\x81\xa5LTime\xa0", SerfFault::NotNumber),
        (b"\x00\x81\xa5Prune\x02", SerfFault::NotBool),
        (
            b"\x04\x81\xa4Port\xce\x00\x01\x00\x00",
            SerfFault::OutOfRange,
        ),
        (b"\x04\x81\xa7Filters\xa0", SerfFault::NotList),
        (
            b"\x04\x81\xa7Filters\xdd\xff\xff\xff\xff\xc0",
            SerfFault::Ended,
        ),
        (b"\x01\x81\xa1x\xc1", SerfFault::NotValue),
        (b"\x01\xdf\xff\xff\xff\xff", SerfFault::Ended),
        (b"\x03\x81\xa7Payload\xdb\xff\xff\xff\xff", SerfFault::Ended),
        (b"\x01\x81\xa1x\xdd\xff\xff\xff\xff\x01", SerfFault::Ended),
    ];
    for (bytes, fault) in rows {
        let found = decode_message(rt.alloc(), bytes).err();
        if found == Some(SerfFault::Memory) {
            return Err(Fail::from(AllocError));
        }
        assert_eq!(rt; found, Some(fault));
    }
    Ok(())
}

/// The same of the other parts.
#[test]
fn other_refused_bytes_ask_for_little(rt: HostRuntime) -> Result<(), Fail> {
    let alloc = rt.alloc();
    assert_eq!(rt;
        decode_state(alloc, b"\x01\x80").err(),
        Some(SerfFault::WrongType { found: 1 })
    );
    assert_eq!(rt;
        decode_coordinate(alloc, b"\x02\x80").err(),
        Some(SerfFault::WrongVersion { found: 2 })
    );
    assert_eq!(rt;
        decode_coordinate(alloc, b"\x01\x81\xa5Error\x01").err(),
        Some(SerfFault::NotFloat)
    );
    assert_eq!(rt;
        decode_tags(alloc, b"\xff\x90").err(),
        Some(SerfFault::NotMap)
    );
    assert_eq!(rt;
        decode_tags(alloc, b"\xff\xdf\xff\xff\xff\xff").err(),
        Some(SerfFault::Ended)
    );
    assert_eq!(rt;
        decode_key_request(alloc, b"\x08\x80").err(),
        Some(SerfFault::WrongType { found: 8 })
    );
    Ok(())
}
