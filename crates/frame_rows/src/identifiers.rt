use std::process::Abort;
use std::test::Fail;
use wire_ids::{
    BoundedText, Decision, DevAddr, Eui, IdFault, NetId, Nonce24, PeerId, ShortText, Text,
    address_of, net_matches, without_prefix,
};

fn expect_address(rt: &impl Abort, net: u32, n: u32, want: Option<u32>) {
    match NetId::new(net) {
        Some(net) => {
            assert_eq!(rt; address_of(net, n), want.map(DevAddr));
            if let Some(addr) = want {
                assert!(rt; net_matches(DevAddr(addr), net));
                assert!(rt; !net_matches(DevAddr(addr ^ 0x02000000), net));
            }
        }
        None => assert!(rt; false),
    }
}

// The rows are those of the table of NetID types (TS002-1.1.0).
#[test]
fn a_network_has_the_addresses_that_its_type_leaves(rt: HostRuntime) -> Result<(), Fail> {
    for (net, n, want) in [
        (0x000013, 1, Some(0x26000001)),
        (0x000014, 1, Some(0x28000001)),
        (0x600005, 0, Some(0xe00a0000)),
        (0xc00003, 1023, Some(0xfc000fff)),
        (0xc00003, 1024, None),
        (0xe00001, 127, Some(0xfe0000ff)),
        (0xe00001, 128, None),
    ] {
        expect_address(&rt, net, n, want);
    }
    assert_eq!(rt; NetId::new(0x1000000), None);
    assert_eq!(rt; Nonce24::new(0x1000000), None);
    Ok(())
}

#[test]
fn an_identifier_is_read_or_refused_at_its_first_fault(rt: HostRuntime) -> Result<(), Fail> {
    for (text, want) in [
        ("70b3d57ed0001021", Ok(Eui(0x70b3d57ed0001021))),
        ("0x70b3d57ed0001021", Ok(Eui(0x70b3d57ed0001021))),
        ("0X70B3D57ED0001021", Ok(Eui(0x70b3d57ed0001021))),
        ("0x0x70b3d57ed0001021", Err(IdFault::BadLength { got: 18 })),
        ("0x00b3d57ed000102", Err(IdFault::BadLength { got: 15 })),
        ("70b3d57ed00010210", Err(IdFault::BadLength { got: 17 })),
        ("g0b3d57ed0001021", Err(IdFault::BadDigit { place: 0 })),
        ("0xg0b3d57ed0001021", Err(IdFault::BadDigit { place: 0 })),
        ("70b3d57e:000102g", Err(IdFault::BadDigit { place: 8 })),
        ("70b3d57ed000102G", Err(IdFault::BadDigit { place: 15 })),
        ("g", Err(IdFault::BadLength { got: 1 })),
        ("0x", Err(IdFault::BadLength { got: 0 })),
        ("", Err(IdFault::BadLength { got: 0 })),
    ] {
        assert_eq!(rt; Eui::from_hex(text.as_bytes()), want);
    }
    assert_eq!(rt; DevAddr::from_hex(b"0x26000001"), Ok(DevAddr(0x26000001)));
    assert_eq!(rt;
        DevAddr::from_hex(b"2600000"),
        Err(IdFault::BadLength { got: 7 })
    );
    assert_eq!(rt;
        NetId::from_hex(b"0x00x0"),
        Err(IdFault::BadLength { got: 4 })
    );
    assert_eq!(rt;
        NetId::from_hex(b"0x00000x"),
        Err(IdFault::BadDigit { place: 5 })
    );
    assert_eq!(rt;
        NetId::from_hex(b"60000A"),
        Ok(NetId::from_be_bytes([0x60, 0, 10]))
    );
    Ok(())
}

#[test]
fn digits_have_the_highest_byte_first_and_frames_the_lowest(rt: HostRuntime) -> Result<(), Fail> {
    let eui = Eui(0x70b3d57ed0001021);
    assert_eq!(rt; &eui.to_hex(), b"70b3d57ed0001021");
    assert_eq!(rt;
        eui.to_wire(),
        [0x21, 0x10, 0, 0xd0, 0x7e, 0xd5, 0xb3, 0x70]
    );
    assert_eq!(rt; Eui::from_wire(eui.to_wire()), eui);
    let addr = DevAddr(0x2600000a);
    assert_eq!(rt; &addr.to_hex(), b"2600000a");
    assert_eq!(rt; addr.to_wire(), [0x0a, 0, 0, 0x26]);
    assert_eq!(rt; DevAddr::from_wire([0x0a, 0, 0, 0x26]), addr);
    let net = NetId::from_be_bytes([0x60, 0, 0x5a]);
    assert_eq!(rt; &net.to_hex(), b"60005a");
    assert_eq!(rt; net.to_wire(), [0x5a, 0, 0x60]);
    assert_eq!(rt; NetId::from_wire([0x5a, 0, 0x60]), net);
    let nonce = Nonce24::new(0x01abcd).ok_or("bits")?;
    assert_eq!(rt; &nonce.to_hex(), b"01abcd");
    assert_eq!(rt; nonce.to_wire(), [0xcd, 0xab, 1]);
    assert_eq!(rt; Nonce24::from_wire([0xcd, 0xab, 1]), nonce);
    assert_eq!(rt; Nonce24::from_be_bytes([1, 0xab, 0xcd]), nonce);
    Ok(())
}

fn is_send<T: Send>(value: T) -> T {
    value
}

#[test]
fn texts_can_be_sent_and_are_equal_where_their_bytes_are(rt: HostRuntime) -> Result<(), Fail> {
    let text = is_send(Text::of_slice(rt.alloc(), b"desk")?);
    assert_eq!(rt; text, Text::new(b"desk".to_vec(rt.alloc())?));
    assert!(rt; !text.is_empty());
    let short = is_send(ShortText::of_slice(rt.alloc(), b"desk")?);
    assert_eq!(rt; short, ShortText::new(text.into_vec()));
    let four = BoundedText::<4>::of_slice(rt.alloc(), b"desk")?;
    assert_eq!(rt; four.map(|t| t.len()), Some(4));
    assert_eq!(rt; BoundedText::<3>::of_slice(rt.alloc(), b"desk")?, None);
    assert_eq!(rt; without_prefix(b"0X0x12"), b"0x12".as_slice());
    Ok(())
}

#[test]
fn a_decision_lends_its_entry(rt: HostRuntime) -> Result<(), Fail> {
    let peer = PeerId::JoinServer(Eui(1));
    for (decision, want) in [
        (Decision::Reply(1), None),
        (Decision::Accept(1, 2), Some(2)),
        (Decision::AskPeer(peer, 3, 4), Some(4)),
    ] {
        assert_eq!(rt; decision.entry().copied(), want);
    }
    Ok(())
}
