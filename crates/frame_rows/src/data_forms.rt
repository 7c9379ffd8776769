// The bytes and MICs were made by the CMAC of Python's `cryptography` (bench/frames.py).
use data_frames::{
    DataUp, Down, DownBytes, UpParts, full_count, mic_f_ok, mic_up_ok, read_data, up_bytes,
    write_down,
};
use std::process::Abort;
use std::test::Fail;
use wire_ids::{DevAddr, FrameFault, SessionKeys};

const ADDR: DevAddr = DevAddr(0x26000001);

fn keys() -> SessionKeys {
    SessionKeys {
        f: [0x11; 16],
        s: [0x22; 16],
        e: [0x33; 16],
    }
}

// 0, 1, 2 ..
fn counted() -> [u8; 242] {
    std::array::from_fn(|k| k as u8)
}

fn sent(up: &UpParts<'_>) -> Option<DownBytes> {
    let bare = up.port.is_some() || up.payload.is_empty();
    if up.fopts.len() <= 15 && up.payload.len() <= 242 - up.fopts.len() && bare {
        Some(up_bytes(&keys(), up))
    } else {
        None
    }
}

fn written(down: &Down<'_>) -> Option<DownBytes> {
    let bare = down.port.is_some() || down.payload.is_empty();
    if down.payload.len() <= 242 && bare {
        Some(write_down(&keys(), down))
    } else {
        None
    }
}

// The frame begins and ends with these bytes, and has so many.
fn expect_frame(rt: &impl Abort, frame: &[u8], head: u64, len: usize, mic: u32) {
    assert_eq!(rt; frame.len(), len);
    assert_eq!(rt; frame.first_chunk::<8>(), Some(&head.to_be_bytes()));
    assert_eq!(rt; frame.last_chunk::<4>(), Some(&mic.to_be_bytes()));
}

// What is read is what was sent, and its MIC is valid on its channel alone.
fn expect_sent(rt: &impl Abort, frame: &[u8], up: &UpParts<'_>) {
    match read_data(frame) {
        Ok(read) => {
            assert_eq!(rt; read.addr, up.addr);
            assert_eq!(rt; read.fopts, up.fopts);
            assert_eq!(rt; u32::from(read.wire), up.count % 65536);
            assert_eq!(rt; read.port, up.port);
            assert_eq!(rt; read.payload, up.payload);
            assert_eq!(rt;
                [
                    read.confirmed,
                    read.adr,
                    read.adr_ack_req,
                    read.ack,
                    read.class_b,
                ],
                [up.confirmed, up.adr, up.adr_ack_req, up.ack, false]
            );
            expect_channel(rt, &read, up);
        }
        Err(_) => assert!(rt; false),
    }
}

fn expect_channel(rt: &impl Abort, read: &DataUp<'_>, up: &UpParts<'_>) {
    let keys = keys();
    let own = 1 << (up.channel % 8);
    for (count, conf, rate, channels, want) in [
        (up.count, up.conf, up.rate, own, Some(up.channel)),
        (up.count, up.conf, up.rate, 255, Some(up.channel)),
        (up.count, up.conf, up.rate, 255 - own, None),
        (up.count ^ 0x10000, up.conf, up.rate, 255, None),
        (up.count, up.conf ^ 0x100, up.rate, 255, None),
        (up.count, up.conf, up.rate ^ 1, 255, None),
    ] {
        assert_eq!(rt; mic_up_ok(&keys, read, count, conf, rate, channels), want);
    }
    assert!(rt; mic_f_ok(&keys.f, read, up.count));
    assert!(rt; !mic_f_ok(&keys.s, read, up.count));
}

#[test]
fn uplinks_are_written_and_read(rt: HostRuntime) -> Result<(), Fail> {
    let text = counted();
    let bytes = text.as_slice();
    // confirmed, ADR, ADRACKReq, ACK; FOptsLen, FPort, length of FRMPayload; counter, ConfFCnt,
    // TxDr, TxCh; the first eight bytes, the length, the MIC
    for (flags, (fopts, port, payload), (count, conf, rate, channel), (head, len, mic)) in [
        (
            [false, false, false, false],
            (0, None, 0),
            (0, 0, 0, 0),
            (0x4001000026000000, 12, 0xaddb488e),
        ),
        (
            [true, false, false, true],
            (0, Some(7), 242),
            (0x12345, 0xabcd, 5, 7),
            (0x8001000026204523, 255, 0x8931e7c1),
        ),
        (
            [false, true, true, false],
            (15, None, 0),
            (0xffffffff, 0, 3, 2),
            (0x4001000026cfffff, 27, 0x41f5376a),
        ),
        (
            [true, true, false, true],
            (15, Some(0), 3),
            (0xff, 0x8001, 0, 4),
            (0x8001000026afff00, 31, 0xff186e36),
        ),
    ] {
        let [confirmed, adr, adr_ack_req, ack] = flags;
        let up = UpParts {
            confirmed,
            addr: ADDR,
            adr,
            adr_ack_req,
            ack,
            fopts: bytes.get(..fopts).ok_or("fopts")?,
            port,
            payload: bytes.get(..payload).ok_or("payload")?,
            count,
            conf,
            rate,
            channel,
        };
        let frame = sent(&up).ok_or("row")?;
        expect_frame(&rt, frame.as_slice(), head, len, mic);
        expect_sent(&rt, frame.as_slice(), &up);
    }
    Ok(())
}

#[test]
fn downlinks_are_written(rt: HostRuntime) -> Result<(), Fail> {
    let text = counted();
    let bytes = text.as_slice();
    for (confirmed, ack, pending, count, (port, payload), (head, len, mic)) in [
        (
            false,
            Some(0x12345),
            false,
            0,
            (None, 0),
            (0x6001000026200000, 12, 0xb59ac6e8),
        ),
        (
            true,
            None,
            true,
            0x1ffff,
            (Some(200), 242),
            (0xa00100002610ffff, 255, 0x8fb2dde4),
        ),
        (
            false,
            None,
            false,
            0xfffffffe,
            (Some(1), 1),
            (0x600100002600feff, 14, 0x28e71163),
        ),
        (
            true,
            Some(0xffff0001),
            true,
            7,
            (Some(0), 3),
            (0xa001000026300700, 16, 0xc1245fc5),
        ),
    ] {
        let down = Down {
            addr: ADDR,
            confirmed,
            ack,
            pending,
            count,
            port,
            payload: bytes.get(..payload).ok_or("payload")?,
        };
        let frame = written(&down).ok_or("row")?;
        expect_frame(&rt, frame.as_slice(), head, len, mic);
    }
    Ok(())
}

#[test]
fn a_frame_is_refused_for_its_size_and_then_for_its_type(rt: HostRuntime) -> Result<(), Fail> {
    for (len, first, control, want) in [
        (12, 0x40, 0, None),
        (255, 0x80, 0, None),
        (27, 0x40, 15, None),
        (13, 0x80, 0xf1, None),
        (11, 0x40, 0, Some(FrameFault::Size { got: 11 })),
        (256, 0x40, 0, Some(FrameFault::Size { got: 256 })),
        (26, 0x40, 15, Some(FrameFault::Size { got: 26 })),
        (12, 0x60, 1, Some(FrameFault::Size { got: 12 })),
        (12, 0x60, 0, Some(FrameFault::Form)),
        (12, 0xa0, 0, Some(FrameFault::Form)),
        (12, 0x41, 0, Some(FrameFault::Form)),
        (23, 0, 0, Some(FrameFault::Form)),
    ] {
        let mut bytes = [0; 256];
        bytes[0] = first;
        bytes[5] = control;
        let frame = bytes.get(..len).ok_or("row")?;
        assert_eq!(rt; read_data(frame).err(), want);
    }
    Ok(())
}

#[test]
fn a_counter_is_the_next_with_its_low_bits(rt: HostRuntime) -> Result<(), Fail> {
    for (last, wire, want) in [
        (None, 0, Some(0)),
        (None, 0xffff, Some(0xffff)),
        (Some(65535), 0, Some(65536)),
        (Some(0), 0, Some(65536)),
        (Some(0), 1, Some(1)),
        (Some(0x1fffe), 0xffff, Some(0x1ffff)),
        (Some(0x1ffff), 0xfffe, Some(0x2fffe)),
        (Some(4294967294), 0xffff, Some(4294967295)),
        (Some(4294967295), 0xffff, None),
        (Some(4294967295), 0, None),
    ] {
        assert_eq!(rt; full_count(last, wire), want);
    }
    Ok(())
}
