use disk_model::{
    Calls, Clock, ClosedClock, ClosedDisk, ClosedLink, Disk, Failed, FixedClock, FuseDisk, Link,
    LinkFault, MemoryCalls, MemoryDisk, MemorySink, MemorySource, ScriptLink, Sink, Source,
    write_whole,
};
use std::test::Fail;
use wire_ids::{Eui, PeerId, Text};

fn is_send<T: Send>() {}

const PEER: PeerId = PeerId::JoinServer(Eui(7));

#[test]
fn streams_in_memory(rt: HostRuntime) -> Result<(), Fail> {
    let alloc = rt.alloc();
    is_send::<MemorySource>();
    is_send::<MemorySink>();
    let mut source = MemorySource::with(b"abcde".to_vec(alloc)?, 3, 1, 2);
    let mut room = [0; 4];
    let mut given = Vec::new(alloc);
    for want in [Ok(3), Err(Failed), Err(Failed), Ok(2), Ok(0)] {
        let got = source.read(&mut room);
        assert_eq!(rt; got, want);
        let count = got.unwrap_or(0).min(room.len());
        given.extend_from_slice(&room[..count])?;
    }
    assert_eq!(rt; given.as_slice(), b"abcde".as_slice());
    assert_eq!(rt; source.faults(), 2);

    let mut sink = MemorySink::new(alloc, 5)?;
    for (piece, want) in [
        (b"abc".as_slice(), Ok(())),
        (b"def".as_slice(), Err(Failed)),
    ] {
        assert_eq!(rt; write_whole(&mut sink, piece), want);
    }
    assert_eq!(rt; sink.written(), b"abcde".as_slice());
    assert_eq!(rt; sink.write(b""), Ok(0));
    assert_eq!(rt; sink.faults(), 1);
    Ok(())
}

#[test]
fn peers_in_memory(rt: HostRuntime) -> Result<(), Fail> {
    let alloc = rt.alloc();
    is_send::<ScriptLink>();
    is_send::<ClosedLink>();
    let long = Text::new(vec![in alloc; b'x'; 8194]?);
    let script = vec![in alloc; Some(Text::of_slice(alloc, b"yes")?), None, Some(long)]?;
    let mut link = ScriptLink::new(alloc, script);
    let mut answer = Vec::new(alloc);
    let failed = Err(LinkFault::Failed);
    for (want, length) in [(Ok(()), 3), (failed, 3), (Ok(()), 8193), (failed, 8193)] {
        assert_eq!(rt; link.ask(alloc, PEER, b"body", &mut answer), want);
        assert_eq!(rt; answer.len(), length);
    }
    assert_eq!(rt; link.asked().len(), 4);
    for asked in link.asked() {
        assert_eq!(rt; asked.peer, PEER);
        assert_eq!(rt; asked.body.as_slice(), b"body".as_slice());
    }
    assert_eq!(rt; link.faults(), 2);
    let mut closed = ClosedLink::new();
    assert_eq!(rt; closed.ask(alloc, PEER, b"body", &mut answer), failed);
    assert_eq!(rt; closed.faults(), 1);
    Ok(())
}

#[test]
fn clients_in_memory(rt: HostRuntime) -> Result<(), Fail> {
    let alloc = rt.alloc();
    is_send::<MemoryCalls<MemorySource, MemorySink>>();
    let mut made = Vec::new(alloc);
    for body in [b"a", b"b"] {
        made.push((
            MemorySource::new(body.to_vec(alloc)?),
            MemorySink::new(alloc, 1)?,
        ))?;
    }
    let mut calls = MemoryCalls::with(alloc, made, 1, 1)?;
    let Ok(Some((incoming, outgoing))) = calls.next() else {
        return Err(Fail::new("no connection"));
    };
    assert_eq!(rt; calls.next().is_err(), true);
    calls.done(incoming, outgoing);
    assert_eq!(rt; matches!(calls.next(), Ok(Some(_))), true);
    assert_eq!(rt; matches!(calls.next(), Ok(None)), true);
    assert_eq!(rt; calls.back().len(), 1);
    assert_eq!(rt; calls.faults(), 1);
    Ok(())
}

#[test]
fn clocks_and_closed_disks(rt: HostRuntime) -> Result<(), Fail> {
    let alloc = rt.alloc();
    is_send::<FixedClock>();
    is_send::<ClosedClock>();
    is_send::<ClosedDisk>();
    let mut clock = FixedClock::new(vec![in alloc; 1000, 1030]?);
    for want in [1000, 1030, 1030] {
        assert_eq!(rt; clock.now(), want);
    }
    assert_eq!(rt; ClosedClock::new().now(), 0);
    let mut disk = ClosedDisk::new();
    assert_eq!(rt; disk.len(), Err(Failed));
    assert_eq!(rt; disk.read(0, &mut [0]), Err(Failed));
    assert_eq!(rt; disk.write_at(0, b"x"), Err(Failed));
    assert_eq!(rt; disk.sync(), Err(Failed));
    assert_eq!(rt; disk.faults(), 4);
    Ok(())
}

#[test]
fn disks_in_memory(rt: HostRuntime) -> Result<(), Fail> {
    let alloc = rt.alloc();
    is_send::<FuseDisk<MemoryDisk>>();
    let mut disk = MemoryDisk::new(alloc, b"abcd", 8, 6, vec![in alloc; 3]?)?;
    for (at, bytes, want, content) in [
        (2, b"xyz".as_slice(), Ok(()), b"abxyz".as_slice()),
        (5, b"1234".as_slice(), Err(Failed), b"abxyz1".as_slice()),
        (6, b"345".as_slice(), Err(Failed), b"abxyz13".as_slice()),
    ] {
        assert_eq!(rt; disk.len().is_ok(), true);
        assert!(rt; at <= disk.content().len() as u64);
        assert_eq!(rt; disk.write_at(at, bytes), want);
        assert_eq!(rt; disk.content(), content);
    }
    assert_eq!(rt; disk.sync(), Err(Failed));
    assert_eq!(rt; disk.calls().len(), 6);
    assert_eq!(rt; disk.faults(), 3);
    let mut fuse = FuseDisk::new(disk, 1);
    assert_eq!(rt; fuse.sync(), Err(Failed));
    assert_eq!(rt; fuse.len(), Err(Failed));
    assert_eq!(rt; fuse.into_disk().faults(), 4);
    Ok(())
}
