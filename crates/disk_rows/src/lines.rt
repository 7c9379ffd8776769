ghost use Rattle.std.specs.Prelude.{◌<◌, ◌^◌, None};

use disk_model::{Failed, MemorySource, Source};
use line_reader::{Ahead, Heard, LineFault, next_line};
use std::alloc::{AllocError, Global};
use std::test::Fail;

fn is_send<T: Send>() {}

// Zeros without an end.
#[derive(Drop)]
struct Zeros;

impl Source for Zeros {
    ghost left = { λ z. None };

    ghost faults = { λ z. 0 };

    fn read(&mut self, room: &mut [u8]) -> Result<usize, Failed> {
        room.fill(0);
        Ok(room.len())
    }
}

// Hears the lines to the end or a fault, and puts each with a bar behind it into `heard`.
fn hear_all<T: Source>(
    alloc: Global,
    limit: u64,
    source: &mut T,
    heard: &mut Vec<u8>,
) -> Result<(), LineFault>
    requires { limit < 2 ^ 63 }
{
    let Ok(mut ahead) = Ahead::with_limit(alloc, limit) else {
        return Err(LineFault::Memory);
    };
    while let Heard::Line(text) = next_line(alloc, &mut ahead, source)? {
        add(heard, text.as_slice())?;
    }
    Ok(())
}

fn add(heard: &mut Vec<u8>, line: &[u8]) -> Result<(), AllocError> {
    heard.extend_from_slice(line)?;
    heard.extend_from_slice(b"|")
}

#[test]
fn lines_are_heard_whole_from_any_pieces(rt: HostRuntime) -> Result<(), Fail> {
    let alloc = rt.alloc();
    is_send::<Ahead>();
    for (input, want) in [
        (b"".as_slice(), b"".as_slice()),
        (b"\n", b"|"),
        (b"a\n", b"a|"),
        (b"a\n\nbc\r\n\r\nd", b"a||bc\r|\r|d|"),
    ] {
        for most in [1, 3, 1000] {
            let mut source = MemorySource::with(input.to_vec(alloc)?, most, 0, 0);
            let mut heard = Vec::new(alloc);
            assert_eq!(rt; hear_all(alloc, 100, &mut source, &mut heard), Ok(()));
            assert_eq!(rt; heard.as_slice(), want);
        }
    }
    Ok(())
}

#[test]
fn a_fault_or_the_limit_ends_the_lines(rt: HostRuntime) -> Result<(), Fail> {
    let alloc = rt.alloc();
    let input = b"ab\ncd\nef";
    for (limit, passes, fails, want, end) in [
        (9, 0, 0, b"ab|cd|ef|".as_slice(), Ok(())),
        (8, 0, 0, b"ab|cd|ef|", Ok(())),
        (7, 0, 0, b"ab|cd|", Err(LineFault::TooMuch)),
        (6, 0, 0, b"ab|cd|", Err(LineFault::TooMuch)),
        (5, 0, 0, b"ab|", Err(LineFault::TooMuch)),
        (0, 0, 0, b"", Err(LineFault::TooMuch)),
        (9, 1, 1, b"ab|", Err(LineFault::Failed)),
        (9, 0, 1, b"", Err(LineFault::Failed)),
    ] {
        let mut source = MemorySource::with(input.to_vec(alloc)?, 4, passes, fails);
        let mut heard = Vec::new(alloc);
        assert_eq!(rt; hear_all(alloc, limit, &mut source, &mut heard), end);
        assert_eq!(rt; heard.as_slice(), want);
    }
    let mut heard = Vec::new(alloc);
    assert_eq!(rt;
        hear_all(alloc, 100_000, &mut Zeros, &mut heard),
        Err(LineFault::TooMuch)
    );
    assert_eq!(rt; heard.is_empty(), true);
    Ok(())
}

#[test]
fn a_long_line_is_heard_by_its_first_bytes(rt: HostRuntime) -> Result<(), Fail> {
    let alloc = rt.alloc();
    let mut input = Vec::new(alloc);
    let mut want = Vec::new(alloc);
    for (byte, length, kept) in [(b'x', 8192, 8192), (b'y', 8193, 8193), (b'z', 70_000, 8193)] {
        input.extend_from_slice(vec![in alloc; byte; length]?.as_slice())?;
        input.extend_from_slice(b"\n")?;
        add(&mut want, vec![in alloc; byte; kept]?.as_slice())?;
    }
    add(&mut want, b"e")?;
    input.extend_from_slice(b"e")?;
    let mut heard = Vec::new(alloc);
    let mut source = MemorySource::new(input);
    assert_eq!(rt; hear_all(alloc, 1 << 30, &mut source, &mut heard), Ok(()));
    assert_eq!(rt; heard.as_slice() == want.as_slice(), true);
    Ok(())
}
