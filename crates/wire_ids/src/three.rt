// Numbers of 24 bits, as three bytes.
ghost use Rattle.std.specs.Prelude.{◌≡◌, ◌<◌, ◌^◌};
ghost use Rattle.wire_ids.specs.Numbers.{three_bytes, three_number, wire_bytes, wire_number};

pub(crate) fn be_number(bytes: [u8; 3]) -> u32
    ensures number { result ≡ three_number bytes }
    ensures small { result < 2 ^ 24 }
{
    let [high, middle, low] = bytes;
    u32::from(high) * 65536 + u32::from(middle) * 256 + u32::from(low)
}

pub(crate) fn wire_number(bytes: [u8; 3]) -> u32
    ensures number { result ≡ wire_number bytes }
    ensures back { wire_bytes result ≡ bytes }
    ensures small { result < 2 ^ 24 }
{
    let [low, middle, high] = bytes;
    u32::from(low) + u32::from(middle) * 256 + u32::from(high) * 65536
}

pub(crate) fn be_bytes(number: u32) -> [u8; 3]
    ensures { result ≡ three_bytes number }
{
    [
        (number / 65536 % 256) as u8,
        (number / 256 % 256) as u8,
        (number % 256) as u8,
    ]
}

pub(crate) fn wire_bytes(number: u32) -> [u8; 3]
    ensures { result ≡ wire_bytes number }
{
    [
        (number % 256) as u8,
        (number / 256 % 256) as u8,
        (number / 65536 % 256) as u8,
    ]
}
