// Numbers as bytes, the lowest byte first (WebAssembly Core 1.0, 4.3.1).

ghost use Rattle.std.specs.Prelude.{◌≡◌, ◌*◌, ◌^◌, ◌<◌, length};
ghost use Rattle.instance.specs.Store.{number_of, bytes_of, byte_count};

use crate::access::AccessSize;

/// The number that these bytes spell.
#[inline]
pub fn number(bytes: &[u8], size: AccessSize) -> u64
    requires { length bytes.now ≡ byte_count size }
    ensures value { result ≡ number_of bytes.now }
    ensures fits { result < 2 ^ (8 * byte_count size) }
{
    let b = bytes;
    match size {
        AccessSize::One => u64::from(b[0]),
        AccessSize::Two => u64::from(u16::from_le_bytes([b[0], b[1]])),
        AccessSize::Four => u64::from(u32::from_le_bytes([b[0], b[1], b[2], b[3]])),
        AccessSize::Eight => {
            u64::from_le_bytes([b[0], b[1], b[2], b[3], b[4], b[5], b[6], b[7]])
        }
    }
}

/// Writes the lowest bytes of a number.
#[inline]
pub fn spell(to: &mut [u8], size: AccessSize, value: u64)
    requires { length to.old ≡ byte_count size }
    ensures { to.new ≡ bytes_of (byte_count size) value }
{
    let [a, b, c, d, e, f, g, h] = value.to_le_bytes();
    match size {
        AccessSize::One => to[0] = a,
        AccessSize::Two => {
            to[0] = a;
            to[1] = b;
        }
        AccessSize::Four => {
            to[0] = a;
            to[1] = b;
            to[2] = c;
            to[3] = d;
        }
        AccessSize::Eight => {
            to[0] = a;
            to[1] = b;
            to[2] = c;
            to[3] = d;
            to[4] = e;
            to[5] = f;
            to[6] = g;
            to[7] = h;
        }
    }
}
