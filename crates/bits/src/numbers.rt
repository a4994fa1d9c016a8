// Numbers of 32 bits in a buffer, most significant byte first.
ghost use Rattle.std.specs.Prelude.{◌≡◌, ◌+◌, ◌*◌, ◌^◌, ◌<◌, ◌≤◌, length};
ghost use Rattle.bits.specs.Numbers32.{number32, bytes32};

// Number k of a buffer.
pub fn number(bytes: &[u8], k: usize) -> usize
    requires { 4 * k + 4 ≤ length bytes.now }
    ensures { (result ≡ number32 bytes.now k) × (result < 2 ^ 32) }
{
    let (numbers, _) = bytes.as_chunks::<4>();
    u32::from_be_bytes(numbers[k]) as usize
}

// Writes numbers, one after the other.
pub fn put_numbers(numbers: &[u32], bytes: &mut [u8])
    requires { (length numbers.now ≤ 4) × (length bytes.old ≡ 4 * length numbers.now) }
    ensures { bytes.new ≡ bytes32 numbers.now }
{
    for (k, number) in numbers.iter().enumerate() {
        bytes[4 * k..4 * k + 4].copy_from_slice(&number.to_be_bytes());
    }
}
