//! How often a byte stands among others.
ghost use Rattle.std.specs.Prelude.{◌≡◌, ◌+◌, ◌-◌, ◌^◌, ◌<◌, ◌≤◌, ◌==◌, length, count_by, slice_range, if◌then◌else◌};

/// How many bytes are counted in one byte, which can count 255.
const BLOCK: usize = 128;

/// How many of the `n` bytes from one on are the wanted byte.
pub fn count_range(bytes: &[u8], from: usize, n: u32, wanted: u8) -> u32
    requires { from + n ≤ length bytes.now }
    ensures count { result ≡ count_by (λ b. b == wanted) (slice_range bytes.now from (from + n)) }
    ensures few { result ≤ n }
{
    count(&bytes[from..from + n as usize], wanted)
}

/// How many of the bytes are the wanted one. They are counted by blocks, since a processor counts many bytes at once
/// where the sum has one byte.
fn count(bytes: &[u8], wanted: u8) -> u32
    requires { length bytes.now < 2 ^ 32 }
    ensures count { result ≡ count_by (λ b. b == wanted) bytes.now }
    ensures few { result ≤ length bytes.now }
{
    let mut found = 0;
    let mut left = bytes;
    while !left.is_empty() {
        let (block, rest) = left.split_at(left.len().min(BLOCK));
        found += count_in_block(block, wanted) as u32;
        left = rest;
    }
    found
}

/// How many of the bytes of a block are the wanted one.
fn count_in_block(block: &[u8], wanted: u8) -> u8
    requires { length block.now ≤ 128 }
    ensures count { result ≡ count_by (λ b. b == wanted) block.now }
    ensures few { result ≤ length block.now }
{
    let mut found = 0;
    for byte in block {
        found = counted(found, *byte, wanted);
    }
    found
}

/// So many, and one more where the byte is the wanted one.
fn counted(found: u8, byte: u8, wanted: u8) -> u8
    requires { found < 2 ^ 8 - 1 }
    ensures is { result ≡ (if byte == wanted then found + 1 else found) }
    ensures few { result ≤ found + 1 }
{
    found + (byte == wanted) as u8
}
