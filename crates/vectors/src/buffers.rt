// What a lent buffer holds at first, and the checksum of what it holds at last.
ghost use Rattle.std.specs.Prelude.{◌≡◌, ℕ, length, map};
ghost use Rattle.vectors.specs.Buffers.{space, filling, numbers_in, taking, checksum};

// The numbers of which the first are lent as a table.
pub fn space(seed: u32) -> [u32; 8300]
    ensures { result ≡ space seed }
{
    [seed; 8300]
}

// Bytes that go up by 37 from the seed on, modulo 256.
pub fn fill(out: &mut [u8], seed: u32)
    ensures { out.new ≡ filling seed (length out.old) }
{
    let mut v = seed % 256;
    for b in out.iter_mut() {
        *b = v as u8;
        v = (v + 37) % 256;
    }
}

// Numbers of 4 bytes each, one after the other.
pub fn numbers(out: &mut [u32], bytes: &[u8])
    ensures { out.new ≡ numbers_in bytes.now (length out.old) }
{
    for (i, n) in out.iter_mut().enumerate() {
        *n = le::read(bytes, i * 4);
    }
}

// A checksum begins with 2166136261, and takes each number in turn: times 16777619 plus the number, modulo 2^32.
const EMPTY: u64 = 2166136261;

fn taking(sum: u64, number: u64) -> u64
    ensures { result ≡ taking sum number }
{
    (sum % 4294967296 * 16777619 + number % 4294967296) % 4294967296
}

// What a checksum takes: a byte, a table's number, or a place in a body.
pub trait Number: Copy {
    ghost value: { Self → ℕ };

    fn wide(self) -> u64
        ensures { result ≡ value self };
}

impl Number for u8 {
    ghost value = { λ n. n };

    fn wide(self) -> u64 {
        self as u64
    }
}

impl Number for u32 {
    ghost value = { λ n. n };

    fn wide(self) -> u64 {
        self as u64
    }
}

impl Number for usize {
    ghost value = { λ n. n };

    fn wide(self) -> u64 {
        self as u64
    }
}

pub fn checksum<T: Number>(numbers: &[T]) -> u64
    ensures { result ≡ checksum (map T.value numbers.now) }
{
    numbers.iter().fold(EMPTY, |sum, n| taking(sum, n.wide()))
}
