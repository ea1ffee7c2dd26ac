// Little-endian numbers, and bytes, at any place of any bytes. A byte past the end reads as zero, and is not written.
#![tactic(auto)]

ghost use Rattle.std.specs.Prelude.{◌≡◌, ℕ, ◌≤◌, ◌<◌, min, length, take};
ghost use Rattle.std.proofs.lemmas.List.Edits.{sets};
ghost use Rattle.le.specs.Le.{number_at, le};

// A number that is stored as a fixed count of bytes, the lowest first.
pub trait Number: Copy {
    ghost width: { ℕ };

    ghost value: { Self → ℕ };

    // The number at the start of bytes.
    fn first(bytes: &[u8]) -> Self
        ensures { value result ≡ number_at width bytes.now 0 };

    // Its bytes, stored at the start.
    fn store(self, out: &mut [u8])
        ensures { out.new ≡ sets out.old 0 (le width (value self)) };
}

// The first N bytes, with zeros past the end: of a number's bytes that are all there, compiled to one load.
fn first_bytes<const N: usize>(bytes: &[u8]) -> [u8; N]
    ensures { number_at N result 0 ≡ number_at N bytes.now 0 }
{
    match bytes.first_chunk() {
        Some(first) => *first,
        None => padded(bytes),
    }
}

// The bytes, of which there are fewer than N, and zeros after them.
#[cold]
#[inline(never)]
fn padded<const N: usize>(bytes: &[u8]) -> [u8; N]
    requires { length bytes.now < N }
    ensures { number_at N result 0 ≡ number_at N bytes.now 0 }
{
    let mut all = [0; N];
    for i in 0..N {
        all[i] = bytes.get(i).copied().unwrap_or(0);
    }
    all
}

// Stores N bytes at the start, as far as they have room. Where some have none, they are copied first, so that only there the
// bytes of a number take a place on the stack.
fn store_bytes<const N: usize>(out: &mut [u8], bytes: &[u8; N])
    ensures { out.new ≡ sets out.old 0 bytes.now }
{
    match out.first_chunk_mut() {
        Some(first) => *first = *bytes,
        None => {
            let all = *bytes;
            put_some(out, &all);
        }
    }
}

// Writes bytes of which some have no room. On its own, as the compiler would make a call of the C library of it where it knows that
// what is read is no part of what is written.
#[cold]
#[inline(never)]
fn put_some(out: &mut [u8], bytes: &[u8])
    ensures { out.new ≡ sets out.old 0 bytes.now }
{
    put_bytes(out, 0, bytes);
}

impl Number for u16 {
    ghost width = { 2 };

    ghost value = { λ x. x };

    fn first(bytes: &[u8]) -> u16 {
        u16::from_le_bytes(first_bytes(bytes))
    }

    fn store(self, out: &mut [u8]) {
        store_bytes(out, &u16::to_le_bytes(self));
    }
}

impl Number for u32 {
    ghost width = { 4 };

    ghost value = { λ x. x };

    fn first(bytes: &[u8]) -> u32 {
        u32::from_le_bytes(first_bytes(bytes))
    }

    fn store(self, out: &mut [u8]) {
        store_bytes(out, &u32::to_le_bytes(self));
    }
}

impl Number for u64 {
    ghost width = { 8 };

    ghost value = { λ x. x };

    fn first(bytes: &[u8]) -> u64 {
        u64::from_le_bytes(first_bytes(bytes))
    }

    fn store(self, out: &mut [u8]) {
        store_bytes(out, &u64::to_le_bytes(self));
    }
}

// The number at a place.
pub fn read<T: Number>(bytes: &[u8], at: usize) -> T
    ensures { T.value result ≡ number_at T.width bytes.now at }
{
    if at < bytes.len() {
        T::first(&bytes[at..])
    } else {
        T::first(&[])
    }
}

// Writes a number at a place.
pub fn write<T: Number>(out: &mut [u8], at: usize, x: T)
    ensures { out.new ≡ sets out.old at (le T.width (T.value x)) }
{
    if at < out.len() {
        x.store(&mut out[at..]);
    }
}

// The number of `width` bytes at a place, of at most four.
pub fn number_at(bytes: &[u8], at: usize, width: u32) -> u32
    ensures { result ≡ number_at (min width 4) bytes.now at }
{
    let four: u32 = read(bytes, at);
    match width {
        0 => 0,
        1 => four % 256,
        2 => four % 65536,
        3 => four % 16777216,
        _ => four,
    }
}

// Copies the first n bytes. By a loop, as the library's copy is compiled to a call of a function that the static library would need
// from outside.
fn copy(out: &mut [u8], bytes: &[u8], n: usize)
    requires { (n ≤ length bytes.now) × (n ≤ length out.old) }
    ensures { out.new ≡ sets out.old 0 (take n bytes.now) }
{
    for i in 0..n {
        out[i] = bytes[i];
    }
}

// The same, of bytes that go to a place of an output. Many are stored from the next place on that is a multiple of 16: as memory is mostly
// lent from such an address on, no store of 16 bytes then lies in two lines of the cache.
fn copy_to(out: &mut [u8], bytes: &[u8], n: usize, at: usize)
    requires { (n ≤ length bytes.now) × (n ≤ length out.old) }
    ensures { out.new ≡ sets out.old 0 (take n bytes.now) }
{
    if n < 256 {
        copy(out, bytes, n);
        return;
    }
    let head = 16 - at % 16;
    copy(out, bytes, head);
    copy(&mut out[head..], &bytes[head..], n - head);
}

// Writes bytes at a place.
pub fn put_bytes(out: &mut [u8], at: usize, bytes: &[u8])
    ensures { out.new ≡ sets out.old at bytes.now }
{
    if at < out.len() {
        let n = bytes.len().min(out.len() - at);
        copy_to(&mut out[at..], bytes, n, at);
    }
}
