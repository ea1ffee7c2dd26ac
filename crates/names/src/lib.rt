// Names of properties: which bytes may be one, whether two are the same, and the number in a name such as `c12`.
#![tactic(auto)]

ghost use Rattle.std.specs.Prelude.{◌≡◌, ◌+◌, ◌≤◌, length};
ghost use Rattle.std.specs.Cmp.Lexicographic.{pointwise};
ghost use Rattle.names.specs.Names.{size_ok, byte_ok, bytes_ok, same, read_digits, number, number_after, numeral_numbers};

// Whether a name may have this size: 1 to 32 bytes.
pub fn size_ok(size: u16) -> bool
    ensures { result ≡ size_ok size }
{
    matches!(size, 1..=32)
}

// Whether a byte may stand in a name: neither zero nor `A` to `Z`.
fn byte_ok(b: u8) -> bool
    ensures { result ≡ byte_ok b }
{
    (b != 0) & !matches!(b, b'A'..=b'Z')
}

// Whether each byte of a block may stand in a name. It has no early way out, so that it is compiled to a few wide comparisons.
fn block_ok(block: &[u8]) -> bool
    ensures { result ≡ bytes_ok block.now }
{
    block.iter().fold(true, |ok, b| ok & byte_ok(*b))
}

// The same of a name by its first and its last k bytes, which meet or overlap.
fn ends_ok(name: &[u8], k: usize) -> bool
    requires { (k ≤ length name.now) × (length name.now ≤ k + k) }
    ensures { result ≡ bytes_ok name.now }
{
    let last = name.len() - k;
    let end_ok = block_ok(&name[last..]);
    block_ok(&name[..k]) & end_ok
}

// The same of any bytes, one at a time.
fn each_ok(name: &[u8]) -> bool
    ensures { result ≡ bytes_ok name.now }
{
    name.iter().all(|b| byte_ok(*b))
}

// Whether each byte may stand in a name. Two blocks of 4, 8 or 16 are enough for a name that has as many bytes.
pub fn bytes_ok(name: &[u8]) -> bool
    ensures { result ≡ bytes_ok name.now }
{
    match name.len() {
        4..=7 => ends_ok(name, 4),
        8..=15 => ends_ok(name, 8),
        16..=32 => ends_ok(name, 16),
        _ => each_ok(name),
    }
}

// Whether two names are the same bytes: blocks of eight, each compiled to one comparison of two numbers, and then the rest.
pub fn same(a: &[u8], b: &[u8]) -> bool
    ensures { result ≡ same a.now b.now }
{
    if a.len() != b.len() {
        return false;
    }
    let (x, x_rest) = a.as_chunks::<8>();
    let (y, y_rest) = b.as_chunks::<8>();
    same_each(x, y) && same_each(x_rest, y_rest)
}

// Whether two slices of one length are the same, one element at a time.
fn same_each<T: PartialEq>(a: &[T], b: &[T]) -> bool
    requires { length a.now ≡ length b.now }
    ensures { result ≡ pointwise T.eq a.now b.now }
{
    a.iter().zip(b).all(|(x, y)| x == y)
}

// The number that the bytes are: one to three digits, no leading zero unless it is `0`.
fn number(digits: &[u8]) -> Option<u32>
    ensures { result ≡ number digits.now }
{
    let n = digits.len();
    if n == 0 || 3 < n {
        return None;
    }
    if (digits[0] == b'0') & (2 <= n) {
        return None;
    }
    read_digits(digits)
}

// The number of at most three digits.
fn read_digits(digits: &[u8]) -> Option<u32>
    requires { length digits.now ≤ 3 }
    ensures { result ≡ read_digits 0 digits.now }
{
    let mut value = 0;
    for b in digits {
        if !b.is_ascii_digit() {
            return None;
        }
        value = value * 10 + u32::from(*b - b'0');
    }
    Some(value)
}

// The number of a name that is the prefix and then `%d`.
pub fn number_after(name: &[u8], prefix: &[u8]) -> Option<u32>
    ensures result { result ≡ number_after name.now prefix.now }
    ensures numbers { numeral_numbers result ≡ numeral_numbers (number_after name.now prefix.now) }
{
    let n = prefix.len();
    if name.len() < n {
        return None;
    }
    if !same(&name[..n], prefix) {
        return None;
    }
    number(&name[n..])
}
