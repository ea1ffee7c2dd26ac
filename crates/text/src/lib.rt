// Text in a lent buffer: letters, and numbers in decimal and in hexadecimal. What does not have room is not put.
#![tactic(auto)]

ghost use Rattle.std.specs.Prelude.{◌≡◌, ◌++◌, ◌+◌, ◌≤◌, ◌<◌, length};
ghost use Rattle.std.proofs.lemmas.List.Edits.{sets};
ghost use Rattle.text.specs.Text.{with_text, place_after, digits, decimal, hexadecimal};
ghost use Rattle.text.specs.Text.{glyph as Text·glyph, decimal_size as Text·decimalSize};

#[tactic(auto, unfolding(crate::specs::Text::glyph))]
fn glyph(d: u64) -> u8
    requires { d < 16 }
    ensures { result ≡ Text·glyph d }
{
    if d < 10 {
        b'0' + d as u8
    } else {
        b'A' - 10 + d as u8
    }
}

// How many digits a number has in decimal.
pub fn decimal_size(n: u64) -> usize
    ensures result { result ≡ Text·decimalSize n }
    ensures bound { result ≤ 20 }
{
    n.checked_ilog10().unwrap_or(0) as usize + 1
}

// Writes the k lowest digits of a number in a base, from the last to the first.
fn write_digits(out: &mut [u8], at: usize, n: u64, base: u64, k: usize)
    requires { (at + k ≤ length out.old) × (2 ≤ base) × (base ≤ 16) }
    ensures { out.new ≡ sets out.old at (digits base k n) }
{
    let mut rest = n;
    for i in (0..k).rev() {
        out[at + i] = glyph(rest % base);
        rest /= base;
    }
}

// A label, and after it the k lowest digits of a number in a base.
fn put_number(out: &mut [u8], at: usize, label: &[u8], n: u64, base: u64, k: usize) -> usize
    requires { (2 ≤ base) × (base ≤ 16) }
    ensures place { result ≡ place_after out.old at (label.now ++ digits base k n) }
    ensures output { out.new ≡ with_text out.old at (label.now ++ digits base k n) }
{
    if out.len() < at {
        return at;
    }
    let room = out.len() - at;
    if room < k {
        return at;
    }
    if room - k < label.len() {
        return at;
    }
    let next = at + label.len();
    le::put_bytes(out, at, label);
    write_digits(out, next, n, base, k);
    next + k
}

// Puts a text at this place if all of it has room there, and answers the place after it; else answers the place itself, and
// leaves the buffer. The two below do likewise.
pub fn put(out: &mut [u8], at: usize, text: &[u8]) -> usize
    ensures place { result ≡ place_after out.old at text.now }
    ensures output { out.new ≡ with_text out.old at text.now }
{
    // A label with no digits after it.
    put_number(out, at, text, 0, 10, 0)
}

// A label and a number in decimal.
pub fn put_decimal(out: &mut [u8], at: usize, label: &[u8], n: u64) -> usize
    ensures place { result ≡ place_after out.old at (label.now ++ decimal n) }
    ensures output { out.new ≡ with_text out.old at (label.now ++ decimal n) }
{
    put_number(out, at, label, n, 10, decimal_size(n))
}

// A label and a number in hexadecimal, of eight digits.
pub fn put_hexadecimal(out: &mut [u8], at: usize, label: &[u8], n: u32) -> usize
    ensures place { result ≡ place_after out.old at (label.now ++ hexadecimal n) }
    ensures output { out.new ≡ with_text out.old at (label.now ++ hexadecimal n) }
{
    put_number(out, at, label, u64::from(n), 16, 8)
}
