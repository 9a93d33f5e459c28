// Writing into a buffer from a place on, for a pen. Whatever is lent to a function that calls itself is held in memory and read
// again after each byte; these take the pen's buffer and its place, so that the pen itself stays in registers.
ghost use Rattle.std.specs.Prelude.{◌≡◌, ◌+◌, ◌-◌, ◌%◌, ◌^◌, [], ◌∷◌, length, min, decimal};
ghost use Rattle.words.specs.Puts.{overlaid};

// Writes a byte, where the buffer reaches so far, and answers the place after it.
pub(crate) fn put_byte(out: &mut [u8], at: usize, b: u8) -> usize
    ensures next { result ≡ min (at + 1) (2 ^ 64 - 1) }
    ensures put { out.new ≡ overlaid out.old at (b ∷ []) }
{
    if at < out.len() {
        out[at] = b;
        at + 1
    } else {
        at.saturating_add(1)
    }
}

// The last digit of `n`.
pub(crate) fn last_digit(n: u32) -> u8
    ensures { result ≡ 48 + n % 10 }
{
    b'0' + (n % 10) as u8
}

// Writes `n` in decimal, as far as the buffer reaches, and answers the place after it.
pub(crate) fn put_decimal(out: &mut [u8], at: usize, n: u32) -> usize
    ensures next { result ≡ min (at + length (decimal n)) (2 ^ 64 - 1) }
    ensures put { out.new ≡ overlaid out.old at (decimal n) }
{
    let last = if n < 10 {
        at
    } else {
        put_decimal(out, at, n / 10)
    };
    put_byte(out, last, last_digit(n))
}
