// A number's decimal digits, in ASCII.
ghost use Rattle.std.specs.Prelude.{◌≡◌, ◌<◌, ◌≤◌, length};
ghost use Rattle.trace_text.specs.Digits.{last_digits, IsDigitCount, hex_digit_ascii};
ghost use Rattle.trace_text.specs.Text.{number_width};

// How many digits n takes.
pub(crate) fn digit_count(n: u64) -> usize
    ensures fewest { IsDigitCount 10 1 n result }
    ensures fits { result ≤ number_width }
{
    let mut k = 1;
    let mut rest = n / 10;
    while rest > 0 {
        rest /= 10;
        k += 1;
    }
    k
}

// Puts the last digits of n into out, as many as it holds.
pub(crate) fn write_digits(n: u64, out: &mut [u8])
    ensures { out.new ≡ last_digits 10 (length out.old) n }
{
    let mut rest = n;
    for i in (0..out.len()).rev() {
        out[i] = digit_to_ascii(rest % 10);
        rest /= 10;
    }
}

fn digit_to_ascii(d: u64) -> u8
    requires { d < 10 }
    ensures { result ≡ hex_digit_ascii d }
{
    b'0' + d as u8
}
