// Numbers in decimal, of digits alone.
ghost use Rattle.std.specs.Prelude.{◌≡◌, ◌+◌, ◌*◌, ◌^◌, cond, nat_lt, Some, None};
ghost use Rattle.commands.specs.Numerals.{numeral};

// A number with one more digit behind it, if it fits.
fn with_digit(number: u64, digit: u8) -> Option<u64>
    ensures { result ≡ cond (nat_lt (number * 10 + digit) (2 ^ 64)) (Some (number * 10 + digit)) None }
{
    number.checked_mul(10)?.checked_add(u64::from(digit))
}

pub fn read_number(word: &[u8]) -> Option<u64>
    ensures { result ≡ numeral 64 word.now }
{
    if word.is_empty() {
        return None;
    }
    let mut number = 0;
    for byte in word {
        if !byte.is_ascii_digit() {
            return None;
        }
        number = with_digit(number, *byte - b'0')?;
    }
    Some(number)
}

pub fn read_short_number(word: &[u8]) -> Option<u32>
    ensures { result ≡ numeral 32 word.now }
{
    u32::try_from(read_number(word)?).ok()
}
