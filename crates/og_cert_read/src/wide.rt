//! Numbers of up to 128 bits.

ghost use Rattle.std.specs.Prelude.{◌≡◌, ◌≤◌, IfSome};
ghost use Rattle.og_cert_read.specs.Words as words;

// A tenth of 2^127, rounded down. A greater value has no digit more within 2^127.
const TENTH: u128 = 17_014_118_346_046_923_173_168_730_371_588_410_572;

// The value with one digit more.
fn next_value(value: u128, byte: u8, most: u128) -> Option<u128>
    requires most { most ≤ 170141183460469231731687303715884105728 }
    requires value { value ≤ most }
    ensures { result ≡ words.next_of most value byte }
{
    if byte < b'0' || b'9' < byte || value > TENTH {
        return None;
    }
    let next = 10 * value + (byte - b'0') as u128;
    if next > most {
        return None;
    }
    Some(next)
}

// The number with these digits.
fn digits(word: &[u8], most: u128) -> Option<u128>
    requires { most ≤ 170141183460469231731687303715884105728 }
    ensures value { result ≡ words.read_from most 0 word.now }
    ensures within { IfSome result (λ n. n ≤ most) }
{
    let mut value: u128 = 0;
    for b in word {
        value = next_value(value, *b, most)?;
    }
    Some(value)
}

/// The number that is the whole word, without leading zeros and up to a limit.
pub(crate) fn wide_number(word: &[u8], most: u128) -> Option<u128>
    requires { most ≤ 170141183460469231731687303715884105728 }
    ensures value { result ≡ words.number_of most word.now }
    ensures within { IfSome result (λ n. n ≤ most) }
{
    match word {
        [] => None,
        [b'0', _, ..] => None,
        _ => digits(word, most),
    }
}
