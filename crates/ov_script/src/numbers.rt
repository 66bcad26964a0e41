// The numbers that words spell.
ghost use Rattle.std.specs.Prelude.{◌≡◌, ◌≤◌, ◌+◌, ◌^◌, Some, option_map};
ghost use Rattle.ov_script.specs.Numbers as numbers;
ghost use Rattle.ov_script.specs.Numbers.{mask_of, mode_of, number_of, offset_of, size_of, slot_of, spelled_number, steps_of, watch_of};

/// The most digits of a mode.
const MODE_DIGITS: usize = 6;

/// The most digits of a mask.
const MASK_DIGITS: usize = 8;

/// The greatest number of 32 bits.
const NUMBER_MAX: u64 = 0xffff_ffff;

/// The greatest offset of a seek.
const OFFSET_MAX: u64 = 0x7fff_ffff_ffff_ffff;

/// The greatest number of a slot's 8 bits.
const SLOT_MAX: u64 = 0xff;

/// The greatest number of a watch.
const WATCH_MAX: u64 = 0x7fff_ffff;

/// The number of a client, a descriptor, a count or a layer: decimal digits, of which there may be zeros at the front, where it
/// fits 32 bits.
pub fn decimal(word: &[u8]) -> Option<u32>
    ensures { result ≡ number_of 10 word.now }
{
    short_number(word, 10)
}

/// A mode, one to six octal digits.
pub fn octal_mode(word: &[u8]) -> Option<u32>
    ensures { result ≡ mode_of word.now }
{
    if word.len() > MODE_DIGITS {
        return None;
    }
    short_number(word, 8)
}

/// The mask of a watch, one to eight hexadecimal digits of either case.
pub fn mask(word: &[u8]) -> Option<u32>
    ensures { result ≡ mask_of word.now }
{
    if word.len() > MASK_DIGITS {
        return None;
    }
    short_number(word, 16)
}

/// The slot of a hook: decimal digits, where it fits 8 bits.
pub fn slot(word: &[u8]) -> Option<u8>
    ensures { result ≡ slot_of word.now }
{
    let number = number(word, 10)?;
    if number > SLOT_MAX {
        return None;
    }
    Some(number as u8)
}

/// The number of a watch: decimal digits, where it is at most 2,147,483,647.
pub fn watch(word: &[u8]) -> Option<i32>
    ensures { result ≡ watch_of word.now }
{
    let number = number(word, 10)?;
    if number > WATCH_MAX {
        return None;
    }
    Some(number as i32)
}

/// A size: decimal digits, where it fits 64 bits.
pub fn size(word: &[u8]) -> Option<u64>
    ensures { result ≡ size_of word.now }
{
    number(word, 10)
}

/// A number of steps: decimal digits, where it is at least 1 and fits 64 bits.
pub fn steps(word: &[u8]) -> Option<u64>
    ensures { result ≡ steps_of word.now }
{
    let number = number(word, 10)?;
    if number == 0 {
        return None;
    }
    Some(number)
}

/// The offset of a seek: decimal digits, of which one `-` may stand in front, from -9,223,372,036,854,775,808 to
/// 9,223,372,036,854,775,807.
pub fn offset(word: &[u8]) -> Option<i64>
    ensures { result ≡ offset_of word.now }
{
    if word.is_empty() {
        return None;
    }
    if word[0] == b'-' {
        return negated(number(&word[1..], 10)?);
    }
    let number = number(word, 10)?;
    if number > OFFSET_MAX {
        return None;
    }
    Some(number as i64)
}

// A number with a sign in front.
fn negated(number: u64) -> Option<i64>
    ensures { result ≡ option_map numbers.negated (numbers.below (2 ^ 63 + 1) (Some number)) }
{
    if number <= OFFSET_MAX {
        return Some(-(number as i64));
    }
    if number == OFFSET_MAX + 1 {
        return Some(i64::MIN);
    }
    None
}

// A number that fits 32 bits.
fn short_number(word: &[u8], base: u64) -> Option<u32>
    requires { base ≤ 16 }
    ensures { result ≡ number_of base word.now }
{
    let number = number(word, base)?;
    if number > NUMBER_MAX {
        return None;
    }
    Some(number as u32)
}

fn number(word: &[u8], base: u64) -> Option<u64>
    requires { base ≤ 16 }
    ensures { result ≡ spelled_number base word.now }
{
    if word.is_empty() {
        return None;
    }
    let mut value: u64 = 0;
    for byte in word {
        value = with_digit(value, *byte, base)?;
    }
    Some(value)
}

// A number with one more digit.
fn with_digit(value: u64, byte: u8, base: u64) -> Option<u64>
    requires { base ≤ 16 }
    ensures { result ≡ numbers.with_digit base value byte }
{
    let digit = digit(byte)?;
    if digit >= base {
        return None;
    }
    value.checked_mul(base)?.checked_add(digit)
}

// What a digit of a base of at most sixteen counts. Letters may be of either case.
fn digit(byte: u8) -> Option<u64>
    ensures value { result ≡ numbers.digit_value byte }
{
    match byte {
        b'0'..=b'9' => Some(u64::from(byte - b'0')),
        b'a'..=b'f' => Some(u64::from(byte - b'a' + 10)),
        b'A'..=b'F' => Some(u64::from(byte - b'A' + 10)),
        _ => None,
    }
}
