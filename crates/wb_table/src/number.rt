//! Numbers as words.

ghost use Rattle.std.specs.Prelude.{◌≡◌, ◌<◌, ◌≢◌, ℕ, IfSome, IfNone};
ghost use Rattle.std.specs.Char.{digit_char, is_ascii_digit};
ghost use Rattle.std.specs.List.{list_all};
ghost use Rattle.wb_table.specs.Numbers.{SpellsNumber, SpellsByte};

/// Reads a number below 2^64: decimal digits alone, leading zeros allowed.
pub fn read_number(word: &str) -> Option<u64>
    ensures found { IfSome result (SpellsNumber word.now) }
    ensures none { IfNone result ((number : ℕ) → ¬ SpellsNumber word.now number) }
{
    if !is_numeral(word) {
        return None;
    }
    word.parse::<u64>().ok()
}

/// Whether a word has digits alone: `parse` would take a sign too.
fn is_numeral(word: &str) -> bool
    ensures { result ≡ list_all is_ascii_digit word.now }
{
    word.bytes().all(|byte| byte.is_ascii_digit())
}

/// Reads a byte: two hexadecimal digits, lower case.
pub fn read_byte(word: &str) -> Option<u8>
    ensures found { IfSome result (SpellsByte word.now) }
    ensures none { IfNone result ((byte : ℕ) → ¬ SpellsByte word.now byte) }
{
    match word.as_bytes() {
        [high, low] => Some(read_digit(*high)? * 16 + read_digit(*low)?),
        _ => None,
    }
}

/// Reads a hexadecimal digit, lower case.
fn read_digit(byte: u8) -> Option<u8>
    ensures digit { IfSome result (λ digit. byte ≡ digit_char digit) }
    ensures below { IfSome result (λ digit. digit < 16) }
    ensures none { IfNone result ((digit : ℕ) → digit < 16 → byte ≢ digit_char digit) }
{
    match byte {
        b'0'..=b'9' => Some(byte - b'0'),
        b'a'..=b'f' => Some(byte - b'a' + 10),
        _ => None,
    }
}
