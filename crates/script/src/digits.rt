// Capital hexadecimal digits.
ghost use Rattle.std.specs.Prelude.{◌≡◌};
ghost use Rattle.script.specs.Digits.{hex_digit, all_digits};

// The value of a capital hexadecimal digit.
pub fn digit(code: u8) -> Option<u8>
    ensures { result ≡ hex_digit code }
{
    match code {
        b'0'..=b'9' => Some(code - b'0'),
        b'A'..=b'F' => Some(code - b'A' + 10),
        _ => None,
    }
}

// Whether every byte of `codes` is a digit.
pub fn all_digits(codes: &[u8]) -> bool
    ensures { result ≡ all_digits codes.now }
{
    codes.iter().all(|code| digit(*code).is_some())
}
