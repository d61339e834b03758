// Texts as they are printed: in double quotes, with escapes.
ghost use Rattle.std.specs.Prelude.{◌≡◌, ◌/◌, ◌%◌, ◌<◌, [], ◌∷◌, ◌++◌, string_bytes, OnOk};
ghost use Rattle.std.specs.Char.{digit_char};
ghost use Rattle.script.specs.Shown.{shown, quoted};

use std::alloc::AllocError;

// A hex digit of lower case.
fn hex_char(digit: u8) -> char
    requires { digit < 16 }
    ensures value { result ≡ digit_char digit }
    ensures ascii { result < 128 }
{
    if digit < 10 {
        (48 + digit) as char
    } else {
        (87 + digit) as char
    }
}

// Puts a byte behind the text as an escape with two hex digits.
fn push_hex(out: &mut String, b: u8) -> Result<(), AllocError>
    ensures { OnOk result (string_bytes out.new ≡ string_bytes out.old ++ (92 ∷ 120 ∷ digit_char (b / 16) ∷ digit_char (b % 16) ∷ [])) }
{
    out.push('\\')?;
    out.push('x')?;
    out.push(hex_char(b / 16))?;
    out.push(hex_char(b % 16))?;
    Ok(())
}

// Puts a byte behind the text as it is shown.
fn push_byte(out: &mut String, b: u8) -> Result<(), AllocError>
    ensures { OnOk result (string_bytes out.new ≡ string_bytes out.old ++ shown b) }
{
    match b {
        b'\\' => out.push_str("\\\\"),
        b'"' => out.push_str("\\\""),
        b'\n' => out.push_str("\\n"),
        b'\r' => out.push_str("\\r"),
        b'\t' => out.push_str("\\t"),
        b' '..=b'~' => out.push(b as char),
        _ => push_hex(out, b),
    }
}

// Puts a text behind the other, in double quotes. By pushes, since a format for each byte takes two to three times the time.
pub(crate) fn push_quoted(out: &mut String, bytes: &[u8]) -> Result<(), AllocError>
    ensures { OnOk result (string_bytes out.new ≡ string_bytes out.old ++ quoted bytes.now) }
{
    out.push('"')?;
    for b in bytes {
        push_byte(out, *b)?;
    }
    out.push('"')?;
    Ok(())
}
