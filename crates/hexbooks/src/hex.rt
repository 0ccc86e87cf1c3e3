// Bytes as a line of hex: two lower-case hex digits for each byte, and one blank between bytes.
ghost use Rattle.std.specs.Prelude.{◌<◌, ◌≤◌, length, IfSome};

// The value of a lower-case hex digit.
fn digit(b: u8) -> Option<u8>
    ensures { IfSome result (λ d. d < 16) }
{
    match b {
        b'0'..=b'9' => Some(b - b'0'),
        b'a'..=b'f' => Some(b - b'a' + 10),
        _ => None,
    }
}

// Puts the bytes of a line of hex into `space`, and answers how many they are; or nothing, where the line has another form or more bytes than `space` has room for.
pub(crate) fn unhex(line: &[u8], space: &mut [u8]) -> Option<usize>
    ensures { IfSome result (λ n. n ≤ length space.new) }
{
    let n = line.split(|b| *b == b' ').count();
    let bytes = space.get_mut(..n)?;
    for (byte, word) in bytes.iter_mut().zip(line.split(|b| *b == b' ')) {
        let [high, low] = word else {
            return None;
        };
        *byte = digit(*high)? * 16 + digit(*low)?;
    }
    Some(n)
}
