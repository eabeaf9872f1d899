//! The bytes of a ROM up to its last one that is not 0.

ghost use Rattle.std.specs.Prelude.{◌≡◌, ◌≤◌, length, take};
ghost use Rattle.tal_rom.specs.Rom.{trimmed};

/// Zeros that are put or ignored at once.
pub static ZEROS: [u8; 256] = [0; 256];

/// The number of bytes up to the last one that is not 0.
fn written_len(bytes: &[u8]) -> usize
    ensures within { result ≤ length bytes.now }
    ensures value { take result bytes.now ≡ trimmed bytes.now }
{
    let mut written = 0;
    for (at, byte) in bytes.iter().enumerate() {
        if *byte != 0 {
            written = at + 1;
        }
    }
    written
}

/// The bytes without the zeros at their end, which are ignored many at a time.
pub fn without_last_zeros(bytes: &[u8]) -> &[u8]
    ensures value { result.now ≡ trimmed bytes.now }
    ensures shorter { length result.now ≤ length bytes.now }
{
    let mut rest = bytes;
    while let Some(prefix) = rest.strip_suffix(&ZEROS) {
        rest = prefix;
    }
    let (written, _) = rest.split_at(written_len(rest));
    written
}
