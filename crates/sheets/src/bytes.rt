//! A byte looked for in bytes, sixteen at a time.
ghost use Rattle.std.specs.Prelude.{◌≡◌, false, ℕ, ◌<◌, length};
ghost use Rattle.sheets.specs.inner.Bytes.{holds, byte_from, Rest};
ghost use Rattle.sheets.specs.inner.Found.{before};

// No only where none of the sixteen bytes is x: no branch, so that the bytes are compared all at once.
fn any_of(bytes: &[u8; 16], x: u8) -> bool
    ensures { result ≡ false → (j : ℕ) → j < 16 → holds bytes.now x j ≡ false }
{
    let mut any = false;
    for b in bytes {
        any |= *b == x;
    }
    any
}

// The rest of the bytes, with no x before it: from where sixteen bytes with an x start, or fewer are left.
fn skip(bytes: &[u8], x: u8) -> &[u8]
    ensures { Rest bytes.now x result.now }
{
    let mut rest = bytes;
    while let Some((chunk, tail)) = rest.split_first_chunk::<16>() {
        if any_of(chunk, x) {
            return rest;
        }
        rest = tail;
    }
    rest
}

// The first place from k on where the byte is x.
pub fn byte_from(bytes: &[u8], from: usize, x: u8) -> Option<usize>
    ensures { result ≡ before (length bytes.now) (byte_from bytes.now from x) }
{
    if bytes.len() < from {
        return None;
    }
    let rest = skip(&bytes[from..], x);
    let at = rest.iter().position(|b| *b == x)?;
    Some(bytes.len() - rest.len() + at)
}
