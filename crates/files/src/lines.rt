//! Lines are counted from 1.
ghost use Rattle.std.specs.Prelude.{◌≡◌};
ghost use Rattle.files.specs.Lines.{line_behind};

/// The number of the line that goes on behind these bytes.
pub fn line_behind(before: &[u8]) -> usize
    ensures { result ≡ line_behind before.now }
{
    1 + before.iter().filter(|&&b| b == b'\n').count()
}
