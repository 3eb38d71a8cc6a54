//! Strings as they are compared.

ghost use Rattle.std.specs.Prelude.{◌≡◌};
ghost use Rattle.ob_mean.specs.Texts as spec;

/// The characters before the first 0X, or all of them.
pub fn before_zero(text: &[u8]) -> &[u8]
    ensures { result.now ≡ spec.before_zero text.now }
{
    let mut length = 0;
    for &c in text {
        if c == 0 {
            break;
        }
        length += 1;
    }
    &text[..length]
}
