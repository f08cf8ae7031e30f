// The letters of factors: A to Z for factors 1 to 26, a to f for 27 to 32.
ghost use Rattle.std.specs.Prelude.{◌≡◌, ◌<◌, ℕ, IfSome, Some};
ghost use Rattle.page.specs.Page.{letter_of};

// The letter of a factor, from 0.
pub(crate) fn letter(i: u8) -> u8
    requires { i < 32 }
    ensures { result ≡ letter_of i }
{
    if i < 26 { b'A' + i } else { b'a' + (i - 26) }
}

/// The factor of a letter, from 0; none for any other byte.
pub fn factor_of(letter: u8) -> Option<u8>
    ensures sound { IfSome result (λ i. i < 32 × letter_of i ≡ letter) }
    ensures complete { (i : ℕ) → i < 32 → letter_of i ≡ letter → result ≡ Some i }
{
    match letter {
        b'A'..=b'Z' => Some(letter - b'A'),
        b'a'..=b'f' => Some(letter - b'a' + 26),
        _ => None,
    }
}
