// Words and numbers, each after one blank.
ghost use Rattle.std.specs.Prelude.{◌≡◌, ℕ, suc, ◌∷◌, Some, None, MatchOption};
ghost use Rattle.command.specs.Words.{arguments, NoWord};
ghost use Rattle.command.specs.Numbers.{put, numbers_of};

use words::{len_until, number};

// The word after one blank, and what follows it.
pub(crate) fn next_word(text: &[u8]) -> Option<(&[u8], &[u8])>
    ensures { MatchOption result (NoWord (arguments text.now)) (λ p. arguments text.now ≡ p.0.now ∷ arguments p.1.now) }
{
    let [b' ', rest @ ..] = text else {
        return None;
    };
    let n = len_until(rest, b' ');
    Some((&rest[0..n], &rest[n..]))
}

// The number after one blank, and what follows it.
fn next_number(text: &[u8]) -> Option<(i32, &[u8])>
    ensures { MatchOption result ((k : ℕ) → numbers_of (suc k) (arguments text.now) ≡ None) (λ p. (k : ℕ) → numbers_of (suc k) (arguments text.now) ≡ put (Some p.0) (numbers_of k (arguments p.1.now))) }
{
    let (word, rest) = next_word(text)?;
    Some((number(word)?, rest))
}

// Exactly N numbers, each after one blank.
pub(crate) fn numbers<const N: usize>(text: &[u8]) -> Option<[i32; N]>
    ensures { result ≡ numbers_of N (arguments text.now) }
{
    let mut values = [0; N];
    let mut rest = text;
    for value in &mut values {
        let (number, left) = next_number(rest)?;
        *value = number;
        rest = left;
    }
    rest.is_empty().then_some(values)
}
