// Keywords, compared without case.
ghost use Rattle.std.specs.Prelude.{◌≡◌};
ghost use Rattle.lexer.specs.Keywords.{spells};

// Whether the bytes spell the word, in either case.
pub fn is_keyword(s: &[u8], w: &[u8]) -> bool
    ensures { result ≡ spells s.now w.now }
{
    s.len() == w.len()
        && s.iter()
            .zip(w)
            .all(|(b, upper)| b.to_ascii_uppercase() == *upper)
}
