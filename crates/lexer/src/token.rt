// A token.
ghost use Rattle.std.specs.Prelude.{◌≡◌, length};
ghost use Rattle.lexer.specs.Kinds.{kind_of, size};

use crate::kind::Kind;

/// A part of the text that is one whole token, with its kind and the offset of its first byte.
// The grammar's item may lack its symbol, a token never its bytes: one generic type would have a name for neither.
#[derive(Clone, Copy)]
pub struct Token<'a> {
    pub kind: Kind,
    pub place: usize,
    pub part: &'a [u8],
    pub ghost kind_fits: { kind ≡ kind_of part.now },
    pub ghost whole: { size part.now ≡ length part.now },
}
