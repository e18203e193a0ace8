// The words of a printed term.
ghost use Rattle.std.specs.Prelude.{◌≡◌};
ghost use Rattle.printing.specs.Texts.{word_bytes};
ghost use Rattle.printing.specs.Pieces.{piece_word};

use tokens::Name;

#[derive(Clone, Copy)]
pub(crate) enum Piece {
    Open,
    Close,
    Comma,
    Named(Name),
}

impl Piece {
    pub(crate) fn bytes(&self) -> &[u8]
        ensures { result.now ≡ word_bytes (piece_word self.now) }
    {
        match self {
            Piece::Open => b"(",
            Piece::Close => b")",
            Piece::Comma => b",",
            Piece::Named(name) => name.bytes(),
        }
    }
}
