// A walk over a text that hands out its tokens.
ghost use Rattle.std.specs.Prelude.{◌≤◌, length};

mod calls;

#[derive(Drop)]
pub struct Lexer<'a> {
    text: &'a [u8],
    pos: usize,
    ghost within: { pos ≤ length text.now },
}
