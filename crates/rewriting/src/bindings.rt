// What the variables of a pattern are bound to: parts of the subject, which are not copied.
ghost use Rattle.std.specs.Prelude.{◌≡◌, ◌<◌, [], length, unwrap_or};

#[derive(Clone, Copy)]
pub struct Bindings<'a> {
    parts: [Option<&'a [u16]>; 8],
    ghost eight: { length parts ≡ 8 },
}

impl<'a> Bindings<'a> {
    ghost use Rattle.rewriting.specs.Bindings.{Took, bound_to, unbound};

    pub(crate) fn new() -> Bindings<'a>
        ensures { (v : _) → bound_to result v ≡ unbound v }
    {
        Bindings { parts: [None; 8] }
    }

    // Binds a variable afresh, or compares with what it is bound to: a second occurrence has to be the same term.
    pub(crate) fn bind(&mut self, v: usize, part: &'a [u16]) -> Option<()>
        requires { v < 8 }
        ensures { Took (bound_to self.old) v part.now result (bound_to self.new) }
    {
        if self.parts[v].is_some_and(|held| held != part) {
            return None;
        }
        self.parts[v] = Some(part);
        Some(())
    }

    // The codes that a variable is bound to.
    pub(crate) fn bound(&self, v: usize) -> &'a [u16]
        ensures { result.now ≡ unwrap_or (bound_to self.now v) [] }
    {
        match self.parts.get(v) {
            Some(Some(part)) => part,
            _ => &[],
        }
    }
}
