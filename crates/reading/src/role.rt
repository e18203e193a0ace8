// Which term is read: on the left every variable may stand, on the right those of the left, and a start term adds no name.
ghost use Rattle.std.specs.Prelude.{◌≡◌};
ghost use Rattle.reading.specs.Sides.{limit, is_absent};
ghost use Rattle.reading.specs.Models.{role_of};

use bounded::ArrayVec;
use terms::has_code;

#[derive(Clone, Copy, PartialEq, Eq, Debug)]
pub enum Role {
    Left,
    // With the codes of the left side.
    Right(ArrayVec<u16, 32>),
    Start,
}

impl Role {
    // How many codes it may have.
    pub fn limit(&self) -> usize
        ensures { result ≡ limit (role_of self.now) }
    {
        match self {
            Role::Left | Role::Right(_) => 32,
            Role::Start => 1024,
        }
    }

    // Whether a variable may not stand there.
    pub fn forbids(&self, code: u16) -> bool
        ensures { result ≡ is_absent (role_of self.now) code }
    {
        match self {
            Role::Left | Role::Start => false,
            Role::Right(left) => !has_code(left.as_slice(), code),
        }
    }
}
