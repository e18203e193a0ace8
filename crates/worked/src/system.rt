// Addition of numbers that are written with z and s.
ghost use Rattle.std.specs.Prelude.{◌≡◌};
ghost use Rattle.terms.specs.Systems.{system_of};
ghost use Rattle.worked.specs.Additions.{addition};

use terms::{Rule, Signature, System};

// add(z, b) -> b and add(s(a), b) -> s(add(a, b)), with add, z and s numbered 0, 1 and 2.
pub fn addition() -> System
    ensures { system_of result ≡ addition }
{
    let signature = Signature::new(&[2, 0, 1]).unwrap();
    let base = Rule::new(&[0, 1, 32769], &[32769]).unwrap();
    let step = Rule::new(&[0, 2, 32768, 32769], &[2, 0, 32768, 32769]).unwrap();
    System::new(signature, &[base, step]).unwrap()
}
