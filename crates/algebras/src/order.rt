// How a rule's sides compare: each step by it lowers the height, or does not raise it, or may raise it.
ghost use Rattle.std.specs.Prelude.{Some};
ghost use Rattle.algebras.specs.Words.{order_word};

use std::fmt;

#[derive(Clone, Copy, PartialEq, Eq, Debug)]
pub enum Order {
    Strict,
    Weak,
    Neither,
}

impl fmt::Display for Order {
    ghost output = { λ order. Some (order_word order) };

    fn fmt<W: fmt::Write>(&self, f: &mut fmt::Formatter<W>) -> fmt::Result {
        f.write_str(match self {
            Order::Strict => "strict",
            Order::Weak => "weak",
            Order::Neither => "neither",
        })
    }
}
