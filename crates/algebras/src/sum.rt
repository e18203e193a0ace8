// Two algebras as one: heights and ceilings add, and a rule has to be weak in both.
ghost use Rattle.std.specs.Prelude.{◌≡◌, ◌+◌};
ghost use Rattle.algebras.specs.Layers.{sum_means};
ghost use Rattle.algebras.specs.Sums.{reached, first_fault, both_told, added_heights, joined_order, joined_orders, added_ceilings};
ghost use Rattle.algebras.specs.Lawfuls.{sum_lawful};

use crate::REACH;
use crate::algebra::Algebra;
use crate::fault::AlgebraFault;
use crate::order::Order;
use terms::Signature;

#[derive(Clone, Copy)]
pub struct Sum<A, B> {
    pub first: A,
    pub second: B,
}

// The sum of two numbers, if it is within reach.
fn add(a: u64, b: u64) -> Option<u64>
    ensures { result ≡ reached (a + b) }
{
    a.checked_add(b).filter(|sum| *sum <= REACH)
}

// A misfit comes before what is out of reach.
fn first_fault(a: AlgebraFault, b: AlgebraFault) -> AlgebraFault
    ensures { result ≡ first_fault a b }
{
    match a {
        AlgebraFault::Unfit => a,
        _ => b,
    }
}

// Two answers as one.
fn both<T: Copy>(
    a: Result<T, AlgebraFault>,
    b: Result<T, AlgebraFault>,
) -> Result<(T, T), AlgebraFault>
    ensures { result ≡ both_told a b }
{
    match (a, b) {
        (Ok(x), Ok(y)) => Ok((x, y)),
        (Ok(_), Err(fault)) | (Err(fault), Ok(_)) => Err(fault),
        (Err(a), Err(b)) => Err(first_fault(a, b)),
    }
}

fn add_heights(
    a: Result<u64, AlgebraFault>,
    b: Result<u64, AlgebraFault>,
) -> Result<u64, AlgebraFault>
    ensures { result ≡ added_heights (both_told a b) }
{
    let (a, b) = both(a, b)?;
    add(a, b).ok_or(AlgebraFault::HeightOutOfReach)
}

fn join(a: Order, b: Order) -> Order
    ensures { result ≡ joined_order a b }
{
    match (a, b) {
        (Order::Strict, Order::Strict | Order::Weak) => Order::Strict,
        (Order::Weak, order) => order,
        (Order::Strict | Order::Neither, _) => Order::Neither,
    }
}

fn join_orders(
    a: Result<Order, AlgebraFault>,
    b: Result<Order, AlgebraFault>,
) -> Result<Order, AlgebraFault>
    ensures { result ≡ joined_orders (both_told a b) }
{
    let (a, b) = both(a, b)?;
    Ok(join(a, b))
}

// Where one has no ceiling the sum has none, however high the other's is.
fn add_ceilings(
    a: Result<Option<u64>, AlgebraFault>,
    b: Result<Option<u64>, AlgebraFault>,
) -> Result<Option<u64>, AlgebraFault>
    ensures { result ≡ added_ceilings a b }
{
    match (a, b) {
        (Ok(None), _) | (_, Ok(None)) => Ok(None),
        (Ok(Some(c)), Ok(Some(d))) => { add(c, d).map(Some).ok_or(AlgebraFault::CeilingOutOfReach) }
        (Err(fault), _) | (_, Err(fault)) => Err(fault),
    }
}

impl<A: Algebra, B: Algebra> Algebra for Sum<A, B> {
    ghost means = { λ s. sum_means (A.Algebra.means s.first) (B.Algebra.means s.second) };

    ghost lawful = { λ s. sum_lawful (A.Algebra.means s.first) (B.Algebra.means s.second) (A.Algebra.lawful s.first) (B.Algebra.lawful s.second) };

    fn fits(&self, signature: &Signature) -> bool {
        self.first.fits(signature) && self.second.fits(signature)
    }

    fn measure(&self, signature: &Signature, codes: &[u16]) -> Result<u64, AlgebraFault> {
        let first = self.first.measure(signature, codes);
        let second = self.second.measure(signature, codes);
        add_heights(first, second)
    }

    fn compare(
        &self,
        signature: &Signature,
        left: &[u16],
        right: &[u16],
    ) -> Result<Order, AlgebraFault> {
        let first = self.first.compare(signature, left, right);
        let second = self.second.compare(signature, left, right);
        join_orders(first, second)
    }

    fn ceiling(&self, size: usize) -> Result<Option<u64>, AlgebraFault> {
        let first = self.first.ceiling(size);
        let second = self.second.ceiling(size);
        add_ceilings(first, second)
    }
}
