// A grant: steps that are out of a pool, under a number. Only a pool makes one, and settling uses it up.
ghost use Rattle.std.specs.Prelude.{◌≡◌};
ghost use Rattle.pools.specs.Grants.{number_of, amount_of};

// It is neither copied nor cloned.
pub struct Grant {
    number: u32,
    amount: u64,
}

// Only a grant that is used up may be let go, and that has the number 0, which no pool gives.
impl Drop for Grant {
    fn drop(self)
        requires { number_of self ≡ 0 }
    {
        let Grant {
            number: _,
            amount: _,
        } = self;
    }
}

impl Grant {
    pub(crate) fn new(number: u32, amount: u64) -> Grant
        ensures { result ≡ record { number = number; amount = amount } }
    {
        Grant { number, amount }
    }

    pub fn number(&self) -> u32
        ensures { result ≡ number_of self.now }
    {
        self.number
    }

    pub fn amount(&self) -> u64
        ensures { result ≡ amount_of self.now }
    {
        self.amount
    }

    // Uses it up.
    pub(crate) fn spend(mut self) {
        self.number = 0;
    }
}
