// The types whose values are scalars.
ghost use Rattle.std.specs.Prelude.{◌≡◌};
ghost use Rattle.rlp.specs.Tree.{Item};
ghost use Rattle.encode.specs.Encode.{numeral, flag};

// A type each of whose values is encoded as a number is. An impl for each, a line of body in each.
pub trait Scalar: Copy {
    ghost item: { Self → Item };

    fn number(self) -> usize
        ensures { numeral result ≡ item self };
}

impl Scalar for u8 {
    ghost item = { numeral };

    fn number(self) -> usize {
        usize::from(self)
    }
}

impl Scalar for u16 {
    ghost item = { numeral };

    fn number(self) -> usize {
        usize::from(self)
    }
}

// From u32 and u64 to usize there is no `From`.
impl Scalar for u32 {
    ghost item = { numeral };

    fn number(self) -> usize {
        self as usize
    }
}

impl Scalar for u64 {
    ghost item = { numeral };

    fn number(self) -> usize {
        self as usize
    }
}

impl Scalar for bool {
    ghost item = { flag };

    #[tactic(auto, using(crate::proofs::Numbers::flag_number))]
    fn number(self) -> usize {
        usize::from(self)
    }
}
