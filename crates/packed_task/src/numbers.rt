// The numbers by which the words of a compiled task are read, each as a type that bounds it. They are made where a loop or a lookup makes the number,
// and the bound is proved there, so that reading asks nothing and tests nothing.
// Stays: a literal, and no function that makes one of a plain number: it would have to test the number, or to take it modulo 64.
ghost use Rattle.std.specs.Prelude.{◌<◌};

// The number of one of the 64 actions.
#[derive(Clone, Copy)]
pub struct ActionNumber {
    pub number: usize,
    pub ghost below: { number < 64 },
}

// The number of one of the 8 outcomes of an action.
#[derive(Clone, Copy)]
pub struct OutcomeNumber {
    pub number: usize,
    pub ghost below: { number < 8 },
}
