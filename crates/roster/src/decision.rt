// What an agreement decides.

// Nothing, or a code that was put. Not an Option: a seat that has not decided yet has none of the two, and an Option within another would
// not say which is which.
#[derive(Clone, Copy, PartialEq, Eq, Debug)]
pub enum Decision {
    Nothing,
    Code(u64),
}
