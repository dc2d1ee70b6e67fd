// The two sides of a commitment.
#[derive(Clone, Copy, Debug, PartialEq, Eq)]
pub enum Side {
    Funder = 0,
    Other = 1,
}
