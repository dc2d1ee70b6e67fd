// A secret that the peer revealed, with its index.
#[derive(Clone, Copy, Debug, PartialEq, Eq)]
pub struct Known {
    pub index: u64,
    pub secret: [u8; 32],
}
