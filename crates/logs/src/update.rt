// Updates of a log, and entries of a list.
#[derive(Clone, Copy, Debug, PartialEq, Eq)]
pub enum Update<M> {
    // A payment; one that is forwarded names the incoming add.
    Add {
        id: u16,
        amount: M,
        value: [u8; 32],
        expiry: u32,
        incoming: Option<Incoming>,
    },
    Fulfil {
        id: u16,
        key: [u8; 32],
    },
    Fail {
        id: u16,
    },
    Fee {
        rate: u32,
    },
}

// The incoming add that a forwarded one names, the tweak, and the key that was learned for it.
#[derive(Clone, Copy, Debug, PartialEq, Eq)]
pub struct Incoming {
    pub channel: u64,
    pub id: u16,
    pub tweak: [u8; 32],
    pub key: Option<[u8; 32]>,
}

// The ways in which an add is resolved.
#[derive(Clone, Copy, Debug, PartialEq, Eq)]
pub enum Resolution {
    Fulfilled,
    Failed,
}

// The first so many updates of our log and of the peer's.
#[derive(Clone, Copy, Debug, PartialEq, Eq)]
pub struct Entry {
    pub ours: u16,
    pub theirs: u16,
}
