// The seven messages. Fields of 32 bytes, and the amount of an add, are parts of the received bytes.
#[derive(Clone, Copy, Debug, PartialEq, Eq)]
pub enum Message<'a> {
    Add {
        id: u16,
        amount: &'a [u8],
        value: &'a [u8; 32],
        expiry: u32,
    },
    Fulfil {
        id: u16,
        key: &'a [u8; 32],
    },
    Fail {
        id: u16,
    },
    Signed {
        signature: &'a [u8; 32],
    },
    Revoked {
        secret: &'a [u8; 32],
        point: &'a [u8; 32],
    },
    Fee {
        rate: u32,
    },
    Reestablish {
        commitment: u64,
        revocation: u64,
    },
}
