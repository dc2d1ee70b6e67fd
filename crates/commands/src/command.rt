// What a line of a book can ask for.
#[derive(Debug, Drop, PartialEq, Eq)]
pub enum Command {
    Sha {
        message: Vec<u8>,
    },
    Read {
        channel: u64,
        message: Vec<u8>,
    },
    Opens {
        lock: LockName,
        key: [u8; 32],
        value: [u8; 32],
    },
    CarryKey {
        lock: LockName,
        key: [u8; 32],
        tweak: [u8; 32],
    },
    CarryValue {
        lock: LockName,
        value: [u8; 32],
        tweak: [u8; 32],
    },
}

#[derive(Clone, Copy, Debug, PartialEq, Eq)]
pub enum LockName {
    Hash,
    Group { modulus: u64, order: u64, base: u64 },
}
