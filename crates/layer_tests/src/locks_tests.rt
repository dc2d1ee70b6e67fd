// The group's worked figures, and a key of the hash lock.
use locks::group_lock::GroupLock;
use locks::hash_lock::HashLock;
use locks::lock::Lock;
use sha256::sha256;
use std::test::Fail;

fn value(number: u8) -> [u8; 32] {
    let mut bytes = [0; 32];
    bytes[31] = number;
    bytes
}

fn group() -> Result<GroupLock, Fail> {
    Ok(GroupLock::new(23, 11, 2)?)
}

#[test]
fn a_key_opens_its_value_alone(rt: HostRuntime) -> Result<(), Fail> {
    let lock = group()?;
    assert!(rt; lock.opens(&value(3), &value(8)));
    assert!(rt; lock.opens(&value(14), &value(8)));
    assert!(rt; !lock.opens(&value(3), &value(9)));
    let mut high = value(8);
    high[0] = 1;
    assert!(rt; !lock.opens(&value(3), &high));
    Ok(())
}

#[test]
fn a_tweak_carries_both(rt: HostRuntime) -> Result<(), Fail> {
    let lock = group()?;
    assert!(rt; lock.carry_key(&value(3), &value(4)) == value(7));
    assert!(rt; lock.carry_value(&value(8), &value(4)) == value(13));
    assert!(rt; lock.opens(&value(7), &value(13)));
    Ok(())
}

fn refused(modulus: u64, order: u64, base: u64) -> bool {
    GroupLock::new(modulus, order, base).is_err_and(|reason| reason.number() == 5)
}

#[test]
fn a_group_has_its_bounds(rt: HostRuntime) {
    assert!(rt; refused(2, 11, 2));
    assert!(rt; refused(0x8000_0000, 11, 2));
    assert!(rt; refused(23, 1, 2));
    assert!(rt; refused(23, 0x8000_0000, 2));
    assert!(rt; refused(23, 11, 1));
    assert!(rt; refused(23, 11, 23));
    assert!(rt; refused(23, 10, 2));
    assert!(rt; !refused(3, 2, 2));
}

#[test]
fn the_hash_lock_is_the_hash(rt: HostRuntime) {
    let key = value(3);
    let digest = sha256(&key);
    assert!(rt; HashLock.opens(&key, &digest));
    assert!(rt; !HashLock.opens(&key, &key));
    assert!(rt; HashLock.carry_key(&key, &value(4)) == key);
}
