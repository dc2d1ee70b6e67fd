// The public examples of per-commitment secrets of BOLT 3, Appendix D.
use notation::hex::decode_value;
use secrets::derivation::derive;
use secrets::store::Store;
use std::process::Abort;
use std::test::Fail;

const LAST: u64 = 0xffff_ffff_ffff;

const RIGHT_0: &[u8; 64] = b"7cc854b54e3e0dcdb010d7a3fee464a9687be6e8db3be6854c475621e007a5dc";

const RIGHT_1: &[u8; 64] = b"c7518c8ae4660ed02894df8976fa1a3659c1a8b4b5bec0c4b872abeba4cb8964";

const RIGHT_2: &[u8; 64] = b"2273e227a5b7449b6e70f1fb4652864038b1cbf9cd7c043a7d6456b7fc275ad8";

const RIGHT_3: &[u8; 64] = b"27cddaa5624534cb6cb9d7da077cf2b22ab21e9b506fd4998a51d54502e99116";

const RIGHT_4: &[u8; 64] = b"c65716add7aa98ba7acb236352d665cab17345fe45b55fb879ff80e6bd0c41dd";

const RIGHT_5: &[u8; 64] = b"969660042a28f32d9be17344e09374b379962d03db1574df5a8a5a47e19ce3f2";

const RIGHT_6: &[u8; 64] = b"a5a64476122ca0925fb344bdc1854c1c0a59fc614298e50a33e331980a220f32";

const RIGHT_7: &[u8; 64] = b"05cde6323d949933f7f7b78776bcc1ea6d9b31447732e3802e1f7ac44b650e17";

const WRONG_0: &[u8; 64] = b"02a40c85b6f28da08dfdbe0926c53fab2de6d28c10301f8f7c4073d5e42e3148";

const WRONG_1: &[u8; 64] = b"dddc3a8d14fddf2b68fa8c7fbad2748274937479dd0f8930d5ebb4ab6bd866a3";

const WRONG_2: &[u8; 64] = b"c51a18b13e8527e579ec56365482c62f180b7d5760b46e9477dae59e87ed423a";

const WRONG_3: &[u8; 64] = b"ba65d7b0ef55a3ba300d4e87af29868f394f8f138d78a7011669c79b37b936f4";

const WRONG_4: &[u8; 64] = b"631373ad5f9ef654bb3dade742d09504c567edd24320d2fcd68e3cc47e2ff6a6";

const WRONG_5: &[u8; 64] = b"b7e76a83668bde38b373970155c868a653304308f9896692f904a23731224bb1";

const WRONG_6: &[u8; 64] = b"e7971de736e01da8ed58b94c2fc216cb1dca9e326f3a96e7194fe8ea8af6c0a3";

const WRONG_7: &[u8; 64] = b"a7efbc61aac46d34f77778bac22c8a20c6a46ca460addc49009bda875ec88fa4";

fn value(digits: &[u8; 64]) -> Result<[u8; 32], Fail> {
    decode_value(digits).ok_or_else(|| Fail::new("not a value"))
}

fn derives(rt: &impl Abort, seed: u8, index: u64, digits: &[u8; 64]) -> Result<(), Fail> {
    let secret = value(digits)?;
    assert!(rt; derive([seed; 32], index, 48) == secret);
    Ok(())
}

#[test]
fn secrets_are_generated_from_a_seed(rt: HostRuntime) -> Result<(), Fail> {
    // zero final node
    derives(
        &rt,
        0x00,
        281474976710655,
        b"02a40c85b6f28da08dfdbe0926c53fab2de6d28c10301f8f7c4073d5e42e3148",
    )?;
    // FF final node
    derives(
        &rt,
        0xff,
        281474976710655,
        b"7cc854b54e3e0dcdb010d7a3fee464a9687be6e8db3be6854c475621e007a5dc",
    )?;
    // FF alternate bits 1
    derives(
        &rt,
        0xff,
        11728124029610,
        b"56f4008fb007ca9acf0e15b054d5c9fd12ee06cea347914ddbaed70d1c13a528",
    )?;
    // FF alternate bits 2
    derives(
        &rt,
        0xff,
        93824992236885,
        b"9015daaeb06dba4ccc05b91b2f73bd54405f2be9f217fbacd3c5ac2e62327d31",
    )?;
    // 01 last nontrivial node
    derives(
        &rt,
        0x01,
        1,
        b"915c75942a26bb3a433a8ce2cb0427c29ec6c1775cfc78328b57f6ba7bfeaa9c",
    )?;
    Ok(())
}

// Whether the store answers a secret for the number.
fn answers(store: &Store, number: u64, digits: &[u8; 64]) -> Result<bool, Fail> {
    let secret = value(digits)?;
    match store.get(LAST.wrapping_sub(number)) {
        Some(answer) => Ok(answer == secret),
        None => Ok(false),
    }
}

// Each of the first so many secrets comes back.
fn come_back(
    rt: &impl Abort,
    store: &Store,
    secrets: &[&[u8; 64]],
    taken: u64,
) -> Result<(), Fail> {
    for (number, digits) in (0..taken).zip(secrets) {
        assert!(rt; answers(store, number, digits)?);
    }
    Ok(())
}

// How many secrets a new store takes in the order of their numbers, from 0 on, until one does not fit.
fn taken_of(rt: &impl Abort, secrets: &[&[u8; 64]]) -> Result<u64, Fail> {
    let mut store = Store::new();
    let mut taken: u64 = 0;
    for digits in secrets {
        let secret = value(digits)?;
        if !store.insert(LAST.wrapping_sub(taken), &secret) {
            come_back(rt, &store, secrets, taken)?;
            return Ok(taken);
        }
        taken = taken.saturating_add(1);
    }
    come_back(rt, &store, secrets, taken)?;
    Ok(taken)
}

#[test]
fn right_secrets_are_taken(rt: HostRuntime) -> Result<(), Fail> {
    assert!(rt;
        taken_of(
            &rt,
            &[
                RIGHT_0, RIGHT_1, RIGHT_2, RIGHT_3, RIGHT_4, RIGHT_5, RIGHT_6, RIGHT_7,
            ],
        )? == 8
    );
    Ok(())
}

#[test]
fn with_1_incorrect(rt: HostRuntime) -> Result<(), Fail> {
    assert!(rt; taken_of(&rt, &[WRONG_0, RIGHT_1])? == 1);
    Ok(())
}

#[test]
fn with_2_incorrect_1_derived_from_incorrect(rt: HostRuntime) -> Result<(), Fail> {
    assert!(rt; taken_of(&rt, &[WRONG_0, WRONG_1, RIGHT_2, RIGHT_3])? == 3);
    Ok(())
}

#[test]
fn with_3_incorrect(rt: HostRuntime) -> Result<(), Fail> {
    assert!(rt; taken_of(&rt, &[RIGHT_0, RIGHT_1, WRONG_2, RIGHT_3])? == 3);
    Ok(())
}

#[test]
fn with_4_incorrect_1_2_3_derived_from_incorrect(rt: HostRuntime) -> Result<(), Fail> {
    assert!(rt;
        taken_of(
            &rt,
            &[
                WRONG_0, WRONG_1, WRONG_2, WRONG_3, RIGHT_4, RIGHT_5, RIGHT_6, RIGHT_7,
            ],
        )? == 7
    );
    Ok(())
}

#[test]
fn with_5_incorrect(rt: HostRuntime) -> Result<(), Fail> {
    assert!(rt; taken_of(&rt, &[RIGHT_0, RIGHT_1, RIGHT_2, RIGHT_3, WRONG_4, RIGHT_5])? == 5);
    Ok(())
}

#[test]
fn with_6_incorrect_5_derived_from_incorrect(rt: HostRuntime) -> Result<(), Fail> {
    assert!(rt;
        taken_of(
            &rt,
            &[
                RIGHT_0, RIGHT_1, RIGHT_2, RIGHT_3, WRONG_4, WRONG_5, RIGHT_6, RIGHT_7,
            ],
        )? == 7
    );
    Ok(())
}

#[test]
fn with_7_incorrect(rt: HostRuntime) -> Result<(), Fail> {
    assert!(rt;
        taken_of(
            &rt,
            &[
                RIGHT_0, RIGHT_1, RIGHT_2, RIGHT_3, RIGHT_4, RIGHT_5, WRONG_6, RIGHT_7,
            ],
        )? == 7
    );
    Ok(())
}

#[test]
fn with_8_incorrect(rt: HostRuntime) -> Result<(), Fail> {
    assert!(rt;
        taken_of(
            &rt,
            &[
                RIGHT_0, RIGHT_1, RIGHT_2, RIGHT_3, RIGHT_4, RIGHT_5, RIGHT_6, WRONG_7,
            ],
        )? == 7
    );
    Ok(())
}
