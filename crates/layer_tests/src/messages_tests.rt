// Messages of every type at every length, and their bytes.
use messages::fault::MessageFault;
use messages::message::Message;
use messages::reader::read;
use messages::writer::{write_add, write_fulfil};
use money::basket::Basket;
use money::satoshi::Satoshi;
use octets::places::put_number;
use refusals::refusal::Refusal;
use std::process::Abort;
use std::test::Fail;

// The length of each type in satoshi; other types have none.
fn length_of(number: u16) -> Option<usize> {
    match number {
        128 => Some(48),
        130 => Some(36),
        131 => Some(4),
        132 => Some(34),
        133 => Some(66),
        134 => Some(6),
        136 => Some(18),
        _ => None,
    }
}

fn reads_one_length(rt: &impl Abort, number: u16) {
    let mut bytes = [0u8; 201];
    put_number(&mut bytes, 0, number);
    for length in 0..201usize {
        let read = read::<Satoshi>(9, &bytes[0..length]);
        assert!(rt; read.is_ok() == (length >= 2 && length_of(number) == Some(length)));
    }
}

#[test]
fn a_type_has_one_length(rt: HostRuntime) {
    for number in 126u16..139 {
        reads_one_length(&rt, number);
    }
    reads_one_length(&rt, 0);
    reads_one_length(&rt, 65535);
}

#[test]
fn a_damaged_message_is_refused_with_four(rt: HostRuntime) -> Result<(), Fail> {
    let fault = MessageFault::Malformed { channel: 7 };
    assert!(rt; read::<Satoshi>(7, &[0, 128]) == Err(fault));
    let Refusal { reason, channel } = Refusal::from(fault);
    assert!(rt; reason.number() == 4 && reason.layer().number() == 1 && channel == 7);
    Ok(())
}

#[test]
fn an_add_of_a_basket_is_wider(rt: HostRuntime) -> Result<(), Fail> {
    let mut out = [7u8; 100];
    let amount = Basket::new([5, 0, 0, 12]).ok_or("a value within the limit is refused")?;
    let length = write_add(&mut out, 3, &amount, &[9; 32], 500);
    assert!(rt; length == 72);
    assert!(rt; out[3] == 3 && out[11] == 5 && out[35] == 12 && out[36] == 9);
    assert!(rt; out[71] == 244 && out[72] == 7);
    assert!(rt; read::<Satoshi>(0, &out[0..72]).is_err());
    assert!(rt; read::<Basket>(0, &out[0..72]).is_ok());
    Ok(())
}

#[test]
fn a_fulfil_hands_out_its_key(rt: HostRuntime) {
    let mut out = [0u8; 36];
    let key = [5u8; 32];
    let _ = write_fulfil(&mut out, 258, &key);
    assert!(rt; read::<Satoshi>(0, &out) == Ok(Message::Fulfil { id: 258, key: &key }));
}
