// Sums, differences and units at their edges.
use money::basket::Basket;
use money::kind::Money;
use money::satoshi::Satoshi;
use std::test::Fail;

const LIMIT: u64 = 2_100_000_000_000_000;

const REFUSED: &str = "a value within the limit is refused";

#[test]
fn a_sum_may_reach_the_limit(rt: HostRuntime) -> Result<(), Fail> {
    let most = Satoshi::new(LIMIT).ok_or(REFUSED)?;
    let one = Satoshi::new(1).ok_or(REFUSED)?;
    let nearly = Satoshi::new(LIMIT - 1).ok_or(REFUSED)?;
    assert!(rt; Satoshi::new(LIMIT + 1).is_none());
    assert!(rt; most.sum(&one).is_none());
    assert!(rt; nearly.sum(&one).map(|sum| sum.value()) == Some(LIMIT));
    Ok(())
}

#[test]
fn a_difference_may_reach_zero(rt: HostRuntime) -> Result<(), Fail> {
    let five = Satoshi::new(5).ok_or(REFUSED)?;
    let six = Satoshi::new(6).ok_or(REFUSED)?;
    assert!(rt; five.difference(&six).is_none());
    assert!(rt; five.difference(&five).map(|rest| rest.value()) == Some(0));
    assert!(rt; six.difference(&five).map(|rest| rest.value()) == Some(1));
    Ok(())
}

#[test]
fn units_stop_at_the_balance(rt: HostRuntime) -> Result<(), Fail> {
    let five = Satoshi::new(5).ok_or(REFUSED)?;
    let basket = Basket::new([500, 9, 9, 9]).ok_or(REFUSED)?;
    assert!(rt; Satoshi::units(724, &five).value() == 5);
    assert!(rt; Satoshi::units(4, &five).value() == 4);
    assert!(rt; Basket::units(724, &basket).amounts() == [500, 0, 0, 0]);
    Ok(())
}

#[test]
fn a_basket_is_refused_by_any_asset(rt: HostRuntime) -> Result<(), Fail> {
    let small = Basket::new([1, 2, 3, 4]).ok_or(REFUSED)?;
    let last = Basket::new([0, 0, 0, LIMIT]).ok_or(REFUSED)?;
    assert!(rt; Basket::new([0, 0, LIMIT + 1, 0]).is_none());
    assert!(rt; small.sum(&last).is_none());
    assert!(rt; small.difference(&last).is_none());
    assert!(rt; last.difference(&small).is_none());
    assert!(rt; small.sum(&small).is_some());
    Ok(())
}

#[test]
fn a_basket_reads_what_it_writes(rt: HostRuntime) -> Result<(), Fail> {
    let basket = Basket::new([1, 256, LIMIT, 0]).ok_or(REFUSED)?;
    let mut out = [9u8; 34];
    basket.write(&mut out, 1);
    assert!(rt; out[0] == 9 && out[8] == 1 && out[15] == 1 && out[16] == 0 && out[33] == 9);
    let read = Basket::read(&out[1..33]).ok_or("what was written is refused")?;
    assert!(rt; read.amounts() == [1, 256, LIMIT, 0]);
    Ok(())
}
