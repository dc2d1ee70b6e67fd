// Reasons and refusals in words.
use refusals::layer::Layer;
use refusals::reason::Reason;
use refusals::refusal::Refusal;
use std::test::Fail;

#[test]
fn a_reason_has_its_number_layer_and_words(rt: HostRuntime) -> Result<(), Fail> {
    let heap = rt.alloc();
    assert!(rt; Reason::Full.number() == 3);
    assert!(rt; Reason::Full.layer() == Layer::Channel);
    assert!(rt; Reason::Full.to_string(heap)?.as_str() == "the log or list is full");
    assert!(rt; Reason::NoPlace.number() == 22);
    assert!(rt; Reason::NoPlace.layer() == Layer::Node);
    assert!(rt; Reason::NoPlace.to_string(heap)?.as_str() == "no place for another channel");
    Ok(())
}

#[test]
fn a_refusal_names_its_channel(rt: HostRuntime) -> Result<(), Fail> {
    let refusal = Refusal {
        reason: Reason::Resolved,
        channel: 9,
    };
    assert!(rt;
        refusal.to_string(rt.alloc())?.as_str()
            == "declined 9, layer 2, channel 9: the payment is resolved already"
    );
    Ok(())
}
