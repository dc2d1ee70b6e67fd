// Lines that are read, passed over and refused.
use commands::fault::Fault;
use commands::parse::parse;
use desk::answer::Decline;
use desk::questions::answer;
use refusals::reason::Reason;
use std::alloc::Global;
use std::test::Fail;

fn has_fault(heap: Global, line: &[u8], fault: Fault) -> bool {
    parse(heap, line) == Err(fault)
}

#[test]
fn a_bad_line_has_a_named_fault(rt: HostRuntime) {
    let heap = rt.alloc();
    assert!(rt; has_fault(heap, b"sha 61\x7f", Fault::NotPrintable));
    assert!(rt; has_fault(heap, b"Sha 61", Fault::UnknownCommand));
    assert!(rt; has_fault(heap, b"read 0", Fault::MissingWord));
    assert!(rt; has_fault(heap, b"sha 61 62", Fault::ExtraWord));
    assert!(rt; has_fault(heap, b"sha 6", Fault::NotHex));
    assert!(rt; has_fault(heap, b"sha g0", Fault::NotHex));
    assert!(rt; has_fault(heap, b"opens hash 61 62", Fault::NotAValue));
    assert!(rt; has_fault(heap, b"read 18446744073709551616 -", Fault::NotANumber));
    assert!(rt; has_fault(heap, b"opens rope", Fault::UnknownLock));
}

#[test]
fn blanks_and_comments_are_passed_over(rt: HostRuntime) {
    let heap = rt.alloc();
    assert!(rt; parse(heap, b"") == Ok(None));
    assert!(rt; parse(heap, b"\r") == Ok(None));
    assert!(rt; parse(heap, b" \t ") == Ok(None));
    assert!(rt; parse(heap, b"# \xff") == Ok(None));
    assert!(rt; has_fault(heap, b" # 61", Fault::UnknownCommand));
}

// What the desk says to a line.
fn said(heap: Global, line: &[u8]) -> Result<String, Fail> {
    let command = parse(heap, line)?.ok_or("passed over")?;
    match answer(heap, &command)? {
        Ok(text) => Ok(text),
        Err(decline) => Ok(decline.to_string(heap)?),
    }
}

#[test]
fn the_desk_answers_in_words(rt: HostRuntime) -> Result<(), Fail> {
    let heap = rt.alloc();
    assert!(rt;
        said(heap, b"sha 616263\r")?.as_str()
            == "ba7816bf8f01cfea414140de5dae2223b00361a396177a9cb410ff61f20015ad"
    );
    assert!(rt; said(heap, b"read 0 00830003")?.as_str() == "fail id 3");
    assert!(rt; said(heap, b"read 0 0086000003E8")?.as_str() == "fee rate 1000");
    assert!(rt;
        said(heap, b"read 5 0081")?.as_str()
            == "declined 4, layer 1, channel 5: the message cannot be read, or is not for this call"
    );
    Ok(())
}

#[test]
fn a_lock_that_cannot_be_made_declines_with_a_bare_number(rt: HostRuntime) -> Result<(), Fail> {
    let decline = Decline::NotMade(Reason::OutOfBounds);
    assert!(rt; decline.to_string(rt.alloc())?.as_str() == "declined 5");
    Ok(())
}
