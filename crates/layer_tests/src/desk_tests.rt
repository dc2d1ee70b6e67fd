// Questions that have no text, and what is said then.
use commands::command::LockName;
use desk::answer::Unanswered;
use desk::questions::{answer_carry_key, answer_carry_value, answer_opens, answer_read};
use money::satoshi::Satoshi;
use std::alloc::{AllocError, Global};
use std::error::Error;
use std::test::Fail;

// What a question says that has no text.
fn reason_of<E: Error + Drop>(heap: Global, said: Result<String, E>) -> Result<String, Fail> {
    let unanswered = said.err().ok_or("there is a text")?;
    Ok(unanswered.to_string(heap)?)
}

#[test]
fn a_group_that_cannot_be_made_leaves_a_question_unanswered(rt: HostRuntime) -> Result<(), Fail> {
    let heap = rt.alloc();
    // 2 to the 10th leaves 12 when it is divided by 23, where a group needs 1
    let lock = LockName::Group {
        modulus: 23,
        order: 10,
        base: 2,
    };
    let value = [0; 32];
    let opens = answer_opens(heap, lock, &value, &value);
    assert!(rt; reason_of(heap, opens)?.as_str() == "declined 5");
    let carried = answer_carry_key(heap, lock, &value, &value);
    assert!(rt; reason_of(heap, carried)?.as_str() == "declined 5");
    let carried = answer_carry_value(heap, lock, &value, &value);
    assert!(rt; reason_of(heap, carried)?.as_str() == "declined 5");
    Ok(())
}

#[test]
fn a_question_without_a_text_says_why(rt: HostRuntime) -> Result<(), Fail> {
    let heap = rt.alloc();
    let said = answer_read::<Satoshi>(heap, 5, b"\x00\x81");
    assert!(rt;
        reason_of(heap, said)?.as_str()
            == "declined 4, layer 1, channel 5: the message cannot be read, or is not for this call"
    );
    let wanting = Err(Unanswered::from(AllocError));
    assert!(rt; reason_of(heap, wanting)?.as_str() == "memory is wanting");
    Ok(())
}
