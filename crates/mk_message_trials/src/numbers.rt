//! Ids drawn and answered.
use mk_requests::{Answered, Numbers};

const OTHER: Answered = Answered::Unasked {
    id: 1,
    outstanding: Some(2),
};

const AGAIN: Answered = Answered::Unasked {
    id: 2,
    outstanding: None,
};

// What is answered to an id that wasn't drawn, to the one that was, and to this again; and the ids drawn before and
// after.
fn told() -> ([Answered; 3], [u64; 2]) {
    let mut numbers = Numbers::new(2);
    let first = numbers.draw();
    let other = numbers.answer(1);
    let asked = numbers.answer(2);
    let again = numbers.answer(2);
    let second = numbers.draw();
    ([other, asked, again], [first, second])
}

fn outstanding() -> Option<u64> {
    let mut numbers = Numbers::new(2);
    let _ = numbers.draw();
    numbers.outstanding()
}

#[test]
fn an_id_is_answered_once(rt: HostRuntime) {
    assert!(rt; told() == ([OTHER, Answered::Asked, AGAIN], [2, 3]) && outstanding() == Some(2));
}
