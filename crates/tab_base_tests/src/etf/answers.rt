//! Answers of transactions, which are written as the lists that they are, and these aren't built.

use std::alloc::{AllocError, Global};
use std::test::Fail;
use tab_etf::{Body, Leaf, Outline, append_frame, append_outline, decode};
use tab_lists::{Answer, Answers, SharedTerms};
use tab_term::{Term, Terms};
use tab_test_tools::bytes;

/// An answer in few words. Its terms are numbers.
pub enum Shape {
    Done,
    Found(&'static [i128]),
    Aborted(i128),
    Atomic(&'static [Shape]),
}

/// Answers, and the payload of their list, encoded by hand from the External Term Format.
static ANSWERS: [(&[Shape], &str); 9] = [
    (&[], "83 6A"),
    (&[Shape::Done], "83 6C00000001 77026F6B 6A"),
    (&[Shape::Found(&[])], "83 6C00000001 6A 6A"),
    (&[Shape::Found(&[1, 2, 3])], "83 6C00000001 6B0003010203 6A"),
    (
        &[Shape::Found(&[1, 300])],
        "83 6C00000001 6C00000002 6101 620000012C 6A 6A",
    ),
    (
        &[Shape::Aborted(7)],
        "83 6C00000001 6802 770761626F72746564 6107 6A",
    ),
    (
        &[Shape::Atomic(&[])],
        "83 6C00000001 6802 770661746F6D6963 6A 6A",
    ),
    (
        &[
            Shape::Done,
            Shape::Atomic(&[
                Shape::Found(&[1, 2]),
                Shape::Atomic(&[Shape::Aborted(7)]),
                Shape::Done,
            ]),
            Shape::Found(&[300]),
        ],
        "83 6C00000003 77026F6B
         6802 770661746F6D6963 6C00000003 6B00020102
         6802 770661746F6D6963 6C00000001 6802 770761626F72746564 6107 6A
         77026F6B 6A
         6C00000001 620000012C 6A 6A",
    ),
    (
        &[Shape::Done, Shape::Done, Shape::Done],
        "83 6C00000003 3*77026F6B 6A",
    ),
];

fn numbers(alloc: Global, all: &[i128]) -> Result<SharedTerms, AllocError> {
    let mut terms = Vec::new(alloc);
    for number in all {
        terms.push(Term::Int(*number))?;
    }
    Ok(SharedTerms::from_terms(Terms::from_vec(terms)))
}

#[cycle(build)]
fn answer(alloc: Global, shape: &Shape) -> Result<Answer, AllocError> {
    match shape {
        Shape::Done => Ok(Answer::Done),
        Shape::Found(all) => Ok(Answer::Found(numbers(alloc, all)?)),
        Shape::Aborted(reason) => Ok(Answer::Aborted(Term::Int(*reason))),
        Shape::Atomic(inner) => Ok(Answer::Atomic(answers(alloc, inner)?)),
    }
}

/// The answers of these shapes.
#[cycle(build)]
pub fn answers(alloc: Global, shapes: &[Shape]) -> Result<Answers, AllocError> {
    let mut all = Answers::new(alloc);
    for shape in shapes {
        all.push(answer(alloc, shape)?)?;
    }
    Ok(all)
}

fn framed(alloc: Global, answers: &Answers) -> Result<Vec<u8>, Fail> {
    let mut out = Vec::new(alloc);
    let outline = Outline {
        first: None,
        second: None,
        body: Body::One(Leaf::answers(answers)),
    };
    append_outline(&outline, &mut out)?;
    Ok(out)
}

/// Returns whether these answers are framed as their term is, and as this payload.
fn are_spelled(alloc: Global, answers: &Answers, payload: &[u8]) -> Result<bool, Fail> {
    let told = framed(alloc, answers)?;
    let mut built = Vec::new(alloc);
    append_frame(&decode(alloc, payload)?, &mut built)?;
    Ok(told.as_slice() == built.as_slice() && told.get(4..) == Some(payload))
}

#[test]
fn answers_are_spelled_as_their_terms(rt: HostRuntime) -> Result<(), Fail> {
    let alloc = rt.alloc();
    for (line, (shapes, text)) in ANSWERS.iter().enumerate() {
        let payload = bytes(alloc, text)?;
        let all = answers(alloc, shapes)?;
        assert!(rt; are_spelled(alloc, &all, &payload)?, "line {line}");
    }
    Ok(())
}
