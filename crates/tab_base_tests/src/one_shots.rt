//! One-shots on a session that is played.
ghost use Rattle.std.specs.Prelude.{◌≡◌, IfOk};

use super::played::Played;
use std::alloc::{AllocError, Global};
use tab_model::{Command, Operation, Part, Parts};
use tab_oneshot::{Source, one_shot};
use tab_proto::append_reply;
use tab_term::Term;
use tab_test_tools::atom;

/// A one-shot's list (`r` reads, `x` aborts with 7, an inner list in parentheses) and its retries. Then the session's
/// answers, the commands that the session is to receive, and the encoding of the reply's term.
struct Case {
    list: &'static str,
    retries: u64,
    answers: &'static str,
    asked: &'static str,
    reply: &'static str,
}

static CASES: [Case; 48] = [
    Case {
        list: "rr",
        retries: 5,
        answers: "TkfA",
        asked: "oddc",
        reply: "h\x02w\x06atomicl\x00\x00\x00\x02w\x02okjj",
    },
    Case {
        list: "",
        retries: 0,
        answers: "TA",
        asked: "oc",
        reply: "h\x02w\x06atomicj",
    },
    Case {
        list: "r(r)r",
        retries: 5,
        answers: "TkTkjkA",
        asked: "odbdcdc",
        reply: "h\x02w\x06atomicl\x00\x00\x00\x03w\x02okh\x02w\x06atomicl\x00\x00\x00\x01w\x02okjw\x02okj",
    },
    Case {
        list: "()",
        retries: 0,
        answers: "TTjA",
        asked: "obcc",
        reply: "h\x02w\x06atomicl\x00\x00\x00\x01h\x02w\x06atomicjj",
    },
    // An inner list that is ended: what follows up to its end is left out, and the one around it goes on.
    Case {
        list: "r(rxr)r",
        retries: 5,
        answers: "TkTkukA",
        asked: "odbdadc",
        reply: "h\x02w\x06atomicl\x00\x00\x00\x03w\x02okh\x02w\x07aborteda\x09w\x02okj",
    },
    Case {
        list: "(r(r)r)r",
        retries: 5,
        answers: "TTnkA",
        asked: "obddc",
        reply: "h\x02w\x06atomicl\x00\x00\x00\x02h\x02w\x07abortedh\x02w\x09no_existsw\x01tw\x02okj",
    },
    Case {
        list: "((rr)r)r",
        retries: 5,
        answers: "TTTnkjkA",
        asked: "obbddcdc",
        reply: "h\x02w\x06atomicl\x00\x00\x00\x02h\x02w\x06atomicl\x00\x00\x00\x02h\x02w\x07abortedh\x02w\x09no_existsw\x01tw\x02okjw\x02okj",
    },
    Case {
        list: "(x(r)x)x",
        retries: 5,
        answers: "TTuu",
        asked: "obaa",
        reply: "h\x02w\x07aborteda\x09",
    },
    // A member that ends level 1.
    Case {
        list: "r(r)r",
        retries: 5,
        answers: "Tn",
        asked: "od",
        reply: "h\x02w\x07abortedh\x02w\x09no_existsw\x01t",
    },
    Case {
        list: "rxr",
        retries: 5,
        answers: "Tku",
        asked: "oda",
        reply: "h\x02w\x07aborteda\x09",
    },
    // Waits.
    Case {
        list: "rr",
        retries: 5,
        answers: "TwkkA",
        asked: "odwdc",
        reply: "h\x02w\x06atomicl\x00\x00\x00\x02w\x02okw\x02okj",
    },
    Case {
        list: "(r)",
        retries: 5,
        answers: "TTwnA",
        asked: "obdwc",
        reply: "h\x02w\x06atomicl\x00\x00\x00\x01h\x02w\x07abortedh\x02w\x09no_existsw\x01tj",
    },
    Case {
        list: "(r)",
        retries: 5,
        answers: "TTwNuu",
        asked: "obdwzz",
        reply: "h\x02w\x07abortedw\x06nowait",
    },
    Case {
        list: "r",
        retries: 5,
        answers: "TwNu",
        asked: "odwz",
        reply: "h\x02w\x07abortedw\x06nowait",
    },
    Case {
        list: "r",
        retries: 5,
        answers: "TwEu",
        asked: "odwz",
        reply: "h\x02w\x05errorw\x09no_memory",
    },
    Case {
        list: "r",
        retries: 5,
        answers: "TwQ",
        asked: "odw",
        reply: "h\x02w\x05errorw\x0bnot_waiting",
    },
    // Restarts.
    Case {
        list: "rr",
        retries: 0,
        answers: "TkRu",
        asked: "oddz",
        reply: "h\x02w\x07abortedw\x06nomore",
    },
    Case {
        list: "rr",
        retries: 2,
        answers: "TkRRkkA",
        asked: "odd+d+ddc",
        reply: "h\x02w\x06atomicl\x00\x00\x00\x02w\x02okw\x02okj",
    },
    Case {
        list: "rr",
        retries: 1,
        answers: "TkRkRu",
        asked: "odd+ddz",
        reply: "h\x02w\x07abortedw\x06nomore",
    },
    Case {
        list: "(r)r",
        retries: 1,
        answers: "TTRTkjkA",
        asked: "obd+bdcdc",
        reply: "h\x02w\x06atomicl\x00\x00\x00\x02h\x02w\x06atomicl\x00\x00\x00\x01w\x02okjw\x02okj",
    },
    Case {
        list: "r(r)",
        retries: 1,
        answers: "TkTRn",
        asked: "odbd+d",
        reply: "h\x02w\x07abortedh\x02w\x09no_existsw\x01t",
    },
    Case {
        list: "r",
        retries: 1,
        answers: "TwRkA",
        asked: "odw+dc",
        reply: "h\x02w\x06atomicl\x00\x00\x00\x01w\x02okj",
    },
    Case {
        list: "r",
        retries: 1,
        answers: "TwRwRu",
        asked: "odw+dwz",
        reply: "h\x02w\x07abortedw\x06nomore",
    },
    Case {
        list: "r",
        retries: 0,
        answers: "TRB",
        asked: "odz",
        reply: "h\x02w\x05errorw\x0abadsession",
    },
    // Refused for memory, or by a limit.
    Case {
        list: "(r)",
        retries: 5,
        answers: "TTsuu",
        asked: "obdzz",
        reply: "h\x02w\x05errorh\x02w\x0csystem_limitw\x07nesting",
    },
    Case {
        list: "(r)",
        retries: 5,
        answers: "Tsu",
        asked: "obz",
        reply: "h\x02w\x05errorh\x02w\x0csystem_limitw\x07nesting",
    },
    Case {
        list: "((r))",
        retries: 5,
        answers: "TTsuu",
        asked: "obbzz",
        reply: "h\x02w\x05errorh\x02w\x0csystem_limitw\x07nesting",
    },
    Case {
        list: "r(r)",
        retries: 5,
        answers: "TkTEuu",
        asked: "odbdzz",
        reply: "h\x02w\x05errorw\x09no_memory",
    },
    Case {
        list: "r",
        retries: 5,
        answers: "TkEu",
        asked: "odcz",
        reply: "h\x02w\x05errorw\x09no_memory",
    },
    Case {
        list: "(r)",
        retries: 5,
        answers: "TTkEuu",
        asked: "obdczz",
        reply: "h\x02w\x05errorw\x09no_memory",
    },
    Case {
        list: "r",
        retries: 5,
        answers: "TRsu",
        asked: "od+dz",
        reply: "h\x02w\x05errorh\x02w\x0csystem_limitw\x07nesting",
    },
    Case {
        list: "(r)",
        retries: 5,
        answers: "TTsuB",
        asked: "obdzz",
        reply: "h\x02w\x05errorw\x0abadsession",
    },
    Case {
        list: "(r)",
        retries: 5,
        answers: "TTsX",
        asked: "obdz",
        reply: "h\x02w\x05errorw\x0eno_transaction",
    },
    // The command itself is refused.
    Case {
        list: "r",
        retries: 5,
        answers: "E",
        asked: "o",
        reply: "h\x02w\x05errorw\x09no_memory",
    },
    Case {
        list: "r",
        retries: 5,
        answers: "s",
        asked: "o",
        reply: "h\x02w\x05errorh\x02w\x0csystem_limitw\x07nesting",
    },
    Case {
        list: "r",
        retries: 5,
        answers: "I",
        asked: "o",
        reply: "h\x02w\x05errorw\x0ein_transaction",
    },
    Case {
        list: "r",
        retries: 5,
        answers: "W",
        asked: "o",
        reply: "h\x02w\x05errorw\x07waiting",
    },
    Case {
        list: "r",
        retries: 5,
        answers: "B",
        asked: "o",
        reply: "h\x02w\x05errorw\x0abadsession",
    },
    // Answers that can't come at their place.
    Case {
        list: "r",
        retries: 5,
        answers: "Tkj",
        asked: "odc",
        reply: "h\x02w\x06atomicw\x02ok",
    },
    Case {
        list: "r",
        retries: 5,
        answers: "TkR",
        asked: "odc",
        reply: "w\x07restart",
    },
    Case {
        list: "(r)",
        retries: 5,
        answers: "Tw",
        asked: "ob",
        reply: "w\x07waiting",
    },
    Case {
        list: "(r)",
        retries: 5,
        answers: "TR",
        asked: "ob",
        reply: "w\x07restart",
    },
    Case {
        list: "(r)",
        retries: 5,
        answers: "TTkA",
        asked: "obdc",
        reply: "h\x02w\x06atomica\x04",
    },
    Case {
        list: "r",
        retries: 5,
        answers: "Tu",
        asked: "od",
        reply: "h\x02w\x07aborteda\x09",
    },
    Case {
        list: "x",
        retries: 5,
        answers: "Tn",
        asked: "oa",
        reply: "h\x02w\x07abortedh\x02w\x09no_existsw\x01t",
    },
    Case {
        list: "r",
        retries: 5,
        answers: "w",
        asked: "o",
        reply: "w\x07waiting",
    },
    // As many attempts as restarts allow, and one more.
    Case {
        list: "rr",
        retries: 4,
        answers: "TkRkRkRkRkkA",
        asked: "odd+dd+dd+dd+ddc",
        reply: "h\x02w\x06atomicl\x00\x00\x00\x02w\x02okw\x02okj",
    },
    Case {
        list: "rr",
        retries: 3,
        answers: "TkRkRkRkRu",
        asked: "odd+dd+dd+ddz",
        reply: "h\x02w\x07abortedw\x06nomore",
    },
];

/// An answer to a stranger's command in the same session: each in turn of one run, and some of others.
static STRANGERS: [Case; 13] = [
    Case {
        list: "r(rxr)r",
        retries: 3,
        answers: "B",
        asked: "o",
        reply: "h\x02w\x05errorw\x0abadsession",
    },
    Case {
        list: "r(rxr)r",
        retries: 3,
        answers: "TX",
        asked: "od",
        reply: "h\x02w\x05errorw\x0eno_transaction",
    },
    Case {
        list: "r(rxr)r",
        retries: 3,
        answers: "TkW",
        asked: "odb",
        reply: "h\x02w\x05errorw\x07waiting",
    },
    Case {
        list: "r(rxr)r",
        retries: 3,
        answers: "TkTQ",
        asked: "odbd",
        reply: "h\x02w\x05errorw\x0bnot_waiting",
    },
    Case {
        list: "r(rxr)r",
        retries: 3,
        answers: "TkTk.",
        asked: "odbda",
        reply: "h\x02w\x05errorw\x07badterm",
    },
    Case {
        list: "r(rxr)r",
        retries: 3,
        answers: "TkTkuB",
        asked: "odbdad",
        reply: "h\x02w\x05errorw\x0abadsession",
    },
    Case {
        list: "r(rxr)r",
        retries: 3,
        answers: "TkTkukX",
        asked: "odbdadc",
        reply: "h\x02w\x05errorw\x0eno_transaction",
    },
    Case {
        list: "r(r)",
        retries: 3,
        answers: "Tk.",
        asked: "odb",
        reply: "h\x02w\x05errorw\x07badterm",
    },
    Case {
        list: "((r",
        retries: 3,
        answers: "TTX",
        asked: "obb",
        reply: "h\x02w\x05errorw\x0eno_transaction",
    },
    Case {
        list: "((r",
        retries: 3,
        answers: "TTTsu.",
        asked: "obbdzz",
        reply: "h\x02w\x05errorw\x07badterm",
    },
    Case {
        list: "(r",
        retries: 3,
        answers: "TW",
        asked: "ob",
        reply: "h\x02w\x05errorw\x07waiting",
    },
    Case {
        list: "(r",
        retries: 3,
        answers: "TTw.",
        asked: "obdw",
        reply: "h\x02w\x05errorw\x07badterm",
    },
    Case {
        list: "(r",
        retries: 3,
        answers: "TTwNuX",
        asked: "obdwzz",
        reply: "h\x02w\x05errorw\x0eno_transaction",
    },
];

fn part_of(alloc: Global, letter: u8) -> Result<Part, AllocError> {
    Ok(match letter {
        b'r' => Part::Do(Operation::Read(atom(alloc, "t")?, Term::Int(1))),
        b'x' => Part::Abort(Term::Int(7)),
        b'(' => Part::Open,
        _ => Part::Close,
    })
}

fn parts_of(alloc: Global, list: &[u8]) -> Result<Parts, AllocError> {
    let mut items = Vec::new(alloc);
    for letter in list {
        items.push(part_of(alloc, *letter)?)?;
    }
    Parts::new(alloc, items)
}

/// Parts that are kept, of which a restart gets copies.
#[derive(Drop)]
struct Kept {
    alloc: Global,
    parts: Vec<Part>,
}

impl Source for Kept {
    ghost use Rattle.std.specs.Prelude.{◌≡◌};

    ghost gives = { λ x parts. x.parts.items ≡ parts };

    fn again(&self) -> Result<Vec<Part>, AllocError> {
        copies(self.alloc, self.parts.as_slice())
    }
}

fn copy(alloc: Global, part: &Part) -> Result<Part, AllocError>
    ensures { IfOk result (λ copy. copy ≡ part.now) }
{
    match part {
        Part::Do(operation) => Ok(Part::Do(operation.try_clone(alloc)?)),
        Part::Abort(reason) => Ok(Part::Abort(reason.try_clone(alloc)?)),
        Part::Open => Ok(Part::Open),
        Part::Close => Ok(Part::Close),
    }
}

fn copies(alloc: Global, parts: &[Part]) -> Result<Vec<Part>, AllocError>
    ensures { IfOk result (λ copies. copies.items ≡ parts.now) }
{
    let mut copies = Vec::new(alloc);
    for part in parts {
        copies.push(copy(alloc, part)?)?;
    }
    Ok(copies)
}

/// Returns whether the session was asked and the reply made as the case says.
fn is_right(alloc: Global, case: &Case) -> Result<bool, AllocError> {
    let mut slot = Played {
        alloc,
        answers: case.answers.as_bytes(),
        wanted: case.asked.as_bytes(),
        parts: case.list.len(),
        answered: 0,
        asked: 0,
        differs: false,
    };
    let parts = parts_of(alloc, case.list.as_bytes())?;
    let kept = Kept {
        alloc,
        parts: copies(alloc, parts.as_slice())?,
    };
    let command = Command::OneShot(parts, case.retries);
    let reply = one_shot(&mut slot, alloc, command, &kept);
    let mut frame = Vec::new(alloc);
    let is_put = append_reply(None, reply.reply(), &mut frame).is_ok();
    // After the length, 131, and `{reply, ..`.
    Ok(is_put && slot.is_right() && frame.get(14..) == Some(case.reply.as_bytes()))
}

/// The first case that differs.
fn wrong_case(alloc: Global, cases: &[Case]) -> Option<usize> {
    for (number, case) in cases.iter().enumerate() {
        if is_right(alloc, case) != Ok(true) {
            return Some(number);
        }
    }
    None
}

#[test]
fn one_shots_are_driven(rt: HostRuntime) {
    assert_eq!(rt; wrong_case(rt.alloc(), &CASES), None);
}

#[test]
fn a_stranger_ends_it(rt: HostRuntime) {
    assert_eq!(rt; wrong_case(rt.alloc(), &STRANGERS), None);
}
