//! How many items an outbox holds, by words of command lines.

use crate::outbox_asked;
use std::alloc::Global;

static SERVE: [&str; 7] = [
    "tabd",
    "serve",
    "--port",
    "0",
    "--connections",
    "1",
    "--outbox=7",
];

fn items(alloc: Global, given: &[&str]) -> Option<u32> {
    outbox_asked(alloc, given).ok()
}

#[test]
fn words_have_an_outbox(rt: HostRuntime) {
    let alloc = rt.alloc();
    assert!(rt;
        items(alloc, &["tabd", "replay"]) == Some(64),
        "the default"
    );
    assert!(rt;
        items(alloc, &["tabd", "replay", "--outbox", "2"]) == Some(2),
        "a replay's"
    );
    assert!(rt; items(alloc, &SERVE) == Some(7), "a server's");
    assert!(rt;
        items(alloc, &["tabd", "replay", "--outbox", "0"]) == None,
        "none"
    );
}
