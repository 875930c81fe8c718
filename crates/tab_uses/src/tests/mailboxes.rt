//! An item through a mailbox without a book.

ghost use Rattle.std.specs.Prelude.{◌≡◌};

use crate::handed_over;
use std::alloc::Global;
use std::marker::{Brand, PhantomData};
use std::sync::Wait;
use std::test::Fail;
use tab_model::{Ending, Item, SharedItem};
use tab_post::{Channel, Host, Naming, Opened};
use tab_term::Atom;

/// Returns whether the end mark of a table comes out.
fn comes_out<H: Host>(rt: H, alloc: Global, opened: Opened<Channel>) -> Result<bool, Fail>
    requires { opened ≡ H.books.mailboxes }
{
    let (register, mut prefix) = opened.named();
    let mark = Item::Ended(Atom::from_short_text(alloc, "t")?, Ending::Deleted);
    let mark = SharedItem::new(alloc, mark)?;
    let (_post, _inbox, taken) = handed_over(rt, alloc, &register, &mut prefix, mark)?;
    match taken {
        Ok(taken) => Ok(matches!(taken.item(), Item::Ended(_, Ending::Deleted))),
        Err(_) => Ok(false),
    }
}

fn named_comes_out<J: Naming, R: Wait + Copy>(
    rt: R,
    alloc: Global,
    opened: Opened<Channel>,
) -> Result<bool, Fail>
    requires { opened ≡ J.books.mailboxes }
{
    comes_out((rt, PhantomData::<J>), alloc, opened)
}

#[test]
fn items_come_out(rt: HostRuntime) -> Result<(), Fail> {
    let right = named_comes_out::<Brand, _>(rt, rt.alloc(), Opened::new())?;
    assert!(rt; right, "an end mark");
    Ok(())
}
