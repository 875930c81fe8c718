//! Both ends of a mailbox in one pass.

use crate::inbox::Inbox;
use crate::naming::Host;
use crate::post::ChannelPost;
use crate::rule::{Ends, Idle, Meets};
use std::mem;
use tab_outbox::{Mailbox, Met};

impl<H: Host> Mailbox for ChannelPost<H> {
    ghost use Rattle.std.specs.Prelude.{◌≡◌};
    ghost use Rattle.tab_outbox.specs.Mailboxes.{Tells};
    ghost use Rattle.tab_post.specs.Ends.{as_outbox, mailbox_of, received, IsSamePost, IsSameInbox};

    type End = Inbox<H>;

    ghost taken = { λ i. received i };

    ghost mailbox = { λ i. mailbox_of i };

    /// Takes one item more, or shows that all that was sent is taken. While it has both ends nothing more is sent.
    fn meet(&mut self, end: &mut Inbox<H>) -> Met
        ensures stays { IsSamePost self.old self.new }
        ensures outbox { as_outbox self.new ≡ as_outbox self.old }
        ensures end { IsSameInbox end.old end.new }
        ensures met { Tells (as_outbox self.old) (mailbox_of end.old) (received end.old)
            result (received end.new) }
    {
        if self.place != end.place {
            return Met::Apart;
        }
        self.prefix.agrees(&end.prefix, self.place);
        // The two passes become one of both ends, which learns how the taken items relate to the sent ones.
        let spare = self.channel.another::<Idle>(&mut self.pass);
        let taking = mem::replace(&mut end.pass, spare);
        self.channel.absorb::<Ends>(&mut self.pass, taking);
        match end
            .channel
            .try_recv_as::<Meets, H>(&self.rt, &mut self.pass)
        {
            Ok(item) => {
                end.pass = self.channel.another::<Ends>(&mut self.pass);
                end.count_one();
                Met::Going(item)
            }
            Err(_) => {
                end.pass = self.channel.another::<Ends>(&mut self.pass);
                Met::All
            }
        }
    }
}
