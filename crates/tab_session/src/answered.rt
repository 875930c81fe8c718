use tab_model::SharedReply;

/// A reply under the number of the session that asked, or under 0 if none could be read.
pub struct PayloadReply {
    pub session: u32,
    pub reply: SharedReply,
}

impl Drop for PayloadReply {
    fn drop(self) {
        let PayloadReply { session: _, reply } = self;
        drop(reply);
    }
}
