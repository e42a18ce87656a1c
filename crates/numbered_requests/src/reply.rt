//! Replies.
ghost use Rattle.std.specs.Prelude.{◌≡◌, IfOk, IsTrue};
ghost use Rattle.view_text.specs.Refusals.{refusal_status};
ghost use Rattle.app_wire.specs.ReplyBytes.{is_fixed, refusal, reply};
ghost use Rattle.numbered_requests.specs.Replies.{IsAcceptedReply, IsReply, is_plain_refusal};
ghost use Rattle.numbered_requests.specs.Replies.{refusal_reply, said};
ghost use Rattle.view_text.specs.RefusalText.{Fits};

use app_wire::reply::{fixed_reply, reply_bytes};
use fx_base::Memory;
use std::alloc::Global;
use view_text::{Cause, Detail, Refusal, refusal_json};

/// A whole HTTP reply: that of the refusal `fixed`, which takes no memory, where it is Some, else
/// `bytes`. `status` is the status in its first line.
pub struct Reply {
    pub status: u16,
    pub bytes: Vec<u8>,
    pub fixed: Option<u8>,
}

// By hand, so that it is called: what is derived is opened wherever a value may end, which costs
// proofs seconds each time.
impl Drop for Reply {
    fn drop(self) {
        let Reply {
            status: _,
            bytes: _,
            fixed: _,
        } = self;
    }
}

impl Reply {
    /// The bytes of the reply.
    pub fn whole(&self) -> &[u8]
        requires { IsReply self.now }
        ensures { result.now ≡ said self.now }
    {
        match self.fixed {
            Some(code) => fixed_reply(code),
            None => &self.bytes,
        }
    }

    /// The reply that accepts a request.
    pub fn accept(alloc: Global, body: &str) -> Result<Reply, Memory>
        ensures said { IfOk result (λ r. said r ≡ reply 200 body.now) }
        ensures whole { IfOk result IsReply }
    {
        let bytes = reply_bytes(alloc, 200, body)?;
        Ok(Reply {
            status: 200,
            bytes,
            fixed: None,
        })
    }

    /// A refusal whose reply takes no memory.
    pub fn fixed_refusal(alloc: Global, code: u8, status: u16) -> Reply
        requires fixed { IsTrue (is_fixed code) }
        requires status { status ≡ refusal_status code }
        ensures said { said result ≡ refusal code }
        ensures whole { IsReply result }
    {
        Reply {
            status,
            bytes: Vec::new(alloc),
            fixed: Some(code),
        }
    }

    /// A refusal without a detail whose reply takes memory.
    pub fn refuse_plain(alloc: Global, code: u8) -> Result<Reply, Memory>
        requires { IsTrue (is_plain_refusal code) }
        ensures said { IfOk result (λ r. said r ≡ refusal code) }
        ensures whole { IfOk result IsReply }
    {
        let detail = Detail::None;
        Reply::refuse(alloc, &Refusal { code, detail })
    }

    /// A refusal with the detail of its code.
    pub fn refuse(alloc: Global, refusal: &Refusal) -> Result<Reply, Memory>
        requires { Fits refusal.now.code refusal.now.detail }
        ensures said { IfOk result (λ r. said r ≡ refusal_reply refusal.now) }
        ensures whole { IfOk result IsReply }
    {
        let status = Cause::of(refusal.code).status();
        let body = refusal_json(alloc, refusal)?;
        let bytes = reply_bytes(alloc, status, &body)?;
        Ok(Reply {
            status,
            bytes,
            fixed: None,
        })
    }

    /// The reply of an accepted request once more.
    pub fn repeat(alloc: Global, kept: &[u8]) -> Result<Reply, Memory>
        requires { IsAcceptedReply kept.now }
        ensures said { IfOk result (λ r. said r ≡ kept.now) }
        ensures whole { IfOk result IsReply }
    {
        let bytes = Vec::from_slice(alloc, kept)?;
        Ok(Reply {
            status: 200,
            bytes,
            fixed: None,
        })
    }
}
