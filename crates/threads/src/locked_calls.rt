//! The calls that callers make under the lock.

ghost use Rattle.std.specs.Prelude.{◌≡◌, true, IfOk};
ghost use Rattle.call_history.specs.Engine.{HasCalled};
ghost use Rattle.call_history.specs.Request.{AreFor, IsReady, asked_of, replied, response_reply};

use crate::locked::Locked;
use call_history::{Answer, Request, Response};
use flowgraph::Block;
use scheduling::woken::Woken;
use std::alloc::{AllocError, Global};

impl<B: Block> Locked<B> {
    /// Makes a caller's call, and returns the response with its note. After a feed or a close the source's worker, or a
    /// thread of the pool, has to look.
    pub fn call(
        &mut self,
        alloc: Global,
        desk: u32,
        request: Request,
        woken: &mut Woken,
    ) -> Result<(Response, Answer), AllocError>
        requires { IsReady request }
        ensures called { HasCalled B.meaning desk (asked_of request) self.old.engine self.new.engine
            (replied (λ r. response_reply r.0) result) }
        ensures fits { IfOk result (λ r. AreFor request r.0 r.1) }
        ensures others { self.new ≡ record self.old {
          engine = self.new.engine;
          waiting = self.new.waiting;
          pool = self.new.pool;
        } }
    {
        let block = request.block();
        let (response, reply) = self.engine.call(alloc, desk, request)?;
        if let Response::Fed(_) | Response::Closed(_) = response {
            self.waiting.wake(block, woken);
            self.pool.wake(block, woken);
        }
        Ok((response, reply))
    }

    /// A caller asks for the end of the run.
    pub fn stop(&mut self, woken: &mut Woken)
        ensures { self.new ≡ record self.old {
          waiting = self.new.waiting;
          pool = self.new.pool;
          asked = true;
          ends = true;
        } }
    {
        self.asked = true;
        let _ = self.end(woken);
    }
}
