//! The box.

ghost use Rattle.std.specs.Prelude.{map};
ghost use Rattle.request_box.specs.Dues.{due_of};

use crate::bell::Bell;
use crate::caller::{Call, Caller};
use crate::way_back::Due;
use crossbeam_channel::{Receiver, unbounded};
use pipeline::{Answer, Request, Requests};
use recordings::Past;
use std::alloc::{AllocError, Global};
use std::sync::{Arc, Wait};

// About how many firings a round has at most: some milliseconds of cheap work.
const MOST_FIRINGS: u32 = 262_144;

/// The requests of callers, which a pipeline takes one by one.
#[derive(Drop)]
pub struct RequestBox<R: Drop> {
    rt: R,
    calls: Receiver<Call, Global>,
    // Where the answer to the last request goes.
    due: Option<Due>,
    asked: Past<Request, ()>,
    answered: Past<Answer, ()>,
}

/// An empty box, and its first caller, who rings this bell at each call. It fails only if the allocator refuses.
pub fn request_box<R: Copy + Drop>(
    rt: R,
    alloc: Global,
    bell: Arc<Bell, Global>,
) -> Result<(RequestBox<R>, Caller<R>), AllocError> {
    let (sender, calls) = unbounded(alloc)?;
    let requests = RequestBox {
        rt,
        calls,
        due: None,
        asked: Past::new(),
        answered: Past::new(),
    };
    Ok((requests, Caller::new(rt, alloc, sender, bell)))
}

impl<R: Wait + Drop> Requests for RequestBox<R> {
    ghost asked = { λ requests. map (λ piece. piece.0) requests.asked.pieces };

    ghost answered = { λ requests. map (λ piece. piece.0) requests.answered.pieces };

    ghost due = { λ requests. due_of requests.due };

    fn are_waiting(&self) -> bool {
        !self.calls.is_empty()
    }

    fn most_firings(&self) -> u32 {
        MOST_FIRINGS
    }

    fn take(&mut self) -> Option<Request> {
        if self.calls.is_empty() {
            return None;
        }
        match self.calls.try_recv(&self.rt) {
            Ok(Call { request, due }) => {
                self.asked = self.asked.and(&request, &());
                self.due = Some(due);
                Some(request)
            }
            Err(_) => None,
        }
    }

    fn answer(&mut self, answer: Answer) {
        self.answered = self.answered.and(&answer, &());
        if let Some(due) = self.due.take() {
            due.give(&self.rt, answer);
        }
    }
}
