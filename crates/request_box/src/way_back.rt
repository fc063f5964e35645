//! The way back of an answer: a channel of one request, which carries no answer to another.

ghost use Rattle.std.specs.Prelude.{◌≡◌, Some, IfOk, IfSome, ⊤};
ghost use Rattle.crossbeam_channel.specs.Claims.{view, IsSeatAt};
ghost use Rattle.crossbeam_channel.specs.Ends.{sends_on, receives_on};
ghost use Rattle.pipeline.specs.Requests.{IsAnswer};

use crate::word::Word;
use crossbeam_channel::protocol::{Lesson, Outcome, Protocol, Split};
use crossbeam_channel::{Pass, RuledReceiver, RuledSender, bounded_with};
use pipeline::{Answer, Request};
use std::alloc::{AllocError, Global};
use std::snapshot::Snapshot;
use std::sync::Wait;

/// All that goes through a channel belongs to one request. Each pass of the channel knows that request.
pub(crate) struct OneRequest;

impl Protocol<Word, Option<Request>> for OneRequest {
    ghost use Rattle.std.specs.Prelude.{None};
    ghost use Rattle.request_box.specs.WayBack.{IsOneWay};

    ghost holds = { IsOneWay };

    ghost first = { None };
}

// The first message says which request it is.
struct Names;

impl Outcome<Word, Option<Request>> for Names {
    ghost then = { λ v x w. w ≡ Some x.request.value };
}

impl Lesson<Word, Option<Request>> for Names {
    ghost fact = { λ v items. ⊤ };
}

// The other messages belong to that request.
struct Goes;

impl Outcome<Word, Option<Request>> for Goes {
    ghost then = { λ v x w. w ≡ v };
}

impl Lesson<Word, Option<Request>> for Goes {
    ghost fact = { λ v items. ⊤ };
}

struct Comes;

impl Outcome<Word, Option<Request>> for Comes {
    ghost then = { λ v x w. (w ≡ v) × (v ≡ Some x.request.value) };
}

impl Lesson<Word, Option<Request>> for Comes {
    ghost fact = { λ v items. ⊤ };
}

struct Both;

impl Split<Option<Request>> for Both {
    ghost left = { λ v. v };

    ghost right = { λ v. v };
}

/// The end that waits for an answer.
#[derive(Drop)]
pub(crate) struct Awaited {
    answers: RuledReceiver<Word, Option<Request>, OneRequest>,
    pass: Pass<Word, Option<Request>>,
    pub(crate) request: Snapshot<Request>,
    ghost seat: { IsSeatAt (receives_on answers) pass },
    ghost knows: { view pass ≡ Some request.value },
}

/// The end that gives an answer.
#[derive(Drop)]
pub(crate) struct Due {
    answers: RuledSender<Word, Option<Request>, OneRequest>,
    pass: Pass<Word, Option<Request>>,
    pub(crate) request: Snapshot<Request>,
    ghost seat: { IsSeatAt (sends_on answers) pass },
    ghost knows: { view pass ≡ Some request.value },
}

/// A way back for the answer to this request.
pub(crate) fn way_back<R: Wait>(
    rt: &R,
    alloc: Global,
    request: &Request,
) -> Result<(Awaited, Due), AllocError>
    ensures { IfOk result (λ ends. (ends.0.request.value ≡ request.now) × (ends.1.request.value ≡ request.now)) }
{
    let (sender, receiver, mut pass) = bounded_with::<Word, Option<Request>, OneRequest, Global>(
        alloc, 1,
    )?;
    let name = Word {
        request: Snapshot::of(request),
        answer: None,
    };
    let Ok(()) = sender.send_as::<Names, R>(rt, &mut pass, name) else {
        return Err(AllocError);
    };
    let _ = receiver.try_recv_as::<Comes, R>(rt, &mut pass);
    let theirs = sender.another::<Both>(&mut pass);
    let awaited = Awaited {
        answers: receiver,
        pass,
        request: Snapshot::of(request),
    };
    let due = Due {
        answers: sender,
        pass: theirs,
        request: Snapshot::of(request),
    };
    Ok((awaited, due))
}

impl Awaited {
    /// Waits for the answer. There is none if nobody is left to give it.
    pub(crate) fn answer<R: Wait>(self, rt: &R) -> Option<Answer>
        ensures { IfSome result (λ answer. IsAnswer self.request.value answer) }
    {
        let Awaited {
            answers,
            mut pass,
            request: _,
        } = self;
        match answers.recv_as::<Comes, R>(rt, &mut pass) {
            Ok(word) => word.answer,
            Err(_) => None,
        }
    }
}

impl Due {
    /// Gives the answer. A caller that has gone takes none.
    pub(crate) fn give<R: Wait>(self, rt: &R, answer: Answer)
        requires { IsAnswer self.request.value answer }
    {
        let Due {
            answers,
            mut pass,
            request,
        } = self;
        let word = Word {
            request,
            answer: Some(answer),
        };
        let _ = answers.send_as::<Goes, R>(rt, &mut pass, word);
    }
}
