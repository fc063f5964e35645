//! What goes through the channel in which an answer comes back.

ghost use Rattle.std.specs.Prelude.{IfSome};
ghost use Rattle.std.proofs.Props.{props};
ghost use Rattle.pipeline.specs.Requests.{IsAnswer};

use pipeline::{Answer, Request};
use std::snapshot::Snapshot;

/// What goes through the channel: first the request alone, and then an answer to it.
#[derive(Drop)]
pub(crate) struct Word {
    pub(crate) request: Snapshot<Request>,
    pub(crate) answer: Option<Answer>,
    ghost fits: { IfSome answer (λ answer. IsAnswer request.value answer) } by { Prim.hlevel props },
}
