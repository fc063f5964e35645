//! Answers the commands of lines.

ghost use Rattle.std.specs.Prelude.{List, ℕ, IfOk};
ghost use Rattle.std.specs.Option.{option_map};
ghost use Rattle.script_text.specs.Grammar.{Command as Asked, IsAskable};
ghost use Rattle.script_text.specs.Commands.{command_seen};
ghost use Rattle.flow_core.specs.Script.{IsAnswer};

use script_text::Command;
use std::alloc::{AllocError, Global};

/// Answers commands. If it has to wait, it waits by a handle.
pub trait Answerer<H> {
    // How a command is answered: what was asked, the state before and after, and the line.
    ghost answers: { Asked → Self → Self → List ℕ → Type 0 };

    /// The line that answers a command; none if lines here have no such command. An `Err` says that there was no memory
    /// for the line.
    fn answer(
        &mut self,
        handle: &H,
        alloc: Global,
        command: &Command,
    ) -> Result<Option<Vec<u8>>, AllocError>
        requires { IsAskable (command_seen command.now) }
        ensures { IfOk result (λ line. IsAnswer answers (command_seen command.now) self.old self.new
            (option_map (λ l. l.items) line)) };
}
