//! Logs of desks beside the history of all calls.

ghost use Rattle.std.specs.Prelude.{◌≡◌, ◌≤◌, ℕ, [], map, IsTrue};
ghost use Rattle.call_history.specs.History.{noted_by};
ghost use Rattle.call_history.specs.Logs.{AreLogs, noted_at};

use crate::entry::Entry;

/// Whether each log is what was recorded of its desk, and nothing was recorded of any other desk.
pub fn are_logs(logs: &[Vec<Entry>], history: &[Entry]) -> bool
    ensures { IsTrue result → AreLogs (map (λ l. map noted_by l.items) logs.now) (map noted_by history.now) }
{
    for (desk, log) in logs.iter().enumerate() {
        if !is_log(log, history, desk) {
            return false;
        }
    }
    are_within(history, logs.len())
}

// Whether nothing was recorded of a desk beyond so many.
fn are_within(history: &[Entry], desks: usize) -> bool
    ensures { IsTrue result → (n : ℕ) → desks ≤ n → noted_at n (map noted_by history.now) ≡ [] }
{
    for entry in history {
        if !entry.is_within(desks) {
            return false;
        }
    }
    true
}

// Whether a log is what was recorded of a desk.
fn is_log(log: &[Entry], history: &[Entry], desk: usize) -> bool
    ensures { IsTrue result → map noted_by log.now ≡ noted_at desk (map noted_by history.now) }
{
    let mut at = 0;
    for entry in history {
        if !entry.is_of(desk) {
            continue;
        }
        if log.len() <= at || !log[at].is_same(entry) {
            return false;
        }
        at += 1;
    }
    at == log.len()
}
