//! What is said of a log that has another form.
ghost use Rattle.std.specs.Prelude.{◌≡◌};
ghost use Rattle.n2kdec.specs.Run.Hint.{has_other_form, hint};

use crate::command_line::asked::{ParsedArgs, Subcommand};
use n2k_join::Counts;

/// The fewest bad lines by which a log is recognized to have another form.
const FEWEST_LINES: u64 = 100;

/// Whether a log is taken to have another form: 100 of its lines are bad, or more, and none is good.
pub fn has_other_form(counts: &Counts) -> bool
    ensures { result ≡ has_other_form counts.now }
{
    counts.bad >= FEWEST_LINES
        && counts.messages == 0
        && counts.unknown == 0
        && counts.broken == 0
        && counts.held == 0
}

/// The advice on a terminal after the summary of such a log, by its counts: it may as well have another table. For `encode`
/// the advice says that it reads lines of JSON.
pub fn hint(request: &ParsedArgs) -> &'static [u8]
    ensures { result.now ≡ hint request.now }
{
    let ParsedArgs::Command(command) = request else {
        return b"";
    };
    match command.task {
        Subcommand::Encode { .. } => {
            b"n2kdec: no line was good: encode reads one JSON message a line, as decode and jq -c print them; docs/GUIDE.md, under Edit and write messages, says what to do\n"
        }
        _ => {
            b"n2kdec: no line was good: if the log has another form, n2k FILE names it; docs/GUIDE.md, under All lines are bad, says what to do\n"
        }
    }
}
