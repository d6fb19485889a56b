//! A line with a name, and in brackets what it is about, and why.

ghost use Rattle.std.specs.Prelude.{◌≡◌, ◌⊎◌, IfOk, string_bytes};
ghost use Rattle.operator_lines.specs.Telling.{TellsLine, named_line, untold_line};

use crate::telling::tell;
use std::alloc::{AllocError, Global};
use std::io::Write;

/// Tells it, or where there is no memory for the line, that.
pub(crate) fn tell_named<E: Write>(
    alloc: Global,
    name: &str,
    subject: &str,
    why: &str,
    errors: &mut E,
)
    ensures { TellsLine (E.contents errors.old) (E.contents errors.new) (named_line name.now subject.now why.now)
        ⊎ TellsLine (E.contents errors.old) (E.contents errors.new) untold_line }
{
    match named_line(alloc, name, subject, why) {
        Ok(line) => tell(errors, line.as_str()),
        Err(_) => tell_untold(errors),
    }
}

/// Tells that there is no memory for a line.
pub(crate) fn tell_untold<E: Write>(errors: &mut E)
    ensures { TellsLine (E.contents errors.old) (E.contents errors.new) untold_line }
{
    tell(errors, "bridge_server: OutOfMemory (to say why)\n");
}

#[tactic(auto, unfolding(crate::specs::Telling::named_line))]
fn named_line(alloc: Global, name: &str, subject: &str, why: &str) -> Result<String, AllocError>
    ensures { IfOk result (λ line. string_bytes line ≡ named_line name.now subject.now why.now) }
{
    format!(in alloc; "bridge_server: {name} ({subject}: {why})\n")
}
