//! Texts for whoever runs the program.

ghost use Rattle.operator_lines.specs.Telling.{TellsLine};

use script_lines::write_text;
use std::io::Write;

/// Tells a text. Where it can't be written, the program goes on all the same.
pub fn tell<E: Write>(errors: &mut E, text: &str)
    ensures { TellsLine (E.contents errors.old) (E.contents errors.new) text.now }
{
    let _unwritten = write_text(errors, text.as_bytes());
}
