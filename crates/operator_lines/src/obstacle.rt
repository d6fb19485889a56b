//! What keeps the program from its work, and the status with which it ends.

ghost use Rattle.std.specs.Prelude.{◌≡◌, IfOk, string_bytes};
ghost use Rattle.operator_lines.specs.declared.obstacle.Obstacle.TheVariants.{NotListening};
ghost use Rattle.operator_lines.specs.Telling.{TellsLine};
ghost use Rattle.operator_lines.specs.Obstacles.{obstacle_line, obstacle_status, memory_line, TellsObstacle, ToldWhy};

use crate::file_fault::FileFault;
use crate::named_line::{tell_named, tell_untold};
use crate::port_fault::PortFault;
use crate::telling::tell;
use std::alloc::{AllocError, Global};
use std::io::Write;

/// What keeps the program from its work.
#[derive(Clone, Copy)]
pub enum Obstacle<'a> {
    /// The file at this path isn't read.
    Unread(&'a str, FileFault),
    /// A folder isn't made at this path, or a file in it isn't written.
    Unwritten(&'a str, FileFault),
    /// Nothing can listen at this port.
    NotListening(u16, PortFault),
    /// The script can't be read, or is too long.
    ScriptUnread,
    /// What the program has to say can't be written to its output.
    OutputUnwritten,
    /// A line on a script can't be written to the output, or the script can't be read on.
    LineUntold,
    /// The system gives no random bytes.
    NoRandomness,
    /// There is no memory.
    OutOfMemory(MemoryFor),
    /// There is no place for a display.
    NoPlace,
    /// No thread could be started for any display.
    NoThread,
}

/// What there is no memory for.
#[derive(Clone, Copy, Debug, PartialEq, Eq)]
pub enum MemoryFor {
    /// The words that the program was called with, or what is told of them.
    Words,
    /// A script, its session and its answers.
    Script,
    /// A session and its files.
    Session,
    /// A journal.
    Journal,
    /// A page and its files.
    Page,
    /// Displays and workers, and what they share.
    Threads,
}

/// Tells what keeps the program from its work, in a line that names it, and answers the status with which it ends: 3, or 4
/// for want of memory, of a place or of a thread. With 4 the line takes no memory; with 3 want of memory may stand in its
/// place.
pub fn status_of_obstacle<E: Write>(alloc: Global, obstacle: &Obstacle<'_>, errors: &mut E) -> u8
    ensures status { result ≡ obstacle_status obstacle.now }
    ensures told { TellsObstacle obstacle.now (E.contents errors.old) (E.contents errors.new) }
    ensures why { ToldWhy result (E.contents errors.old) (E.contents errors.new) }
    ensures without_memory { result ≡ 4 →
        TellsLine (E.contents errors.old) (E.contents errors.new) (obstacle_line obstacle.now) }
{
    tell_obstacle(alloc, obstacle, errors)
}

// Tells it, and answers the status.
fn tell_obstacle<E: Write>(alloc: Global, obstacle: &Obstacle<'_>, errors: &mut E) -> u8
    ensures status { result ≡ obstacle_status obstacle.now }
    ensures told { TellsObstacle obstacle.now (E.contents errors.old) (E.contents errors.new) }
    ensures without_memory { result ≡ 4 →
        TellsLine (E.contents errors.old) (E.contents errors.new) (obstacle_line obstacle.now) }
{
    match obstacle {
        Obstacle::Unread(path, fault) => {
            tell_named(alloc, "Unread", path, fault.text(), errors);
            3
        }
        Obstacle::Unwritten(path, fault) => {
            tell_named(alloc, "Unwritten", path, fault.text(), errors);
            3
        }
        Obstacle::NotListening(port, fault) => status_of_port(alloc, *port, *fault, errors),
        Obstacle::ScriptUnread => {
            tell(
                errors,
                "bridge_server: ScriptUnread (the script can't be read, or is too long)\n",
            );
            3
        }
        Obstacle::OutputUnwritten => {
            tell(
                errors,
                "bridge_server: OutputUnwritten (the output can't be written)\n",
            );
            3
        }
        Obstacle::LineUntold => {
            tell(
                errors,
                "bridge_server: LineUntold (the output can't be written, or the script can't be read on)\n",
            );
            3
        }
        Obstacle::NoRandomness => {
            tell(
                errors,
                "bridge_server: NoRandomness (the system gives no random bytes)\n",
            );
            3
        }
        Obstacle::OutOfMemory(purpose) => {
            tell(errors, memory_line(*purpose));
            4
        }
        Obstacle::NoPlace => {
            tell(
                errors,
                "bridge_server: NoPlace (there is no place for a display)\n",
            );
            4
        }
        Obstacle::NoThread => {
            tell(
                errors,
                "bridge_server: NoThread (no thread could be started for any display)\n",
            );
            4
        }
    }
}

// What is told of a port at which nothing can listen.
fn status_of_port<E: Write>(alloc: Global, port: u16, fault: PortFault, errors: &mut E) -> u8
    ensures status { result ≡ 3 }
    ensures told { TellsObstacle (NotListening port fault) (E.contents errors.old) (E.contents errors.new) }
{
    match port_line(alloc, port, fault) {
        Ok(line) => tell(errors, line.as_str()),
        Err(_) => tell_untold(errors),
    }
    3
}

fn port_line(alloc: Global, port: u16, fault: PortFault) -> Result<String, AllocError>
    ensures { IfOk result (λ line. string_bytes line ≡ obstacle_line (NotListening port fault)) }
{
    let why = fault.text();
    format!(in alloc; "bridge_server: NotListening (port {port}: {why})\n")
}

// What is told where there is no memory.
fn memory_line(purpose: MemoryFor) -> &'static str
    ensures { result.now ≡ memory_line purpose }
{
    match purpose {
        MemoryFor::Words => "bridge_server: OutOfMemory (for the words)\n",
        MemoryFor::Script => "bridge_server: OutOfMemory (for the script)\n",
        MemoryFor::Session => "bridge_server: OutOfMemory (for the session)\n",
        MemoryFor::Journal => "bridge_server: OutOfMemory (for the journal)\n",
        MemoryFor::Page => "bridge_server: OutOfMemory (for the page)\n",
        MemoryFor::Threads => "bridge_server: OutOfMemory (for displays and workers)\n",
    }
}
