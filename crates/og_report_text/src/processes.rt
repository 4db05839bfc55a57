//! Numbers of processes, as they are printed.

ghost use Rattle.std.specs.Prelude.{◌≡◌};
ghost use Rattle.og_report_text.specs.Processes.{printed_number};

/// The number under which a process is printed: the main process, which has this number, as 0, the
/// others from 1. Takes no memory.
pub fn printed_number(main: u32, process: u32) -> u64
    ensures { result ≡ printed_number main process }
{
    if process == main {
        0
    } else {
        u64::from(process) + 1
    }
}
