//! As many commands as a delivery can bring.

use crate::tests::play::play;
use std::alloc::Global;
use std::test::Fail;

const SESSIONS: u32 = 8;

const COMMANDS: u32 = 1_024;

/// The commands of all sessions, in turn.
fn commands_text(alloc: Global) -> Result<String, Fail> {
    let mut text = format!(in alloc; "threads 1 sessions 8\n1@10: Create t1 x1 im (int)\n")?;
    for _ in 0..COMMANDS / 2 {
        for session in 1..=SESSIONS {
            write!(
                text,
                "session {session}: SYNC\nsession {session}: SHOW SCN\n"
            )?;
        }
    }
    text.push_str("end\nstop\n")?;
    Ok(text)
}

/// The lines of all sessions, each with its own in a row.
fn commands_lines(alloc: Global) -> Result<String, Fail> {
    let mut lines = String::new(alloc);
    for session in 1..=SESSIONS {
        for pair in 0..COMMANDS / 2 {
            let first = 2 * pair + 1;
            let second = 2 * pair + 2;
            write!(
                lines,
                "d1 s{session} c{first} scn=10 synced\nd1 s{session} c{second} scn=10 shown\n"
            )?;
        }
    }
    lines.push_str("d1 end scn=10\n")?;
    Ok(lines)
}

#[test]
fn answers_1024_commands_in_each_of_8_sessions(rt: HostRuntime) -> Result<(), Fail> {
    let text = commands_text(rt.alloc())?;
    let lines = commands_lines(rt.alloc())?;
    for workers in [1, 2, 8] {
        play(
            &rt,
            rt.alloc(),
            "1,024 commands",
            workers,
            text.as_str(),
            lines.as_str(),
        )?;
    }
    Ok(())
}
