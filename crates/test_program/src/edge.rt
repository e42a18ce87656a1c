//! What the program takes from the system, beside what it promises of it.

use app_wire::clock::{Clock, SystemClock};
use std::rt::HostRuntime;
use std::time::UNIX_EPOCH;
use std::{fs, io};

/// The file whose time is looked at.
const MARK: &str = "written.txt";

/// Whether the program's clock tells the second in which the system says that a file was written,
/// or the one beside it.
pub fn clock_agrees(rt: &HostRuntime) -> io::Result<bool> {
    let mut clock = SystemClock::new(*rt);
    let before = clock.now();
    fs::write(rt, MARK, "")?;
    let written = fs::metadata(rt, MARK)?.modified()?;
    let after = clock.now();
    Ok(match written.duration_since(UNIX_EPOCH) {
        Ok(since) => {
            let written = since.as_secs();
            before <= written.saturating_add(1) && written <= after.saturating_add(1)
        }
        Err(_) => false,
    })
}
