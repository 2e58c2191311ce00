// The standard streams, before any file is opened.
use std::fs::File;
use std::io;
use std::os::fd::{AsFd, IntoRawFd};

/// What stands in the place of a stream that is closed: a folder that each process has. Who reads or writes there, or opens
/// it by the stream's name, gets an error.
const IN_ITS_PLACE: &str = "/";

/// What the system answers to a call on a descriptor that is not open.
const NOT_OPEN: i32 = 9;

/// Takes the descriptors of those of the three standard streams that are closed. A file that is opened then gets none of
/// them, and nothing that is printed is written into it.
pub fn take_closed_streams(rt: &HostRuntime) -> io::Result<()> {
    take_where_closed(rt, &rt.stdin())?;
    take_where_closed(rt, &rt.stdout())?;
    take_where_closed(rt, &rt.stderr())
}

/// Takes the descriptor of a stream where it is closed. A file that is opened gets the lowest that is free, and those below are
/// taken.
fn take_where_closed<S: AsFd>(rt: &HostRuntime, stream: &S) -> io::Result<()> {
    if is_closed(stream) {
        let folder = File::open(rt, IN_ITS_PLACE)?;
        // it is open until the process ends
        let _number = folder.into_raw_fd();
    }
    Ok(())
}

fn is_closed<S: AsFd>(stream: &S) -> bool {
    match stream.as_fd().try_clone_to_owned() {
        Ok(_) => false,
        Err(error) => error.raw_os_error() == Some(NOT_OPEN),
    }
}
