//! Which files a call writes. Different paths may lead to one file or pipe, and a standard stream may be that file too.

use crate::ends::{EndsFault, NamedEnd, stand_side_by_side};
use crate::words::Call;
use std::alloc::AllocError;
use std::fs;
use std::fs::Metadata;
use std::io::ErrorKind;
use std::os::unix::fs::{FileTypeExt, MetadataExt};
use std::path::PathBuf;

/// The standard stream that has the report of a run.
#[derive(Clone, Copy, Debug, PartialEq, Eq)]
pub enum ReportStream {
    Output,
    Errors,
}

// Where a path leads: the device and the number of its file or pipe. If there is no such file yet, those of its folder,
// and its name there.
type Place = (u64, u64, String);

// The paths of the standard streams, which are files if a shell has redirected them.
const INPUT: &str = "/dev/stdin";

const OUTPUT: &str = "/dev/stdout";

const ERRORS: &str = "/dev/stderr";

// How many links in a row the system follows.
const MOST_LINKS: usize = 40;

/// Where the report of a call goes: to standard output, or to standard error if standard output has items or tags. A
/// call is refused if it would write one file or pipe twice, by any path or standard stream, or a file that it reads.
/// Devices and folders are exempt.
pub fn report_stream(rt: &HostRuntime, call: &Call<'_>) -> Result<ReportStream, EndsFault> {
    let written = written_by(rt, call)?;
    if written.is_empty() {
        return Ok(ReportStream::Output);
    }
    if stand_side_by_side(&written) || reads_one_of(rt, &written, call)? {
        return Err(EndsFault::FileTwice);
    }
    if leads_to_one_of(rt, &written, ERRORS)? {
        return Err(EndsFault::OntoErrors);
    }
    if !call.ends.use_output() && !leads_to_one_of(rt, &written, OUTPUT)? {
        return Ok(ReportStream::Output);
    }
    match call.trace {
        Some(_) if call.ends.are_none() => Err(EndsFault::TraceOntoReport),
        _ => Ok(ReportStream::Errors),
    }
}

// Where all outputs of a call lead, except standard error and its report; sorted.
fn written_by(rt: &HostRuntime, call: &Call<'_>) -> Result<Vec<Place>, AllocError> {
    let mut written = Vec::new(rt.alloc());
    for end in call.ends.outputs.iter().chain(call.ends.tags.iter()) {
        add_place(rt, &mut written, path_of(end, OUTPUT))?;
    }
    if let Some(trace) = call.trace {
        add_place(rt, &mut written, trace.path)?;
    }
    if let Some(replies) = call.talk.replies {
        add_place(rt, &mut written, replies)?;
    }
    written.sort_unstable();
    Ok(written)
}

// The path of an end; this one if it is the standard stream.
fn path_of<'a>(end: &NamedEnd<'a>, standard: &'static str) -> &'a str {
    if end.is_standard() {
        standard
    } else {
        end.path
    }
}

fn add_place(rt: &HostRuntime, places: &mut Vec<Place>, path: &str) -> Result<(), AllocError> {
    if let Some(place) = place_of(rt, path)? {
        places.reserve(1)?;
        places.push_reserved(place);
    }
    Ok(())
}

// Whether a call reads one of these files, which are sorted.
fn reads_one_of(rt: &HostRuntime, written: &[Place], call: &Call<'_>) -> Result<bool, AllocError> {
    if is_file_of(rt, written, call.path)? {
        return Ok(true);
    }
    if let Some(control) = call.talk.control {
        if is_file_of(rt, written, control)? {
            return Ok(true);
        }
    }
    for end in call.ends.inputs.iter().chain(call.ends.marks.iter()) {
        if is_file_of(rt, written, path_of(end, INPUT))? {
            return Ok(true);
        }
    }
    Ok(false)
}

// Whether a path leads to one of these that is a file. (What comes out of a pipe or a socket is not what was written
// there last.)
fn is_file_of(rt: &HostRuntime, places: &[Place], path: &str) -> Result<bool, AllocError> {
    match fs::metadata(rt, path) {
        Ok(found) if !found.is_file() => Ok(false),
        _ => leads_to_one_of(rt, places, path),
    }
}

// Whether a path leads to one of these, which are sorted.
fn leads_to_one_of(rt: &HostRuntime, places: &[Place], path: &str) -> Result<bool, AllocError> {
    match place_of(rt, path)? {
        Some(place) => Ok(places.binary_search(&place).is_ok()),
        None => Ok(false),
    }
}

// None for a device, which many may write to, and for a folder, which nobody writes to.
fn place_of(rt: &HostRuntime, path: &str) -> Result<Option<Place>, AllocError> {
    match fs::metadata(rt, path) {
        Ok(found) if keeps_order(&found) => Ok(Some((
            found.dev(),
            found.ino(),
            String::new(rt.alloc()),
        ))),
        Ok(_) => Ok(None),
        Err(_) => free_place(rt, &end_of_links(rt, path)?),
    }
}

// Whether what is written there comes after what was written before.
fn keeps_order(found: &Metadata) -> bool {
    let sort = found.file_type();
    sort.is_file() || sort.is_fifo() || sort.is_socket()
}

// The place of a file that is not there yet.
fn free_place(rt: &HostRuntime, path: &PathBuf) -> Result<Option<Place>, AllocError> {
    let path = path.as_str();
    let (folder, name) = match path.rsplit_once('/') {
        Some(("", name)) => ("/", name),
        Some((folder, name)) => (folder, name),
        None => (".", path),
    };
    match fs::metadata(rt, folder) {
        Ok(folder) => Ok(Some((
            folder.dev(),
            folder.ino(),
            String::from_str(rt.alloc(), name)?,
        ))),
        Err(_) => Ok(None),
    }
}

// The path that the links at this one lead to; the path itself if it is no link. The last link leads to no file.
fn end_of_links(rt: &HostRuntime, path: &str) -> Result<PathBuf, AllocError> {
    let mut path = PathBuf::from_str(rt.alloc(), path)?;
    for _ in 0..MOST_LINKS {
        match fs::read_link(rt, &path) {
            Ok(target) => {
                path.pop();
                path.push(&target)?;
            }
            Err(error) if error.kind() == ErrorKind::OutOfMemory => return Err(AllocError),
            Err(_) => break,
        }
    }
    Ok(path)
}
