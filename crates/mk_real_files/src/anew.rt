//! How a file gets new bytes: they are written beside it and take its name at once, so that a failure leaves the old
//! ones.
use std::alloc::Global;
use std::fs::{self, Files, OpenFile, OpenOptions, Permissions};
use std::io::{self, ErrorKind, Write};
use std::path::{Path, PathBuf};

// How many symbolic links are followed, one after the other. The system follows as many.
const LINK_LIMIT: u32 = 40;

// How many names for a file beside another are tried.
const PART_LIMIT: u32 = 100;

/// Makes these the bytes of the file of this name. Where a regular file stands there, or nothing, a failure leaves it
/// so. What is no regular file, as a pipe, is written as it stands.
pub fn write_anew<R: Files + AllocGlobal>(rt: &R, name: &str, bytes: &[u8]) -> io::Result<()> {
    let mut path = PathBuf::from_str(rt.alloc(), name)?;
    match follow_all(rt, &mut path)? {
        There::File => replace(rt, path.as_str(), bytes),
        There::Link | There::Other => fs::write(rt, name, bytes),
    }
}

/// A new file beside another one, which need not be there: the new one's name, and the path of the other one.
#[derive(Drop)]
pub struct Part<F> {
    pub file: F,
    pub name: String,
    pub path: PathBuf,
}

/// Makes an empty file beside the one of this name, which need not be there. It has the other one's rights. There is
/// none where the other one is no regular file. It is an error where it may not be written.
pub fn open_beside<R: Files + AllocGlobal>(
    rt: &R,
    name: &str,
) -> io::Result<Option<Part<R::File>>> {
    let mut path = PathBuf::from_str(rt.alloc(), name)?;
    match follow_all(rt, &mut path)? {
        There::File => {
            let (name, file) = begin_part(rt, path.as_str())?;
            Ok(Some(Part { file, name, path }))
        }
        There::Link | There::Other => Ok(None),
    }
}

/// Puts a part in the place of the file that it lies beside, once its bytes are on the disk. Where that fails it stays.
pub fn settle_part<R: Files>(rt: &R, part: &mut Part<R::File>) -> io::Result<()> {
    settle(rt, part.name.as_str(), &mut part.file, part.path.as_str())
}

// What stands at a path.
#[derive(Clone, Copy)]
enum There {
    // A regular file, or nothing.
    File,
    // A symbolic link.
    Link,
    // Something else, or the system's own name for an open file, to which `/dev/stdout` leads.
    Other,
}

// What stands at this path.
fn look<R: Files>(rt: &R, path: Path) -> io::Result<There> {
    if path.starts_with("/proc") || path.starts_with("/dev/fd") {
        return Ok(There::Other);
    }
    match fs::symlink_metadata(rt, path) {
        Ok(there) if there.is_symlink() => Ok(There::Link),
        Ok(there) if there.is_file() => Ok(There::File),
        Ok(there) if there.is_dir() => Err(io::Error::from(ErrorKind::IsADirectory)),
        Ok(_) => Ok(There::Other),
        Err(e) if e.kind() == ErrorKind::NotFound => Ok(There::File),
        Err(e) => Err(e),
    }
}

// Goes from a symbolic link to where it leads.
fn follow<R: Files + AllocGlobal>(rt: &R, path: &mut PathBuf) -> io::Result<()> {
    let target = fs::read_link(rt, path.as_str())?;
    path.set_file_name(target.as_str())?;
    Ok(())
}

// Follows symbolic links, and tells what stands at their end.
fn follow_all<R: Files + AllocGlobal>(rt: &R, path: &mut PathBuf) -> io::Result<There> {
    for _ in 0..=LINK_LIMIT {
        match look(rt, path.as_path())? {
            There::Link => follow(rt, path)?,
            end => return Ok(end),
        }
    }
    Err(io::Error::from(ErrorKind::FilesystemLoop))
}

// Puts a file with these bytes and the old one's rights in the place of the file at this path.
fn replace<R: Files + AllocGlobal>(rt: &R, path: &str, bytes: &[u8]) -> io::Result<()> {
    let (part, mut file) = begin_part(rt, path)?;
    let placed = place(rt, part.as_str(), &mut file, bytes, path);
    if placed.is_err() {
        let _ = fs::remove_file(rt, part.as_str());
    }
    placed
}

// Makes an empty file beside the one at this path, with its rights.
fn begin_part<R: Files + AllocGlobal>(rt: &R, path: &str) -> io::Result<(String, R::File)> {
    let rights = rights_of(rt, path)?;
    let (part, file) = open_part(rt, path)?;
    match give_rights(&file, rights) {
        Ok(()) => Ok((part, file)),
        Err(e) => {
            let _ = fs::remove_file(rt, part.as_str());
            Err(e)
        }
    }
}

// Gives a file these rights, if there are any.
fn give_rights<F: OpenFile>(file: &F, rights: Option<Permissions>) -> io::Result<()> {
    match rights {
        Some(rights) => file.set_permissions(rights),
        None => Ok(()),
    }
}

// Gives a new file, which has the name of a part, its bytes, and puts it at this path.
fn place<R: Files>(
    rt: &R,
    part: &str,
    file: &mut R::File,
    bytes: &[u8],
    path: &str,
) -> io::Result<()> {
    file.write_all(bytes)?;
    settle(rt, part, file, path)
}

// Waits until the bytes of a file, which has the name of a part, are on the disk, and puts it at this path.
fn settle<R: Files>(rt: &R, part: &str, file: &mut R::File, path: &str) -> io::Result<()> {
    file.flush()?;
    file.sync_all()?;
    fs::rename(rt, part, path)?;
    // the file has its name by now, so this changes no answer
    let _ = sync_folder(rt, path);
    Ok(())
}

// The rights of the file at this path; none where nothing stands there. It is an error where the file may not be
// written.
fn rights_of<R: Files>(rt: &R, path: &str) -> io::Result<Option<Permissions>> {
    match OpenOptions::new().write(true).open(rt, path) {
        Ok(file) => Ok(Some(file.metadata()?.permissions())),
        Err(e) if e.kind() == ErrorKind::NotFound => Ok(None),
        Err(e) => Err(e),
    }
}

// The name of this number for a file beside the one at this path.
fn part_name(alloc: Global, path: &str, number: u32) -> io::Result<String> {
    if number == 1 {
        Ok(format!(in alloc; "{path}.part")?)
    } else {
        Ok(format!(in alloc; "{path}.part{number}")?)
    }
}

// Makes a file of this name; none where something has the name.
fn make_file<R: Files>(rt: &R, name: &str) -> io::Result<Option<R::File>> {
    match OpenOptions::new()
        .write(true)
        .create_new(true)
        .open(rt, name)
    {
        Ok(file) => Ok(Some(file)),
        Err(e) if e.kind() == ErrorKind::AlreadyExists => Ok(None),
        Err(e) => Err(e),
    }
}

// Makes a file beside the one at this path, under the first of the names `PATH.part`, `PATH.part2`, `PATH.part3` and so
// on that is free.
fn open_part<R: Files + AllocGlobal>(rt: &R, path: &str) -> io::Result<(String, R::File)> {
    for number in 1..=PART_LIMIT {
        let part = part_name(rt.alloc(), path, number)?;
        if let Some(file) = make_file(rt, part.as_str())? {
            return Ok((part, file));
        }
    }
    Err(io::Error::from(ErrorKind::AlreadyExists))
}

// Waits until the names of the folder around this path are on the disk.
fn sync_folder<R: Files>(rt: &R, path: &str) -> io::Result<()> {
    let folder = match Path::new(path).parent() {
        Some(folder) if !folder.as_str().is_empty() => folder,
        _ => Path::new("."),
    };
    fs::open(rt, folder)?.sync_all()
}
