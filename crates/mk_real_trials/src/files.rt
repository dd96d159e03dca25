//! Files of the system, drafts of them, and a standard stream.
ghost use Rattle.std.specs.Prelude.{◌≢◌, []};

use mk_drafts::{Begun, Drafts};
use mk_outside::{FileRead, FileSave, Folder, Sink, Wrote};
use mk_real_files::{RealFolder, RealSink};
use std::alloc::{AllocGlobal, Global};
use std::fs::{self, Files, Permissions};
use std::io;
use std::os::unix::fs::{self as unix, PermissionsExt};

// Whether a folder answers so to a read, and gives these bytes.
fn is_read<F: Folder>(
    alloc: Global,
    folder: &mut F,
    name: &str,
    want: FileRead,
    bytes: &[u8],
) -> bool {
    let mut into = Vec::new(alloc);
    folder.read(name, &mut into) == want && into.as_slice() == bytes
}

// Whether a save of these bytes is answered so, and a read then gives these.
fn is_saved<R: Files + AllocGlobal>(
    rt: &R,
    name: &str,
    bytes: &[u8],
    want: FileSave,
    kept: &[u8],
) -> bool {
    let mut folder = RealFolder::new(rt);
    folder.save(name, bytes) == want
        && is_read(rt.alloc(), &mut folder, name, FileRead::Whole, kept)
}

fn is_missing<R: Files + AllocGlobal>(rt: &R, name: &str) -> bool {
    is_read(
        rt.alloc(),
        &mut RealFolder::new(rt),
        name,
        FileRead::Missing,
        b"",
    )
}

#[test]
fn keeps_a_file(rt: HostRuntime) {
    let name = "kept-by-a-test";
    let kept = is_saved(&rt, name, b"some\n", FileSave::Kept, b"some\n");
    assert!(rt; fs::remove_file(&rt, name).is_ok() && kept && is_missing(&rt, name));
}

#[test]
fn prints(rt: HostRuntime) {
    assert_eq!(rt; RealSink::new(&rt, true).put(b"some\n"), Wrote::Took(5));
}

// The names of a file and of a symbolic link to it.
const REPLACED: &str = "replaced-by-a-test";

const LINK: &str = "link-of-a-test";

fn make_both<R: Files>(rt: &R) -> io::Result<()> {
    fs::write(rt, REPLACED, "old, and longer\n")?;
    unix::symlink(rt, REPLACED, LINK)
}

fn remove_both<R: Files>(rt: &R) -> io::Result<()> {
    fs::remove_file(rt, LINK)?;
    fs::remove_file(rt, REPLACED)
}

// Whether the link is one still, and the file has no part beside it.
fn is_tidy<R: Files>(rt: &R) -> io::Result<bool> {
    Ok(fs::symlink_metadata(rt, LINK)?.is_symlink() && !fs::exists(rt, "replaced-by-a-test.part")?)
}

// Whether a save over the link is a save over the file.
fn is_replaced<R: Files + AllocGlobal>(rt: &R) -> bool {
    is_saved(rt, LINK, b"new\n", FileSave::Kept, b"new\n")
        && matches!(is_tidy(rt), Ok(true))
        && is_read(
            rt.alloc(),
            &mut RealFolder::new(rt),
            REPLACED,
            FileRead::Whole,
            b"new\n",
        )
}

#[test]
fn puts_a_file_in_the_place_of_another(rt: HostRuntime) {
    let replaced = make_both(&rt).is_ok() && is_replaced(&rt);
    assert!(rt; remove_both(&rt).is_ok() && replaced);
}

// Whether a save over a file fails and leaves it, which is removed then.
fn is_left<R: Files + AllocGlobal>(rt: &R, name: &str) -> bool {
    let left = fs::write(rt, name, "old\n").is_ok()
        && is_saved(rt, name, b"new\n", FileSave::Failed, b"old\n");
    fs::remove_file(rt, name).is_ok() && left
}

// The same of a file with so long a name that nothing stands beside it.
fn is_long_left<R: Files + AllocGlobal>(rt: &R) -> bool {
    match "a".repeat(rt.alloc(), 252) {
        Ok(name) => is_left(rt, name.as_str()),
        Err(_) => false,
    }
}

#[test]
fn leaves_the_old_file_where_a_save_fails(rt: HostRuntime) {
    assert!(rt; is_long_left(&rt));
}

// Whether a draft of the file of this name is begun, takes this piece, and is dropped then.
fn is_drafted<R: Files + AllocGlobal>(rt: &R, name: &str, piece: &[u8]) -> bool
    requires { piece.now ≢ [] }
{
    match RealFolder::new(rt).begin(name) {
        Begun::Draft(mut draft) => draft.put(piece) == Wrote::Took(piece.len()),
        _ => false,
    }
}

// Whether a file of this name is there with these bytes; it is removed then.
fn is_taken_away<R: Files + AllocGlobal>(rt: &R, name: &str, bytes: &[u8]) -> bool {
    let mut folder = RealFolder::new(rt);
    let whole = is_read(rt.alloc(), &mut folder, name, FileRead::Whole, bytes);
    fs::remove_file(rt, name).is_ok() && whole
}

#[test]
fn a_draft_lies_beside_its_file(rt: HostRuntime) {
    let first = is_drafted(&rt, "drafted-by-a-test", b"some\n");
    let second = is_drafted(&rt, "drafted-by-a-test", b"more\n");
    let first = is_taken_away(&rt, "drafted-by-a-test.part", b"some\n") && first;
    let second = is_taken_away(&rt, "drafted-by-a-test.part2", b"more\n") && second;
    assert!(rt; first && second && is_missing(&rt, "drafted-by-a-test"));
}

#[test]
fn a_draft_lies_where_a_link_leads(rt: HostRuntime) {
    let link = "link-of-a-draft";
    let made = unix::symlink(&rt, "end-of-a-link", link).is_ok();
    let drafted = is_drafted(&rt, link, b"some\n");
    let there = is_taken_away(&rt, "end-of-a-link.part", b"some\n");
    assert!(rt; fs::remove_file(&rt, link).is_ok() && made && drafted && there);
}

// Whether a draft is begun, grows by pieces, and is left.
fn is_left_again<R: Files + AllocGlobal>(rt: &R) -> bool {
    let mut folder = RealFolder::new(rt);
    let Begun::Draft(mut draft) = folder.begin("left-by-a-test") else {
        return false;
    };
    let part = "left-by-a-test.part";
    let grown = draft.put(b"so") == Wrote::Took(2)
        && draft.put(b"me\n") == Wrote::Took(3)
        && is_read(rt.alloc(), &mut folder, part, FileRead::Whole, b"some\n");
    folder.leave(draft);
    grown && is_missing(rt, part)
}

#[test]
fn leaves_a_draft(rt: HostRuntime) {
    assert!(rt; is_left_again(&rt));
}

#[test]
fn what_is_no_file_has_no_draft(rt: HostRuntime) {
    let nowhere = match RealFolder::new(&rt).begin("/dev/null") {
        Begun::Nowhere => true,
        _ => false,
    };
    assert!(rt; nowhere);
}

// Whether the folder fails to begin a draft of the file of this name.
fn is_not_begun<R: Files + AllocGlobal>(rt: &R, name: &str) -> bool {
    match RealFolder::new(rt).begin(name) {
        Begun::Failed => true,
        _ => false,
    }
}

#[test]
fn no_draft_is_begun_of_a_folder_nor_in_one_that_is_not_there(rt: HostRuntime) {
    let made = fs::create_dir(&rt, "folder-of-a-draft").is_ok();
    let named = is_not_begun(&rt, "folder-of-a-draft");
    let missing = is_not_begun(&rt, "folder-not-there/record");
    assert!(rt; fs::remove_dir(&rt, "folder-of-a-draft").is_ok() && made && named && missing);
}

// Whether a draft of the file of this name is begun, takes this piece, and becomes the file.
fn is_finished<R: Files + AllocGlobal>(rt: &R, name: &str, piece: &[u8]) -> bool
    requires { piece.now ≢ [] }
{
    let mut folder = RealFolder::new(rt);
    let Begun::Draft(mut draft) = folder.begin(name) else {
        return false;
    };
    let taken = draft.put(piece) == Wrote::Took(piece.len());
    folder.finish(draft, name) == FileSave::Kept && taken
}

#[test]
fn a_draft_takes_the_name_of_its_file(rt: HostRuntime) {
    let finished = is_finished(&rt, "finished-by-a-test", b"some\n");
    let there = is_taken_away(&rt, "finished-by-a-test", b"some\n");
    assert!(rt; finished && there && is_missing(&rt, "finished-by-a-test.part"));
}

// Whether a draft that is finished over an old file of this name has its rights then.
fn are_rights_kept<R: Files + AllocGlobal>(rt: &R, name: &str) -> io::Result<bool> {
    fs::write(rt, name, "old, and longer\n")?;
    fs::set_permissions(rt, name, Permissions::from_mode(0o600))?;
    let rights = fs::metadata(rt, name)?.permissions();
    let finished = is_finished(rt, name, b"new\n");
    Ok(finished && fs::metadata(rt, name)?.permissions() == rights)
}

#[test]
fn a_draft_keeps_the_rights_of_its_file(rt: HostRuntime) {
    let kept = are_rights_kept(&rt, "file-with-rights");
    let there = is_taken_away(&rt, "file-with-rights", b"new\n");
    assert!(rt; matches!(kept, Ok(true)) && there && is_missing(&rt, "file-with-rights.part"));
}

#[test]
fn a_draft_takes_the_name_where_a_link_leads(rt: HostRuntime) {
    let link = "link-of-a-finish";
    let made = unix::symlink(&rt, "end-of-a-finish", link).is_ok();
    let finished = is_finished(&rt, link, b"some\n");
    let there = is_taken_away(&rt, "end-of-a-finish", b"some\n");
    assert!(rt; fs::remove_file(&rt, link).is_ok() && made && finished && there);
}

// Whether a draft of the file of this name isn't finished where a folder has got its name.
fn is_unfinished<R: Files + AllocGlobal>(rt: &R, name: &str) -> bool {
    let mut folder = RealFolder::new(rt);
    let Begun::Draft(mut draft) = folder.begin(name) else {
        return false;
    };
    let made = draft.put(b"some\n") == Wrote::Took(5) && fs::create_dir(rt, name).is_ok();
    let failed = folder.finish(draft, name) == FileSave::Failed;
    fs::remove_dir(rt, name).is_ok() && made && failed
}

#[test]
fn a_draft_stays_where_it_is_not_finished(rt: HostRuntime) {
    let failed = is_unfinished(&rt, "unfinished-by-a-test");
    let stays = is_taken_away(&rt, "unfinished-by-a-test.part", b"some\n");
    assert!(rt; failed && stays && is_missing(&rt, "unfinished-by-a-test"));
}
