use super::memory_disk::{Extent, MemoryDisk, Trouble};
use crate::command_line::asked::Files;
use crate::command_line::words::Word;
use crate::save::destination::{Kind, find};
use crate::save::keeper::{SaveError, StateFiles, StateStore};
use crate::save::replacement::keep_text;
use crate::system::disk::Disk;
use std::alloc::{AllocError, Global};
use std::fs::OpenOptions;
use std::io::ErrorKind;
use std::test::Fail;

/// How much of a call is done, and how much a cut leaves of what is not synced.
const EXTENTS: [Extent; 3] = [Extent::Nothing, Extent::Part, Extent::Whole];

const OLD: &[u8] = b"the old state";

const NEW: &[u8] = b"the new state, which is longer";

/// The name of the state, and that of the new file beside it.
const BOAT: &str = "boat";

const BESIDE: &str = ".boat.n2kdec-new";

/// A disk that has these texts under both, the first as a file of this kind.
fn disk<'a>(
    alloc: Global,
    kind: Kind,
    own: Option<&[u8]>,
    beside: Option<&[u8]>,
) -> Result<MemoryDisk<'a>, AllocError> {
    let mut disk = MemoryDisk::new(alloc, &[], &[]);
    let links = if kind == Kind::Shared { 2 } else { 1 };
    disk.put(BOAT, own, kind != Kind::Special, links)?;
    disk.put(BESIDE, beside, true, 1)?;
    Ok(disk)
}

/// Keeps the new state. Answers whether that passes.
fn keeps(alloc: Global, disk: &mut MemoryDisk<'_>) -> bool {
    keep_text(alloc, disk, BOAT, NEW).is_ok()
}

const LINKS: [(&str, &str); 3] = [
    ("saves/boat", "../usb/boat"),
    ("/boat", "media/boat"),
    ("loop", "loop"),
];

const FOLDERS: [(&str, &str); 1] = [("/dev/fd", "/proc/7/fd")];

/// A link beside the file, one from the root, a path of an open file, a name in a folder, and one from here.
const PLACES: [(&str, &str, &str); 5] = [
    (
        "saves/boat",
        "saves/../usb/boat",
        "saves/../usb/.boat.n2kdec-new",
    ),
    ("/boat", "/media/boat", "/media/.boat.n2kdec-new"),
    ("/dev/fd/3", "/dev/fd/3", "/dev/fd/.3.n2kdec-new"),
    ("saves/hull", "saves/hull", "saves/.hull.n2kdec-new"),
    ("hull", "hull", ".hull.n2kdec-new"),
];

#[test]
fn a_name_leads_over_links_to_its_file(rt: HostRuntime) -> Result<(), Fail> {
    let disk = MemoryDisk::new(rt.alloc(), &LINKS, &FOLDERS);
    for (name, target, temp) in PLACES {
        let to = find(rt.alloc(), &disk, name)?;
        assert_eq!(rt; to.target.as_str(), target);
        assert_eq!(rt; to.temp.as_str(), temp);
        assert_eq!(rt; to.kind == Kind::Special, name == "/dev/fd/3");
        assert_eq!(rt; to.mode, None);
    }
    Ok(())
}

#[test]
fn links_without_an_end_and_names_of_no_file_are_refused(rt: HostRuntime) -> Result<(), Fail> {
    let disk = MemoryDisk::new(rt.alloc(), &LINKS, &FOLDERS);
    for (name, why) in [
        ("loop", ErrorKind::FilesystemLoop),
        ("", ErrorKind::InvalidFilename),
        ("saves/..", ErrorKind::InvalidFilename),
        ("new/", ErrorKind::InvalidFilename),
        ("new/.", ErrorKind::InvalidFilename),
    ] {
        match find(rt.alloc(), &disk, name) {
            Ok(_) => assert!(rt; false, "{name}"),
            Err(error) => assert_eq!(rt; error.kind(), why, "{name}"),
        }
    }
    Ok(())
}

#[test]
fn what_is_there_says_how_a_state_is_kept(rt: HostRuntime) -> Result<(), Fail> {
    for kind in [Kind::Alone, Kind::Shared, Kind::Special] {
        let to = find(rt.alloc(), &disk(rt.alloc(), kind, Some(OLD), None)?, BOAT)?;
        assert_eq!(rt; to.kind, kind);
        assert_eq!(rt; to.mode, Some(0o640));
    }
    Ok(())
}

/// The files at the name and beside it, and how many calls a replacement then takes: the new file is opened,
/// written, synced and renamed, and the folder synced. A file beside it is found and removed first, and a file that is
/// there has its mode given to the new one.
const REPLACED: [(Option<&[u8]>, Option<&[u8]>, u64); 4] = [
    (None, None, 5),
    (Some(OLD), None, 6),
    (None, Some(b"cut"), 7),
    (Some(OLD), Some(b"cut"), 8),
];

#[test]
fn a_text_takes_the_place_of_another(rt: HostRuntime) -> Result<(), Fail> {
    for (own, beside, calls) in REPLACED {
        let mut disk = disk(rt.alloc(), Kind::Alone, own, beside)?;
        assert!(rt; keeps(rt.alloc(), &mut disk));
        for extent in EXTENTS {
            assert_eq!(rt; disk.left(BOAT, extent), Some(NEW));
            assert_eq!(rt; disk.left(BESIDE, extent), None);
        }
        assert_eq!(rt; disk.calls(), calls);
    }
    Ok(())
}

#[test]
fn a_failure_in_each_call_leaves_the_old_text_or_the_new(rt: HostRuntime) -> Result<(), Fail> {
    for call in 1..7u64 {
        for done in EXTENTS {
            let trouble = Trouble::Failure(call, done);
            let mut disk = disk(rt.alloc(), Kind::Alone, Some(OLD), None)?;
            disk.trouble = trouble;
            assert!(rt; !keeps(rt.alloc(), &mut disk), "{trouble:?}");
            let renamed = call == 6 || call == 5 && done == Extent::Whole;
            let now = if renamed { NEW } else { OLD };
            assert_eq!(rt; disk.left(BOAT, Extent::Whole), Some(now), "{trouble:?}");
            assert_eq!(rt; disk.left(BESIDE, Extent::Whole), None, "{trouble:?}");
        }
    }
    Ok(())
}

#[test]
fn a_cut_in_each_call_leaves_the_old_text_or_the_new(rt: HostRuntime) -> Result<(), Fail> {
    for call in 1..7u64 {
        for done in EXTENTS {
            let trouble = Trouble::Cut(call, done);
            let mut disk = disk(rt.alloc(), Kind::Alone, Some(OLD), None)?;
            disk.trouble = trouble;
            assert!(rt; !keeps(rt.alloc(), &mut disk), "{trouble:?}");
            for extent in EXTENTS {
                let left = disk.left(BOAT, extent);
                let is_whole = left == Some(OLD) || left == Some(NEW);
                assert!(rt; is_whole, "{trouble:?} {extent:?}: {left:?}");
            }
        }
    }
    Ok(())
}

/// What is not synced may be there in part, and a rename may be there or not.
#[test]
fn a_cut_before_the_syncs_may_leave_a_part_or_the_old_text(rt: HostRuntime) -> Result<(), Fail> {
    let mut disk = disk(rt.alloc(), Kind::Alone, Some(OLD), None)?;
    disk.open(BESIDE, OpenOptions::new().write(true).create_new(true))?;
    disk.write(NEW)?;
    disk.rename(BESIDE, BOAT)?;
    assert_eq!(rt; disk.left(BOAT, Extent::Nothing), Some(OLD));
    assert_eq!(rt; disk.left(BOAT, Extent::Part), Some(&NEW[..15]));
    assert_eq!(rt; disk.left(BOAT, Extent::Whole), Some(NEW));
    Ok(())
}

/// Of the ways in which a text is written over another: the new file is refused (call 1), or that it takes the name
/// (call 5), or the file has other names. Each has the calls up to the one that empties the old file.
const WAYS: [(Kind, u64, u64); 4] = [
    (Kind::Alone, 1, 1),
    (Kind::Alone, 5, 5),
    (Kind::Shared, 0, 4),
    (Kind::Shared, 1, 1),
];

#[test]
fn a_text_is_written_over_another_where_it_can_not_be_replaced(
    rt: HostRuntime,
) -> Result<(), Fail> {
    for (kind, refused, before) in WAYS {
        for own in [
            OLD,
            b"a state with a longer text than the new one has".as_slice(),
        ] {
            let mut disk = disk(rt.alloc(), kind, Some(own), None)?;
            disk.refused = refused;
            assert!(rt; keeps(rt.alloc(), &mut disk));
            assert_eq!(rt; disk.left(BOAT, Extent::Part), Some(NEW));
            assert_eq!(rt; disk.left(BESIDE, Extent::Whole), None);
            assert_eq!(rt; disk.calls(), before + 4);
        }
    }
    Ok(())
}

/// A failure before the old file is emptied leaves the old text, and nothing beside it. One after that may leave any
/// text, and the new file with the whole of it, if one was made.
#[test]
fn a_failure_where_a_text_is_written_over_is_told(rt: HostRuntime) -> Result<(), Fail> {
    for (kind, refused, before) in WAYS {
        for call in 1..before + 5 {
            for done in EXTENTS {
                let trouble = Trouble::Failure(call, done);
                let mut disk = disk(rt.alloc(), kind, Some(OLD), None)?;
                disk.refused = refused;
                disk.trouble = trouble;
                // A call that is refused doesn't fail, and nothing reports that the new file stays at the end.
                let passes = call == refused || call == before + 4;
                let answer = keeps(rt.alloc(), &mut disk);
                assert_eq!(rt; answer, passes, "{refused} {trouble:?}");
                let now = disk.left(BOAT, Extent::Whole);
                let beside = disk.left(BESIDE, Extent::Whole);
                if passes {
                    assert_eq!(rt; now, Some(NEW), "{refused} {trouble:?}");
                } else if call <= before {
                    assert_eq!(rt; now, Some(OLD), "{refused} {trouble:?}");
                    assert_eq!(rt; beside, None, "{refused} {trouble:?}");
                } else {
                    let made = if before > 2 { Some(NEW) } else { None };
                    assert_eq!(rt; beside, made, "{refused} {trouble:?}");
                }
            }
        }
    }
    Ok(())
}

/// If the target is not a regular file, the text is appended to it, and nothing is synced.
#[test]
fn what_is_no_regular_file_is_written_to(rt: HostRuntime) -> Result<(), Fail> {
    let mut disk = disk(rt.alloc(), Kind::Special, Some(b"notes, "), None)?;
    assert!(rt; keep_text(rt.alloc(), &mut disk, BOAT, b"state").is_ok());
    assert_eq!(rt;
        disk.left(BOAT, Extent::Whole),
        Some(b"notes, state".as_slice())
    );
    assert_eq!(rt; disk.calls(), 2);
    Ok(())
}

/// With ample memory a log in the state's place is reported as harmed.
#[test]
fn a_log_is_harmed(rt: HostRuntime) -> Result<(), Fail> {
    let keeper = StateFiles::new(rt.alloc(), disk(rt.alloc(), Kind::Alone, Some(OLD), None)?);
    let files = Files {
        table: None,
        state: None,
        log: Some(Word::new(rt.alloc(), BOAT)?),
    };
    assert!(rt; matches!(keeper.admit(BOAT, &files), Err(SaveError::Harm)));
    assert!(rt; keeper.admit("hull", &files).is_ok());
    Ok(())
}
