//! The folders in which the profiles of parts are, and what is in them.

use std::alloc::{AllocError, Global};
use std::{env, fs, io};

/// How the names of profiles end.
const ENDING: &str = ".toml";

/// The folders in which profiles of parts are looked for: the one that PMB_PARTS names; `pmb/parts` in the
/// user's settings; and by where the program is, `profiles` beside it, `share/pmb/profiles` of what is
/// installed, and `examples/profiles` of a clone. A part is taken from the first that has it.
pub(crate) fn folders(rt: &HostRuntime) -> io::Result<Vec<String>> {
    let alloc = rt.alloc();
    let mut found = Vec::new(alloc);
    if let Ok(folder) = env::var(rt, "PMB_PARTS") {
        found.push(folder)?;
    }
    if let Ok(home) = env::var(rt, "XDG_CONFIG_HOME") {
        found.push(joined(alloc, home.as_str(), "/pmb/parts")?)?;
    } else if let Ok(home) = env::var(rt, "HOME") {
        found.push(joined(alloc, home.as_str(), "/.config/pmb/parts")?)?;
    }
    if let Ok(program) = env::current_exe(rt) {
        let folder = above(program.to_str());
        put_folder(alloc, &mut found, folder, "/profiles")?;
        put_folder(alloc, &mut found, above(folder), "/share/pmb/profiles")?;
        put_folder(alloc, &mut found, above(folder), "/examples/profiles")?;
        // (the program for aarch64 of a clone)
        put_folder(
            alloc,
            &mut found,
            above(above(folder)),
            "/examples/profiles",
        )?;
    }
    Ok(found)
}

/// Adds a folder below another one, where that is known.
fn put_folder(
    alloc: Global,
    found: &mut Vec<String>,
    folder: Option<&str>,
    name: &str,
) -> io::Result<()> {
    if let Some(folder) = folder {
        found.push(joined(alloc, folder, name)?)?;
    }
    Ok(())
}

/// The folder that a path lies in.
fn above(path: Option<&str>) -> Option<&str> {
    let (folder, _) = path?.rsplit_once('/')?;
    Some(folder)
}

/// Two texts as one.
fn joined(alloc: Global, front: &str, back: &str) -> Result<String, AllocError> {
    let mut text = String::from_str(alloc, front)?;
    text.push_str(back)?;
    Ok(text)
}

/// The names of the parts in a folder, in order. A folder that can't be read has none.
pub(crate) fn parts_in(rt: &HostRuntime, folder: &str) -> io::Result<Vec<String>> {
    let alloc = rt.alloc();
    let mut names = Vec::new(alloc);
    let Ok(entries) = fs::read_dir(rt, folder) else {
        return Ok(names);
    };
    for entry in entries {
        let Ok(entry) = entry else {
            return Ok(names);
        };
        if let Some(name) = entry.file_name().strip_suffix(ENDING) {
            names.push(String::from_str(alloc, name)?)?;
        }
    }
    names.sort()?;
    Ok(names)
}

/// The text of a part in a folder.
pub(crate) fn part_text(rt: &HostRuntime, folder: &str, name: &str) -> io::Result<Vec<u8>> {
    let mut path = joined(rt.alloc(), folder, "/")?;
    path.push_str(name)?;
    path.push_str(ENDING)?;
    fs::read(rt, path.as_str())
}
