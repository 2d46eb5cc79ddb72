//! The commands of a script that look at files or make them.

use std::fs::{File, Files};
use std::os::unix::fs::{PermissionsExt, symlink};
use std::{fs, io};

/// What a command about files answers, or none where these words are no such command.
pub(crate) fn answer<R: Files<File = File> + AllocGlobal>(
    rt: &R,
    words: &[&str],
) -> io::Result<Option<String>> {
    let text = match words {
        ["same", one, other] => same(rt, one, other)?,
        ["absent", path] if fs::exists(rt, *path)? => "there",
        ["absent", _] => "absent",
        ["mode", path] => return Ok(Some(mode(rt, path)?)),
        ["length", path] => return Ok(Some(length(rt, path)?)),
        ["folder", path] => folder(rt, path)?,
        ["join", path, parts @ ..] => join(rt, path, parts)?,
        ["zeros", count, path] => zeros(rt, count, path)?,
        ["link", file, path] => link(rt, file, path)?,
        _ => return Ok(None),
    };
    Ok(Some(text.to_string(rt.alloc())?))
}

fn same<R: Files<File = File> + AllocGlobal>(
    rt: &R,
    one: &str,
    other: &str,
) -> io::Result<&'static str> {
    let one = fs::read(rt, one)?;
    let other = fs::read(rt, other)?;
    Ok(if one == other { "same" } else { "differ" })
}

// The permission bits.
fn mode<R: Files<File = File> + AllocGlobal>(rt: &R, path: &str) -> io::Result<String> {
    let mode = fs::metadata(rt, path)?.permissions().mode() & 0o777;
    Ok(format!(in rt.alloc(); "{mode:o}")?)
}

fn length<R: Files<File = File> + AllocGlobal>(rt: &R, path: &str) -> io::Result<String> {
    let length = fs::metadata(rt, path)?.len();
    Ok(format!(in rt.alloc(); "{length}")?)
}

fn folder<R: Files<File = File>>(rt: &R, path: &str) -> io::Result<&'static str> {
    fs::create_dir(rt, path)?;
    Ok("made")
}

fn link<R: Files<File = File>>(rt: &R, file: &str, path: &str) -> io::Result<&'static str> {
    symlink(rt, file, path)?;
    Ok("made")
}

// The file at `path` gets the bytes of the others, one behind the other.
fn join<R: Files<File = File> + AllocGlobal>(
    rt: &R,
    path: &str,
    parts: &[&str],
) -> io::Result<&'static str> {
    let mut bytes = Vec::new(rt.alloc());
    for part in parts {
        bytes.extend_from_slice(&fs::read(rt, *part)?)?;
    }
    fs::write(rt, path, &bytes)?;
    Ok("made")
}

// The file at `path` gets so many digits 0.
fn zeros<R: Files<File = File> + AllocGlobal>(
    rt: &R,
    count: &str,
    path: &str,
) -> io::Result<&'static str> {
    let Ok(count) = count.parse::<u16>() else {
        return Err(io::Error::from(io::ErrorKind::InvalidInput));
    };
    let digits = vec![in rt.alloc(); b'0'; count as usize]?;
    fs::write(rt, path, &digits)?;
    Ok("made")
}
