//! The map's file: its text, and the map that it says.
ghost use Rattle.std.specs.Prelude.{◌≡◌, ◌≤◌, IfErr, IfOk, length, option_map, string_bytes};
ghost use Rattle.std.specs.Str.{IsUtf8};
ghost use Rattle.dip_judge_runs.specs.Names.{file_name, no_map_name};
ghost use Rattle.dip_judge_runs.specs.MapFiles as said;
ghost use Rattle.dip_judge_runs.specs.MapFiles.{IsFileFault, IsFileText, IsMapOf, IsNoMapOf};

use crate::reading::{ReadFault, read_whole};
use dip_map::Map;
use dip_map_text::{STANDARD, map_from_toml};
use dip_names::MapFault;
use std::alloc::Global;
use std::error::Error;
use std::io::Read;
use std::rt::Files;
use std::{fmt, fs};

/// The most bytes of a map's file.
pub const MOST_MAP: usize = 1_048_576;

/// Why a map's file has no text.
#[derive(Clone, Copy, Debug, PartialEq, Eq)]
pub enum FileFault {
    /// It can't be opened or read, it has more than `MOST_MAP` bytes, or memory ran out.
    Unread(ReadFault),
    /// Its bytes aren't UTF-8.
    NotUtf8,
}

impl FileFault {
    /// The fault's name, as the program tells it: `Memory`, or `Read` for each other reason.
    pub fn name(self) -> &'static str
        ensures { result.now ≡ file_name self }
    {
        match self {
            FileFault::Unread(ReadFault::Memory) => "Memory",
            FileFault::Unread(_) | FileFault::NotUtf8 => "Read",
        }
    }
}

impl fmt::Display for FileFault {
    ghost use Rattle.std.specs.Prelude.{Some};

    ghost output = { λ fault. Some (file_name fault) };

    fn fmt<W: fmt::Write>(&self, f: &mut fmt::Formatter<W>) -> fmt::Result {
        f.write_str(self.name())
    }
}

impl Error for FileFault {}

/// Takes the bytes for a text if they are UTF-8.
fn text_of(bytes: Vec<u8>) -> Result<String, FileFault>
    ensures text { IfOk result (λ t. string_bytes t ≡ bytes.items) }
    ensures fault { IfErr result (λ f. (f ≡ FileFault.NotUtf8) × ¬ IsUtf8 bytes.items) }
{
    match String::from_utf8(bytes) {
        Ok(text) => Ok(text),
        Err(_) => Err(FileFault::NotUtf8),
    }
}

/// The text that is all that the reader has, at most `MOST_MAP` bytes of UTF-8.
pub fn read_text<R: Read>(alloc: Global, reader: &mut R) -> Result<String, FileFault>
    ensures text { IfOk result
        (λ t. IsFileText (R.remaining reader.old) (R.remaining reader.new) (string_bytes t)) }
    ensures fault { IfErr result (IsFileFault (R.remaining reader.old) (R.remaining reader.new)) }
{
    match read_whole(alloc, reader, MOST_MAP) {
        Ok(bytes) => text_of(bytes),
        Err(fault) => Err(FileFault::Unread(fault)),
    }
}

/// Why there is no map.
#[derive(Clone, Copy, Debug, PartialEq, Eq)]
pub enum NoMap {
    /// The file that is named has no text.
    File(FileFault),
    /// The text says no map, or memory ran out while the map was made of it.
    Map(MapFault),
}

impl fmt::Display for NoMap {
    ghost use Rattle.std.specs.Prelude.{Some};

    ghost output = { λ fault. Some (no_map_name fault) };

    fn fmt<W: fmt::Write>(&self, f: &mut fmt::Formatter<W>) -> fmt::Result {
        match self {
            NoMap::File(fault) => f.write_str(fault.name()),
            NoMap::Map(fault) => f.write_str(fault.name()),
        }
    }
}

impl Error for NoMap {}

impl From<FileFault> for NoMap {
    ghost use Rattle.dip_judge_runs.specs.declared.map_file.NoMap.TheVariants.{File};

    ghost from_gives = { λ fault told. told ≡ File fault };

    fn from(fault: FileFault) -> NoMap {
        NoMap::File(fault)
    }
}

impl From<MapFault> for NoMap {
    ghost use Rattle.dip_judge_runs.specs.declared.map_file.NoMap.TheVariants.{Map as none};

    ghost from_gives = { λ fault told. told ≡ none fault };

    fn from(fault: MapFault) -> NoMap {
        NoMap::Map(fault)
    }
}

/// The text of the file of this path, at most `MOST_MAP` bytes of UTF-8. The path may be any text.
fn read_file<R: Files>(rt: &R, alloc: Global, path: &str) -> Result<String, FileFault>
    ensures most { IfOk result (λ t. length (string_bytes t) ≤ 1048576) }
{
    match fs::open(rt, path) {
        Ok(mut file) => read_text(alloc, &mut file),
        Err(_) => Err(FileFault::Unread(ReadFault::Read)),
    }
}

/// The map that the file of this path says, and the file's text; the standard map, and no text, where there is no path.
///
/// # Errors
/// A file without a text is a fault of the file; a text that says no map, or memory that runs out while the map is made
/// of it, is a fault of the map.
pub fn read_map<R: Files>(
    rt: &R,
    alloc: Global,
    path: Option<&str>,
) -> Result<(Map, Option<String>), NoMap>
    ensures map { IfOk result (λ p. IsMapOf STANDARD.now (option_map (λ p. p.now) path.entry)
        (said.text_said STANDARD.now p.1) p.0) }
    ensures fault { IfErr result
        (IsNoMapOf STANDARD.now (option_map (λ p. p.now) path.entry)) }
{
    let Some(path) = path else {
        let map = map_from_toml(alloc, STANDARD)?;
        return Ok((map, None));
    };
    let text = read_file(rt, alloc, path)?;
    let map = map_from_toml(alloc, text.as_str())?;
    Ok((map, Some(text)))
}

/// The text that a map was read of, as `read_map` gives it: the file's, or that of the standard map.
pub fn text_said(text: &Option<String>) -> &str
    ensures { result.now ≡ said.text_said STANDARD.now text.now }
{
    match text {
        Some(text) => text.as_str(),
        None => STANDARD,
    }
}
