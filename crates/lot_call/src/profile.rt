//! The profile of an import, as the program reads it.

ghost use Rattle.std.specs.Prelude.{◌≡◌, ℕ, List, IfErr, IfOk};
ghost use Rattle.lot_host.specs.Answers.{unusable};
ghost use Rattle.std.specs.IoError.{error_kind};
ghost use Rattle.lot_call.specs.Loaded.{IsLoadFault, IsLoaded};
ghost use Rattle.lot_call.specs.Status.{IsRefusal, status_of_load, status_of_text, status_unread};

use crate::status::out_of_memory;
use lot_base::NameFault;
use lot_export::rounding_of;
use lot_profile::Profile;
use lot_profile_text::{ProfileFault, fault_text, read_profile};
use lot_rounding::Rounding;
use lot_stream::UNUSABLE;
use std::alloc::Global;
use std::io::{self, ErrorKind};
use std::{fmt, fs};

/// The profile of an import, and where its crumbs go.
#[derive(Drop)]
pub struct Loaded {
    pub profile: Profile,
    pub rounding: Option<Rounding>,
}

/// Why a text gives no profile to import by.
#[derive(Drop)]
pub enum LoadFault {
    /// It says no profile.
    Text(ProfileFault),
    /// Its profile names no account for crumbs where it names something.
    Rounding(NameFault),
}

/// Reads the profile in the file of that path. Where that has none, standard error says why, and it returns the status of the
/// program.
pub fn load(rt: &HostRuntime, path: &str) -> Result<Loaded, u8>
    ensures loaded { IfOk result (λ loaded. (text : List ℕ) × IsLoaded text loaded) }
    ensures fault { IfErr result IsRefusal }
{
    let text = match fs::read_to_string(rt, path) {
        Ok(text) => text,
        Err(error) => return Err(refuse_file(rt, path, &error)),
    };
    match loaded_from(rt.alloc(), text.as_str()) {
        Ok(loaded) => Ok(loaded),
        Err(fault) => Err(refuse_load(rt, path, &fault)),
    }
}

/// Returns the profile that a text says, with where its crumbs go (docs/FORMATS.md, Profiles).
///
/// The error is `Text` where the text says no profile, for the reason that `read_profile` gives; else `Rounding` where what the
/// profile names for crumbs is no account. Out of memory is `Memory` of either.
pub fn loaded_from(alloc: Global, text: &str) -> Result<Loaded, LoadFault>
    ensures ok { IfOk result (IsLoaded text.now) }
    ensures fault { IfErr result (IsLoadFault text.now) }
{
    let profile = match read_profile(alloc, text) {
        Ok(profile) => profile,
        Err(fault) => return Err(LoadFault::Text(fault)),
    };
    match rounding_of(alloc, &profile) {
        Ok(rounding) => Ok(Loaded { profile, rounding }),
        Err(fault) => Err(LoadFault::Rounding(fault)),
    }
}

/// Says why the file can't be read, and returns the status of the program.
fn refuse_file(rt: &HostRuntime, path: &str, error: &io::Error) -> u8
    ensures status { result ≡ status_unread (error_kind error.now) }
    ensures refusal { IsRefusal result }
{
    if error.kind() == ErrorKind::OutOfMemory {
        out_of_memory(rt)
    } else {
        refuse(rt, path, error)
    }
}

/// Says why a text gives no profile to import by, and returns the status of the program.
fn refuse_load(rt: &HostRuntime, path: &str, fault: &LoadFault) -> u8
    ensures status { result ≡ status_of_load fault.now }
    ensures refusal { IsRefusal result }
{
    match fault {
        LoadFault::Text(fault) => refuse_text(rt, path, fault),
        LoadFault::Rounding(NameFault::Memory) => out_of_memory(rt),
        LoadFault::Rounding(
            NameFault::BadAccount
            | NameFault::BadCommodity
            | NameFault::BadLabel
            | NameFault::BadNote,
        ) => refuse(rt, path, &"accounts, rounding: has to be an account"),
    }
}

/// Says why a text is no profile, and returns the status of the program. Where memory ends, it says no more than that it is none.
fn refuse_text(rt: &HostRuntime, path: &str, fault: &ProfileFault) -> u8
    ensures status { result ≡ status_of_text fault.now }
    ensures refusal { IsRefusal result }
{
    match fault {
        ProfileFault::Memory => out_of_memory(rt),
        ProfileFault::NoToml(line) => refuse(
            rt,
            path,
            &format_args!("line {line} is no TOML, or has a key that stands above already"),
        ),
        ProfileFault::Unknown(_) | ProfileFault::Missing(_) | ProfileFault::Wrong(_, _) => {
            match fault_text(rt.alloc(), fault) {
                Ok(said) => refuse(rt, path, &said),
                Err(_) => bad_profile(rt),
            }
        }
    }
}

/// Says why a file has no profile, and returns the status of the program.
fn refuse<D: fmt::Display>(rt: &HostRuntime, path: &str, why: &D) -> u8
    ensures { result ≡ unusable }
{
    let status = bad_profile(rt);
    let _ = eprintln!(rt; "lotbook: {path}: {why}");
    status
}

/// Says that a file has no profile, and returns the status of the program.
fn bad_profile(rt: &HostRuntime) -> u8
    ensures { result ≡ unusable }
{
    let _ = eprintln!(rt; "fault U2 BadValue --profile");
    UNUSABLE
}
