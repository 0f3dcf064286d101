ghost use Rattle.std.specs.Prelude.{◌≡◌, ℕ, ◌<◌, List, vec_len, length, Some, None, true, false, IfSome, IfNone, IfOk, OnOk, OnErr};
ghost use Rattle.std.specs.List.{position};
ghost use Rattle.std.specs.Option.{option_copied};
ghost use Rattle.outside_mem.specs.Files.{told_file, is_named, file_in, without_name, IsPlaceOf, IsNameless, IsBlank, ChangesAt, OpensAt, closed_as, with_fail, with_no_opening, with_output, with_state};

use crate::MemDisk;
use outside::Bytes;
use std::alloc::{AllocError, Global};

/// What stands under a name.
#[derive(Debug, Drop)]
pub enum FileState {
    /// No file.
    Absent,
    /// A file with these bytes.
    Closed(Bytes),
    /// What was closed as a log.
    ClosedLog(MemDisk),
    /// What is open as a log.
    OpenLog,
}

impl FileState {
    /// The bytes of a file that isn't open.
    pub fn bytes(&self) -> Option<&[u8]>
        ensures { option_copied result ≡ told_file self.now }
    {
        match self {
            FileState::Closed(bytes) => Some(bytes.as_slice()),
            FileState::ClosedLog(disk) => Some(disk.bytes()),
            FileState::Absent | FileState::OpenLog => None,
        }
    }
}

/// A name, what stands under it, and what is to fail.
#[derive(Debug, Drop)]
pub struct MemFile {
    pub name: String,
    pub state: FileState,
    /// The numbers of the calls that are to fail on an object that is opened by this name.
    pub fails: Vec<u64>,
    /// Whether each opening by this name is to fail.
    pub opening_fails: bool,
    /// Whether an output of the name is open. It leaves what stands there until it is closed.
    pub is_output: bool,
}

fn position_of(files: &[MemFile], name: &str) -> Option<usize>
    ensures { result ≡ position (is_named name.now) files.now }
{
    files.iter().position(|file| file.name.as_str() == name)
}

/// The place of the entry of that name.
#[tactic(auto, using(crate::proofs::Places::place_found, crate::proofs::Places::place_missing))]
pub fn place_of(files: &[MemFile], name: &str) -> Option<usize>
    ensures found { IfSome result (IsPlaceOf files.now name.now) }
    ensures missing { IfNone result (IsNameless files.now name.now) }
{
    position_of(files, name)
}

/// The entry of that name.
#[tactic(auto, using(crate::proofs::Places::is_under, crate::proofs::Places::file_in_nameless))]
pub fn entry_of<'a>(files: &'a [MemFile], name: &str) -> Option<&'a MemFile>
    ensures none { IfNone result (file_in files.now name.now ≡ without_name None) }
    ensures entry { IfSome result (λ file. file_in files.now name.now ≡ without_name (Some file.now)) }
{
    let place = place_of(files, name)?;
    Some(&files[place])
}

/// The calls that are to fail on an object that is opened at that place, where opening it isn't to fail, and there is
/// memory for a copy.
#[tactic(auto, using(crate::proofs::Places::is_under))]
pub fn fails_of_opening(alloc: Global, files: &[MemFile], place: usize) -> Option<Vec<u64>>
    requires { place < length files.now }
    ensures { IfSome result (λ fails. OpensAt files.now place fails.items) }
{
    let file = &files[place];
    if file.opening_fails {
        return None;
    }
    file.fails.to_vec(alloc).ok()
}

fn blank(alloc: Global, name: &str) -> Result<MemFile, AllocError>
    ensures { IfOk result (λ file. IsBlank file name.now) }
{
    Ok(MemFile {
        name: String::from_str(alloc, name)?,
        state: FileState::Absent,
        fails: Vec::new(alloc),
        opening_fails: false,
        is_output: false,
    })
}

/// The place of the entry of that name, which is made where there is none.
#[tactic(auto, using(crate::proofs::Places::file_in_entered, crate::proofs::Places::place_entered))]
pub fn enter(alloc: Global, files: &mut Vec<MemFile>, name: &str) -> Result<usize, AllocError>
    ensures place { IfOk result (IsPlaceOf files.new.items name.now) }
    ensures same { (n : List ℕ) → file_in files.new.items n ≡ file_in files.old.items n }
{
    if let Some(place) = place_of(files, name) {
        return Ok(place);
    }
    let place = files.len();
    files.push(blank(alloc, name)?)?;
    Ok(place)
}

/// The file at a place has this state from now on.
pub fn set_state(files: &mut Vec<MemFile>, place: usize, state: FileState)
    requires { place < vec_len files.old }
    ensures { ChangesAt files.old.items files.new.items place (with_state state) }
{
    let file = &mut files[place];
    file.state = state;
}

/// Whether an output of the file at a place is open, from now on.
pub fn set_output(files: &mut Vec<MemFile>, place: usize, is_output: bool)
    requires { place < vec_len files.old }
    ensures { ChangesAt files.old.items files.new.items place (with_output is_output) }
{
    let file = &mut files[place];
    file.is_output = is_output;
}

/// What was closed takes the place of what stands there, and nothing of the name is open any more.
pub fn close(files: &mut Vec<MemFile>, place: usize, state: FileState)
    requires { place < vec_len files.old }
    ensures { ChangesAt files.old.items files.new.items place (closed_as state) }
{
    let file = &mut files[place];
    file.state = state;
    file.is_output = false;
}

/// Each later opening of the file at a place fails.
pub fn let_opening_fail(files: &mut Vec<MemFile>, place: usize)
    requires { place < vec_len files.old }
    ensures { ChangesAt files.old.items files.new.items place with_no_opening }
{
    let file = &mut files[place];
    file.opening_fails = true;
}

/// The call with this number fails, on an object that is opened by the name of the file at a place.
pub fn let_call_fail(files: &mut Vec<MemFile>, place: usize, call: u64) -> Result<(), AllocError>
    requires { place < vec_len files.old }
    ensures ok { OnOk result (ChangesAt files.old.items files.new.items place (with_fail call)) }
    ensures err { OnErr result ((name : List ℕ) → IsPlaceOf files.old.items name place
        → (n : List ℕ) → file_in files.new.items n ≡ file_in files.old.items n) }
{
    let file = &mut files[place];
    file.fails.push(call)?;
    Ok(())
}
