//! The inputs of a command's files: opened all before the first is read, and closed on every path.
ghost use Rattle.std.specs.Prelude.{◌≡◌, ◌≢◌, ◌≤◌, None, All, IsTrue, IfOk, IfErr, IfSome, length, [], ◌∷◌, ◌++◌};
ghost use Rattle.marc_types.specs.Valid.{is_code};
ghost use Rattle.outside.specs.Fault.{Rose};
ghost use Rattle.outside.specs.Room.{SameBut};
ghost use Rattle.loading_commands.specs.Inputs.{AreProper, IsInputFault, IsInputOf, AreOpened, IsFresh, RisesFrom, lefts_of_inputs};

use command_words::Library;
use console_lines::Fault;
use loader_workers::{InputFile, InputFiles};
use marc_types::TryCopy;
use outside::Room;
use std::alloc::Global;

/// Opens the file of a library.
fn open_input<R: Room>(
    alloc: Global,
    room: &mut R,
    library: &Library,
) -> Result<InputFile<R::In>, Fault>
    requires free { (R.seen room.old).open_as library.now.file ≡ None }
    requires proper { IsTrue (is_code library.now.code) }
    ensures stays { SameBut (R.seen room.old) (R.seen room.new) [] }
    ensures lefts { (R.seen room.new).lefts ≡ (R.seen room.old).lefts }
    ensures input { IfOk result (λ input. IsInputOf R.In.left (R.seen room.old) library.now input) }
    ensures fresh { IfOk result (λ input. IsFresh R.In.faults input) }
    ensures cause { IfErr result (λ fault. fault ≡ Fault.Input →
        Rose ((R.seen room.old).in_faults library.now.file) ((R.seen room.new).in_faults library.now.file)) }
    ensures fault { IfErr result (λ fault. fault ≢ Fault.Input → fault ≡ Fault.Memory) }
{
    let Ok(code) = library.code.copy(alloc) else {
        return Err(Fault::Memory);
    };
    match room.open_in(library.file.as_str()) {
        Ok(source) => Ok(InputFile { source, code }),
        Err(_) => Err(Fault::Input),
    }
}

/// Opens the files of these libraries, in their order. With a fault it gives those that it opened before.
pub fn open_inputs<R: Room>(
    alloc: Global,
    room: &mut R,
    libraries: &[Library],
) -> (Vec<InputFile<R::In>>, Option<Fault>)
    requires free { All (λ library. (R.seen room.old).open_as library.file ≡ None) libraries.now }
    requires proper { AreProper libraries.now }
    ensures stays { SameBut (R.seen room.old) (R.seen room.new) [] }
    ensures lefts { (R.seen room.new).lefts ≡ (R.seen room.old).lefts }

    // What was opened: all files, where there is no fault.
    ensures opened { AreOpened R.In.left R.In.faults (R.seen room.old) libraries.now result.0.items result.1 }
    ensures cause { IfSome result.1 (λ fault. fault ≡ Fault.Input → IsInputFault libraries.now (R.seen room.old) (R.seen room.new)) }
    ensures fault { IfSome result.1 (λ fault. fault ≢ Fault.Input → fault ≡ Fault.Memory) }
{
    let Ok(mut inputs) = Vec::with_capacity(alloc, libraries.len()) else {
        return (Vec::new(alloc), Some(Fault::Memory));
    };
    for index in 0..libraries.len() {
        match open_input(alloc, room, &libraries[index]) {
            Ok(input) => inputs.push_reserved(input),
            Err(fault) => return (inputs, Some(fault)),
        }
    }
    (inputs, None)
}

/// Closes the file of a library.
fn close_input<R: Room>(room: &mut R, library: &Library, input: InputFile<R::In>)
    ensures stays { SameBut (R.seen room.old) (R.seen room.new) [] }
    ensures left { (R.seen room.new).lefts ≡ R.In.left input.source ∷ (R.seen room.old).lefts }
    ensures rose { Rose 0 (R.In.faults input.source) →
        Rose ((R.seen room.old).in_faults library.now.file) ((R.seen room.new).in_faults library.now.file) }
{
    let InputFile { source, .. } = input;
    room.close_in(library.file.as_str(), source);
}

/// Closes the files of the first of these libraries, from the last to the first.
pub fn close_inputs<R: Room>(room: &mut R, libraries: &[Library], inputs: InputFiles<R::In>)
    requires { length inputs ≤ length libraries.now }
    ensures stays { SameBut (R.seen room.old) (R.seen room.new) [] }
    ensures lefts { (R.seen room.new).lefts ≡ lefts_of_inputs R.In.left inputs ++ (R.seen room.old).lefts }
    ensures rose { RisesFrom R.In.faults 0 libraries.now inputs (R.seen room.old) (R.seen room.new) }
{
    let mut inputs = inputs.into_vec();
    while let Some(input) = inputs.pop() {
        close_input(room, &libraries[inputs.len()], input);
    }
    inputs.destroy_empty();
}
