//! Files become tasks and come back, in their order.
ghost use Rattle.std.specs.Prelude.{◌≡◌, ◌+◌, ◌≤◌, ◌++◌, [], IfOk, IsSome, Some, All, length, map, vec_capacity};
ghost use Rattle.loader_workers.specs.SideBySide.{HasTask};
ghost use Rattle.loader_workers.specs.Tasks.{tasks_from, tasks_in, results_of, IsReserved};

use crate::input::{InputFile, InputFiles};
use crate::result::{FileResult, Results};
use crate::task::FileTask;
use catalogue_lock::{Object, Pass, Passes};
use marc_types::NoMemory;
use std::alloc::Global;

/// Room for the tasks of files and for what they leave, which is taken before anything is begun. A task stands at a place of
/// its own, from which a loader takes it while it works on it.
pub struct Reserved<O: Object, S> {
    pub places: Vec<Option<FileTask<O, S>>>,
    pub files: Vec<InputFile<S>>,
    pub passes: Vec<Pass<O>>,
    pub results: Vec<FileResult>,
}

impl<O: Object, S> Reserved<O, S> {
    /// Room for so many files, and for so many passes.
    pub fn new(alloc: Global, count: usize, passes: usize) -> Result<Reserved<O, S>, NoMemory>
        ensures { IfOk result (λ reserved. IsReserved reserved count passes) }
    {
        let passes = Vec::with_capacity(alloc, passes)?;
        let results = Vec::with_capacity(alloc, count)?;
        let files = Vec::with_capacity(alloc, count)?;
        let Ok(places) = Vec::with_capacity(alloc, count) else {
            files.destroy_empty();
            return Err(NoMemory);
        };
        Ok(Reserved {
            places,
            files,
            passes,
            results,
        })
    }

    /// Gives the room back, of which nothing was used.
    pub fn give_back(self)
        requires places { self.places.items ≡ [] }
        requires files { self.files.items ≡ [] }
    {
        let Reserved {
            places,
            files,
            passes: _,
            results: _,
        } = self;
        places.destroy_empty();
        files.destroy_empty();
    }
}

/// Makes a task of each file and its pass, in their order, each at a place of its own. A file's loader has its place, counted from
/// 0, and its task no result, so that a task that is passed over can't be taken apart.
pub fn deal<O: Object, S>(
    passes: Passes<O>,
    files: InputFiles<S>,
    places: Vec<Option<FileTask<O, S>>>,
) -> Vec<Option<FileTask<O, S>>>
    requires same { length passes ≡ length files }
    requires few { length files ≤ 64 }
    requires none { places.items ≡ [] }
    requires room { length files ≤ vec_capacity places }
    ensures { result.items ≡ map Some (tasks_from 0 passes files) }
{
    let mut places = places;
    let mut passes = passes.into_vec().into_iter();
    let mut files = files.into_vec().into_iter();
    while let Some(file) = files.next() {
        let Some(pass) = passes.next() else {
            unreachable!()
        };
        let loader = places.len() as u32;
        places.push_reserved(Some(FileTask {
            file,
            pass,
            loader,
            result: None,
        }));
    }
    files.destroy_empty();
    passes.destroy_empty();
    places
}

/// Takes files, passes and results out of the tasks at these places, in their order, the passes behind those that are given. Each task
/// has a result.
pub fn take_apart<O: Object, S>(
    places: Vec<Option<FileTask<O, S>>>,
    files: Vec<InputFile<S>>,
    passes: Vec<Pass<O>>,
    results: Vec<FileResult>,
) -> (InputFiles<S>, Passes<O>, Results)
    requires done { All (HasTask (λ task. IsSome task.result)) places.items }
    requires files { (files.items ≡ []) × (length places.items ≤ vec_capacity files) }
    requires passes { length passes.items + length places.items ≤ vec_capacity passes }
    requires results { (results.items ≡ []) × (length places.items ≤ vec_capacity results) }
    ensures files { result.0 ≡ map (λ task. task.file) (tasks_in places.items) }
    ensures passes { result.1 ≡ passes.items ++ map (λ task. task.pass) (tasks_in places.items) }
    ensures results { result.2 ≡ results_of (tasks_in places.items) }
{
    let mut files = files;
    let mut passes = passes;
    let mut results = results;
    let mut places = places.into_iter();
    while let Some(place) = places.next() {
        let Some(task) = place else { unreachable!() };
        let FileTask {
            file,
            pass,
            loader: _,
            result,
        } = task;
        files.push_reserved(file);
        passes.push_reserved(pass);
        let Some(result) = result else { unreachable!() };
        results.push_reserved(result);
    }
    places.destroy_empty();
    (
        InputFiles::from_vec(files),
        Passes::from_vec(passes),
        Results::from_vec(results),
    )
}
