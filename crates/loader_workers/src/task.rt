use crate::input::InputFile;
use crate::result::FileResult;
use catalogue_lock::{HistoryLock, Object, Pass};
use std::alloc::Global;

/// A file with the pass that its loader's turns are made with, the number of that loader, and what became of the file, once it is
/// loaded.
pub struct FileTask<O: Object, S> {
    pub file: InputFile<S>,
    pub pass: Pass<O>,
    pub loader: u32,
    pub result: Option<FileResult>,
}

/// What all loaders share: where their memory comes from, the gate that holds them back, and the lock round the catalogue.
#[derive(Drop)]
pub struct Shared<'a, O: Object, G> {
    pub alloc: Global,
    pub gate: &'a G,
    pub lock: &'a HistoryLock<O>,
}
