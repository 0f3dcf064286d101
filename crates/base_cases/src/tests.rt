mod of_catalogue_lock;
mod of_commit_journal;
mod of_outside_mem;
mod of_outside_real;
mod of_outside_sure;
mod steps;
