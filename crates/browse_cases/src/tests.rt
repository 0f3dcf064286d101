mod of_loaders;
mod of_pages;
mod pieces;
