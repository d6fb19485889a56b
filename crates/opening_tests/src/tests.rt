mod boards;
mod checks;
mod objects;
mod opened;
mod people;
mod prepared;
mod told;
