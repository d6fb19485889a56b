mod clients;
mod door;
mod log;
mod pages;
mod paths;
mod threads;
mod turns;
