mod listed;
mod lists;
mod named;
mod opening;
mod pairs;
mod rounds;
mod walked;
