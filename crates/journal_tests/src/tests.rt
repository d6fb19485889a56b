mod entries;
mod files;
mod publications;
mod rows;
mod texts;
