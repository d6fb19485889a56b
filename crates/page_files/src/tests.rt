mod folders;
mod readers;
