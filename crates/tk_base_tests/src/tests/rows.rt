//! Worked examples, rows of numbers in words, and the definitions computed over whole histories beside `step`.

mod attributes;
mod beside;
mod codes;
mod plain_ops;
mod plain_polls;
mod plain_resources;
mod plain_tasks;
mod polls;
mod random;
mod times;
mod waits;
mod wakes;
mod words;
