//! Runs of the shared words: by passes, by threads, by a crew.

mod crews;
mod passes;
mod rounds;
