//! Worked traces, refused texts and failing devices.

mod bundles;
mod checks;
mod crews;
mod cut;
mod failing;
mod first_read;
mod growing;
mod held;
mod helping;
mod in_blocks;
mod machines;
mod meeting;
mod out_of_memory;
mod refused;
mod runs;
mod seams;
mod worked;
