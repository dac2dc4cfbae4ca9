use super::*;

mod reading;
mod samples;
mod ups;
