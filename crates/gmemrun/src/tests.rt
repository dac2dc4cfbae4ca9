use super::*;

mod bulk;
mod cuts;
mod faults;
mod migrations;
mod numbers;
mod rows;
mod samples;
mod threads;
