//! Tests of the machine by rows of calls with the answers that they must get.
mod lending;
mod logs;
mod memories;
mod queries;
mod queue;
mod refusals;
mod rows;
mod shapes;
mod worked_runs;
