//! Worked examples over problems: values, boxes, the checker, certificates, trails, propagation, orders,
//! what conflicts teach, trades, histories of several workers, turns, crews and whole runs, as tests.
#![tactic(auto)]

#[cfg(test)]
mod cert_rows;
#[cfg(test)]
mod chain_rows;
#[cfg(test)]
mod choices;
#[cfg(test)]
mod crew_rows;
#[cfg(test)]
mod drivers;
#[cfg(test)]
mod given;
#[cfg(test)]
mod histories;
#[cfg(test)]
mod history_rows;
#[cfg(test)]
mod lesson_rows;
#[cfg(test)]
mod lessons;
#[cfg(test)]
mod narrowing;
#[cfg(test)]
mod narrowing_rows;
#[cfg(test)]
mod problems;
#[cfg(test)]
mod resting;
#[cfg(test)]
mod run_rows;
#[cfg(test)]
mod runs;
#[cfg(test)]
mod steps;
#[cfg(test)]
mod stores;
#[cfg(test)]
mod trades;
#[cfg(test)]
mod trail_rows;
#[cfg(test)]
mod trails;
#[cfg(test)]
mod turn_rows;
#[cfg(test)]
mod turns;
#[cfg(test)]
mod value_rows;
#[cfg(test)]
mod values;
#[cfg(test)]
mod verdict_rows;
#[cfg(test)]
mod verdicts;
#[cfg(test)]
mod words;
