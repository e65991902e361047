//! A die of the store for C. Each function answers 0, or the number of a refusal, and writes through none of its other
//! pointers where it is refused.
#![tactic(auto)]

mod audits;
mod checkpoints;
mod codes;
mod counts;
mod entries;
mod exports;
mod handles;
mod kept;
mod lists;
mod loose;
mod mount_handles;
mod mounts;
mod names;
mod planned;
mod planned_codes;
mod planned_handles;
mod planned_resumptions;
mod planned_said;
mod plans;
mod queries;
mod recoveries;
mod said;
mod shapes;
mod slots;
mod spare_handles;
mod spare_tables;
mod spares;
mod texts;
mod times;
