//! The words of the report, of a header and of the refusals, causes and terms, and what each of them means; and what is wrong with a faulty
//! line, in a sentence.
#![tactic(auto)]

pub mod advice;
mod call_fields;
mod call_states;
mod call_sums;
mod call_terms;
mod clearing_causes;
mod data_states;
mod directions;
mod endings;
pub mod explanation;
mod finding_fields;
mod flow_codes;
mod header_words;
mod interface_states;
mod kinds;
mod lines;
pub mod lookup;
mod messages;
mod packet_codes;
mod packet_terms;
mod parameters;
mod refusals;
mod resetting_causes;
mod restarting_causes;
mod setting_fields;
mod settings;
mod statuses;
mod sum_fields;
pub mod table;
mod terms;
pub mod text;
mod time_outs;
