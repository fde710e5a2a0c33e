//! The tests of the base and of the layers from a trace text to its pieces and calls: line_model, trace_text,
//! packet_decode, restart_epochs, data_transfer, call_accounts; and of what tests use.
#![tactic(auto)]

#[cfg(test)]
mod accounts;
#[cfg(test)]
mod checks;
#[cfg(test)]
mod devices;
#[cfg(test)]
mod epochs;
#[cfg(test)]
mod packets;
#[cfg(test)]
mod sequences;
#[cfg(test)]
mod texts;
#[cfg(test)]
mod types;
#[cfg(test)]
mod windows;
