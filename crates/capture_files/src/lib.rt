//! The frames of capture files, pcap and pcapng, from a source that is read once.
#![tactic(auto)]

mod block;
pub mod capture;
pub mod entry;
pub mod interface;
pub mod laws;
mod numbers;
mod options;
pub mod packet_block;
pub mod pcap;
mod pcap_header;
pub mod pcap_reader;
mod pcap_search;
pub mod pcapng;
pub mod refusal;
pub mod window;
