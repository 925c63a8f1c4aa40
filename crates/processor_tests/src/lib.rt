//! Cases of the processor, its arithmetic and instruction words, the memory map, the ports and the scans of bytes,
//! worked out by hand. The crate holds tests alone, so that the crates below it are proved once.
#![tactic(auto)]

#[cfg(test)]
mod arithmetic_and_words;
#[cfg(test)]
mod grom_ports;
#[cfg(test)]
mod lanes;
#[cfg(test)]
mod memory_map;
#[cfg(test)]
mod rows;
#[cfg(test)]
mod steps;
#[cfg(test)]
mod video_ports;
