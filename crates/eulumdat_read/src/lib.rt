//! EULUMDAT: the photometric file of a luminaire, read line by line into the table of all its half-planes.
#![tactic(auto)]

mod angles;
mod body;
mod fault;
mod flux;
mod head;
mod items;
pub mod laws;
mod line;
mod stored;
mod values;

pub use body::read_ldt;
pub use fault::LdtFault;

#[cfg(test)]
mod tests;
