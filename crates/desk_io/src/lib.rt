//! All that the program touches of the outside: an input, an output and one file. A desk stands for them.
//! Here are the trait of desks, three desks, and the calls that read and write whole texts over any desk. Those whose names end in
//! `_counted` say how many calls of the desk they make at most.
#![tactic(auto)]

mod calls;
mod counted;
mod desk;
mod honest;
mod memory;
mod real;
mod transfer;

pub use counted::{
    read_file_counted, read_input_counted, write_file_counted, write_output_counted,
};
pub use desk::{Desk, Failed, Kind};
pub use honest::HonestDesk;
pub use memory::{Fail, MemoryDesk};
pub use real::RealDesk;
pub use transfer::{ReadEnd, WriteFault, read_file, read_input, write_file, write_output};
