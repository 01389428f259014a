//! Prints the months in which two houses are open.
#![tactic(auto, using(enumset::specs::Sets::set_laws))]

mod months;
mod opening;

use enumset::enum_set;
use months::Month;
use opening::{both_open, with_month};
use std::io;

fn main(rt: HostRuntime) -> Result<(), io::Error> {
    let castle = enum_set!(Month::May | Month::June | Month::July);
    let tower = with_month(enum_set!(Month::June | Month::July), Month::August);
    let both = both_open(castle, tower);
    println!(rt; "{both:?}, {} months", both.len())
}
