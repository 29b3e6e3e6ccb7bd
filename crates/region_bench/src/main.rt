//! Prints two walks of successors to where they rest. Then takes a region of six clocks through
//! many successors, and prints how many they were with a sum over the classes met: run it under a
//! clock to compare times.
#![tactic(auto)]

use region::{Region, Space};
use std::io;

/// How many successors are taken.
const COUNT: u32 = 20_000_000;

/// A region on its way, with the clock that is reset next, the most successors until then, and the
/// sum so far, which tells how many these are.
#[derive(Clone, Copy)]
struct Walk {
    region: Region,
    clock: u8,
    left: u8,
    sum: u32,
}

impl Walk {
    fn start() -> Walk {
        Walk {
            region: Region::start(),
            clock: 0,
            left: 0,
            sum: 0,
        }
    }

    // One more successor, after a reset if the region rests or enough were taken.
    fn step(self, space: Space) -> Walk {
        if self.left > 0 && !space.is_resting(&self.region) {
            return Walk {
                region: space.successor(&self.region),
                left: self.left - 1,
                ..self
            };
        }
        let region = self.region.reset(self.clock % 6);
        let sum = mixed(self.sum, self.region.clocks());
        Walk {
            region: space.successor(&region),
            clock: self.clock % 6 + 1,
            left: (sum >> 24) as u8,
            sum,
        }
    }
}

// The sum with six classes more.
fn mixed(sum: u32, clocks: [u8; 6]) -> u32 {
    clocks.iter().fold(sum, |sum, class| {
        sum.wrapping_mul(31).wrapping_add(u32::from(*class))
    })
}

// The sum over so many successors.
fn walked(space: Space, count: u32) -> u32 {
    let walk = (0..count).fold(Walk::start(), |walk, _| walk.step(space));
    mixed(walk.sum, walk.region.clocks())
}

// Prints the classes of the clocks that are counted.
fn print_classes(rt: HostRuntime, space: Space, region: Region) -> io::Result<()> {
    for class in (0..space.clocks()).filter_map(|clock| region.clock(clock)) {
        print!(rt; " {class}")?;
    }
    Ok(())
}

// Prints a region and its successors up to one that rests, and at most so many.
fn print_walk(rt: HostRuntime, space: Space, start: Region, most: u8) -> io::Result<()> {
    print!(rt; "constant {}:", space.constant())?;
    let mut region = start;
    for _ in 0..most {
        print_classes(rt, space, region)?;
        if space.is_resting(&region) {
            return println!(rt; ", resting");
        }
        print!(rt; ",")?;
        region = space.successor(&region);
    }
    println!(rt; " and on")
}

// The first of two clocks is at 0, the second between 0 and 1.
#[tactic(auto, unfolding(region::specs::Sizes::clocks_small, region::specs::Sizes::differences_small))]
fn second_ahead() -> Region {
    let differences = [-1, 0, 0, 0, 0, 0, 0, 0, 0, 0, 0, 0, 0, 0, 0];
    Region::from_classes([0, 1, 0, 0, 0, 0], differences).unwrap()
}

fn main(rt: HostRuntime) -> io::Result<()> {
    print_walk(rt, Space::new(2, 1).unwrap(), second_ahead(), 10)?;
    print_walk(rt, Space::new(1, 0).unwrap(), Region::start(), 10)?;
    let space = Space::new(6, 15).unwrap();
    println!(rt; "{COUNT} successors, sum {}", walked(space, COUNT))
}
